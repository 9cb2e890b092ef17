// Every limit, once. specs/Limits.antt has the same numbers for the contracts, and `all_limits` ties the two.
ghost use Rattle.std.specs.Prelude.{◌≡◌, ◌*◌, ◌^◌};
ghost use Rattle.terms.specs.Limits.{all_limits_lem, depth_of_row, widest_row, depth_of_lamp, lamp_length, longest_phrase, longest_figure, most_states, most_numbers, longest_take, longest_listed, widest_step, bytes_of_fields, longest_sheet};

// The most sounds of a phrase.
pub const LONGEST_PHRASE: usize = 64;

// The most sounds of a figure.
pub const LONGEST_FIGURE: usize = 8;

// The most marks of a row, and the depth of a tree with so many leaves.
pub const WIDEST_ROW: usize = 2 * LONGEST_PHRASE;

pub const ROW_DEPTH: usize = 7;

// The different runs of up to the longest figure in the longest phrase: the empty one, and of each length one to a place.
pub const MOST_STATES: usize = 1 + LONGEST_FIGURE * LONGEST_PHRASE
    - LONGEST_FIGURE * (LONGEST_FIGURE - 1) / 2;

// The numbers that a sliding reader has in its table.
pub const MOST_NUMBERS: usize = 4_096;

// The answers that the lamp looks back on, and the depth of a tree with so many leaves.
pub const LAMP_LENGTH: usize = 32;

pub const LAMP_DEPTH: usize = 5;

// The most steps of a take, and of a take in a sheet.
pub const LONGEST_TAKE: u32 = 1_000_000;

pub const LONGEST_LISTED: usize = 16_384;

// The most bytes of a step in a sheet, the bytes of a sheet's fields, and the most bytes of a sheet.
pub const WIDEST_STEP: usize = 3;

pub const FIELD_BYTES: usize = 8;

pub const LONGEST_SHEET: usize = FIELD_BYTES + WIDEST_STEP * (LONGEST_PHRASE + LONGEST_LISTED);

// All limits as values.
#[derive(Clone, Copy, Debug, PartialEq, Eq)]
pub struct Limits {
    pub phrase: usize,
    pub figure: usize,
    pub row: usize,
    pub row_depth: usize,
    pub states: usize,
    pub numbers: usize,
    pub lamp: usize,
    pub lamp_depth: usize,
    pub played: u32,
    pub listed: usize,
    pub step_bytes: usize,
    pub field_bytes: usize,
    pub sheet_bytes: usize,
}

// The limits that this build has: those of specs/Limits.antt, and each constant is pinned to its number there.
pub fn all_limits() -> Limits
    ensures same { result ≡ all_limits_lem }
    ensures phrase { (LONGEST_PHRASE ≡ longest_phrase) × (LONGEST_FIGURE ≡ longest_figure) }
    ensures readers { (MOST_STATES ≡ most_states) × (MOST_NUMBERS ≡ most_numbers) }
    ensures row { (WIDEST_ROW ≡ widest_row) × (ROW_DEPTH ≡ depth_of_row) }
    ensures lamp { (LAMP_LENGTH ≡ lamp_length) × (LAMP_DEPTH ≡ depth_of_lamp) }
    ensures takes { (LONGEST_TAKE ≡ longest_take) × (LONGEST_LISTED ≡ longest_listed) }
    ensures fields { (WIDEST_STEP ≡ widest_step) × (FIELD_BYTES ≡ bytes_of_fields) }
    ensures sheet { LONGEST_SHEET ≡ longest_sheet }
    ensures row_tree { 2 ^ depth_of_row ≡ widest_row }
    ensures lamp_tree { 2 ^ depth_of_lamp ≡ lamp_length }
{
    Limits {
        phrase: LONGEST_PHRASE,
        figure: LONGEST_FIGURE,
        row: WIDEST_ROW,
        row_depth: ROW_DEPTH,
        states: MOST_STATES,
        numbers: MOST_NUMBERS,
        lamp: LAMP_LENGTH,
        lamp_depth: LAMP_DEPTH,
        played: LONGEST_TAKE,
        listed: LONGEST_LISTED,
        step_bytes: WIDEST_STEP,
        field_bytes: FIELD_BYTES,
        sheet_bytes: LONGEST_SHEET,
    }
}
