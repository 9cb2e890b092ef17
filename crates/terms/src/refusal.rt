ghost use Rattle.std.specs.Prelude.{◌≡◌};
ghost use Rattle.terms.specs.Refusals.{tabled};

// Why an input is turned away, each with its number. A refused call alters nothing.
#[derive(Clone, Copy, Debug, PartialEq, Eq)]
pub enum Refusal {
    // The bytes are no step of the kind, or a note's value is out of range.
    UnknownStep = 10,
    // A load's phrase has no sound.
    EmptyPhrase = 11,
    // A load's phrase has too many sounds.
    LongPhrase = 12,
    // A load's q is 0, above the phrase's length or above the longest figure.
    FigureLength = 13,
    // A load's q is above the reader's reach.
    PastReach = 14,
    // A load's phrase has a sound number that the kind has not.
    UnknownSound = 15,
    // A row is started with no mark or with too many.
    RowWidth = 16,
    // A row has no mark of the age.
    MarkAge = 17,
    // The two lists of a run differ in length.
    UnevenLists = 21,
    // A step or a run into a slot without a phrase.
    EmptySlot = 22,
    // The take would grow too long.
    FullTake = 23,
    // The list is not as long as the take.
    OtherLength = 31,
    // The take has no best stretch.
    NoBest = 32,
    // The pattern is shorter than the stretch.
    ShortPattern = 33,
    // A field or a section of a sheet is not there whole.
    NotWhole = 41,
    // A sheet goes on after its take.
    BytesAfter = 42,
    // A sheet's kind letter is no kind's.
    UnknownKind = 43,
    // A sheet's take count is too large.
    LongTake = 44,
}

impl Refusal {
    pub fn number(self) -> u8
        ensures { result ≡ (tabled self).number }
    {
        self as u8
    }

    // The name of the layer that refuses.
    pub fn layer(self) -> &'static str
        ensures { result.now ≡ (tabled self).layer }
    {
        match self {
            Refusal::UnknownStep => "step",
            Refusal::EmptyPhrase
            | Refusal::LongPhrase
            | Refusal::FigureLength
            | Refusal::PastReach
            | Refusal::UnknownSound => "reader, load",
            Refusal::RowWidth | Refusal::MarkAge => "row",
            Refusal::UnevenLists | Refusal::EmptySlot | Refusal::FullTake => "slot",
            Refusal::OtherLength | Refusal::NoBest => "view, cut",
            Refusal::ShortPattern => "cut",
            Refusal::NotWhole | Refusal::BytesAfter | Refusal::UnknownKind | Refusal::LongTake =>
                "sheet",
        }
    }
}
