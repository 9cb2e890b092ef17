ghost use Rattle.std.specs.Prelude.{◌≡◌, ℕ, ◌<◌, ◌≤◌, length, replicate, slice_index};
ghost use Rattle.terms.specs.Limits.{longest_phrase, most_numbers};
ghost use Rattle.readers.specs.Window.{Entered};

use terms::limits::MOST_NUMBERS;

// A table from numbers to codes: the numbers that were given one have 1, 2 and so on, any other has 0.
#[derive(Drop)]
pub(crate) struct Coder {
    pub(crate) codes: [usize; MOST_NUMBERS],
    given: usize,
    ghost long: { length codes ≡ most_numbers },
}

impl Coder {
    pub(crate) fn new() -> Coder
        ensures codes { result.codes ≡ replicate most_numbers 0 }
        ensures none { result.given ≡ 0 }
    {
        Coder {
            codes: [0; MOST_NUMBERS],
            given: 0,
        }
    }

    // The code of a number, 0 where it was given none.
    pub(crate) fn known(&self, number: usize) -> usize
        requires { number < most_numbers }
        ensures { result ≡ slice_index self.now.codes number }
    {
        self.codes[number]
    }

    // The code of a number: the next one, where it has none yet.
    pub(crate) fn code(&mut self, number: usize) -> usize
        requires inside { number < most_numbers }
        requires few { self.old.given ≤ longest_phrase }
        ensures entered { Entered number self.old.given self.old.codes self.new.codes self.new.given }
        ensures code { result ≡ slice_index self.new.codes number }
    {
        if self.codes[number] == 0 {
            self.given += 1;
            self.codes[number] = self.given;
        }
        self.codes[number]
    }
}
