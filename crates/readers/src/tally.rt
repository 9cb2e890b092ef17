ghost use Rattle.std.specs.Prelude.{◌≡◌, ℕ, ◌+◌, ◌<◌, ◌≤◌, length, replicate, slice_index, slice_set};
ghost use Rattle.terms.specs.Limits.{longest_phrase};
ghost use Rattle.readers.specs.Table.{most_places};

use terms::limits::LONGEST_PHRASE;

// A place for each sound of the longest phrase and one more: for its end, or for the code 0 that no figure has.
pub(crate) const MOST_PLACES: usize = LONGEST_PHRASE + 1;

// How often the figure of each code was counted.
#[derive(Drop)]
pub(crate) struct Tally {
    pub(crate) counts: [usize; MOST_PLACES],
    ghost long: { length counts ≡ most_places },
}

impl Tally {
    pub(crate) fn new() -> Tally
        ensures { result.counts ≡ replicate most_places 0 }
    {
        Tally {
            counts: [0; MOST_PLACES],
        }
    }

    // Counts one more figure of a code.
    pub(crate) fn add(&mut self, code: usize)
        requires inside { code < most_places }
        requires few { slice_index self.old.counts code ≤ longest_phrase }
        ensures { self.new.counts ≡ slice_set self.old.counts code (slice_index self.old.counts code + 1) }
    {
        self.counts[code] += 1;
    }

    // What was counted for a code: nothing for a number past the last.
    pub(crate) fn of(&self, code: usize) -> usize
        ensures { result ≡ slice_index self.now.counts code }
    {
        self.counts.get(code).copied().unwrap_or(0)
    }
}
