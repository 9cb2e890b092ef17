ghost use Rattle.std.specs.Prelude.{◌≡◌, ◌+◌, ◌-◌, ◌*◌, ◌≤◌};
ghost use Rattle.terms.specs.Limits.{longest_phrase, longest_figure};

use crate::progress::Progress;

// The length of a phrase and of its figures.
#[derive(Clone, Copy)]
pub(crate) struct Lengths {
    pub(crate) phrase: usize,
    pub(crate) figure: usize,
    ghost some: { 1 ≤ figure },
    ghost figured: { figure ≤ phrase },
    ghost small: { figure ≤ longest_figure },
    ghost short: { phrase ≤ longest_phrase },
}

impl Lengths {
    // How many figures the phrase has.
    pub(crate) fn figures(self) -> usize
        ensures { result ≡ self.phrase - self.figure + 1 }
    {
        self.phrase - self.figure + 1
    }

    // How many marks the row has: twice the figures of the phrase.
    pub(crate) fn width(self) -> usize
        ensures { result ≡ 2 * (self.phrase - self.figure + 1) }
    {
        2 * self.figures()
    }
}

// One reader and one row of any make, for one kind of step. It does not keep the take, only how many steps it has.
// Its methods have the calls of both takes: the two lend their calls to these. Their clauses are given sound, memory and
// marks one by one, since a definition in specs/ names a slot of any three types.
#[derive(Drop)]
pub(crate) struct Slot<S, R, M> {
    pub(crate) reader: R,
    pub(crate) row: M,
    // None in an empty slot.
    pub(crate) lengths: Option<Lengths>,
    pub(crate) progress: Progress<S>,
}
