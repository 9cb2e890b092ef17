ghost use Rattle.std.specs.Prelude.{◌≡◌, ◌+◌, ◌≤◌, length, slice_get};
ghost use Rattle.terms.specs.Limits.{longest_listed};
ghost use Rattle.listing.specs.Listed.{lines_of};

use crate::line::Line;
use arrayvec::ArrayVec;
use terms::answer::Answer;
use terms::limits::LONGEST_LISTED;

// The answers that are listed.
pub(crate) type Answers = ArrayVec<Answer, LONGEST_LISTED>;

// What is listed for an input: a line for each answer, and a last one. It lies in fixed memory, so that making one
// cannot fail.
#[derive(Debug, PartialEq, Eq, Drop)]
pub struct Listing {
    pub(crate) answers: Answers,
    pub(crate) last: Line,
}

impl Listing {
    // How many lines there are.
    pub fn line_count(&self) -> usize
        ensures count { result ≡ length (lines_of self.now) }
        ensures few { result ≤ longest_listed + 1 }
    {
        self.answers.len() + 1
    }

    // The line at a place, counted from 0.
    pub fn line(&self, k: usize) -> Option<Line>
        ensures { result ≡ slice_get (lines_of self.now) k }
    {
        if k == self.answers.len() {
            return Some(self.last);
        }
        self.answers.get(k).copied().map(Line::Step)
    }
}
