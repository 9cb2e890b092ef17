// The walk back over the starts of a take: each step adds one older figure to the stretch.
ghost use Rattle.std.specs.Prelude.{◌≡◌, ◌≤◌, length};
ghost use Rattle.direct.specs.Walks.{NearestFrom, nearer};

use crate::gaps::{gap_of, older};
use crate::phrase::Phrase;

// The least gap so far, and the number of steps before the stretch that has it; of equal gaps the earlier start is less.
#[derive(Clone, Copy, Debug, PartialEq, Eq, PartialOrd, Ord)]
pub(crate) struct Nearest {
    pub gap: usize,
    pub from: usize,
}

impl Nearest {
    // The lesser of this one and an earlier start.
    fn or_earlier(self, earlier: Nearest) -> Nearest
        ensures { result ≡ nearer self earlier }
    {
        self.min(earlier)
    }
}

impl Phrase<'_> {
    // Walks from the empty stretch at the end of the take back to the stretch that begins after `low` steps.
    pub(crate) fn nearest(&self, take: &[u32], low: usize) -> Nearest
        requires { low ≤ length take.now }
        ensures { NearestFrom self.now.q self.now.sounds.now take.now low result }
    {
        let mut gap = gap_of(self.sounds, &[], self.q);
        let mut nearest = Nearest {
            gap,
            from: take.len(),
        };
        // By number, as in `gaps`.
        for from in (low..take.len()).rev() {
            gap = older(self.sounds, &take[from..], self.q, gap);
            nearest = nearest.or_earlier(Nearest { gap, from });
        }
        nearest
    }
}
