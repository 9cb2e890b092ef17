// The gap between two rows, one figure of the second after another.
ghost use Rattle.std.specs.Prelude.{◌≡◌, ◌≤◌, length, drop};
ghost use Rattle.terms.specs.Figures.{gap as gap_between};

use crate::counts::times;

// The gap to a row, from that to the row without its first sound. The first figure brings the gap one nearer while it
// stands less often among the later ones than in x, and else one farther.
pub(crate) fn older(x: &[u32], y: &[u32], q: usize, newer: usize) -> usize
    requires { (1 ≤ length y.now) × (newer ≡ gap_between q x.now (drop 1 y.now)) }
    ensures { result ≡ gap_between q x.now y.now }
{
    let Some(figure) = y.get(..q) else {
        return newer;
    };
    if times(&y[1..], figure) < times(x, figure) {
        newer - 1
    } else {
        newer + 1
    }
}

// The gap between two rows, at figures of q sounds: that to an empty row is the number of the figures of x.
pub fn gap_of(x: &[u32], y: &[u32], q: usize) -> usize
    ensures { result ≡ gap_between q x.now y.now }
{
    let mut gap = x.len().saturating_sub(q.saturating_sub(1));
    // By number: a row grows at its front, and no iterator gives the ends of a slice. So it goes in `back` too.
    for i in (0..y.len()).rev() {
        gap = older(x, &y[i..], q, gap);
    }
    gap
}
