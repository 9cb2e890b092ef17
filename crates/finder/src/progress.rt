ghost use Rattle.std.specs.Prelude.{◌≡◌, ◌≤◌, true};
ghost use Rattle.terms.specs.Limits.{longest_take};
ghost use Rattle.finder.specs.Inside.{within};

use crate::recent::Recent;
use rows::lamp_ring::LampRing;
use terms::answer::BestStretch;

// What a slot keeps of its take beside the row's marks.
#[derive(Drop)]
pub(crate) struct Progress<S> {
    pub(crate) recent: Recent,
    pub(crate) count: u32,
    pub(crate) last: Option<S>,
    pub(crate) best: Option<BestStretch>,
    pub(crate) lamp: LampRing,
    // The take is not too long, and the best stretch lies in it.
    ghost few: { count ≤ longest_take },
    ghost lies: { within best count ≡ true },
}
