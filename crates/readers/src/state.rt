ghost use Rattle.std.specs.Prelude.{◌≡◌};
ghost use Rattle.readers.specs.Table.{with_child};

use std::mem::replace;

// A run of the phrase. The state 0 is the empty run; as a child or a next one, 0 says that there is none: an Option for
// each would take twice the room, and the empty run is no state's child.
#[derive(Clone, Copy, Default)]
pub(crate) struct State {
    // Where the run stands in the phrase, and how many sounds it has.
    pub(crate) at: usize,
    pub(crate) len: usize,
    // Its last sound.
    pub(crate) sound: u32,
    // Its code where it is a figure, else 0.
    pub(crate) code: usize,
    // The run without its last sound, and the run without its first.
    pub(crate) parent: usize,
    pub(crate) shorter: usize,
    // Of the runs that are this one and a sound more, the newest; and the next older one of the same parent.
    pub(crate) child: usize,
    pub(crate) next: usize,
}

// Lent one state, puts the state `child` first among a state's children, and answers the one that was first before.
pub(crate) fn link(parent: &mut State, child: usize) -> usize
    ensures older { result ≡ parent.old.child }
    ensures linked { parent.new ≡ with_child parent.old child }
{
    replace(&mut parent.child, child)
}
