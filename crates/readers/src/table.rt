ghost use Rattle.std.specs.Prelude.{◌≡◌, ◌<◌, [], ◌∷◌, length, slice_index_or};
ghost use Rattle.terms.specs.Limits.{most_states};
ghost use Rattle.readers.specs.Table.{Tree, nodes, Found, blank, grown, newest_child};
ghost use Rattle.readers.specs.Props.{tree_prop};

use crate::state::{State, link};
use arrayvec::ArrayVec;
use terms::limits::MOST_STATES;

// The states. They refer to one another by their places, since the memory is fixed. A place is a plain number: which
// table it fits is no fact of its type, so each call asks for it.
#[derive(Drop)]
pub(crate) struct Table {
    pub(crate) states: ArrayVec<State, MOST_STATES>,
    ghost tree: { Tree (length states.items) (nodes states.items) } by { tree_prop (length states.items) (nodes states.items) },
}

impl Table {
    // The table of the empty run alone.
    pub(crate) fn new() -> Table
        ensures { result.states.items ≡ blank ∷ [] }
    {
        let mut states = ArrayVec::new();
        states.push(State::default());
        Table { states }
    }

    // The child of a state by a sound.
    pub(crate) fn find(&self, from: usize, sound: u32) -> Option<usize>
        requires { from < length self.now.states.items }
        ensures { Found (length self.now.states.items) (nodes self.now.states.items) from sound result }
    {
        let states = self.states.as_slice();
        let mut at = states[from].child;
        // By hand: `successors` can walk the places, but the library does not prove that it ends.
        while at != 0 {
            let state = states[at];
            if state.sound == sound {
                return Some(at);
            }
            at = state.next;
        }
        None
    }

    // One state more, the newest child of its parent; its `child` and `next` are set here.
    pub(crate) fn add(&mut self, state: State) -> usize
        requires inside { state.parent < length self.old.states.items }
        requires room { length self.old.states.items < most_states }
        ensures place { result ≡ length self.old.states.items }
        ensures states { self.new.states.items ≡ grown self.old.states.items state.parent
            (newest_child state (slice_index_or self.old.states.items state.parent blank).child) }
    {
        let place = self.states.len();
        let next = link(&mut self.states[state.parent], place);
        self.states.push(State {
            child: 0,
            next,
            ..state
        });
        place
    }

    // The code of a state.
    pub(crate) fn code(&self, state: usize) -> usize
        requires { state < length self.now.states.items }
        ensures { result ≡ (slice_index_or self.now.states.items state blank).code }
    {
        self.states[state].code
    }
}
