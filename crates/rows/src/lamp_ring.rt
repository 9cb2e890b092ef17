ghost use Rattle.std.specs.Prelude.{◌≡◌, []};
ghost use Rattle.rows.specs.LampTrees.{LampKept};
ghost use Rattle.rows.specs.Props.{lamp_kept_prop};

use crate::lamp::Lamp;
use crate::tree::{Tree, wrap};
use terms::limits::{LAMP_DEPTH, LAMP_LENGTH};

// A constant beside the depth, since a const argument cannot be computed.
const LAMP_NODES: usize = 2 << LAMP_DEPTH;

// The newest answers, each a gap and a step, as a ring whose oldest stands at `head`.
#[derive(Drop)]
pub struct LampRing {
    tree: Tree<Lamp, LAMP_NODES>,
    head: usize,
    ghost kept: { LampKept head tree } by { lamp_kept_prop tree-code head tree },
}

impl LampRing {
    ghost use Rattle.rows.specs.LampRings.{answers, answered, LampShows};

    // A ring without answers.
    pub fn new() -> LampRing
        ensures { answers result ≡ [] }
    {
        LampRing {
            tree: Tree::new(),
            head: 0,
        }
    }

    // One answer more, brought into range; of more than fit the oldest goes. A gap and a step alone: the lamp knows no
    // start.
    pub fn add(&mut self, gap: u32, step: u32)
        ensures { answers self.new ≡ answered gap step (answers self.old) }
    {
        self.tree.put(self.head, Lamp::of_answer(gap, step));
        self.head = wrap(self.head + 1, LAMP_LENGTH);
    }

    // The least gap of the answers with its earliest step, or nothing where there is no answer.
    pub fn lamp(&self) -> Option<(u32, u32)>
        ensures { LampShows (answers self.now) result }
    {
        self.tree.ring_total(self.head).shown()
    }
}
