ghost use Rattle.std.specs.Prelude.{◌≡◌, ◌<◌, length};
ghost use Rattle.readers.specs.States.{Keeps, states_reach_lem};
ghost use Rattle.readers.specs.Props.{keeps_prop};
ghost use Rattle.std.proofs.Common.{rules};

use crate::build::Unnumbered;
use crate::holder::{Holder, Keeper};
use crate::table::Table;
use crate::tally::Tally;
use arrayvec::ArrayVec;
use terms::limits::{LONGEST_FIGURE, LONGEST_PHRASE};

// A reader with one state for each different run of 0 to q sounds of its phrase.
pub type StatesReader = Holder<Walker>;

// A phrase, one state for each different run of 0 to q sounds of it, how often the figure of each code stands in it,
// and the state of the remembered end.
#[derive(Drop)]
pub struct Walker {
    sounds: ArrayVec<u32, LONGEST_PHRASE>,
    q: usize,
    table: Table,
    counts: Tally,
    here: usize,
    ghost kept: { Keeps sounds.items q here table.states.items counts.counts } by { keeps_prop sounds.items q here table.states.items counts.counts },
}

impl Walker {
    ghost use Rattle.readers.specs.Walking.{Follows};

    // The state of the longest end of the remembered one followed by a sound. A turn that goes on makes the end one
    // sound shorter, and a sound makes it at most one longer: so a call has two turns or fewer on average. The turns go
    // by hand: `successors` can walk the places, but the library does not prove that it ends.
    fn follow(&self, sound: u32) -> usize
        ensures inside { result < length self.now.table.states.items }
        ensures longest { Follows self.now sound result }
    {
        let mut at = self.here;
        loop {
            if let Some(child) = self.table.find(at, sound) {
                return child;
            }
            if at == 0 {
                return 0;
            }
            at = self.table.states[at].shorter;
        }
    }
}

impl Keeper for Walker {
    ghost use Rattle.readers.specs.Walking.{walker_memory, walker_whole};

    ghost memory = { walker_memory };

    ghost reaches = { states_reach_lem };

    ghost whole = { walker_whole };

    ghost most = { Prim.search rules };

    ghost some = { Prim.search rules };

    ghost without = { Prim.search rules };

    fn reach(c: u32) -> usize {
        if c == 0 { 0 } else { LONGEST_FIGURE }
    }

    fn new(phrase: &[u32], q: usize, _c: u32) -> Walker {
        let coded = Unnumbered::build(phrase, q).number();
        Walker {
            sounds: ArrayVec::try_from(phrase).unwrap(),
            q,
            table: coded.0,
            counts: coded.1,
            here: 0,
        }
    }

    fn hear(&mut self, sound: u32) -> usize {
        let state = self.follow(sound);
        self.here = state;
        self.table.code(state)
    }

    fn count(&self, code: usize) -> usize {
        self.counts.of(code)
    }

    fn forget(&mut self) {
        self.here = 0;
    }
}
