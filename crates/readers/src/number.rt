ghost use Rattle.std.specs.Prelude.{◌≡◌, ℕ, ◌+◌, ◌<◌, ◌≤◌, length, slice_index_or, slice_set};
ghost use Rattle.terms.specs.Limits.{longest_phrase};
ghost use Rattle.readers.specs.Table.{blank, nodes, with_code, CodeGiven};
ghost use Rattle.readers.specs.States.{Keeps};

use crate::build::Unnumbered;
use crate::table::Table;
use crate::tally::Tally;

impl Table {
    #[tactic(auto, using(crate::proofs::Naming::coded_tree))]
    fn set_code(&mut self, state: usize, code: usize)
        requires { state < length self.old.states.items }
        ensures { self.new.states.items
            ≡ slice_set self.old.states.items state (with_code (slice_index_or self.old.states.items state blank) code) }
    {
        self.states[state].code = code;
    }

    // Gives a state the next code, unless it has one, and answers how many codes there are then. The counter goes in
    // and out: written into the loop below, it asks three answers more of the proof.
    fn give_code(&mut self, state: usize, codes: usize) -> usize
        requires inside { state < length self.old.states.items }
        requires few { codes ≤ longest_phrase }
        ensures { CodeGiven state codes self.old.states.items self.new.states.items result }
    {
        if self.code(state) != 0 {
            return codes;
        }
        self.set_code(state, codes + 1);
        codes + 1
    }
}

impl Unnumbered<'_> {
    // The table with a code for each state of `len` sounds, and for each code how often its figure stands in the
    // phrase.
    pub(crate) fn number(self) -> (Table, Tally)
        requires { 1 ≤ self.len }
        ensures keeps { Keeps self.entry.phrase.now self.entry.len 0 result.0.states.items result.1.counts }
        ensures count { length result.0.states.items ≡ length self.entry.table.states.items }
        ensures same { nodes result.0.states.items ≡ nodes self.entry.table.states.items }
    {
        let Unnumbered {
            phrase,
            len,
            mut table,
            places,
        } = self;
        let mut counts = Tally::new();
        let mut codes = 0;
        for &state in &places[..phrase.len() + 1 - len] {
            codes = table.give_code(state, codes);
            counts.add(table.code(state));
        }
        (table, counts)
    }
}
