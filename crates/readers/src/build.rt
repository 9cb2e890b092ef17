ghost use Rattle.std.specs.Prelude.{◌≡◌, ℕ, ◌+◌, ◌<◌, ◌≤◌, length};
ghost use Rattle.terms.specs.Limits.{longest_phrase, longest_figure};
ghost use Rattle.readers.specs.Table.{most_places, nodes, Built, EachRunOnce, Uncoded};
ghost use Rattle.readers.specs.Props.{built_prop};

use crate::state::State;
use crate::table::Table;
use crate::tally::MOST_PLACES;

// The table of all runs of up to `len` sounds of a phrase, each once and yet without a code. `places` has for each
// place of the phrase the state of the longest of them that stands there; it is as long as the longest phrase asks,
// since the memory is fixed.
#[derive(Drop)]
pub(crate) struct Unnumbered<'a> {
    pub(crate) phrase: &'a [u32],
    pub(crate) len: usize,
    pub(crate) table: Table,
    pub(crate) places: [usize; MOST_PLACES],
    ghost long: { length places ≡ most_places },
    ghost fits: { length phrase.now ≤ longest_phrase },
    ghost inside: { len ≤ length phrase.now },
    ghost built: { Built phrase.now len 0 len (length table.states.items) (nodes table.states.items) places } by { built_prop phrase.now len 0 len (length table.states.items) (nodes table.states.items) places },
    ghost fresh: { Uncoded table.states.items },
}

impl<'a> Unnumbered<'a> {
    // All runs of up to `longest` sounds: with those of up to `len` sounds there, the run of one sound more at each
    // place is found or added.
    pub(crate) fn build(phrase: &'a [u32], longest: usize) -> Unnumbered<'a>
        requires phrase { length phrase.now ≤ longest_phrase }
        requires longest { longest ≤ length phrase.now }
        requires few { longest ≤ longest_figure }
        ensures phrase { result.phrase.now ≡ phrase.now }
        ensures len { result.len ≡ longest }
        ensures once { EachRunOnce phrase.now longest (length result.table.states.items) (nodes result.table.states.items) }
    {
        let mut table = Table::new();
        let mut places = [0; MOST_PLACES];
        for len in 0..longest {
            for (at, &sound) in phrase[len..].iter().enumerate() {
                // By place: a place is rewritten while the next one is still read.
                let from = places[at];
                places[at] = match table.find(from, sound) {
                    Some(state) => state,
                    None => table.add(State {
                        at,
                        len: len + 1,
                        sound,
                        parent: from,
                        shorter: places[at + 1],
                        ..State::default()
                    }),
                };
            }
        }
        Unnumbered {
            phrase,
            len: longest,
            table,
            places,
        }
    }
}
