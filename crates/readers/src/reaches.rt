// How far each reader reaches, in numbers. The generic function is the trait's `reach`; these say in plain words what
// each reader's `reaches` is.
ghost use Rattle.std.specs.Prelude.{◌≡◌, ℕ, ◌<◌, [], ◌∷◌};
ghost use Rattle.terms.specs.Limits.{longest_figure};
ghost use Rattle.readers.specs.Window.{Largest};

use crate::reader::Reader;
use crate::sliding::SlidingReader;
use crate::states::StatesReader;

// The largest q up to the longest figure whose figures, as numbers in base `c`, fit the sliding reader's table.
#[tactic(auto, using(crate::specs::Widest::reach_largest))]
pub fn sliding_reach(c: u32) -> usize
    ensures { Largest c result }
{
    SlidingReader::reach(c)
}

// That is for lanes, notes and masks, for one sound and for none.
#[tactic(auto, unfolding(crate::specs::Window::widest))]
pub fn sliding_reaches() -> [usize; 5]
    ensures { result ≡ 6 ∷ 2 ∷ 0 ∷ longest_figure ∷ 0 ∷ [] }
{
    [4, 47, 65_536, 1, 0].map(SlidingReader::reach)
}

// The states reader takes every figure, wherever there is a sound.
pub fn states_reach(c: u32) -> usize
    ensures some { 0 < c → result ≡ longest_figure }
    ensures none { c ≡ 0 → result ≡ 0 }
{
    StatesReader::reach(c)
}
