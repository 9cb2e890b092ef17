ghost use Rattle.std.specs.Prelude.{◌≡◌, ℕ, ◌^◌, ◌≤◌, true, [], length, nat_le};
ghost use Rattle.terms.specs.Limits.{longest_phrase, longest_figure, most_numbers};
ghost use Rattle.terms.specs.Refusals.{all_below_lem};
ghost use Rattle.readers.specs.Window.{sliding_reach_lem};
ghost use Rattle.readers.specs.Slides.{Slides, slides_prop};
ghost use Rattle.readers.specs.Memory.{held};
ghost use Rattle.readers.specs.Widest.{reach_most, reach_some};
ghost use Rattle.std.proofs.Common.{rules};

use crate::coder::Coder;
use crate::holder::{Holder, Keeper};
use crate::scale::Scale;
use crate::tally::Tally;
use crate::window::Window;
use arrayvec::ArrayVec;
use terms::limits::{LONGEST_FIGURE, LONGEST_PHRASE, MOST_NUMBERS};

// A reader that keeps the last sounds as one number, and a table from numbers to codes.
pub type SlidingReader = Holder<Slider>;

// A phrase, the code of each number of its figures, and the window of what was heard.
#[derive(Drop)]
pub struct Slider {
    phrase: ArrayVec<u32, LONGEST_PHRASE>,
    window: Window,
    codes: Coder,
    counts: Tally,
    ghost kept: { Slides phrase.items window.scale codes counts } by { slides_prop phrase.items window.scale codes counts },
}

// Whether the numbers of `width` digits in base `c` fit the table.
fn fits(c: u32, width: usize) -> bool
    requires { width ≤ longest_figure }
    ensures { result ≡ nat_le (c ^ width) most_numbers }
{
    (c as usize)
        .checked_pow(width as u32)
        .is_some_and(|power| power <= MOST_NUMBERS)
}

// The longest figures whose numbers in base `c` fit the table.
fn widest_figure(c: u32) -> usize
    ensures { result ≡ sliding_reach_lem c }
{
    if c == 0 {
        return 0;
    }
    (0..LONGEST_FIGURE)
        .find(|&width| !fits(c, width + 1))
        .unwrap_or(LONGEST_FIGURE)
}

impl Slider {
    ghost use Rattle.readers.specs.Sliding.{slider_memory};

    // Nothing is heard yet.
    fn read(phrase: &[u32], scale: Scale) -> Slider
        requires phrase { length phrase.now ≤ longest_phrase }
        requires below { all_below_lem scale.base phrase.now ≡ true }
        ensures { slider_memory result ≡ held phrase.now scale.width [] }
    {
        let mut window = Window::new(scale);
        let mut codes = Coder::new();
        let mut counts = Tally::new();
        for &sound in phrase {
            if let Some(number) = window.slide(sound) {
                counts.add(codes.code(number));
            }
        }
        Slider {
            phrase: ArrayVec::try_from(phrase).unwrap(),
            window: Window::new(scale),
            codes,
            counts,
        }
    }
}

impl Keeper for Slider {
    ghost use Rattle.readers.specs.Sliding.{slider_memory, slider_whole};

    ghost memory = { slider_memory };

    ghost reaches = { sliding_reach_lem };

    ghost whole = { slider_whole };

    ghost most = { reach_most };

    ghost some = { reach_some };

    ghost without = { Prim.search rules };

    fn reach(c: u32) -> usize {
        widest_figure(c)
    }

    #[tactic(auto, using(crate::proofs::Accepted::accepted, crate::specs::Widest::reached))]
    fn new(phrase: &[u32], q: usize, c: u32) -> Slider {
        Slider::read(phrase, Scale::new(c as usize, q))
    }

    fn hear(&mut self, sound: u32) -> usize {
        self.window
            .slide(sound)
            .map_or(0, |number| self.codes.known(number))
    }

    fn count(&self, code: usize) -> usize {
        self.counts.of(code)
    }

    #[tactic(auto, using(crate::proofs::Windows::memory_empty))]
    fn forget(&mut self) {
        self.window.clear();
    }
}
