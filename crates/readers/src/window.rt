ghost use Rattle.std.specs.Prelude.{◌≡◌, ℕ, ◌^◌, ◌<◌, ◌≤◌, []};
ghost use Rattle.readers.specs.Window.{slid, Filled};

use crate::scale::Scale;

// The last sounds, at most `width` of them, as one number; `heard` says how many are there yet,
// since a number does not show its leading zeros.
#[derive(Clone, Copy)]
pub(crate) struct Window {
    pub(crate) scale: Scale,
    number: usize,
    heard: usize,
    ghost full: { heard ≤ scale.width },
    ghost below: { number < scale.base ^ heard },
}

impl Window {
    ghost use Rattle.readers.specs.Sliding.{shown};

    // The empty window.
    #[tactic(auto, unfolding(crate::specs::Window::digits))]
    pub(crate) fn new(scale: Scale) -> Window
        ensures scale { result.scale ≡ scale }
        ensures empty { shown result ≡ [] }
    {
        Window {
            scale,
            number: 0,
            heard: 0,
        }
    }

    // Empties the window. The scale stays where it is: a new window would move it too.
    #[tactic(auto, unfolding(crate::specs::Window::digits))]
    pub(crate) fn clear(&mut self)
        ensures scale { self.new.scale ≡ self.old.scale }
        ensures empty { shown self.new ≡ [] }
    {
        self.number = 0;
        self.heard = 0;
    }

    // Adds a sound, drops the oldest where there are too many, and answers the number of a full window. A sound that is
    // no digit empties the window.
    pub(crate) fn slide(&mut self, sound: u32) -> Option<usize>
        ensures scale { self.new.scale ≡ self.old.scale }
        ensures slid { shown self.new ≡ slid self.old.scale.base self.old.scale.width (shown self.old) sound }
        ensures filled { Filled self.new.scale.base self.new.scale.width (shown self.new) result }
    {
        let digit = sound as usize;
        if digit >= self.scale.base {
            self.clear();
            return None;
        }
        self.number = self.number % self.scale.power * self.scale.base + digit;
        self.heard = (self.heard + 1).min(self.scale.width);
        (self.heard == self.scale.width).then_some(self.number)
    }
}
