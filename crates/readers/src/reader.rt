ghost use Rattle.std.specs.Prelude.{◌≡◌, ℕ, ◌≤◌};
ghost use Rattle.terms.specs.Limits.{longest_figure, most_numbers};
ghost use Rattle.readers.specs.Memory.{Memory, nothing, LoadTold, Hears, Whole, counted, forgotten};

use terms::refusal::Refusal;

// A figure reader: it holds a phrase and a figure length, and remembers the longest end of what it heard
// that is a run of the phrase.
pub trait Reader: Sized + Drop {
    // What the reader means.
    ghost memory: { Self → Memory };

    // The longest figures that the reader takes, at a count of sounds.
    ghost reaches: { ℕ → ℕ };

    // A reader that holds no phrase.
    fn new() -> Self
        ensures { memory result ≡ nothing };

    fn reach(c: u32) -> usize
        ensures { result ≡ reaches c };

    // Takes a phrase as sound numbers, the figure length and the count of sounds. A struct of the three would stand for
    // what is not judged yet, and each call would take it apart.
    fn load(&mut self, phrase: &[u32], q: usize, c: u32) -> Result<(), Refusal>
        ensures { LoadTold memory (reaches c) self.old phrase.now q c result self.new };

    // Hears a sound, and answers the code of the remembered end where that is q long, else 0: 0 is the code of no
    // figure, for every reader.
    fn hear(&mut self, sound: u32) -> usize
        ensures { Hears (memory self.old) sound (memory self.new) result };

    // How often the figure of a code stands in the phrase.
    fn count(&self, code: usize) -> usize
        ensures { result ≡ counted (memory self.now) code };

    // Empties the remembered end.
    fn forget(&mut self)
        ensures { memory self.new ≡ forgotten (memory self.old) };

    // The remembered end is a run of the phrase, at most q long.
    ghost whole: { (s : Self) → Whole (memory s) };

    ghost most: { (c : ℕ) → reaches c ≤ longest_figure };

    ghost some: { (c : ℕ) → 1 ≤ c → c ≤ most_numbers → 1 ≤ reaches c };

    ghost without: { reaches 0 ≡ 0 };
}
