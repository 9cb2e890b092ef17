ghost use Rattle.std.specs.Prelude.{◌≡◌, ℕ, ◌≤◌, [], None};
ghost use Rattle.terms.specs.Limits.{longest_figure, most_numbers};
ghost use Rattle.terms.specs.Refusals.{load_refusal};
ghost use Rattle.readers.specs.Memory.{Memory, held, Hears, Whole, counted, forgotten, held_or_nothing, whole_or_nothing};

use crate::judge::judge;
use crate::reader::Reader;
use terms::refusal::Refusal;

// What a reader does with a phrase that it holds. The clauses are those of a reader; no call has to ask whether there is
// a phrase. A reader may hold nothing, and a keeper cannot: one trait for both would lose that. The module is private,
// so that no one else makes a keeper.
pub trait Keeper: Sized + Drop {
    ghost memory: { Self → Memory };

    ghost reaches: { ℕ → ℕ };

    fn reach(c: u32) -> usize
        ensures { result ≡ reaches c };

    // Nothing is heard yet of a phrase that is not refused.
    fn new(phrase: &[u32], q: usize, c: u32) -> Self
        requires { load_refusal (reaches c) phrase.now q c ≡ None }
        ensures { memory result ≡ held phrase.now q [] };

    fn hear(&mut self, sound: u32) -> usize
        ensures { Hears (memory self.old) sound (memory self.new) result };

    fn count(&self, code: usize) -> usize
        ensures { result ≡ counted (memory self.now) code };

    fn forget(&mut self)
        ensures { memory self.new ≡ forgotten (memory self.old) };

    ghost whole: { (s : Self) → Whole (memory s) };

    ghost most: { (c : ℕ) → reaches c ≤ longest_figure };

    ghost some: { (c : ℕ) → 1 ≤ c → c ≤ most_numbers → 1 ≤ reaches c };

    ghost without: { reaches 0 ≡ 0 };
}

// The reader that holds a phrase or none.
#[derive(Drop)]
pub struct Holder<K> {
    kept: Option<K>,
}

impl<K: Keeper> Holder<K> {
    // Holds a phrase that is not refused. Apart from `load`: a refused load would pay for the room of what is held.
    fn hold(&mut self, phrase: &[u32], q: usize, c: u32)
        requires { load_refusal (K.Keeper.reaches c) phrase.now q c ≡ None }
        ensures { held_or_nothing K.Keeper.memory self.new.kept ≡ held phrase.now q [] }
    {
        self.kept = Some(K::new(phrase, q, c));
    }
}

impl<K: Keeper> Reader for Holder<K> {
    ghost memory = { λ s. held_or_nothing K.memory s.kept };

    ghost reaches = { K.reaches };

    ghost whole = { λ s. whole_or_nothing K.memory K.whole s.kept };

    ghost most = { K.most };

    ghost some = { K.some };

    ghost without = { K.without };

    fn new() -> Holder<K> {
        Holder { kept: None }
    }

    fn reach(c: u32) -> usize {
        K::reach(c)
    }

    fn load(&mut self, phrase: &[u32], q: usize, c: u32) -> Result<(), Refusal> {
        judge(phrase, q, c, K::reach(c))?;
        self.hold(phrase, q, c);
        Ok(())
    }

    #[tactic(auto, using(crate::specs::Memory::without_phrase_lem))]
    fn hear(&mut self, sound: u32) -> usize {
        // Not `as_mut().map_or`: what its closure writes is told in names of the prover's own, so the proof does not close.
        let Some(kept) = &mut self.kept else {
            return 0;
        };
        kept.hear(sound)
    }

    fn count(&self, code: usize) -> usize {
        self.kept.as_ref().map_or(0, |kept| kept.count(code))
    }

    fn forget(&mut self) {
        if let Some(kept) = &mut self.kept {
            kept.forget();
        }
    }
}
