ghost use Rattle.std.specs.Prelude.{◌≡◌, ◌<◌, ◌≤◌};
ghost use Rattle.terms.specs.Limits.{longest_phrase};
ghost use Rattle.readers.specs.Memory.{counted};
ghost use Rattle.finder.specs.Recent.{before, laid, emptied, wrap, age_at};
ghost use Rattle.finder.specs.Turns.{Noted};

use crate::turning::Heard;
use readers::reader::Reader;
use terms::limits::LONGEST_PHRASE;

// Where the ring of a code begins among the steps, and which of its places is written next.
#[derive(Clone, Copy)]
pub(crate) struct Ring {
    pub(crate) first: usize,
    pub(crate) next: usize,
}

// For each code the numbers of the last steps at which it was heard, as many as its figure stands in the phrase, as a
// ring. The rings lie one after another among the steps, in the order of the codes, which begin at 1: one list for all,
// since the memory is fixed and together they are no longer than the phrase.
// Steps count from 1, and 0 is none: an Option for each would take twice the room and say no more.
#[derive(Drop)]
pub(crate) struct Recent {
    pub(crate) steps: [u32; LONGEST_PHRASE],
    pub(crate) rings: [Ring; LONGEST_PHRASE],
}

impl Recent {
    // Rings without steps, for the codes of the phrase that a reader holds.
    pub(crate) fn for_codes<R: Reader>(reader: &R) -> Recent
        ensures { before (counted (R.Reader.memory reader.now)) longest_phrase ≤ longest_phrase
            → result ≡ laid (counted (R.Reader.memory reader.now)) }
    {
        let mut rings = [Ring { first: 0, next: 0 }; LONGEST_PHRASE];
        let mut first = 0_usize;
        for (i, ring) in rings.iter_mut().enumerate() {
            *ring = Ring { first, next: 0 };
            first = first.saturating_add(reader.count(i + 1));
        }
        Recent {
            steps: [0; LONGEST_PHRASE],
            rings,
        }
    }

    // Forgets all steps, and keeps where each ring begins.
    pub(crate) fn clear(&mut self)
        ensures { self.new ≡ emptied self.old }
    {
        self.steps = [0; LONGEST_PHRASE];
        for ring in self.rings.iter_mut() {
            *ring = Ring {
                first: ring.first,
                next: 0,
            };
        }
    }

    // Notes a step with the code heard, and answers the age of the step that gives way to it, where there is one.
    pub(crate) fn note(&mut self, step: u32, heard: Heard) -> Option<usize>
        ensures { Noted self.old step heard.code heard.wanted result self.new }
    {
        let i = heard.code.checked_sub(1)?;
        let ring = *self.rings.get(i)?;
        let p = wrapped(ring.next, heard.wanted);
        let place = ring.first.saturating_add(p);
        let old = *self.steps.get(place)?;
        self.steps[place] = step;
        self.rings[i].next = p + 1;
        age_of(step, old)
    }
}

// The place to write at in a ring of n places: total, since a ring has no invariant, and so not rows' `wrap`.
fn wrapped(at: usize, n: usize) -> usize
    ensures { result ≡ wrap at n }
{
    if at < n { at } else { 0 }
}

// The age of the step `old`, where there is one.
fn age_of(step: u32, old: u32) -> Option<usize>
    ensures { result ≡ age_at step old }
{
    if old == 0 {
        return None;
    }
    step.checked_sub(old).map(|age| age as usize)
}
