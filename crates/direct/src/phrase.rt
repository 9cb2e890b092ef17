// A phrase and the length of its figures.
ghost use Rattle.std.specs.Prelude.{◌≡◌, ◌≤◌, length, IfOk};
ghost use Rattle.std.specs.Result.{result_err};
ghost use Rattle.terms.specs.Limits.{longest_phrase};
ghost use Rattle.terms.specs.Refusals.{first_of, phrase_lines, verdict};

use terms::limits::{LONGEST_FIGURE, LONGEST_PHRASE};
use terms::refusal::Refusal;

// A phrase that no line turns away.
#[derive(Clone, Copy)]
pub(crate) struct Phrase<'a> {
    pub(crate) sounds: &'a [u32],
    pub(crate) q: usize,
    ghost from_one: { 1 ≤ q },
    ghost to_phrase: { q ≤ length sounds.now },
    ghost short: { length sounds.now ≤ longest_phrase },
}

// The lines of a phrase of so many sounds and figures of q. They stand in `terms::checks` too, and once more here: the
// second finder shares no code with the first, so that a slip in one shows against the other.
fn check_phrase(sounds: usize, q: usize) -> Result<(), Refusal>
    ensures { result ≡ verdict (first_of (phrase_lines sounds q)) }
{
    if sounds == 0 {
        return Err(Refusal::EmptyPhrase);
    }
    if sounds > LONGEST_PHRASE {
        return Err(Refusal::LongPhrase);
    }
    if q == 0 || q > sounds || q > LONGEST_FIGURE {
        return Err(Refusal::FigureLength);
    }
    Ok(())
}

impl<'a> Phrase<'a> {
    // The lines of the phrase and its figure length, in their order.
    pub(crate) fn new(sounds: &'a [u32], q: usize) -> Result<Self, Refusal>
        ensures refused { result_err result ≡ first_of (phrase_lines (length sounds.now) q) }
        ensures held { IfOk result (λ p. (p.sounds.now ≡ sounds.now) × (p.q ≡ q)) }
    {
        check_phrase(sounds.len(), q)?;
        Ok(Phrase { sounds, q })
    }
}
