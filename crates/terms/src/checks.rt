ghost use Rattle.std.specs.Prelude.{◌≡◌, ◌≤◌, IfOk};
ghost use Rattle.terms.specs.Limits.{longest_phrase, longest_figure};
ghost use Rattle.terms.specs.Refusals.{first_of, phrase_lines, verdict};

use crate::limits::{LONGEST_FIGURE, LONGEST_PHRASE};
use crate::refusal::Refusal;

// A phrase of so many sounds and figures of q, before any reader is asked.
pub fn check_phrase(sounds: usize, q: usize) -> Result<(), Refusal>
    ensures lines { result ≡ verdict (first_of (phrase_lines sounds q)) }
    ensures limits { IfOk result
        (λ _. (1 ≤ q) × (q ≤ sounds) × (q ≤ longest_figure) × (sounds ≤ longest_phrase)) }
{
    if sounds == 0 {
        return Err(Refusal::EmptyPhrase);
    }
    if sounds > LONGEST_PHRASE {
        return Err(Refusal::LongPhrase);
    }
    if q == 0 || q > sounds || q > LONGEST_FIGURE {
        return Err(Refusal::FigureLength);
    }
    Ok(())
}
