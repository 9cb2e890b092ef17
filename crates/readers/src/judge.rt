ghost use Rattle.std.specs.Prelude.{◌≡◌, true, false};
ghost use Rattle.terms.specs.Refusals.{all_below_lem};
ghost use Rattle.readers.specs.Judging.{Judged};

use terms::checks::check_phrase;
use terms::refusal::Refusal;

// Whether every sound is below `c`.
fn all_below(phrase: &[u32], c: u32) -> bool
    ensures { result ≡ all_below_lem c phrase.now }
{
    phrase.iter().all(|&sound| sound < c)
}

// Whether a reader of this reach takes the phrase, and which refusal it gives where not.
pub(crate) fn judge(phrase: &[u32], q: usize, c: u32, reach: usize) -> Result<(), Refusal>
    ensures { Judged reach phrase.now q c result }
{
    check_phrase(phrase.len(), q)?;
    if q > reach {
        return Err(Refusal::PastReach);
    }
    if !all_below(phrase, c) {
        return Err(Refusal::UnknownSound);
    }
    Ok(())
}
