// The closest stretch at the last step of a take.
ghost use Rattle.std.specs.Prelude.{◌≡◌, ◌≤◌, ◌∷◌, [], length, nat_lt};
ghost use Rattle.terms.specs.Limits.{longest_take};
ghost use Rattle.terms.specs.declared.refusal.Refusal.TheVariants.{FullTake};
ghost use Rattle.terms.specs.Refusals.{first_of, verdict, when};
ghost use Rattle.terms.specs.Told.{Answered};
ghost use Rattle.direct.specs.Calls.{ClosestTold};

use crate::phrase::Phrase;
use terms::answer::Answer;
use terms::limits::LONGEST_TAKE;
use terms::refusal::Refusal;

impl Phrase<'_> {
    // The answer at the last step of a take. Stretches with more than twice as many figures as the phrase are left out:
    // their gap is above that of the empty stretch.
    pub(crate) fn answer(&self, take: &[u32]) -> Answer
        requires { length take.now ≤ longest_take }
        ensures { Answered self.now.q self.now.sounds.now take.now result }
    {
        let reach = 2 * self.sounds.len() + 1 - self.q;
        let nearest = self.nearest(take, take.len().saturating_sub(reach));
        Answer {
            step: take.len() as u32,
            gap: nearest.gap as u32,
            start: nearest.from as u32 + 1,
        }
    }
}

// The line of a take of n steps.
pub(crate) fn check_length(n: usize) -> Result<(), Refusal>
    ensures { result ≡ verdict (first_of (when (nat_lt longest_take n) FullTake ∷ [])) }
{
    if n > LONGEST_TAKE as usize {
        return Err(Refusal::FullTake);
    }
    Ok(())
}

// The answer at the last step of the take.
pub fn closest(phrase: &[u32], q: usize, take: &[u32]) -> Result<Answer, Refusal>
    ensures { ClosestTold q phrase.now take.now result }
{
    let phrase = Phrase::new(phrase, q)?;
    check_length(take.len())?;
    Ok(phrase.answer(take))
}
