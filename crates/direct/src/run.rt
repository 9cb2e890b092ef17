// All answers of a take, and its best stretch.
ghost use Rattle.std.specs.Prelude.{◌≡◌, ◌≤◌, length};
ghost use Rattle.terms.specs.Bettered.{better_of};
ghost use Rattle.terms.specs.Limits.{longest_take};
ghost use Rattle.terms.specs.Told.{Plays};
ghost use Rattle.direct.specs.Calls.{PlayTold};

use crate::find::check_length;
use crate::phrase::Phrase;
use terms::answer::{Answer, BestStretch};
use terms::refusal::Refusal;

// The better of the best so far and a later answer: the earlier among equals. As `BestStretch::better`, which the first
// finder goes by; the second shares no code with it.
fn better(best: Option<BestStretch>, new: Answer) -> BestStretch
    ensures { result ≡ better_of best new }
{
    match best {
        Some(old) if old.gap <= new.gap => old,
        _ => BestStretch {
            gap: new.gap,
            start: new.start,
            end: new.step,
        },
    }
}

impl Phrase<'_> {
    // Fills the records of a take.
    fn answer_all(&self, take: &[u32], answers: &mut [Answer]) -> Option<BestStretch>
        requires { (length take.now ≤ longest_take) × (length answers.old ≡ length take.now) }
        ensures { Plays self.now.q self.now.sounds.now take.now answers.new result }
    {
        let mut best = None;
        for (i, answer) in answers.iter_mut().enumerate() {
            *answer = self.answer(&take[..i + 1]);
            best = Some(better(best, *answer));
        }
        best
    }
}

// The answer at every step of the take, in `answers`, and the take's best stretch.
pub fn play(
    phrase: &[u32],
    q: usize,
    take: &[u32],
    answers: &mut [Answer],
) -> Result<Option<BestStretch>, Refusal>
    ensures { PlayTold q phrase.now take.now answers.old answers.new result }
{
    let phrase = Phrase::new(phrase, q)?;
    if take.len() != answers.len() {
        return Err(Refusal::UnevenLists);
    }
    check_length(take.len())?;
    Ok(phrase.answer_all(take, answers))
}
