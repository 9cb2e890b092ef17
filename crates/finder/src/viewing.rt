ghost use Rattle.finder.specs.Slots.{LampTold, LastTold};
ghost use Rattle.finder.specs.Views.{ViewTold, CutTold, Pasted};

use crate::slot::Slot;
use readers::reader::Reader;
use rows::row::Row;
use steps::step::Step;
use terms::refusal::Refusal;

impl<S: Step, R: Reader, M: Row> Slot<S, R, M> {
    // The least gap of the newest answers, with its earliest step.
    #[tactic(auto, using(crate::proofs::Shown::lamp_told))]
    pub(crate) fn lamp(&self) -> Option<(u32, u32)>
        ensures { LampTold S.Step.sound R.Reader.memory M.Row.marks self.now result }
    {
        self.progress.lamp.lamp()
    }

    // The last accepted step.
    pub(crate) fn last(&self) -> Option<S>
        ensures { LastTold S.Step.sound R.Reader.memory M.Row.marks self.now result }
    {
        self.progress.last
    }

    // The best stretch as a part of the list, which has the steps of the take, and its place there.
    #[tactic(auto, using(crate::proofs::Shown::view_told))]
    pub(crate) fn view<'a>(&self, list: &'a [S]) -> Result<(&'a [S], usize), Refusal>
        ensures { ViewTold S.Step.sound R.Reader.memory M.Row.marks
            self.now list.now result }
    {
        if list.len() != self.progress.count as usize {
            return Err(Refusal::OtherLength);
        }
        let best = self.progress.best.ok_or(Refusal::NoBest)?;
        let from = (best.start - 1) as usize;
        Ok((&list[from..best.end as usize], from))
    }

    // Copies that part to the front of the pattern, and answers its length.
    #[tactic(auto, using(crate::proofs::Cutting::cut_told))]
    pub(crate) fn cut(&self, list: &[S], pattern: &mut [S]) -> Result<usize, Refusal>
        ensures { CutTold S.Step.sound R.Reader.memory M.Row.marks
            self.now list.now pattern.old result pattern.new }
    {
        let (part, _) = self.view(list)?;
        paste(part, pattern)
    }
}

// Copies the part to the front of the pattern, leaves the rest, and answers the part's length.
fn paste<S: Copy>(part: &[S], pattern: &mut [S]) -> Result<usize, Refusal>
    ensures { Pasted part.now pattern.old result pattern.new }
{
    let n = part.len();
    let (front, _) = pattern
        .split_at_mut_checked(n)
        .ok_or(Refusal::ShortPattern)?;
    front.copy_from_slice(part);
    Ok(n)
}
