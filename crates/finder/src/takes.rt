ghost use Rattle.finder.specs.History.{unloaded};
ghost use Rattle.finder.specs.Slots.{Represents, LoadTold, StepTold, RunTold, ClearTold, CloseTold};
ghost use Rattle.finder.specs.Slots.{LastTold, LampTold, BestTold};
ghost use Rattle.finder.specs.Views.{ViewTold, CutTold};

use crate::slot::Slot;
use readers::reader::Reader;
use rows::row::Row;
use steps::step::Step;
use terms::answer::{Answer, BestStretch};
use terms::refusal::Refusal;

// A slot whose take is rolling: it is loaded, takes steps and is cleared.
#[derive(Drop)]
pub struct Rolling<S, R, M> {
    pub(crate) slot: Slot<S, R, M>,
}

// A slot whose take is closed: it tells the best stretch, is viewed and cut.
#[derive(Drop)]
pub struct Closed<S, R, M> {
    pub(crate) slot: Slot<S, R, M>,
}

impl<S: Step, R: Reader, M: Row> Rolling<S, R, M> {
    // An empty slot.
    pub fn new() -> Self
        ensures { Represents S.Step.sound R.Reader.memory M.Row.marks result.slot unloaded }
    {
        Rolling { slot: Slot::new() }
    }

    // Puts in a phrase with its figure length, and starts an empty take.
    pub fn load(&mut self, phrase: &[S], q: usize) -> Result<(), Refusal>
        ensures { LoadTold S.Step.sound R.Reader.memory M.Row.marks
            (R.Reader.reaches S.Step.SOUNDS) S.Step.SOUNDS
            self.old.slot phrase.now q result self.new.slot }
    {
        self.slot.load(phrase, q)
    }

    // One step more: the closest stretch that ends there.
    pub fn step(&mut self, x: S) -> Result<Answer, Refusal>
        ensures { StepTold S.Step.sound R.Reader.memory M.Row.marks
            self.old.slot x result self.new.slot }
    {
        self.slot.step(x)
    }

    // The steps in order, with a record of each: all of them or none.
    pub fn run(&mut self, steps: &[S], records: &mut [Answer]) -> Result<(), Refusal>
        ensures { RunTold S.Step.sound R.Reader.memory M.Row.marks
            self.old.slot steps.now records.old result
            self.new.slot records.new }
    {
        self.slot.run(steps, records)
    }

    // Empties the take and keeps the phrase.
    pub fn clear(&mut self)
        ensures { ClearTold S.Step.sound R.Reader.memory M.Row.marks
            self.old.slot self.new.slot }
    {
        self.slot.clear()
    }

    // The last accepted step. It and the lamp stand on both types: a trait for the two would be an import for callers.
    pub fn last(&self) -> Option<S>
        ensures { LastTold S.Step.sound R.Reader.memory M.Row.marks self.now.slot result }
    {
        self.slot.last()
    }

    // The least gap of the newest answers, with its earliest step.
    pub fn lamp(&self) -> Option<(u32, u32)>
        ensures { LampTold S.Step.sound R.Reader.memory M.Row.marks self.now.slot result }
    {
        self.slot.lamp()
    }

    // The same take, closed.
    pub fn close(self) -> Closed<S, R, M>
        ensures { CloseTold S.Step.sound R.Reader.memory M.Row.marks self.slot result.slot }
    {
        Closed { slot: self.slot }
    }
}

impl<S: Step, R: Reader, M: Row> Closed<S, R, M> {
    // The best stretch of the take.
    pub fn best(&self) -> Option<BestStretch>
        ensures { BestTold S.Step.sound R.Reader.memory M.Row.marks self.now.slot result }
    {
        self.slot.progress.best
    }

    // The last accepted step.
    pub fn last(&self) -> Option<S>
        ensures { LastTold S.Step.sound R.Reader.memory M.Row.marks self.now.slot result }
    {
        self.slot.last()
    }

    // The least gap of the newest answers, with its earliest step.
    pub fn lamp(&self) -> Option<(u32, u32)>
        ensures { LampTold S.Step.sound R.Reader.memory M.Row.marks self.now.slot result }
    {
        self.slot.lamp()
    }

    // The best stretch as a part of the list, which has the steps of the take, and its place there.
    pub fn view<'a>(&self, list: &'a [S]) -> Result<(&'a [S], usize), Refusal>
        ensures { ViewTold S.Step.sound R.Reader.memory M.Row.marks
            self.now.slot list.now result }
    {
        self.slot.view(list)
    }

    // Copies that part to the front of the pattern, and answers its length.
    pub fn cut(&self, list: &[S], pattern: &mut [S]) -> Result<usize, Refusal>
        ensures { CutTold S.Step.sound R.Reader.memory M.Row.marks
            self.now.slot list.now pattern.old result pattern.new }
    {
        self.slot.cut(list, pattern)
    }

    // An empty take, rolling, with the same phrase.
    pub fn reopen(self) -> Rolling<S, R, M>
        ensures { ClearTold S.Step.sound R.Reader.memory M.Row.marks self.slot result.slot }
    {
        let mut slot = self.slot;
        slot.clear();
        Rolling { slot }
    }
}
