ghost use Rattle.std.specs.Prelude.{◌≡◌, ◌+◌, ◌-◌, ◌*◌, ◌<◌, ◌≤◌, [], map, length};
ghost use Rattle.terms.specs.Limits.{longest_phrase, longest_take};
ghost use Rattle.finder.specs.History.{unloaded};
ghost use Rattle.finder.specs.Slots.{Represents, LoadTold, StepTold, RunTold, ClearTold};
ghost use Rattle.finder.specs.Turns.{ReadsOff, Begun, StartedOver, Fresh, PlayTold, PlayAllTold, Judged};

use crate::progress::Progress;
use crate::recent::Recent;
use crate::slot::{Lengths, Slot};
use crate::turning::{gap_of, listen, start_of, turn};
use arrayvec::ArrayVec;
use readers::reader::Reader;
use rows::lamp_ring::LampRing;
use rows::row::Row;
use steps::step::Step;
use terms::answer::{Answer, BestStretch};
use terms::limits::{LONGEST_PHRASE, LONGEST_TAKE};
use terms::refusal::Refusal;

impl<S: Step, R: Reader, M: Row> Slot<S, R, M> {
    // An empty slot.
    pub(crate) fn new() -> Self
        ensures { Represents S.Step.sound R.Reader.memory M.Row.marks result unloaded }
    {
        let reader = R::new();
        let row = M::new();
        let progress = Progress::new(&reader);
        Slot {
            reader,
            row,
            lengths: None,
            progress,
        }
    }

    // Puts in a phrase and starts an empty take. A phrase that is too long for the vector of sounds is turned away here,
    // as the reader would; all else is for the reader to judge.
    pub(crate) fn load(&mut self, phrase: &[S], q: usize) -> Result<(), Refusal>
        ensures { LoadTold S.Step.sound R.Reader.memory M.Row.marks
            (R.Reader.reaches S.Step.SOUNDS) S.Step.SOUNDS
            self.old phrase.now q result self.new }
    {
        if phrase.len() > LONGEST_PHRASE {
            return Err(Refusal::LongPhrase);
        }
        let sounds = sounds_of(phrase);
        self.reader.load(sounds.as_slice(), q, S::SOUNDS)?;
        self.progress.recent = Recent::for_codes(&self.reader);
        self.begin(Lengths {
            phrase: phrase.len(),
            figure: q,
        });
        Ok(())
    }

    // Empties the take and keeps the phrase; an empty slot stays as it is.
    pub(crate) fn clear(&mut self)
        ensures { ClearTold S.Step.sound R.Reader.memory M.Row.marks
            self.old self.new }
    {
        if let Some(lengths) = self.lengths {
            self.start_over(lengths);
        }
    }

    // The same phrase, with nothing heard.
    fn start_over(&mut self, lengths: Lengths)
        ensures { StartedOver S.Step.sound R.Reader.memory M.Row.marks
            self.old lengths self.new }
    {
        self.reader.forget();
        self.progress.recent.clear();
        self.begin(lengths);
    }

    // A new take on a phrase of these lengths: a row of +1 alone, and no step, answer or best. The rings are the caller's:
    // a clearing empties them in place, where to lay them asks the reader for each code.
    fn begin(&mut self, lengths: Lengths)
        ensures { Begun S.Step.sound R.Reader.memory M.Row.marks
            self.old lengths self.new }
    {
        self.row.start(lengths.width()).unwrap();
        self.lengths = Some(lengths);
        self.progress.last = None;
        self.progress.best = None;
        self.progress.lamp = LampRing::new();
        self.progress.count = 0;
    }

    // One step more, and the answer to it.
    pub(crate) fn step(&mut self, x: S) -> Result<Answer, Refusal>
        ensures { StepTold S.Step.sound R.Reader.memory M.Row.marks
            self.old x result self.new }
    {
        let lengths = self.lengths.ok_or(Refusal::EmptySlot)?;
        if self.progress.count >= LONGEST_TAKE {
            return Err(Refusal::FullTake);
        }
        Ok(self.play(x, lengths))
    }

    // A step that is not refused. The lengths are handed on once they are known to be there.
    fn play(&mut self, x: S, lengths: Lengths) -> Answer
        requires { (self.old.progress.count < longest_take) × (self.old.lengths ≡ Some lengths) }
        ensures { PlayTold S.Step.sound R.Reader.memory M.Row.marks
            self.old x result self.new }
    {
        let heard = listen(&mut self.reader, x);
        self.progress.count += 1;
        turn(
            &mut self.row,
            &mut self.progress.recent,
            self.progress.count,
            heard,
        );
        self.progress.last = Some(x);
        let a = self.answer(lengths);
        self.progress.best = Some(BestStretch::better(self.progress.best, a));
        self.progress.lamp.add(a.gap, a.step);
        a
    }

    // The answer that the row gives.
    fn answer(&self, lengths: Lengths) -> Answer
        ensures { ReadsOff lengths.phrase lengths.figure self.now.progress.count
            (M.Row.marks self.now.row) result }
    {
        let (least, span) = self.row.least();
        let gap = gap_of(lengths.figures(), least);
        let start = start_of(self.progress.count, lengths.figure, span);
        Answer {
            step: self.progress.count,
            gap,
            start,
        }
    }

    // The steps in order, with a record of each; refused, nothing is played and nothing written.
    pub(crate) fn run(&mut self, steps: &[S], records: &mut [Answer]) -> Result<(), Refusal>
        ensures { RunTold S.Step.sound R.Reader.memory M.Row.marks
            self.old steps.now records.old result
            self.new records.new }
    {
        let lengths = self.check_run(steps.len(), records.len())?;
        self.play_all(steps, records, lengths);
        Ok(())
    }

    // Whether a run of so many steps, with so many records, is turned away; the slot's lengths where it is not.
    fn check_run(&self, steps: usize, records: usize) -> Result<Lengths, Refusal>
        ensures { Judged self.now.lengths self.now.progress.count steps records result }
    {
        if steps != records {
            return Err(Refusal::UnevenLists);
        }
        let lengths = self.lengths.ok_or(Refusal::EmptySlot)?;
        if steps > (LONGEST_TAKE - self.progress.count) as usize {
            return Err(Refusal::FullTake);
        }
        Ok(lengths)
    }

    // A run that is not refused.
    #[tactic(auto, using(crate::proofs::Playing::run_none, crate::proofs::Playing::run_more, crate::proofs::Playing::run_done))]
    fn play_all(&mut self, steps: &[S], records: &mut [Answer], lengths: Lengths)
        requires even { length steps.now ≡ length records.old }
        requires loaded { self.old.lengths ≡ Some lengths }
        requires room { self.old.progress.count + length steps.now ≤ longest_take }
        ensures { PlayAllTold S.Step.sound R.Reader.memory M.Row.marks
            self.old steps.now self.new records.new }
    {
        for (i, x) in steps.iter().enumerate() {
            // By index: a record lies beside its step, and of what zip lends of the records a proof learns no element.
            records[i] = self.play(*x, lengths);
        }
    }
}

impl<S: Drop> Progress<S> {
    // Of no step, with rings for the phrase that a reader holds.
    pub(crate) fn new<R: Reader>(reader: &R) -> Self
        ensures { Fresh (R.Reader.memory reader.now) result }
    {
        Progress {
            recent: Recent::for_codes(reader),
            count: 0,
            last: None,
            best: None,
            lamp: LampRing::new(),
        }
    }
}

// The sounds of a phrase that fits.
fn sounds_of<S: Step>(phrase: &[S]) -> ArrayVec<u32, LONGEST_PHRASE>
    requires { length phrase.now ≤ longest_phrase }
    ensures { result.items ≡ map S.Step.sound phrase.now }
{
    let mut sounds = ArrayVec::new();
    for x in phrase {
        // By push: `collect` asks for an allocator, and `extend` answers an error that cannot come here.
        sounds.push(x.sound());
    }
    sounds
}
