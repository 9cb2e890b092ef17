ghost use Rattle.std.specs.Prelude.{◌≡◌, length};
ghost use Rattle.life.specs.Readings.{given};
ghost use Rattle.life.specs.Promises.{MakeTold};
ghost use Rattle.life.specs.declared.calls.Take.TheVariants as is;

use crate::calls::{Call, Done, Event, Take, Turned};
use finder::takes::Rolling;
use readers::reader::Reader;
use rows::row::Row;
use steps::step::Step;
use terms::answer::Answer;

// A call on a rolling take. Calls are told apart by what they are, here and below, since they stand in a list and a
// closure cannot lie there. A struct of a call and its records would say their length once and be taken apart twice.
fn on_rolling<S: Step, R: Reader, M: Row>(
    mut rolling: Rolling<S, R, M>,
    call: &Call<S>,
    records: &mut [Answer],
) -> (Take<S, R, M>, Event)
    requires { length records.old ≡ given call.now }
    ensures { MakeTold S.Step.sound R.Reader.memory M.Row.marks
        (R.Reader.reaches S.Step.SOUNDS) S.Step.SOUNDS
        (is.Rolling rolling) call.now records.old result records.new }
{
    let event = match call {
        Call::Load(phrase, q) => rolling
            .load(phrase, *q)
            .map(|()| Done::Loaded)
            .map_err(Turned::Refused),
        Call::Step(x) => rolling
            .step(*x)
            .map(Done::Answered)
            .map_err(Turned::Refused),
        Call::Run(steps, _) => rolling
            .run(steps, records)
            .map(|()| Done::Ran)
            .map_err(Turned::Refused),
        Call::Clear => {
            rolling.clear();
            Ok(Done::Cleared)
        }
        Call::Close => {
            let closed = rolling.close();
            let event = Ok(Done::Closed(closed.best()));
            return (Take::Closed(closed), event);
        }
        Call::Reopen => Err(Turned::OutOfPlace),
    };
    (Take::Rolling(rolling), event)
}

impl<S: Step, R: Reader, M: Row> Take<S, R, M> {
    // Makes one call, with the records that it is given.
    pub(crate) fn make(self, call: &Call<S>, records: &mut [Answer]) -> (Self, Event)
        requires { length records.old ≡ given call.now }
        ensures { MakeTold S.Step.sound R.Reader.memory M.Row.marks
            (R.Reader.reaches S.Step.SOUNDS) S.Step.SOUNDS
            self call.now records.old result records.new }
    {
        match self {
            Take::Rolling(rolling) => on_rolling(rolling, call, records),
            Take::Closed(closed) => match call {
                Call::Reopen => (Take::Rolling(closed.reopen()), Ok(Done::Reopened)),
                _ => (Take::Closed(closed), Err(Turned::OutOfPlace)),
            },
        }
    }
}
