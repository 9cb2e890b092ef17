ghost use Rattle.life.specs.Promises.{PerformTold};

use crate::calls::{Call, Event, Performed, Take};
use finder::takes::Rolling;
use readers::reader::Reader;
use rows::row::Row;
use steps::step::Step;
use terms::answer::Answer;

// Makes the calls one after another on a new slot: writes what each comes to into `events`, and the answers of runs
// into `records`, one run behind another. Only want of room stops it.
pub fn perform<S: Step, R: Reader, M: Row>(
    calls: &[Call<S>],
    events: &mut [Event],
    records: &mut [Answer],
) -> Performed<S, R, M>
    ensures { PerformTold S.Step.sound R.Reader.memory M.Row.marks
        (R.Reader.reaches S.Step.SOUNDS) S.Step.SOUNDS calls.now
        events.old records.old result events.new records.new }
{
    let mut take: Take<S, R, M> = Take::Rolling(Rolling::new());
    let mut recorded = 0;
    let room = calls.len().min(events.len());
    for (made, call) in calls[..room].iter().enumerate() {
        let given = call.records();
        if records.len() - recorded < given {
            return Performed {
                take,
                made,
                recorded,
            };
        }
        let (next, event) = take.make(call, &mut records[recorded..recorded + given]);
        take = next;
        // By index: of a list written through `zip(events.iter_mut())` a proof learns nothing (through
        // `iter_mut().enumerate()` it does), nor of what `records.get_mut(..)` lends.
        events[made] = event;
        recorded += call.records_used(event);
    }
    Performed {
        take,
        made: room,
        recorded,
    }
}
