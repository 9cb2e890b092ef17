ghost use Rattle.life.specs.Chains.{ChainTold};
ghost use Rattle.life.specs.Readings.{CallByCall};

use readers::reader::Reader;
use rows::row::Row;
use steps::step::Step;

// The law holds of every chain of calls on one slot, whoever makes them.
pub fn any_chain<S: Step, R: Reader, M: Row>()
    ensures { ChainTold S.Step.sound R.Reader.memory M.Row.marks
        (R.Reader.reaches S.Step.SOUNDS) S.Step.SOUNDS }
{}

// The history that is read off the calls and their events goes on from call to call.
pub fn call_by_call<S: Step>()
    ensures { CallByCall S }
{}
