ghost use Rattle.std.specs.Prelude.{◌≡◌};
ghost use Rattle.life.specs.Readings.{given, used, RecordsTold};

use finder::takes::{Closed, Rolling};
use readers::reader::Reader;
use rows::row::Row;
use steps::step::Step;
use terms::answer::{Answer, BestStretch};
use terms::refusal::Refusal;

// A call on a slot, as it stands in a list of calls.
#[derive(Clone, Copy, Debug, PartialEq, Eq)]
pub enum Call<'a, S> {
    Load(&'a [S], usize),
    Step(S),
    // The steps, and the length of the list of records that the run is given: a number, since all runs write into one
    // list.
    Run(&'a [S], usize),
    Clear,
    Close,
    Reopen,
}

impl<S> Call<'_, S> {
    // How many records the call is given.
    pub(crate) fn records(&self) -> usize
        ensures { RecordsTold self.now result }
    {
        if let Call::Run(_, n) = self { *n } else { 0 }
    }

    // How many of them it uses up, by its event.
    pub(crate) fn records_used(&self, event: Event) -> usize
        ensures { result ≡ used (given self.now) event }
    {
        if event == Ok(Done::Ran) {
            self.records()
        } else {
            0
        }
    }
}

// What an accepted call did.
#[derive(Clone, Copy, Debug, PartialEq, Eq)]
pub enum Done {
    Loaded,
    Answered(Answer),
    // The answers stand in the list of records.
    Ran,
    Cleared,
    Closed(Option<BestStretch>),
    Reopened,
}

// Why a call was turned away. It alters nothing.
#[derive(Clone, Copy, Debug, PartialEq, Eq)]
pub enum Turned {
    Refused(Refusal),
    // The call does not belong to the take as it then is.
    OutOfPlace,
}

// What a call came to.
pub type Event = Result<Done, Turned>;

// A slot with its take, rolling or closed.
#[derive(Drop)]
pub enum Take<S: Step, R: Reader, M: Row> {
    Rolling(Rolling<S, R, M>),
    Closed(Closed<S, R, M>),
}

// How far a list of calls came: the take as it is then, the calls made, and the records used up.
#[derive(Drop)]
pub struct Performed<S: Step, R: Reader, M: Row> {
    pub take: Take<S, R, M>,
    pub made: usize,
    pub recorded: usize,
}
