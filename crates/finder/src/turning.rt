ghost use Rattle.std.specs.Prelude.{◌≡◌, ◌+◌, ◌-◌, ◌≤◌, max, pos, ◌+ℤ◌};
ghost use Rattle.terms.specs.Limits.{longest_phrase, longest_figure, longest_take};
ghost use Rattle.finder.specs.Turns.{ListenTold, Turned, GapOf, mark_for};

use crate::recent::Recent;
use readers::reader::Reader;
use rows::mark::Mark;
use rows::row::Row;
use steps::step::Step;

// A code that was heard, and how often its figure is wanted.
#[derive(Clone, Copy)]
pub(crate) struct Heard {
    pub(crate) code: usize,
    pub(crate) wanted: usize,
}

// What the reader hears at a step.
pub(crate) fn listen<S: Step, R: Reader>(reader: &mut R, x: S) -> Heard
    ensures { ListenTold (R.Reader.memory reader.old) (S.Step.sound x)
        (R.Reader.memory reader.new) result.code result.wanted }
{
    let code = reader.hear(x.sound());
    let wanted = reader.count(code);
    Heard { code, wanted }
}

// One step of the row: the mark of the code is pushed, and the oldest of more than the wanted ones is lifted.
pub(crate) fn turn<M: Row>(row: &mut M, recent: &mut Recent, step: u32, heard: Heard)
    ensures { Turned (M.Row.marks row.old) recent.old step heard.code heard.wanted
        (M.Row.marks row.new) recent.new }
{
    row.push(mark_of(heard.wanted));
    if heard.wanted > 0 {
        if let Some(age) = recent.note(step, heard) {
            // Refused at an age past the row's end: the mark is gone then, and the row stays as it is.
            let _ = row.lift(age);
        }
    }
}

// The mark of a figure that is wanted so often.
fn mark_of(wanted: usize) -> Mark
    ensures { result ≡ mark_for wanted }
{
    if wanted == 0 { Mark::Plus } else { Mark::Minus }
}

// The sum of `base` and a sum at or below zero.
pub(crate) fn gap_of(base: usize, least: i32) -> u32
    requires { base ≤ longest_phrase }
    ensures { GapOf (pos base +ℤ least) result }
{
    (base as i64 + least as i64).max(0) as u32
}

// Where the stretch of `span` figures begins that ends at a step, or 1 where that would be before the take.
pub(crate) fn start_of(step: u32, q: usize, span: u32) -> u32
    requires { (step ≤ longest_take) × (q ≤ longest_figure) }
    ensures { result ≡ max 1 ((step + 2) - (q + span)) }
{
    (step as usize + 2).saturating_sub(q + span as usize).max(1) as u32
}
