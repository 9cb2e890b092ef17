ghost use Rattle.std.specs.Prelude.{◌≡◌, List, [], map};
ghost use Rattle.terms.specs.Marks.{Least};
ghost use Rattle.rows.specs.Rows.{StartTold, LiftTold, pushed, worth};
ghost use Rattle.rows.specs.OneLeast.{Alike, AlwaysOneLeast};
ghost use Rattle.rows.specs.declared.mark.Mark.{Mark};

use crate::mark::Mark;
use terms::refusal::Refusal;

// A row of marks, each +1 or −1, oldest first.
pub trait Row: Sized + Drop {
    ghost marks: { Self → List Mark };

    // A row without marks.
    fn new() -> Self
        ensures { marks result ≡ [] };

    // Puts `count` marks of +1 in place of any before.
    fn start(&mut self, count: usize) -> Result<(), Refusal>
        ensures { StartTold marks self.old count result self.new };

    // Drops the oldest mark and adds the given one as the newest. A row without marks stays as it is.
    fn push(&mut self, m: Mark)
        ensures { marks self.new ≡ pushed m (marks self.old) };

    // Makes the mark of an age +1, the newest mark being 0.
    fn lift(&mut self, age: usize) -> Result<(), Refusal>
        ensures { LiftTold marks self.old age result self.new };

    // The least sum of any number of newest marks, and the largest number of marks that has it: a pair, to be taken apart.
    fn least(&self) -> (i32, u32)
        ensures { Least (map worth (marks self.now)) result.0 result.1 };
}

// Whether two rows answer alike. Rows of the same marks do, whatever their make.
pub fn same_least<A: Row, B: Row>(a: &A, b: &B) -> bool
    ensures { Alike (A.Row.marks a.now) (B.Row.marks b.now) result }
{
    // Part by part: as pairs they are equal to a proof in one way of writing alone.
    let (least, span) = a.least();
    let (least_too, span_too) = b.least();
    least == least_too && span == span_too
}

// Exactly one pair is the least sum of some marks and its span.
pub fn one_least()
    ensures { AlwaysOneLeast }
{}
