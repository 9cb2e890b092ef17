ghost use Rattle.std.specs.Prelude.{◌≡◌, ◌<◌, true};
ghost use Rattle.rows.specs.Laws.{limit};
ghost use Rattle.rows.specs.Marks.{leaf_of, no_marks, marks_joined, marks_valid};
ghost use Rattle.rows.specs.MarkLaws.{marks_laws};

use crate::mark::Mark;
use crate::summary::Summary;

// What neighbouring marks come to: how many they are, their sum, the least sum of any number of the newest of them,
// and the largest number of marks that has it.
#[derive(Clone, Copy)]
pub(crate) struct Marks {
    pub size: u32,
    pub sum: i32,
    pub least: i32,
    pub span: u32,
}

impl Marks {
    // `join` with one mark as the older part, in fewer steps: a +1 in front never lowers the least sum.
    pub(crate) fn with_older(self, m: Mark) -> Marks
        requires fit { marks_valid self ≡ true }
        requires few { self.size < limit }
        ensures { result ≡ marks_joined (leaf_of m) self }
    {
        let size = self.size + 1;
        let sum = self.sum + m.value();
        if sum <= self.least {
            return Marks {
                size,
                sum,
                least: sum,
                span: size,
            };
        }
        Marks { size, sum, ..self }
    }
}

// The summary of one mark.
impl From<Mark> for Marks {
    ghost from_gives = { λ m s. s ≡ leaf_of m };

    fn from(m: Mark) -> Marks {
        match m {
            Mark::Plus => Marks {
                size: 1,
                sum: 1,
                least: 0,
                span: 0,
            },
            Mark::Minus => Marks {
                size: 1,
                sum: -1,
                least: -1,
                span: 1,
            },
        }
    }
}

impl Summary for Marks {
    ghost empty = { no_marks };

    ghost size = { λ m. m.size };

    ghost valid = { marks_valid };

    ghost joined = { marks_joined };

    ghost laws = { marks_laws };

    fn none() -> Marks {
        Marks {
            size: 0,
            sum: 0,
            least: 0,
            span: 0,
        }
    }

    fn join(older: Marks, newer: Marks) -> Marks {
        let through = newer.sum + older.least;
        let both = Marks {
            size: older.size + newer.size,
            sum: older.sum + newer.sum,
            ..newer
        };
        if through <= newer.least {
            return Marks {
                least: through,
                span: newer.size + older.span,
                ..both
            };
        }
        both
    }
}
