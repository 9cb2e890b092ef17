ghost use Rattle.std.specs.Prelude.{◌≡◌};

use crate::mark::Mark;
use crate::marks::Marks;
use crate::refusals::{lift_refused, start_refused};
use crate::row::Row;
use crate::summary::Summary;
use arrayvec::ArrayVec;
use terms::limits::WIDEST_ROW;
use terms::refusal::Refusal;

// A row that keeps its marks one after another, oldest first, and adds them up when asked.
#[derive(Drop)]
pub struct PlainRow {
    items: ArrayVec<Mark, WIDEST_ROW>,
}

impl Row for PlainRow {
    ghost marks = { λ r. r.items.items };

    fn new() -> PlainRow {
        PlainRow {
            items: ArrayVec::new(),
        }
    }

    fn start(&mut self, count: usize) -> Result<(), Refusal> {
        start_refused(count)?;
        self.items = ArrayVec::from([Mark::Plus; WIDEST_ROW]);
        self.items.truncate(count);
        Ok(())
    }

    fn push(&mut self, m: Mark) {
        let marks = self.items.as_mut_slice();
        if let [oldest, ..] = marks {
            *oldest = m;
            marks.rotate_left(1);
        }
    }

    fn lift(&mut self, age: usize) -> Result<(), Refusal> {
        let len = self.items.len();
        lift_refused(len, age)?;
        self.items[len - 1 - age] = Mark::Plus;
        Ok(())
    }

    fn least(&self) -> (i32, u32) {
        let mut all = Marks::none();
        for m in self.items.as_slice().iter().rev() {
            all = all.with_older(*m);
        }
        (all.least, all.span)
    }
}
