ghost use Rattle.std.specs.Prelude.{◌≡◌, ◌≤◌, ◌++◌, length, drop, replicate};
ghost use Rattle.rows.specs.declared.mark.Mark.TheVariants.{Plus};
ghost use Rattle.rows.specs.Laws.{ring};
ghost use Rattle.rows.specs.Marks.{leaf_of};
ghost use Rattle.rows.specs.Props.{row_kept_prop};
ghost use Rattle.rows.specs.TreeRows.{RowKept, shown};

use crate::mark::Mark;
use crate::marks::Marks;
use crate::refusals::{lift_refused, start_refused};
use crate::row::Row;
use crate::summary::Summary;
use crate::tree::{Tree, wrap};
use terms::limits::{ROW_DEPTH, WIDEST_ROW};
use terms::refusal::Refusal;

// A constant beside the depth, since a const argument cannot be computed.
const ROW_NODES: usize = 2 << ROW_DEPTH;

// A row that keeps its marks in the leaves of a tree, as a ring whose oldest mark stands at `head`. Only `len` leaves
// are in use, since the memory is fixed.
#[derive(Drop)]
pub struct TreeRow {
    tree: Tree<Marks, ROW_NODES>,
    len: usize,
    head: usize,
    ghost kept: { RowKept len head tree } by { row_kept_prop tree-code len head tree },
}

// Puts `count` marks of +1 over the first leaves. On a slice: a part lent of an array in place leaves a long term.
fn fill_front(leaves: &mut [Marks], count: usize)
    requires { count ≤ length leaves.old }
    ensures { leaves.new ≡ replicate count (leaf_of Plus) ++ drop count leaves.old }
{
    leaves[..count].fill(Mark::Plus.into());
}

impl Row for TreeRow {
    ghost marks = { λ r. ring r.head (shown r.tree) };

    fn new() -> TreeRow {
        TreeRow {
            tree: Tree::new(),
            len: 0,
            head: 0,
        }
    }

    fn start(&mut self, count: usize) -> Result<(), Refusal> {
        start_refused(count)?;
        let mut leaves = [Marks::none(); WIDEST_ROW];
        fill_front(&mut leaves, count);
        *self = TreeRow {
            tree: Tree::from_leaves(&leaves),
            len: count,
            head: 0,
        };
        Ok(())
    }

    fn push(&mut self, m: Mark) {
        if self.len == 0 {
            return;
        }
        self.tree.put(self.head, m.into());
        self.head = wrap(self.head + 1, self.len);
    }

    fn lift(&mut self, age: usize) -> Result<(), Refusal> {
        lift_refused(self.len, age)?;
        let at = wrap(self.head + (self.len - 1 - age), self.len);
        self.tree.put(at, Mark::Plus.into());
        Ok(())
    }

    fn least(&self) -> (i32, u32) {
        let all = self.tree.ring_total(self.head);
        (all.least, all.span)
    }
}
