ghost use Rattle.std.specs.Prelude.{◌≡◌, ℕ, ◌*◌, ◌/◌, ◌<◌, ◌≤◌, true, length, drop, replicate, slice_index_or, slice_set};
ghost use Rattle.rows.specs.Laws.{Grown, LeavesDecide, TreeSize, Wrapped, limit, ring, sizes, all_joined};

use crate::summary::Summary;
use std::marker::Model;

// A tree in an array, since the memory is fixed, of half as many leaves as nodes: the root at 1, the children of node i at 2 i and 2 i + 1, older before newer.
#[derive(Drop)]
pub(crate) struct Tree<T: Summary, const NODES: usize> {
    nodes: [T; NODES],
}

// To a contract, a tree is its leaves.
impl<T: Summary, const NODES: usize> Model for Tree<T, NODES> {
    ghost use Rattle.std.specs.Prelude.{◌/◌, List, drop};
    ghost use Rattle.rows.specs.Laws.{Grown};

    ghost Value = { List T };

    ghost view = { λ t. drop (NODES / 2) t.nodes };

    ghost invariant = { λ t. Grown T.empty T.joined T.size T.valid NODES t.nodes };
}

impl<T: Summary, const NODES: usize> Tree<T, NODES> {
    // The tree whose leaves are all the empty summary.
    pub(crate) fn new() -> Self
        requires { TreeSize NODES }
        ensures { result ≡ replicate (NODES / 2) T.empty }
    {
        Tree {
            nodes: [T::none(); NODES],
        }
    }

    // The tree of the given leaves.
    pub(crate) fn from_leaves(leaves: &[T]) -> Self
        requires shape { TreeSize NODES }
        requires count { 2 * length leaves.now ≡ NODES }
        requires fit { (i : ℕ) → i < length leaves.now → T.valid (slice_index_or leaves.now i T.empty) ≡ true }
        requires few { sizes T.size leaves.now ≤ limit }
        ensures { result ≡ leaves.now }
    {
        let half = NODES / 2;
        let mut nodes = [T::none(); NODES];
        let all = &mut nodes[..];
        all[half..].copy_from_slice(leaves);
        // By number: the children of a node are found by it.
        for i in (1..half).rev() {
            nodes[i] = T::join(nodes[2 * i], nodes[2 * i + 1]);
        }
        Tree { nodes }
    }

    // Writes a leaf, and joins anew what stands above it.
    pub(crate) fn put(&mut self, k: usize, v: T)
        requires place { k < NODES / 2 }
        requires fit { T.valid v ≡ true }
        requires few { sizes T.size (slice_set self.old k v) ≤ limit }
        ensures { self.new ≡ slice_set self.old k v }
    {
        let mut node = NODES / 2 + k;
        self.nodes[node] = v;
        // A loop by hand: `successors` could halve, but the library does not prove that it ends.
        while node > 1 {
            node /= 2;
            self.nodes[node] = T::join(self.nodes[2 * node], self.nodes[2 * node + 1]);
        }
    }

    // All leaves joined, in the order of a ring whose oldest leaf stands at `head`.
    pub(crate) fn ring_total(&self, head: usize) -> T
        requires { head < NODES / 2 }
        ensures { result ≡ all_joined T.empty T.joined (ring head self.now) }
    {
        let mut at = NODES / 2 + head;
        let mut older = self.nodes[at];
        let mut newer = T::none();
        // A loop by hand, as in `put`.
        while at > 1 {
            if at % 2 == 0 {
                older = T::join(older, self.nodes[at + 1]);
            } else {
                newer = T::join(self.nodes[at - 1], newer);
            }
            at /= 2;
        }
        T::join(older, newer)
    }
}

// The leaves decide all nodes: what a contract sees of a tree is all of it.
pub(crate) fn leaves_decide<T: Summary, const NODES: usize>()
    ensures { LeavesDecide T.empty T.joined T.size T.valid NODES }
{}

// A place of a ring of `len`, counted on past its end: at most once round, so a comparison does.
pub(crate) fn wrap(at: usize, len: usize) -> usize
    requires { at < 2 * len }
    ensures { Wrapped at len result }
{
    if at >= len { at - len } else { at }
}
