ghost use Rattle.std.specs.Prelude.{◌≡◌, ℕ, ◌+◌, ◌<◌, true, ◌==◌, length};
ghost use Rattle.ruling.specs.Trees.{Kind};
ghost use Rattle.ruling.specs.Meanings.{Fits};
ghost use Rattle.ruling.specs.KindLists.{has_leaf};
ghost use Rattle.reduction.specs.Searching.{ReachedList, Found, UnlessAll, Seen, LeavesSeen, BothSeen, Visited, Listing};
ghost use Rattle.reduction.specs.Searches.{searched, Further, Onto};

use super::found::Search;
use super::questions::target_of;
use arrayvec::ArrayVec;
use ruling::Ruling;

impl<'a, R: Ruling> Search<'a, R> {
    // Whether every state of the ruling is found.
    fn is_full(&self) -> bool
        ensures { result ≡ (length self.now.order.items == (searched self.now).states) }
    {
        self.order.len() == self.ruling.states() as usize
    }

    // Adds the target to the list, unless it is there.
    fn visit(&mut self, kind: u8, a: u16, b: u16)
        requires { Fits (searched self.old).kinds (searched self.old).states kind a b }
        ensures further { Further self.old self.new }
        ensures sound { ReachedList (searched self.old) kind a b → Found (searched self.old) self.old.order.items self.old.seen → Found (searched self.old) self.new.order.items self.new.seen }
        ensures held { UnlessAll (searched self.old) self.new.order.items (Seen self.new.seen ((searched self.old).target kind a b)) }
    {
        if self.is_full() {
            return;
        }
        let t = target_of(self.ruling, kind, a, b);
        if self.seen[t as usize] {
            return;
        }
        self.seen[t as usize] = true;
        self.order.push(t);
    }

    fn leaf(&mut self, kind: u8)
        ensures onto { Onto self.old self.new }
        ensures held { UnlessAll (searched self.old) self.new.order.items (Kind (searched self.old).kinds kind 0 → Seen self.new.seen ((searched self.old).target kind 0 0)) }
    {
        if let Some(0) = self.ruling.rank(kind) {
            self.visit(kind, 0, 0);
        }
    }

    fn leaves(&mut self)
        ensures onto { Onto self.old self.new }
        ensures held { UnlessAll (searched self.old) self.new.order.items (LeavesSeen (searched self.old) self.new.seen) }
    {
        for kind in 0..16u8 {
            self.leaf(kind);
        }
    }

    // The states at i and j below a join, in both orders.
    fn pair(&mut self, kind: u8, i: usize, j: usize)
        requires kind { Kind (searched self.old).kinds kind 2 }
        requires places { (i < length self.old.order.items) × (j < length self.old.order.items) }
        ensures onto { Onto self.old self.new }
        ensures held { UnlessAll (searched self.old) self.new.order.items (BothSeen (searched self.old) self.old.order.items self.new.seen kind i j) }
    {
        let p = self.order[i];
        let q = self.order[j];
        self.visit(kind, p, q);
        if i != j {
            self.visit(kind, q, p);
        }
    }

    fn forks(&mut self, kind: u8, i: usize)
        requires kind { Kind (searched self.old).kinds kind 2 }
        requires place { i < length self.old.order.items }
        ensures onto { Onto self.old self.new }
        ensures held { UnlessAll (searched self.old) self.new.order.items ((j : ℕ) → j < i + 1 → BothSeen (searched self.old) self.old.order.items self.new.seen kind i j) }
    {
        // By place: the list grows while it is walked.
        for j in 0..=i {
            if self.is_full() {
                return;
            }
            self.pair(kind, i, j);
        }
    }

    // The argument lists of a kind that are made of the state at i and earlier ones.
    fn branch(&mut self, kind: u8, i: usize)
        requires { i < length self.old.order.items }
        ensures onto { Onto self.old self.new }
        ensures held { UnlessAll (searched self.old) self.new.order.items (Visited (searched self.old) self.old.order.items self.new.seen kind i) }
    {
        match self.ruling.rank(kind) {
            Some(1) => {
                let p = self.order[i];
                self.visit(kind, p, 0);
            }
            Some(2) => self.forks(kind, i),
            _ => {}
        }
    }

    fn meet(&mut self, i: usize)
        requires { i < length self.old.order.items }
        ensures onto { Onto self.old self.new }
        ensures held { UnlessAll (searched self.old) self.new.order.items ((k : ℕ) → Visited (searched self.old) self.old.order.items self.new.seen k i) }
    {
        for kind in 0..16u8 {
            self.branch(kind, i);
        }
    }
}

// Lists the reached states in the order of discovery. Each argument list is visited once, and no more once all states are found.
pub(super) fn reached<R: Ruling>(ruling: &R) -> ArrayVec<u16, 1089>
    requires { has_leaf (R.Ruling.meaning ruling.now).plain.kinds ≡ true }
    ensures { Listing (R.Ruling.meaning ruling.now).plain result.items }
{
    let mut found = Search {
        ruling,
        order: ArrayVec::new(),
        seen: [false; 1089],
    };
    found.leaves();
    let mut i = 0;
    // By place: the list grows while it is walked.
    while i < found.order.len() && !found.is_full() {
        found.meet(i);
        i += 1;
    }
    found.order
}
