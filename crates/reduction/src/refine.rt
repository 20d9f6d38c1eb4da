ghost use Rattle.std.specs.Prelude.{◌≡◌, ◌+◌, ◌<◌, true, false, if◌then◌else◌, ◌==◌, length, slice_index};
ghost use Rattle.ruling.specs.Trees.{Kind};
ghost use Rattle.ruling.specs.Classes.{Reached, Classes};
ghost use Rattle.reduction.specs.declared.context.Context.TheVariants.{Under};
ghost use Rattle.reduction.specs.Dividing.{Even, EvenUnder, EvenBoth, EvenBeside, AllEven};
ghost use Rattle.reduction.specs.Divisions.{meant_by, Finer};
ghost use Rattle.reduction.specs.Searching.{Listing};

use super::context::Context;
use super::division::Division;
use super::partition::Partition;
use ruling::Ruling;

impl<'a, R: Ruling> Division<'a, R> {
    // Sweeps below a sign of this kind, if it is one.
    fn under_kind(&mut self, kind: u8)
        ensures { Finer self.old self.new (λ class leader. (Kind (meant_by self.old).kinds kind 1 → Even (meant_by self.old) class (Under kind))) }
    {
        if let Some(1) = self.ruling.rank(kind) {
            self.sweep(Context::Under { kind });
        }
    }

    fn under_each(&mut self)
        ensures { Finer self.old self.new (λ class leader. EvenUnder (meant_by self.old) class 16) }
    {
        for kind in 0..16u8 {
            self.under_kind(kind);
        }
    }

    // Sweeps below the signs until they divide nothing more.
    fn under_all(&mut self)
        ensures finer { Finer self.old self.new (λ class leader. Unit {0}) }
        ensures even { EvenUnder (meant_by self.old) self.new.partition.class 16 }
    {
        loop {
            let before = self.partition.count();
            self.under_each();
            if self.partition.count() == before {
                return;
            }
        }
    }

    // Whether a state leads its class.
    fn leads(&self, state: u16) -> bool
        requires { state < 1089 }
        ensures { result ≡ (slice_index self.now.partition.leader.items (slice_index self.now.partition.class state) == state) }
    {
        self.partition.leader[self.partition.class[state as usize] as usize] == state
    }

    // Sweeps below a join of this kind, with the brother as the right child; then, if nothing was divided and the brother
    // leads its class, with it as the left one.
    fn beside_join(&mut self, kind: u8, brother: u16)
        requires kind { Kind (meant_by self.old).kinds kind 2 }
        requires brother { Reached (meant_by self.old).kinds (meant_by self.old) brother }
        ensures { Finer self.old self.new (λ class leader. EvenBoth (meant_by self.old) class leader kind brother) }
    {
        let before = self.partition.count();
        self.sweep(Context::Left { kind, brother });
        if self.partition.count() != before {
            return;
        }
        if self.leads(brother) {
            self.sweep(Context::Right { kind, brother });
        }
    }

    fn beside_kind(&mut self, kind: u8, brother: u16)
        requires { Reached (meant_by self.old).kinds (meant_by self.old) brother }
        ensures { Finer self.old self.new (λ class leader. (Kind (meant_by self.old).kinds kind 2 → EvenBoth (meant_by self.old) class leader kind brother)) }
    {
        if let Some(2) = self.ruling.rank(kind) {
            self.beside_join(kind, brother);
        }
    }

    // Sweeps beside a brother below the joins, up to the first division.
    fn beside(&mut self, brother: u16)
        requires { Reached (meant_by self.old).kinds (meant_by self.old) brother }
        ensures { Finer self.old self.new (λ class leader. EvenBeside (meant_by self.old) class leader 16 brother) }
    {
        let before = self.partition.count();
        for kind in 0..16u8 {
            if self.partition.count() != before {
                return;
            }
            self.beside_kind(kind, brother);
        }
    }

    // Sweeps beside the brother at a place of the list, and below the signs again if that divided anything; answers whether it did.
    fn meet_brother(&mut self, list: &[u16], place: usize) -> bool
        requires listed { Listing (meant_by self.old) list.now }
        requires place { place < length list.now }
        requires even { EvenUnder (meant_by self.old) self.old.partition.class 16 }
        ensures finer { Finer self.old self.new (λ class leader. EvenBeside (meant_by self.old) class leader 16 (slice_index list.now place)) }
        ensures even { EvenUnder (meant_by self.old) self.new.partition.class 16 }
        ensures divided { result ≡ true → length self.old.partition.leader.items < length self.new.partition.leader.items }
        ensures rested { result ≡ false → length self.new.partition.leader.items ≡ length self.old.partition.leader.items }
    {
        let before = self.partition.count();
        self.beside(list[place]);
        if self.partition.count() == before {
            return false;
        }
        self.under_all();
        true
    }

    // Meets the brothers one after the other, in a circle, until a whole round of them has divided nothing, or no state is live.
    // Where all marks are equal there is one class at once.
    pub(super) fn settle(&mut self, list: &[u16])
        requires { Listing (meant_by self.old) list.now }
        ensures same { self.new.ruling ≡ self.old.ruling }
        ensures even { AllEven (meant_by self.old) self.new.partition.class }
    {
        if self.partition.count() == 1 {
            return;
        }
        self.under_all();
        let mut quiet = 0;
        let mut next = 0;
        // By place: each division lengthens the walk, so no iterator has the number of its steps.
        while !self.live.states.is_empty() && quiet < list.len() {
            let divided = self.meet_brother(list, next);
            quiet = quiet_after(divided, quiet);
            next = (next + 1) % list.len();
        }
    }
}

// How many brothers in a row have divided nothing. A function of its own, so that the check names it where this is counted wrong.
fn quiet_after(divided: bool, quiet: usize) -> usize
    requires { quiet < 1089 }
    ensures { result ≡ (if divided then 0 else quiet + 1) }
{
    if divided { 0 } else { quiet + 1 }
}
