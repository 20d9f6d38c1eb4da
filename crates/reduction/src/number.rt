ghost use Rattle.std.specs.Prelude.{◌≡◌, ◌+◌, ◌≤◌, length, slice_index};
ghost use Rattle.ruling.specs.Classes.{Classes};
ghost use Rattle.reduction.specs.Numberings.{OverNumbered, aimed_at, number_by, NumberedBy, OpenedBy, Closed};

use super::argument_list::ArgumentList;
use super::numbering::Numbering;
use super::partition::Partition;
use super::questions::target_of;
use arrayvec::ArrayVec;
use ruling::Ruling;

impl<'a, R: Ruling> Numbering<'a, R> {
    // How many classes have a number.
    pub(super) fn count(&self) -> u8
        ensures { result ≡ length self.now.rep.items }
    {
        self.rep.len() as u8
    }

    // The target of the states that stand for the numbers of an argument list.
    fn aim(&self, list: ArgumentList) -> u16
        requires { OverNumbered self.now list }
        ensures { result ≡ aimed_at self.now list }
    {
        match self.ruling.rank(list.kind) {
            Some(1) => target_of(self.ruling, list.kind, self.rep[list.first as usize], 0),
            Some(2) => target_of(
                self.ruling,
                list.kind,
                self.rep[list.first as usize],
                self.rep[list.second as usize],
            ),
            _ => target_of(self.ruling, list.kind, 0, 0),
        }
    }

    // The number of the target's class, if it has one.
    pub(super) fn number_at(&self, list: ArgumentList) -> Option<u8>
        requires { OverNumbered self.now list }
        ensures { result ≡ number_by self.now list }
    {
        let t = self.aim(list);
        self.number[self.partition.class[t as usize] as usize]
    }

    // The first argument list over the numbered classes whose target's class has no number.
    fn next(&self) -> Option<ArgumentList>
        ensures { OpenedBy self.now result }
    {
        let mut found = None;
        'kinds: for kind in 0..16u8 {
            let (firsts, seconds) = self.spans(kind);
            'firsts: for first in 0..firsts {
                'seconds: for second in 0..seconds {
                    let list = ArgumentList {
                        kind,
                        first,
                        second,
                    };
                    if self.number_at(list).is_none() {
                        found = Some(list);
                        break 'kinds;
                    }
                }
            }
        }
        found
    }

    // Gives the next number to the class of the target.
    fn give(&mut self, list: ArgumentList)
        requires numbered { NumberedBy self.old }
        requires opened { OpenedBy self.old (Some list) }
        ensures same { (self.new.ruling ≡ self.old.ruling) × (self.new.partition ≡ self.old.partition) }
        ensures numbered { NumberedBy self.new }
        ensures one { length self.new.rep.items ≡ length self.old.rep.items + 1 }
    {
        let t = self.aim(list);
        self.number[self.partition.class[t as usize] as usize] = Some(self.count());
        self.rep.push(t);
    }

    // Numbers the classes in the order of discovery: at the first argument list whose target's class has no number, it gets
    // the next one, and the looking begins again with kind 0.
    pub(super) fn by_discovery(ruling: &'a R, partition: &'a Partition) -> Numbering<'a, R>
        requires classes { Classes (R.Ruling.meaning ruling.now).plain.kinds (R.Ruling.meaning ruling.now).plain (length partition.now.leader.items) (λ p. slice_index partition.now.class p) }
        requires few { length partition.now.leader.items ≤ 32 }
        ensures same { (result.ruling.now ≡ ruling.now) × (result.partition.now ≡ partition.now) }
        ensures numbered { NumberedBy result }
        ensures closed { Closed result }
    {
        let mut numbering = Numbering {
            ruling,
            partition,
            rep: ArrayVec::new(),
            number: [None; 32],
        };
        while let Some(list) = numbering.next() {
            numbering.give(list);
        }
        numbering
    }
}
