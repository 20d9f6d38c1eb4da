ghost use Rattle.std.specs.Prelude.{◌≡◌, ◌<◌, length, slice_index};
ghost use Rattle.ruling.specs.Classes.{Classes};
ghost use Rattle.reduction.specs.Dividing.{mark_key, Whole};
ghost use Rattle.reduction.specs.Searching.{Listing};

use super::division::Division;
use super::keys::read_keys;
use super::live::Live;
use super::partition::Partition;
use super::questions::mark_of;
use arrayvec::ArrayVec;
use ruling::Ruling;

impl Partition {
    // One class of all states, led by this one.
    fn whole(state: u16) -> Partition
        requires { state < 1089 }
        ensures { Whole result.class result.leader.items state }
    {
        let mut leader = ArrayVec::new();
        leader.push(state);
        Partition {
            class: [0; 1089],
            leader,
        }
    }
}

// Divides the listed states into classes: two have one class exactly if no surrounding tells them apart. The marks divide
// first. In one function: a division that is handed on is cleared and moved once more.
pub(super) fn classes<R: Ruling>(ruling: &R, list: &[u16]) -> Partition
    requires { Listing (R.Ruling.meaning ruling.now).plain list.now }
    ensures { Classes (R.Ruling.meaning ruling.now).plain.kinds (R.Ruling.meaning ruling.now).plain (length result.leader.items) (λ s. slice_index result.class s) }
{
    let mut live = Live::all(list);
    let mut keys = [0; 1089];
    read_keys(
        &live,
        |state| -> u16
            requires { state < (R.Ruling.meaning ruling.now).plain.states }
            ensures { result ≡ mark_key (R.Ruling.meaning ruling.entry.now).plain state }
        { u16::from(mark_of(ruling, state)) },
        &mut keys,
    );
    let mut partition = Partition::whole(list[0]);
    partition.split(&live, &keys);
    let mut shared = [false; 1089];
    live.refresh(&partition, &mut shared);
    let mut division = Division {
        ruling,
        partition,
        live,
        keys,
        shared,
    };
    division.settle(list);
    division.partition
}
