//! Whether a directory's stamps are in order.

ghost use Rattle.std.specs.Prelude.{◌≡◌, ◌-◌, ◌<◌, ◌≤◌, None};
ghost use Rattle.directory.specs.TreeRules.Order.Time.{comes_later};
ghost use Rattle.directory.specs.Stamps.{may_come, may_come_all, stamp_before, stamps_fit};

use crate::DirState;
use crate::of_ddm_types::{Stamp, TxKind};
use crate::of_item_states::DownEntry;
use tx_queue::Queue;

/// Whether the first stamp is before the second one, in the first `numbers` of their numbers.
fn is_before(numbers: u32, first: &Stamp, second: &Stamp) -> bool
    requires some { 0 < numbers }
    requires few { numbers ≤ 3 }
    ensures { result ≡ stamp_before (numbers - 1) first.now second.now }
{
    match numbers {
        1 => first.s0 < second.s0,
        2 => first.s0 < second.s0 || first.s0 == second.s0 && first.s1 < second.s1,
        _ => {
            first.s0 < second.s0
                || first.s0 == second.s0
                    && (first.s1 < second.s1 || first.s1 == second.s1 && first.s2 < second.s2)
        }
    }
}

/// Whether the stamp of an entry of this kind is greater than each before it.
fn comes_later(kind: TxKind) -> bool
    ensures { result ≡ comes_later kind }
{
    match kind {
        TxKind::ReadTx | TxKind::EraseTx | TxKind::InjectTx => true,
        TxKind::DataTx | TxKind::ExclusiveTx | TxKind::OutTx => false,
    }
}

/// Whether an entry may stand behind one with the stamp `last`, or be the first one.
fn may_come(
    numbers: u32,
    taken: &Stamp,
    present: &Stamp,
    last: Option<Stamp>,
    kind: TxKind,
    stamp: &Stamp,
) -> bool
    requires some { 0 < numbers }
    requires few { numbers ≤ 3 }
    ensures { result ≡ may_come (numbers - 1) taken.now present.now last kind stamp.now }
{
    let between = !is_before(numbers, stamp, taken) && !is_before(numbers, present, stamp);
    match last {
        None => between,
        Some(last) => {
            between
                && !is_before(numbers, stamp, &last)
                && (!comes_later(kind) || is_before(numbers, &last, stamp))
        }
    }
}

/// Whether each entry may stand behind the one before it.
fn may_come_all<const WORDS: usize>(
    numbers: u32,
    taken: &Stamp,
    present: &Stamp,
    down: &Queue<DownEntry<WORDS>>,
) -> bool
    requires some { 0 < numbers }
    requires few { numbers ≤ 3 }
    ensures { result ≡ may_come_all (numbers - 1) taken.now present.now None down.now.list }
{
    let mut last = None;
    for place in 0..down.len() {
        match down.get(place) {
            Some(entry) => {
                if !may_come(numbers, taken, present, last, entry.kind, &entry.stamp) {
                    return false;
                }
                last = Some(entry.stamp);
            }
            None => unreachable!(),
        }
    }
    true
}

impl<const WORDS: usize> DirState<WORDS> {
    /// Whether the stamps that it keeps are in order, where the bus above has this present stamp. Of a down list the last stamp so
    /// far is the greatest one.
    pub fn stamps_fit(&self, present: &Stamp) -> bool
        ensures { result ≡ stamps_fit present.now self.now }
    {
        !is_before(self.level, present, &self.epoch)
            && may_come_all(self.level, &self.epoch, present, &self.down)
    }
}
