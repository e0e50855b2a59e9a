//! What a granted or a busy turn answers.

ghost use Rattle.std.specs.Prelude.{◌≡◌};
ghost use Rattle.split_bus.specs.DdmTypes.declared.answers.BusyCause.TheVariants.{ItemPending, QueueFull};
ghost use Rattle.split_bus.specs.DdmTypes.declared.answers.TurnAnswer.TheVariants.{Busy, Granted};

use crate::of_ddm_types::{
    BusyCause, ItemId, LogEntry, PendingWhy, Place, QueueName, TurnAnswer, TxKind,
};
use item_states::Parent;

/// A transaction was granted on this parent's bus.
pub(crate) fn granted<const WORDS: usize, P: Parent<WORDS>>(
    parent: &P,
    kind: TxKind,
    item: ItemId,
    source: Place,
    taker: Place,
) -> TurnAnswer
    ensures { result ≡ Granted (record { bus = (P.state parent.now).bus; kind = kind; item = item; source = source; taker = taker }) }
{
    TurnAnswer::Granted(LogEntry {
        bus: parent.bus(),
        kind,
        item,
        source,
        taker,
    })
}

/// The item is pending on this parent's bus.
pub(crate) fn pending<const WORDS: usize, P: Parent<WORDS>>(
    parent: &P,
    item: ItemId,
    why: PendingWhy,
) -> TurnAnswer
    ensures { result ≡ Busy (ItemPending (P.state parent.now).bus item why) }
{
    TurnAnswer::Busy(BusyCause::ItemPending {
        bus: parent.bus(),
        item,
        why,
    })
}

/// A list that needs a place is full.
pub(crate) fn full(list: QueueName) -> TurnAnswer
    ensures { result ≡ Busy (QueueFull list) }
{
    TurnAnswer::Busy(BusyCause::QueueFull(list))
}
