//! What a turn answers.

use crate::numbers::{BusNo, ChildNo, ItemId, LeafNo};
use crate::operations::{HaltCause, Op};

/// The kinds of transactions.
#[derive(Clone, Copy, Debug, PartialEq, Eq)]
pub enum TxKind {
    ReadTx,
    DataTx,
    EraseTx,
    ExclusiveTx,
    InjectTx,
    OutTx,
}

/// Why an item is pending on a bus: a transaction of it is under way. A note names the child whose
/// request was granted first.
#[derive(Clone, Copy, Debug, PartialEq, Eq)]
pub enum PendingWhy {
    Local(ChildNo),
    UpRead(ChildNo),
    UpErase(ChildNo),
    Answering,
    InDown,
}

/// A list of transactions. A directory's list is named by the number of the bus below it.
#[derive(Clone, Copy, Debug, PartialEq, Eq)]
pub enum QueueName {
    Down(BusNo),
    Requests(BusNo),
    Replies(BusNo),
    LeafReplies(LeafNo),
}

/// Why a turn changed nothing.
#[derive(Clone, Copy, Debug, PartialEq, Eq)]
pub enum BusyCause {
    ItemPending {
        bus: BusNo,
        item: ItemId,
        why: PendingWhy,
    },
    QueueFull(QueueName),
    BufferFull(LeafNo),
    ParkingFull(BusNo),
    NoRoom(ItemId),
}

/// Where a granted transaction came from or went to, seen from its bus. `Joined` says that a request
/// joined a read that was under way, `Readers` that data went to several children.
#[derive(Clone, Copy, Debug, PartialEq, Eq)]
pub enum Place {
    Parent,
    Child(ChildNo),
    Parking,
    All,
    Gone,
    Joined,
    Readers,
}

/// A granted transaction.
#[derive(Clone, Copy, Debug, PartialEq, Eq)]
pub struct LogEntry {
    pub bus: BusNo,
    pub kind: TxKind,
    pub item: ItemId,
    pub source: Place,
    pub taker: Place,
}

/// What a turn answers.
#[derive(Clone, Copy, Debug, PartialEq, Eq)]
pub enum TurnAnswer {
    Retired(Op),
    Issued(TxKind, ItemId),
    Waiting(ItemId),
    Halted(HaltCause),
    Granted(LogEntry),
    Empty,
    Busy(BusyCause),
}
