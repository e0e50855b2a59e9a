//! What a turn answered, as text.

ghost use Rattle.std.specs.Prelude.{OnOk};
ghost use Rattle.report.specs.DdmText.Adds.{Adds};
ghost use Rattle.text_model.specs.Words.{answer_text, busy_text, entry_text, kind_text, place_text, queue_text, why_text};
ghost use Rattle.report.specs.Room.{UsesRoom};

use crate::buffers::TextBuffer;
use crate::effects::{push_effect, push_halt};
use crate::numbers::{push_bus, push_child, push_item, push_named_leaf};
use crate::of_ddm_types::{
    BusyCause, LogEntry, NoMemory, PendingWhy, Place, QueueName, TurnAnswer, TxKind,
};
use crate::pieces::push_bytes;

/// Puts a kind of transaction at the end.
#[tactic(auto, unfolding(text_model::specs::Words::kind_text))]
pub fn push_kind<W: TextBuffer>(out: &mut W, kind: TxKind) -> Result<(), NoMemory>
    ensures text { OnOk result (Adds (W.text out.old) (W.text out.new) (kind_text kind)) }
    ensures room { UsesRoom 9 (W.room out.old) (W.room out.new) result }
{
    match kind {
        TxKind::ReadTx => push_bytes(out, b"read"),
        TxKind::DataTx => push_bytes(out, b"data"),
        TxKind::EraseTx => push_bytes(out, b"erase"),
        TxKind::ExclusiveTx => push_bytes(out, b"exclusive"),
        TxKind::InjectTx => push_bytes(out, b"inject"),
        TxKind::OutTx => push_bytes(out, b"out"),
    }
}

/// Puts at the end where a granted transaction came from or went to.
#[tactic(auto, unfolding(text_model::specs::Words::place_text))]
pub fn push_place<W: TextBuffer>(out: &mut W, place: Place) -> Result<(), NoMemory>
    ensures text { OnOk result (Adds (W.text out.old) (W.text out.new) (place_text place)) }
    ensures room { UsesRoom 26 (W.room out.old) (W.room out.new) result }
{
    match place {
        Place::Parent => push_bytes(out, b"parent"),
        Place::Child(child) => {
            push_bytes(out, b"child ")?;
            push_child(out, child)
        }
        Place::Parking => push_bytes(out, b"parking"),
        Place::All => push_bytes(out, b"all"),
        Place::Gone => push_bytes(out, b"gone"),
        Place::Joined => push_bytes(out, b"joined"),
        Place::Readers => push_bytes(out, b"readers"),
    }
}

/// Puts at the end why an item is pending.
#[tactic(auto, unfolding(text_model::specs::Words::why_text))]
pub fn push_why<W: TextBuffer>(out: &mut W, why: PendingWhy) -> Result<(), NoMemory>
    ensures text { OnOk result (Adds (W.text out.old) (W.text out.new) (why_text why)) }
    ensures room { UsesRoom 28 (W.room out.old) (W.room out.new) result }
{
    match why {
        PendingWhy::Local(child) => {
            push_bytes(out, b"local ")?;
            push_child(out, child)
        }
        PendingWhy::UpRead(child) => {
            push_bytes(out, b"upread ")?;
            push_child(out, child)
        }
        PendingWhy::UpErase(child) => {
            push_bytes(out, b"uperase ")?;
            push_child(out, child)
        }
        PendingWhy::Answering => push_bytes(out, b"answering"),
        PendingWhy::InDown => push_bytes(out, b"down"),
    }
}

/// Puts the name of a list of transactions at the end.
#[tactic(auto, unfolding(text_model::specs::Words::queue_text))]
pub fn push_queue_name<W: TextBuffer>(out: &mut W, name: QueueName) -> Result<(), NoMemory>
    ensures text { OnOk result (Adds (W.text out.old) (W.text out.new) (queue_text name)) }
    ensures room { UsesRoom 32 (W.room out.old) (W.room out.new) result }
{
    match name {
        QueueName::Down(bus) => {
            push_bytes(out, b"down ")?;
            push_bus(out, bus)
        }
        QueueName::Requests(bus) => {
            push_bytes(out, b"requests ")?;
            push_bus(out, bus)
        }
        QueueName::Replies(bus) => {
            push_bytes(out, b"replies ")?;
            push_bus(out, bus)
        }
        QueueName::LeafReplies(leaf) => push_named_leaf(out, b"leafreplies ", leaf),
    }
}

/// Puts at the end why a turn changed nothing.
#[tactic(auto, unfolding(text_model::specs::Words::busy_text))]
pub fn push_busy<W: TextBuffer>(out: &mut W, cause: BusyCause) -> Result<(), NoMemory>
    ensures text { OnOk result (Adds (W.text out.old) (W.text out.new) (busy_text cause)) }
    ensures room { UsesRoom 75 (W.room out.old) (W.room out.new) result }
{
    match cause {
        BusyCause::ItemPending { bus, item, why } => {
            push_bytes(out, b"item ")?;
            push_bus(out, bus)?;
            push_bytes(out, b" ")?;
            push_item(out, item)?;
            push_bytes(out, b" ")?;
            push_why(out, why)
        }
        BusyCause::QueueFull(name) => {
            push_bytes(out, b"queue ")?;
            push_queue_name(out, name)
        }
        BusyCause::BufferFull(leaf) => push_named_leaf(out, b"buffer ", leaf),
        BusyCause::ParkingFull(bus) => {
            push_bytes(out, b"parking ")?;
            push_bus(out, bus)
        }
        BusyCause::NoRoom(item) => {
            push_bytes(out, b"room ")?;
            push_item(out, item)
        }
    }
}

/// Puts a granted transaction at the end.
pub fn push_entry<W: TextBuffer>(out: &mut W, entry: LogEntry) -> Result<(), NoMemory>
    ensures text { OnOk result (Adds (W.text out.old) (W.text out.new) (entry_text entry)) }
    ensures room { UsesRoom 92 (W.room out.old) (W.room out.new) result }
{
    push_kind(out, entry.kind)?;
    push_bytes(out, b" ")?;
    push_item(out, entry.item)?;
    push_bytes(out, b" from ")?;
    push_place(out, entry.source)?;
    push_bytes(out, b" to ")?;
    push_place(out, entry.taker)?;
    Ok(())
}

/// Puts at the end what a turn answered. The words of the answers that most turns have are bytes written in place, which
/// are put with fewer tests than a text.
#[tactic(auto, unfolding(text_model::specs::Words::answer_text))]
pub fn push_answer<W: TextBuffer>(out: &mut W, answer: TurnAnswer) -> Result<(), NoMemory>
    ensures text { OnOk result (Adds (W.text out.old) (W.text out.new) (answer_text answer)) }
    ensures room { UsesRoom 100 (W.room out.old) (W.room out.new) result }
{
    match answer {
        TurnAnswer::Retired(op) => {
            push_bytes(out, &[b'r', b'e', b't', b'i', b'r', b'e', b'd', b' '])?;
            push_effect(out, op.effect)
        }
        TurnAnswer::Issued(kind, item) => {
            push_bytes(out, &[b'i', b's', b's', b'u', b'e', b'd', b' '])?;
            push_kind(out, kind)?;
            push_bytes(out, &[b' '])?;
            push_item(out, item)
        }
        TurnAnswer::Waiting(item) => {
            push_bytes(out, &[b'w', b'a', b'i', b't', b'i', b'n', b'g', b' '])?;
            push_item(out, item)
        }
        TurnAnswer::Halted(cause) => {
            push_bytes(out, b"halted ")?;
            push_halt(out, cause)
        }
        TurnAnswer::Granted(entry) => {
            push_bytes(out, &[b'g', b'r', b'a', b'n', b't', b'e', b'd', b' '])?;
            push_entry(out, entry)
        }
        TurnAnswer::Empty => push_bytes(out, b"empty"),
        TurnAnswer::Busy(cause) => {
            push_bytes(out, b"busy ")?;
            push_busy(out, cause)
        }
    }
}
