//! What a turn answered is counted.

ghost use Rattle.std.specs.Prelude.{◌≡◌, slice_index_or, slice_set, true};
ghost use Rattle.measure_model.specs.Counts.{is_amo, is_failed, is_load, is_store};
ghost use Rattle.measuring.specs.Step.{hart_busy, harts_busy};
ghost use Rattle.measuring.specs.Tally.{busy_after, hart_after, harts_after, item_asked, item_granted, items_after, more, totals_after};

use ddm_types::{BusNo, Effect, Turn, TurnAnswer, TxKind};
use measure_model::{HartCounts, ItemCounts, RunTotals};

// One more where this is so. A counter that is full stays so.
#[inline(always)]
fn more(counter: &mut u32, so: bool)
    ensures { counter.new ≡ more so counter.old }
{
    *counter = counter.saturating_add(u32::from(so));
}

fn count_effect(counts: &mut HartCounts, effect: Effect)
    ensures { counts.new ≡ record counts.old {
      loads = more (is_load effect) counts.old.loads;
      stores = more (is_store effect) counts.old.stores;
      amos = more (is_amo effect) counts.old.amos;
      failed = more (is_failed effect) counts.old.failed;
    } }
{
    match effect {
        Effect::Load { .. } | Effect::Lr { .. } => more(&mut counts.loads, true),
        Effect::Store { .. } | Effect::ScOk { .. } => more(&mut counts.stores, true),
        Effect::Amo { .. } => more(&mut counts.amos, true),
        Effect::ScFail { .. } => more(&mut counts.failed, true),
        Effect::Plain | Effect::Put { .. } => {}
    }
}

// Of the hart whose turn answered so.
fn count_hart(counts: &mut HartCounts, answer: &TurnAnswer)
    ensures { counts.new ≡ hart_after answer.now counts.old }
{
    match answer {
        TurnAnswer::Retired(op) => count_effect(counts, op.effect),
        TurnAnswer::Issued(kind, _) => {
            more(&mut counts.reads, matches!(kind, TxKind::ReadTx));
            more(&mut counts.erases, matches!(kind, TxKind::EraseTx));
        }
        TurnAnswer::Busy(_) => more(&mut counts.busy, true),
        _ => {}
    }
}

/// Counts of harts, by number: a turn answered so.
pub(crate) fn count_harts(harts: &mut Vec<HartCounts>, turn: &Turn, answer: &TurnAnswer)
    ensures { harts.new.items ≡ harts_after turn.now answer.now harts.old.items }
{
    if let Turn::Hart { hart, .. } = turn {
        if let Some(counts) = harts.get_mut(hart.0 as usize) {
            count_hart(counts, answer);
        }
    }
}

#[inline(always)]
fn count_asked(counts: &mut ItemCounts, kind: TxKind)
    ensures { counts.new ≡ item_asked kind counts.old }
{
    more(&mut counts.reads, matches!(kind, TxKind::ReadTx));
    more(&mut counts.erases, matches!(kind, TxKind::EraseTx));
}

#[inline(always)]
fn count_granted(counts: &mut ItemCounts, kind: TxKind)
    ensures { counts.new ≡ item_granted kind counts.old }
{
    more(&mut counts.injects, matches!(kind, TxKind::InjectTx));
}

/// Counts of items, by number: a turn answered so.
pub(crate) fn count_items(items: &mut Vec<ItemCounts>, answer: &TurnAnswer)
    ensures { items.new.items ≡ items_after answer.now items.old.items }
{
    match answer {
        TurnAnswer::Issued(kind, item) => {
            if let Some(counts) = items.get_mut(item.0 as usize) {
                count_asked(counts, *kind);
            }
        }
        TurnAnswer::Granted(entry) => {
            if let Some(counts) = items.get_mut(entry.item.0 as usize) {
                count_granted(counts, entry.kind);
            }
        }
        _ => {}
    }
}

// A turn of a bus was busy.
fn count_bus(busy: &mut Vec<u32>, bus: BusNo)
    ensures { busy.new.items ≡ slice_set busy.old.items bus (more true (slice_index_or busy.old.items bus 0)) }
{
    if let Some(busy) = busy.get_mut(bus.0 as usize) {
        more(busy, true);
    }
}

/// Busy turns of buses, by number: this turn was busy.
pub(crate) fn count_busy_bus(busy: &mut Vec<u32>, turn: &Turn)
    ensures { busy.new.items ≡ busy_after turn.now busy.old.items }
{
    match *turn {
        Turn::Hart { .. } => {}
        Turn::Down { bus }
        | Turn::Request { bus, .. }
        | Turn::Reply { bus, .. }
        | Turn::Leave { bus, .. } => count_bus(busy, bus),
    }
}

/// Counts of all turns: one did something, and answered so.
pub(crate) fn count_all(totals: &mut RunTotals, answer: &TurnAnswer)
    ensures { totals.new ≡ totals_after answer.now totals.old }
{
    more(&mut totals.turns, true);
    match answer {
        TurnAnswer::Retired(_) => more(&mut totals.retired, true),
        TurnAnswer::Issued(..) => more(&mut totals.issued, true),
        TurnAnswer::Granted(_) => more(&mut totals.granted, true),
        TurnAnswer::Halted(_) => more(&mut totals.halted, true),
        TurnAnswer::Waiting(_) | TurnAnswer::Empty | TurnAnswer::Busy(_) => {}
    }
}

// A turn of a hart was busy.
#[inline(always)]
fn count_hart_busy(counts: &mut HartCounts)
    ensures { counts.new ≡ hart_busy counts.old }
{
    more(&mut counts.busy, true);
}

/// Counts of harts, by number: this turn was busy.
pub(crate) fn count_busy_hart(harts: &mut Vec<HartCounts>, turn: &Turn)
    ensures { harts.new.items ≡ harts_busy turn.now harts.old.items }
{
    if let Turn::Hart { hart, .. } = turn {
        if let Some(counts) = harts.get_mut(hart.0 as usize) {
            count_hart_busy(counts);
        }
    }
}

/// Counts of all turns: one was busy.
pub(crate) fn count_busy(totals: &mut RunTotals)
    ensures { totals.new ≡ record totals.old { busy = more true totals.old.busy } }
{
    more(&mut totals.busy, true);
}
