//! The table of items: which there are, where they are, which may be written.

ghost use Rattle.std.specs.Prelude.{◌≡◌, ◌+◌, ◌*◌, ◌^◌, ◌<◌, ◌≤◌, ◌++◌, Some, All, IfOk, IfSome, OnOk, length, map};
ghost use Rattle.std.specs.List.{flat_map, list_any};
ghost use Rattle.ddm_types.specs.ItemTable.{IsItemSize, item_at, item_count, item_numbers, item_row, items_of, row_at, span_end, writes};
ghost use Rattle.ddm_types.specs.ItemRule.{AreItemsOf};
ghost use Rattle.ddm_types.specs.ItemRuns.{AreRunsFrom, run_numbers, run_of, swept};
ghost use Rattle.ddm_types.specs.ItemRows.{row_of};

use crate::numbers::{ItemId, NoMemory};
use crate::sizes::Span;
use std::alloc::Global;
use std::marker::Model;

/// Items that lie one behind the other: those from number `first` on and below number `end`.
#[derive(Clone, Copy)]
struct Run {
    first: u32,
    end: u32,
}

/// The items that a span overlaps.
fn run_of(span: &Span, item_bytes: u32) -> Run
    requires size { IsItemSize item_bytes }
    requires ends { span_end span.now ≤ 2 ^ 32 }
    ensures run { result ≡ run_of item_bytes span.now }
    ensures bound { result.end * item_bytes ≤ 2 ^ 32 }
{
    let first = span.start / item_bytes;
    if span.bytes == 0 {
        return Run { first, end: first };
    }
    let last = (u64::from(span.start) + span.bytes - 1) / u64::from(item_bytes);
    Run {
        first,
        end: last as u32 + 1,
    }
}

/// The items that some span overlaps, as runs in order that have no item twice.
fn runs_of(alloc: Global, spans: &[Span], item_bytes: u32) -> Result<Vec<Run>, NoMemory>
    requires size { IsItemSize item_bytes }
    requires ends { All (λ span. span_end span ≤ 2 ^ 32) spans.now }
    ensures numbers { IfOk result (λ runs. flat_map run_numbers runs.items ≡ item_numbers item_bytes spans.now) }
    ensures in_order { IfOk result (λ runs. AreRunsFrom 0 runs.items) }
    ensures bound { IfOk result (λ runs. All (λ run. run.end * item_bytes ≤ 2 ^ 32) runs.items) }
{
    let mut overlapped = Vec::new(alloc);
    for span in spans {
        overlapped.push(run_of(span, item_bytes))?;
    }
    overlapped.sort_by_key(|run| run.first)?;
    new_in_each(alloc, &overlapped)
}

/// What is new in each of the runs, which stand in order of their first items.
fn new_in_each(alloc: Global, overlapped: &[Run]) -> Result<Vec<Run>, NoMemory>
    ensures { IfOk result (λ runs. runs.items ≡ swept 0 overlapped.now) }
{
    let mut runs = Vec::new(alloc);
    let mut next = 0;
    for run in overlapped {
        let first = run.first.max(next);
        if first < run.end {
            runs.push(Run {
                first,
                end: run.end,
            })?;
            next = run.end;
        }
    }
    Ok(runs)
}

/// How many items of this many bytes the spans overlap. Takes memory for as many runs as there are spans.
pub fn count_items(alloc: Global, spans: &[Span], item_bytes: u32) -> Result<u64, NoMemory>
    requires size { IsItemSize item_bytes }
    requires ends { All (λ span. span_end span ≤ 2 ^ 32) spans.now }
    ensures { IfOk result (λ count. count ≡ item_count (items_of item_bytes spans.now)) }
{
    let runs = runs_of(alloc, spans, item_bytes)?;
    let mut count = 0;
    for run in &runs {
        count += u64::from(run.end - run.first);
    }
    Ok(count)
}

/// The most items that a table holds.
pub const MOST_ITEMS: u32 = 65_536;

/// An item.
#[derive(Clone, Copy)]
struct Row {
    address: u32,
    writable: bool,
}

/// So many runs are remembered.
const RUNS: usize = 8;

/// Where the first runs of items begin: the addresses of their first items, and for each number of runs that begin at an address or
/// below what is added to its number of items below to give an item's number.
#[derive(Clone, Copy)]
struct RunStarts {
    addresses: [u32; RUNS],
    added: [u32; RUNS + 1],
}

/// The table of items. A contract sees it as the size of an item and the items in order of address, each
/// with its address and whether it is writable.
#[derive(Drop)]
pub struct Items {
    item_bytes: u32,
    rows: Vec<Row>,
    /// Where an item is looked for first. What is found there is looked at, so nothing rests on it.
    starts: RunStarts,
}

impl Model for Items {
    ghost use Rattle.std.specs.Prelude.{map};
    ghost use Rattle.ddm_types.specs.ItemTable.{ItemTable};
    ghost use Rattle.ddm_types.specs.ItemRows.{row_of, AreRows};

    ghost Value = { ItemTable };

    ghost view = { λ table. record { size = table.item_bytes; rows = map row_of table.rows.items } };

    ghost invariant = { λ table. AreRows table.item_bytes table.rows.items };
}

/// Whether the span is writable and overlaps the item at this address.
fn lets_write(span: &Span, item_bytes: u32, address: u32) -> bool
    requires { span_end span.now ≤ 2 ^ 32 }
    ensures { result ≡ writes item_bytes address span.now }
{
    let start = u64::from(span.start);
    let address = u64::from(address);
    span.writable
        && span.bytes > 0
        && start < address + u64::from(item_bytes)
        && address < start + span.bytes
}

/// Whether a writable span overlaps the item at this address.
fn is_writable(spans: &[Span], item_bytes: u32, address: u32) -> bool
    requires { All (λ span. span_end span ≤ 2 ^ 32) spans.now }
    ensures { result ≡ list_any (writes item_bytes address) spans.now }
{
    for span in spans {
        if lets_write(span, item_bytes, address) {
            return true;
        }
    }
    false
}

/// Adds the items of a run.
fn push_items(
    rows: &mut Vec<Row>,
    run: Run,
    spans: &[Span],
    item_bytes: u32,
) -> Result<(), NoMemory>
    requires ends { All (λ span. span_end span ≤ 2 ^ 32) spans.now }
    requires size { IsItemSize item_bytes }
    requires bound { run.end * item_bytes ≤ 2 ^ 32 }
    ensures { let pushed = map (item_row item_bytes spans.now) (run_numbers run) in
        OnOk result (map row_of rows.new.items ≡ map row_of rows.old.items ++ pushed) }
{
    for number in run.first..run.end {
        let address = number * item_bytes;
        let writable = is_writable(spans, item_bytes, address);
        rows.push(Row { address, writable })?;
    }
    Ok(())
}

/// Where the items begin that don't lie directly behind another one.
fn run_starts(rows: &[Row], item_bytes: u32) -> RunStarts {
    let mut starts = RunStarts {
        addresses: [u32::MAX; RUNS],
        added: [0; RUNS + 1],
    };
    let mut run = 0;
    let mut number = 0_u32;
    let mut behind = 0;
    for row in rows {
        if run < RUNS && (number == 0 || row.address != behind) {
            starts.addresses[run] = row.address;
            starts.added[run + 1] = number.wrapping_sub(items_below(row.address, item_bytes));
            run += 1;
        }
        number = number.wrapping_add(1);
        behind = row.address.wrapping_add(item_bytes);
    }
    starts
}

/// How many items could lie below an address. No division by a number that isn't known.
fn items_below(address: u32, item_bytes: u32) -> u32 {
    if item_bytes == 16 {
        address / 16
    } else {
        address / 64
    }
}

impl Items {
    /// The items of this many bytes that the spans overlap. Takes memory for the items, and for as many
    /// runs as there are spans.
    pub fn from_spans(alloc: Global, spans: &[Span], item_bytes: u32) -> Result<Items, NoMemory>
        requires size { IsItemSize item_bytes }
        requires ends { All (λ span. span_end span ≤ 2 ^ 32) spans.now }
        requires few { item_count (items_of item_bytes spans.now) ≤ MOST_ITEMS }
        ensures table { IfOk result (λ items. items ≡ items_of item_bytes spans.now) }
        ensures rule { IfOk result (AreItemsOf item_bytes spans.now) }
    {
        let runs = runs_of(alloc, spans, item_bytes)?;
        let mut rows = Vec::new(alloc);
        for run in &runs {
            push_items(&mut rows, *run, spans, item_bytes)?;
        }
        let starts = run_starts(&rows, item_bytes);
        Ok(Items {
            item_bytes,
            rows,
            starts,
        })
    }

    /// The number of items.
    pub fn len(&self) -> u32
        ensures { result ≡ item_count self.now }
    {
        self.rows.len() as u32
    }

    // The item with this number, if it has the byte at this address.
    fn if_there(&self, number: usize, address: u32) -> Option<ItemId>
        ensures { IfSome result (λ x. item_at self.now address ≡ Some x) }
    {
        if number >= self.rows.len() {
            return None;
        }
        let row = &self.rows[number];
        if row.address <= address && address - row.address < self.item_bytes {
            Some(ItemId(number as u32))
        } else {
            None
        }
    }

    // The item that has the byte at this address, as far as the run is told in which it has to lie. `None` says nothing.
    fn in_its_run(&self, address: u32) -> Option<ItemId>
        ensures { IfSome result (λ x. item_at self.now address ≡ Some x) }
    {
        let mut runs = 0_usize;
        for first in &self.starts.addresses {
            runs = runs.wrapping_add(usize::from(*first <= address));
        }
        let added = self.starts.added.get(runs)?;
        let number = items_below(address, self.item_bytes).wrapping_add(*added);
        self.if_there(number as usize, address)
    }

    // The item that has the byte at this address, wherever it lies.
    fn search(&self, address: u32) -> Option<ItemId>
        ensures { result ≡ item_at self.now address }
    {
        let after = self.rows.partition_point(|row| row.address <= address);
        if after == 0 {
            return None;
        }
        let row = &self.rows[after - 1];
        if address - row.address < self.item_bytes {
            Some(ItemId((after - 1) as u32))
        } else {
            None
        }
    }

    /// The item that has the byte at this address.
    pub fn find(&self, address: u32) -> Option<ItemId>
        ensures { result ≡ item_at self.now address }
    {
        match self.in_its_run(address) {
            Some(item) => Some(item),
            None => self.search(address),
        }
    }

    /// The address of the item's first byte.
    pub fn address(&self, item: ItemId) -> u32
        requires { item < item_count self.now }
        ensures { result ≡ (row_at self.now item).address }
    {
        self.rows[item.0 as usize].address
    }

    /// Whether the item may be written to.
    pub fn writable(&self, item: ItemId) -> bool
        requires { item < item_count self.now }
        ensures { result ≡ (row_at self.now item).writable }
    {
        self.rows[item.0 as usize].writable
    }
}
