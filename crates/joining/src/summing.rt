//! Tables are put together.

ghost use Rattle.std.specs.Prelude.{◌≡◌, ◌<◌, ◌+◌, ◌&&◌, nat_lt, not, Ok, IfErr, IfOk, OnOk, MatchResult, sum_by};
ghost use Rattle.joining.specs.Said.{IsCounted, IsKept, IsTableError, sum_said, table_said, times};
ghost use Rattle.join_model.specs.Files.{added, no_tables, same_kind, sum_text};

use crate::line::OutcomeLine;
use crate::lines::LineSet;
use crate::of_ddm_types::NoMemory;
use crate::of_join_model::{TableKind, TableRefusal};
use crate::ordering::put_in_order;
use crate::reading::{ReadTable, TableError};
use crate::text::push_table;
use std::alloc::Global;

/// What tables come to that are put together.
#[derive(Drop)]
pub struct TableSum {
    tables: u32,
    kind: TableKind,
    runs: u64,
    set: LineSet,
}

fn same_kind(one: TableKind, other: TableKind) -> bool
    ensures { result ≡ same_kind one other }
{
    match (one, other) {
        (TableKind::Outcomes, TableKind::Outcomes) | (TableKind::Survey, TableKind::Survey) => true,
        _ => false,
    }
}

// Whether the next table is of another kind than so many of this kind.
fn is_other(tables: u32, kind: TableKind, next: TableKind) -> bool
    ensures { result ≡ (nat_lt 0 tables && not (same_kind kind next)) }
{
    tables > 0 && !same_kind(kind, next)
}

// Whether with so many more there are more runs than can be counted.
fn are_too_many(runs: u64, more: u64) -> bool
    ensures { result ≡ nat_lt 18446744073709551615 (runs + more) }
{
    more > u64::MAX - runs
}

impl TableSum {
    /// No table yet.
    pub fn new(alloc: Global) -> Self
        ensures sum { sum_said result ≡ no_tables }
        ensures counted { IsCounted result }
    {
        TableSum {
            tables: 0,
            kind: TableKind::Outcomes,
            runs: 0,
            set: LineSet::new(alloc),
        }
    }

    /// One table more. Where it is refused the sum stays as it was; after want of memory nothing is known of it.
    pub fn add(&mut self, alloc: Global, table: &ReadTable) -> Result<(), TableError>
        requires few { self.old.tables < 4294967295 }
        requires counted { IsCounted self.old }
        requires table { sum_by times table.now.lines.items ≡ table.now.runs }
        ensures sum { MatchResult result
            (λ u. added (sum_said self.old) (table_said table.now) ≡ Ok (sum_said self.new))
            (λ e. IsTableError (added (sum_said self.old) (table_said table.now)) e) }
        ensures counted { OnOk result (IsCounted self.new) }
        ensures kept { IfErr result (λ e. IsKept e self.old self.new) }
    {
        if is_other(self.tables, self.kind, table.kind) {
            return Err(TableError::Refused(TableRefusal::OtherKind));
        }
        if are_too_many(self.runs, table.runs) {
            return Err(TableError::Refused(TableRefusal::TooManyRuns));
        }
        self.set.add_all(alloc, &table.lines)?;
        self.tables += 1;
        self.kind = table.kind;
        self.runs += table.runs;
        Ok(())
    }

    /// The text of the table of all their runs.
    #[tactic(auto, unfolding(join_model::specs::Files::sum_text))]
    pub fn into_text(self, alloc: Global) -> Result<Vec<u8>, NoMemory>
        ensures { IfOk result (λ text. text.items ≡ sum_text (sum_said self)) }
    {
        let kind = self.kind;
        let runs = self.runs;
        let mut lines = self.set.into_lines();
        put_in_order(&mut lines)?;
        let mut text = Vec::new(alloc);
        push_table(&mut text, kind, runs, &lines)?;
        Ok(text)
    }
}
