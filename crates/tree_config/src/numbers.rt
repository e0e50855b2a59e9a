//! The numbers of a tree file, in their ranges.

ghost use Rattle.std.specs.Prelude.{◌≡◌, ◌≤◌, IfOk, IsTrue, option_map};
ghost use Rattle.toml.specs.Data.{get_member};
ghost use Rattle.toml.specs.View.{table_view, view};
ghost use Rattle.tree_config.specs.declared.refusal.TreeKey.TheVariants.{ItemBytes, StackBytes};
ghost use Rattle.tree_config.specs.Ranges.{AreSizes, highest_end, is_allowed, stacks_end};
ghost use Rattle.tree_config.specs.TreeFile.{in_range, item_bytes_at, key_name, number, number_at, sizes_at, stack_bytes_at};

use crate::keys::is_allowed_number;
use crate::of_ddm_types::TreeSizes;
use crate::refusal::{TreeKey, TreeRefusal};
use toml::{Table, Value};

/// Where no stack goes past.
const HIGHEST_END: u64 = 4_294_967_280;

fn number_in_range(key: TreeKey, n: i64) -> Result<u32, TreeRefusal>
    ensures number { result ≡ in_range key n }
    ensures allowed { IfOk result (λ n. IsTrue (is_allowed key n)) }
{
    match u32::try_from(n) {
        Ok(n) if is_allowed_number(key, n) => Ok(n),
        _ => Err(TreeRefusal::OutOfRange(key)),
    }
}

fn number_of(key: TreeKey, value: &Value) -> Result<u32, TreeRefusal>
    ensures number { result ≡ number key (view value.now) }
    ensures allowed { IfOk result (λ n. IsTrue (is_allowed key n)) }
{
    match value.as_integer() {
        Some(n) => number_in_range(key, n),
        None => Err(TreeRefusal::WrongType(key)),
    }
}

/// The value of a key.
pub(crate) fn value_of(table: &Table, key: TreeKey) -> Option<&Value>
    ensures { option_map (λ v. view v.now) result ≡ get_member (key_name key) (table_view table.now) }
{
    table.get(key.name())
}

/// The whole number of a key.
#[tactic(auto, unfolding(crate::specs::TreeFile::number_at))]
pub(crate) fn read_number(table: &Table, key: TreeKey) -> Result<u32, TreeRefusal>
    ensures number { result ≡ number_at key (table_view table.now) }
    ensures allowed { IfOk result (λ n. IsTrue (is_allowed key n)) }
{
    match value_of(table, key) {
        Some(value) => number_of(key, value),
        None => Err(TreeRefusal::MissingKey(key)),
    }
}

/// The sizes of leaves and lists.
#[tactic(auto, unfolding(crate::specs::TreeFile::sizes_at))]
pub(crate) fn read_sizes(table: &Table) -> Result<TreeSizes, TreeRefusal>
    ensures sizes { result ≡ sizes_at (table_view table.now) }
    ensures allowed { IfOk result AreSizes }
{
    Ok(TreeSizes {
        sets: read_number(table, TreeKey::Sets)?,
        buffer: read_number(table, TreeKey::Buffer)?,
        parking: read_number(table, TreeKey::Parking)?,
        down: read_number(table, TreeKey::Down)?,
        requests: read_number(table, TreeKey::Requests)?,
        replies: read_number(table, TreeKey::Replies)?,
    })
}

/// The bytes of each stack, where the first begins at `base`.
#[tactic(auto, unfolding(crate::specs::TreeFile::stack_bytes_at))]
pub(crate) fn read_stack_bytes(table: &Table, base: u32, harts: u32) -> Result<u32, TreeRefusal>
    ensures bytes { result ≡ stack_bytes_at base harts (table_view table.now) }
    ensures allowed { IfOk result (λ n. IsTrue (is_allowed StackBytes n)) }
    ensures end { IfOk result (λ n. stacks_end base harts n ≤ highest_end) }
{
    let bytes = read_number(table, TreeKey::StackBytes)?;
    if u64::from(base) + u64::from(harts) * u64::from(bytes) <= HIGHEST_END {
        Ok(bytes)
    } else {
        Err(TreeRefusal::OutOfRange(TreeKey::StackBytes))
    }
}

/// The bytes of an item, 16 where the table doesn't say.
#[tactic(auto, unfolding(crate::specs::TreeFile::item_bytes_at))]
pub(crate) fn read_item_bytes(table: &Table) -> Result<u32, TreeRefusal>
    ensures bytes { result ≡ item_bytes_at (table_view table.now) }
    ensures allowed { IfOk result (λ n. IsTrue (is_allowed ItemBytes n)) }
{
    match value_of(table, TreeKey::ItemBytes) {
        Some(value) => number_of(TreeKey::ItemBytes, value),
        None => Ok(16),
    }
}
