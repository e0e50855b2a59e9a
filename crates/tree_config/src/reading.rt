//! A tree file is read.

ghost use Rattle.std.specs.Prelude.{◌≡◌, ◌⊎◌, Some, None, Ok, Err, IfOk, IfErr, option_map};
ghost use Rattle.toml.specs.Parse.{parse_document};
ghost use Rattle.toml.specs.View.{table_view, view};
ghost use Rattle.tree_config.specs.TreeFile.{known_tree, least_unknown, shape_at, shape_in, tree_in, tree_of, tree_of_table};
ghost use Rattle.tree_config.specs.declared.refusal.TreeRefusal.TheVariants.{NoMemory};

use crate::config::TreeConfig;
use crate::keys::is_known_key;
use crate::numbers::{read_item_bytes, read_number, read_sizes, read_stack_bytes, value_of};
use crate::refusal::{TreeKey, TreeRefusal};
use crate::shape::Shape;
use crate::shape_reading::read_shape;
use ddm_text::Text;
use std::alloc::Global;
use toml::{Table, Value};

/// How many bytes a tree file has at most.
pub const MOST_BYTES: usize = 65_536;

// No text of a file is longer than the file.
fn shape_of_value(alloc: Global, value: &Value) -> Result<Shape, TreeRefusal>
    ensures shape { IfOk result (λ s. shape_in (view value.now) ≡ Ok s) }
    ensures refused { IfErr result (λ r. (r ≡ NoMemory) ⊎ (shape_in (view value.now) ≡ Err r)) }
{
    match value.as_str() {
        Some(text) if text.len() <= MOST_BYTES => read_shape(alloc, text.as_bytes()),
        Some(_) => Err(TreeRefusal::NoMemory),
        None => Err(TreeRefusal::WrongType(TreeKey::Shape)),
    }
}

#[tactic(auto, unfolding(crate::specs::TreeFile::shape_at))]
fn shape_of_table(alloc: Global, table: &Table) -> Result<Shape, TreeRefusal>
    ensures shape { IfOk result (λ s. shape_at (table_view table.now) ≡ Ok s) }
    ensures refused { IfErr result (λ r. (r ≡ NoMemory) ⊎ (shape_at (table_view table.now) ≡ Err r)) }
{
    match value_of(table, TreeKey::Shape) {
        Some(value) => shape_of_value(alloc, value),
        None => Err(TreeRefusal::MissingKey(TreeKey::Shape)),
    }
}

/// The tree of a table whose keys are all known.
#[tactic(auto, unfolding(crate::specs::TreeFile::tree_in))]
fn tree_of_known(alloc: Global, table: &Table) -> Result<TreeConfig, TreeRefusal>
    ensures tree { IfOk result (λ t. tree_in (table_view table.now) ≡ Ok t) }
    ensures refused { IfErr result (λ r. (r ≡ NoMemory) ⊎ (tree_in (table_view table.now) ≡ Err r)) }
{
    let nodes = shape_of_table(alloc, table)?;
    let ways = read_number(table, TreeKey::Ways)?;
    let sizes = read_sizes(table)?;
    let stack_base = read_number(table, TreeKey::StackBase)?;
    let stack_bytes = read_stack_bytes(table, stack_base, nodes.harts())?;
    let item_bytes = read_item_bytes(table)?;
    Ok(TreeConfig {
        nodes,
        ways,
        sets: sizes.sets,
        buffer: sizes.buffer,
        parking: sizes.parking,
        down: sizes.down,
        requests: sizes.requests,
        replies: sizes.replies,
        stack_base,
        stack_bytes,
        item_bytes,
    })
}

/// The least key, by its bytes, that no tree file has.
fn unknown_key(table: &Table) -> Option<&str>
    ensures { option_map (λ name. name.now) result ≡ least_unknown (table_view table.now) }
{
    'key: for name in table.keys() {
        if !is_known_key(name.as_str()) {
            return Some(name.as_str());
        }
    }
    None
}

fn tree_of_keys(alloc: Global, table: &Table) -> Result<TreeConfig, TreeRefusal>
    ensures tree { IfOk result (λ t. known_tree (table_view table.now) ≡ Ok t) }
    ensures refused { IfErr result (λ r. (r ≡ NoMemory) ⊎ (known_tree (table_view table.now) ≡ Err r)) }
{
    match unknown_key(table) {
        Some(name) => Err(TreeRefusal::UnknownKey(Text::of(alloc, name)?)),
        None => tree_of_known(alloc, table),
    }
}

fn tree_of_text(alloc: Global, text: &str) -> Result<TreeConfig, TreeRefusal>
    ensures tree { IfOk result (λ t. tree_of_table (parse_document text.now) ≡ Ok t) }
    ensures refused { IfErr result (λ r. (r ≡ NoMemory) ⊎ (tree_of_table (parse_document text.now) ≡ Err r)) }
{
    match toml::table_from_str(alloc, text) {
        Ok(table) => tree_of_keys(alloc, &table),
        Err(error) if error.is_memory() => Err(TreeRefusal::NoMemory),
        Err(_) => Err(TreeRefusal::NotToml),
    }
}

/// The tree that a file's bytes say. A whole number outside 64 bits isn't TOML.
#[tactic(auto, unfolding(crate::specs::TreeFile::tree_of))]
pub fn read_tree(alloc: Global, bytes: &[u8]) -> Result<TreeConfig, TreeRefusal>
    ensures tree { IfOk result (λ t. tree_of bytes.now ≡ Ok t) }
    ensures refused { IfErr result (λ r. (r ≡ NoMemory) ⊎ (tree_of bytes.now ≡ Err r)) }
{
    if bytes.len() > MOST_BYTES {
        return Err(TreeRefusal::TooLong);
    }
    match std::str::from_utf8(bytes) {
        Ok(text) => tree_of_text(alloc, text),
        Err(_) => Err(TreeRefusal::NotToml),
    }
}
