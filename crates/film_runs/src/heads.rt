//! The first lines of a film, which no turn changes.

ghost use Rattle.std.specs.Prelude.{◌<◌, flat_map, OnOk};
ghost use Rattle.film_runs.specs.AnyMachine.Any.{machine_state};
ghost use Rattle.film_runs.specs.DdmText.Adds.{Adds};
ghost use Rattle.film_runs.specs.DdmTypes.ItemTable.{item_count, row_at};
ghost use Rattle.film_runs.specs.FilmModel.Film.{head_of, item_line, item_lines, sizes_line, tree_line, writable_text};
ghost use Rattle.film_runs.specs.FilmModel.Part.{number_text};

use crate::of_any_machine::AnyMachine;
use crate::of_ddm_types::{ItemId, Items, NoMemory};
use film::of_ddm_text::{push_decimal, push_hex8};
use report::push_bytes;
use tree_config::TreeConfig;

/// Puts a space and a number at the end.
#[tactic(auto, unfolding(crate::specs::Opened::number_text))]
fn push_number(out: &mut Vec<u8>, n: u32) -> Result<(), NoMemory>
    ensures { OnOk result (Adds out.old.items out.new.items (number_text n)) }
{
    push_bytes(out, b" ")?;
    push_decimal(out, u64::from(n))
}

/// Puts a space and a number at the end, for each of these.
fn push_numbers(out: &mut Vec<u8>, numbers: &[u32]) -> Result<(), NoMemory>
    ensures { OnOk result (Adds out.old.items out.new.items (flat_map number_text numbers.now)) }
{
    'numbers: for number in numbers {
        push_number(out, *number)?;
    }
    Ok(())
}

/// Puts at the end the numbers of children of the buses, level by level.
fn push_widths(out: &mut Vec<u8>, tree: &TreeConfig) -> Result<(), NoMemory>
    ensures { OnOk result (Adds out.old.items out.new.items (flat_map number_text (flat_map (λ l. l) tree.now.levels))) }
{
    'levels: for level in 0..tree.nodes.depth() {
        push_numbers(out, tree.nodes.level(level))?;
    }
    Ok(())
}

/// Puts at the end the line of a tree: how many levels of buses it has, and of each bus how many children.
#[tactic(auto, unfolding(crate::specs::Opened::tree_line))]
fn push_tree(out: &mut Vec<u8>, tree: &TreeConfig) -> Result<(), NoMemory>
    ensures { OnOk result (Adds out.old.items out.new.items (tree_line tree.now)) }
{
    push_bytes(out, b"tree")?;
    push_number(out, tree.nodes.depth())?;
    push_widths(out, tree)?;
    push_bytes(out, b"\n")
}

/// Puts at the end the line of the other numbers of a tree file, in the order of its keys.
#[tactic(auto, unfolding(crate::specs::Opened::sizes_line))]
fn push_sizes(out: &mut Vec<u8>, tree: &TreeConfig) -> Result<(), NoMemory>
    ensures { OnOk result (Adds out.old.items out.new.items (sizes_line tree.now)) }
{
    let numbers = [
        tree.ways,
        tree.sets,
        tree.buffer,
        tree.parking,
        tree.down,
        tree.requests,
        tree.replies,
        tree.item_bytes,
    ];
    push_bytes(out, b"sizes")?;
    push_numbers(out, &numbers)?;
    push_bytes(out, b"\n")
}

/// Puts a mark at the end for an item that may be written.
#[tactic(auto, unfolding(crate::specs::Opened::writable_text))]
fn push_writable(out: &mut Vec<u8>, writable: bool) -> Result<(), NoMemory>
    ensures { OnOk result (Adds out.old.items out.new.items (writable_text writable)) }
{
    if writable {
        push_bytes(out, b" w")
    } else {
        Ok(())
    }
}

/// Puts the line of an item at the end: its number, its address, and whether it may be written.
#[tactic(auto, unfolding(crate::specs::Opened::item_line))]
fn push_item(out: &mut Vec<u8>, items: &Items, item: ItemId) -> Result<(), NoMemory>
    requires { item < item_count items.now }
    ensures { OnOk result (Adds out.old.items out.new.items (item_line item (row_at items.now item))) }
{
    push_bytes(out, b"item")?;
    push_number(out, item.0)?;
    push_bytes(out, b" ")?;
    push_hex8(out, items.address(item))?;
    push_writable(out, items.writable(item))?;
    push_bytes(out, b"\n")
}

/// Puts the lines of all items at the end.
fn push_items(out: &mut Vec<u8>, items: &Items) -> Result<(), NoMemory>
    ensures { OnOk result (Adds out.old.items out.new.items (item_lines 0 items.now.rows)) }
{
    'items: for item in 0..items.len() {
        push_item(out, items, ItemId(item))?;
    }
    Ok(())
}

/// Puts at the end the first lines of the film of a machine of a tree.
#[tactic(auto, unfolding(crate::specs::Opened::head_of))]
pub fn push_head(out: &mut Vec<u8>, tree: &TreeConfig, machine: &AnyMachine) -> Result<(), NoMemory>
    ensures { OnOk result (Adds out.old.items out.new.items (head_of tree.now (machine_state machine.now).machine)) }
{
    push_bytes(out, b"film 1\n")?;
    push_tree(out, tree)?;
    push_sizes(out, tree)?;
    push_items(out, machine.items())
}
