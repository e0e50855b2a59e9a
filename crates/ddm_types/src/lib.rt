//! What every crate names: numbers of items, leaves and buses, stamps and keys, turns and their answers,
//! completed operations, the table of items and the code; and division by a number that stays the same.
#![tactic(auto)]

mod answers;
mod code_map;
mod divisor;
mod item_table;
mod keys;
mod numbers;
mod operations;
mod sizes;
mod turns;

pub use answers::{BusyCause, LogEntry, PendingWhy, Place, QueueName, TurnAnswer, TxKind};
pub use code_map::{Code, CodePart};
pub use divisor::Divisor;
pub use item_table::{Items, MOST_ITEMS, count_items};
pub use keys::{Key, LEVELS, Stamp};
pub use numbers::{BusNo, ChildNo, HartNo, ItemId, LeafNo, NoMemory, Words};
pub use operations::{Effect, HaltCause, Op};
pub use sizes::{Hold, LeafState, Span, Start, TreeCounts, TreeSizes};
pub use turns::Turn;
