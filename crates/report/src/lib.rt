//! What is printed: the lines of reports and traces, their writing to a sink, and the lines of faults.
//! Each is proved to be what the definitions of the texts say.
#![tactic(auto)]

mod answers;
mod buffers;
mod buses;
mod digits;
mod effects;
mod faults;
mod harts;
mod items;
mod line;
mod machine_parts;
mod numbers;
pub mod of_any_machine;
pub mod of_ddm_outside;
pub mod of_ddm_text;
pub mod of_ddm_types;
pub mod of_operation_list;
pub mod of_rv_hart;
pub mod of_text_model;
pub mod of_tree_model;
pub mod of_witness_order;
mod operations;
mod parts;
mod pieces;
mod report_parts;
mod report_pieces;
mod roles;
mod summary;
mod trace;
mod trace_pieces;
mod writing;

pub use buffers::TextBuffer;
pub use buses::push_bus_line;
pub use effects::push_state;
pub use faults::{memory_line, read_line, usage_line, write_line};
pub use harts::{push_hart_line, push_output};
pub use line::{LINE_BYTES, Line, Line as FaultLine};
pub use operations::push_op_line;
pub use parts::{LEAST_PIECE, Parts, joined};
pub use pieces::{push_bytes, push_named, push_named_word, push_number};
pub use report_pieces::{ReportPieces, report_text, sorted_witness};
pub use roles::FileRole;
pub use summary::summary_text;
pub use trace::{push_trace, push_turn};
pub use trace_pieces::{TracePieces, trace_text};
pub use writing::{MOST_OFFERED, write_all, write_pieces};
