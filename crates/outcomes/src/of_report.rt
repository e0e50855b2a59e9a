//! What this crate and those above it name of `report`.

pub use measuring::of_report::{
    FaultLine, FileRole, LINE_BYTES, Line, Parts, ReportPieces, memory_line, push_trace, push_turn,
    read_line, sorted_witness, summary_text, usage_line, write_all, write_line, write_pieces,
};
