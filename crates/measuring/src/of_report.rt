//! What crates above this one name of `report`.

pub use report::{
    FaultLine, FileRole, LINE_BYTES, Line, Parts, ReportPieces, memory_line, push_bytes,
    push_number, push_output, push_state, push_trace, push_turn, read_line, sorted_witness,
    summary_text, usage_line, write_all, write_line, write_pieces,
};
