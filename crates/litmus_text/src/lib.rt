//! The text of a litmus test: without its comments, and in sections of tokens.
#![tactic(auto)]

mod bytes;
mod comments;
mod header;
mod judged;
mod pieces;
mod sections;
mod tokens;

pub use bytes::{begins_with_digit, is, is_digit, is_name};
pub use judged::{Unread, in_line};
pub use pieces::{Piece, parts_of, pieces_at};
pub use sections::{Sections, sections_of};
pub use tokens::{copied, is_mark, place_of};
