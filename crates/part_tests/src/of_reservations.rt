//! What this crate and those above it name of `reservations`.

pub use leaf_protocol::of_reservations::Reservation;
