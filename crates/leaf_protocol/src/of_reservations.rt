//! What this crate and those above it name of `reservations`.

pub use reservations::Reservation;
