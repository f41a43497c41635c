//! Which overlays a buffer holds and where: a ring of seats, oldest first.
#![tactic(auto)]

mod ring;
mod seat;
mod seating;

pub use ring::Ring;
pub use seat::{Placement, Seat};
