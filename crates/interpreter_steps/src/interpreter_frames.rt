//! What is left to do of a run, as frames that wait for what runs.

mod callable;
mod frames;
mod transfer;
mod work;

pub use callable::Callable;
pub use frames::{Counting, Frame, Next, OnFlow, OnPlace, OnValue, Return, Step};
pub use transfer::{done, gave_flow, gave_place, gave_value};
pub use work::Work;
