//! What happens to a chip from outside, as plain data: time passes for it, characters arrive at it,
//! and its modem lines change.
//!
//! [`Event`] is what happens to a chip, and [`ArrivalMark`] is what became of a character that
//! arrived. The limits are those of a machine that is built. Each has one name, which code, clauses
//! and definitions use.
#![tactic(auto)]

mod event;
pub mod laws;

pub use event::{
    ArrivalMark, BuildError, Chip, Event, MAX_CHAR_TICKS, MAX_WIRE_CAPACITY, arrivals, refusal,
};
