//! Recorded traces of a driver's calls, and whether the driver makes them.
//!
//! A trace has for each call the registers that it read and wrote, and what each read returned.
//! [`parse`] reads a trace from text, and [`judge`] checks its calls in turn.

mod cause;
mod exchange;
mod judging;
mod lines;
mod parsing;
mod telling;

pub use cause::{TraceError, TraceFault};
pub use exchange::Exchange;
pub use judging::{Stray, judge};
pub use lines::{before_remark, offset_in};
pub use parsing::parse;
pub use telling::{push_access, push_stray};
