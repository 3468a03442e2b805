//! What is printed of a trace: where it strays.

mod verifying;

pub use verifying::{MOST_TRACE_BYTES, VerifyError, verify};
