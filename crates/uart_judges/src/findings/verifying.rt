//! What is printed for the bytes of a trace.
ghost use Rattle.std.specs.Prelude.{◌≡◌, ◌<◌, ◌≤◌, Err, MatchResult, length};
ghost use Rattle.std.specs.Int.NonZero.{non_zero_u64_get};
ghost use Rattle.uart_judges.specs.Reading.{Refuses, fault_of};
ghost use Rattle.uart_judges.specs.Traces.{new_driver};
ghost use Rattle.uart_judges.specs.Verifying.{IsVerified, IsNoTrace};

use crate::traces::{TraceError, judge, parse, push_stray};
use std::alloc::Global;
use std::num::NonZeroU64;
use thiserror::Error;
use uart_spec::FifoSize;

/// The most bytes of a trace. So input without end is refused, and does not fill the memory.
pub const MOST_TRACE_BYTES: usize = 64 * 1024 * 1024;

/// Why a trace was not verified.
#[derive(Clone, Copy, Debug, Drop, Error)]
pub enum VerifyError {
    /// The trace has more than [`MOST_TRACE_BYTES`].
    #[error("the trace has more than {most} bytes", most = MOST_TRACE_BYTES)]
    TooLong,
    /// The bytes are not a trace, or memory for it could not be allocated.
    #[error("{0}")]
    NoTrace(#[from] TraceError),
}

// Returns the line that is printed for a trace, or nothing.
fn stray_line(
    alloc: Global,
    bytes: &[u8],
    limit: NonZeroU64,
    fifo_size: FifoSize,
) -> Result<Vec<u8>, TraceError>
    ensures { MatchResult result
        (λ line. IsVerified (new_driver (non_zero_u64_get limit) fifo_size) bytes.now line.items)
        (Refuses (fault_of bytes.now)) }
{
    let trace = parse(alloc, bytes)?;
    match judge(alloc, &trace, limit, fifo_size)? {
        None => Ok(Vec::new(alloc)),
        Some(stray) => {
            let mut line = Vec::new(alloc);
            push_stray(alloc, &mut line, &stray)?;
            line.push(b'\n')?;
            Ok(line)
        }
    }
}

/// Returns what is printed for the trace of a driver with this spin limit, which takes the FIFOs to
/// be of this size: nothing if each list is one that its call makes, or else the line that says
/// where the trace strays.
///
/// # Errors
///
/// - `TooLong` if there are more than [`MOST_TRACE_BYTES`].
/// - `NoTrace` with the first fault if the bytes are no trace, or if out of memory.
pub fn verify(
    alloc: Global,
    bytes: &[u8],
    limit: NonZeroU64,
    fifo_size: FifoSize,
) -> Result<Vec<u8>, VerifyError>
    // proved: `verify` prints nothing if each list of a trace is one that its call makes, and else
    //   the line of the first stray; a fault and too many bytes are refused
    ensures long { MOST_TRACE_BYTES < length bytes.now → result ≡ Err VerifyError.TooLong }
    ensures read { length bytes.now ≤ MOST_TRACE_BYTES → MatchResult result
        (λ line. IsVerified (new_driver (non_zero_u64_get limit) fifo_size) bytes.now line.items)
        (IsNoTrace bytes.now) }
{
    if bytes.len() > MOST_TRACE_BYTES {
        return Err(VerifyError::TooLong);
    }
    stray_line(alloc, bytes, limit, fifo_size).map_err(VerifyError::NoTrace)
}
