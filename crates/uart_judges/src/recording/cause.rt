//! Why bytes are not a recording.
ghost use Rattle.std.specs.Prelude.{◌≡◌};
ghost use Rattle.uart_judges.specs.declared.recording.cause.RecordingFault.TheVariants.{Line};

use crate::recording::limits::MOST_LINE_BYTES;
use thiserror::Error;
use uart_language::Cause;

/// What is wrong with a line of a recording.
#[derive(Clone, Copy, Debug, PartialEq, Eq, Error)]
pub enum RecordingFault {
    /// The line has more than `MOST_LINE_BYTES` bytes.
    #[error("more than {max} bytes in a line", max = MOST_LINE_BYTES)]
    TooLong,
    /// A line repeats a read, and what happened before is no read.
    #[error("no read before it")]
    NoReadBefore,
    /// The line has no form that a line of a recording has.
    #[error("{}", .0.text())]
    Line(Cause),
}

impl From<Cause> for RecordingFault {
    ghost from_gives = { λ cause fault. fault ≡ Line cause };

    fn from(cause: Cause) -> RecordingFault {
        RecordingFault::Line(cause)
    }
}
