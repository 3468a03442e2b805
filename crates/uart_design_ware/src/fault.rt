//! What a chip did that the backend could not mend.
use std::fmt;
use thiserror::Error;

/// What a DesignWare UART did that this backend could not mend.
#[derive(Clone, Copy, Debug, PartialEq, Eq, Hash, Drop, Error)]
pub enum DesignWareFault {
    /// The chip was busy for longer than the patience, and LCR does not have what was written to
    /// it.
    #[error("the UART stayed busy, and ignored LCR")]
    LineControlIgnored,
    /// A read of USR did not end a busy-detect interrupt, or a read of RBR a reception timeout
    /// without data.
    #[error("an interrupt of the UART does not end")]
    InterruptWithoutEnd,
}
