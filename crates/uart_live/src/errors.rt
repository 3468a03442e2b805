//! Why a live chip refuses what its owner passes to it.
use crate::fixed::WIRE_ROOM;
use thiserror::Error;
use uart_events::MAX_CHAR_TICKS;

/// Why a character or a change of the modem lines was refused.
#[derive(Clone, Copy, Debug, PartialEq, Eq, Error)]
pub enum InputError {
    /// A character has error bits other than parity, framing and break.
    #[error("a character has other error bits than parity, framing and break")]
    BadErrors,
    /// The modem lines have bits other than CTS, DSR, RI and CD.
    #[error("the modem lines have other bits than CTS, DSR, RI and CD")]
    BadLines,
}

/// Why no chip was made: the first reason in this order.
#[derive(Clone, Copy, Debug, PartialEq, Eq, Error)]
pub enum ChipError {
    /// A FIFO holds 16, 32, 64, 128 or 256 characters, and no other number.
    #[error("a FIFO holds 16, 32, 64, 128 or 256 characters")]
    BadFifo,
    /// A character takes no ticks, or more than `MAX_CHAR_TICKS`.
    #[error("a character takes 1 to {max} ticks", max = MAX_CHAR_TICKS)]
    BadTicks,
    /// The wire has room for more than `WIRE_ROOM` bytes.
    #[error("the wire has room for at most {max} bytes", max = WIRE_ROOM)]
    BadWire,
}

/// Why no chip was restored.
#[derive(Clone, Copy, Debug, PartialEq, Eq, Error)]
pub enum RestoreError {
    /// The data are not those of a sound chip.
    #[error("the data are not those of a sound chip")]
    BadData,
    /// The wire has room for more than `WIRE_ROOM` bytes.
    #[error("the wire has room for at most {max} bytes", max = WIRE_ROOM)]
    BadWire,
}
