//! What a machine is built from, and what it reports.

ghost use Rattle.std.specs.Prelude.{◌≡◌, count_by, position};
ghost use Rattle.uart_events.specs.Build as spec;

use bitflags::Flags;
use thiserror::Error;
use uart_spec::registers::{LSR, MSR};

/// The most ticks that a character may take to be sent.
pub const MAX_CHAR_TICKS: u16 = 1000;

/// The most bytes that a wire may have room for.
pub const MAX_WIRE_CAPACITY: usize = 65_536;

/// The model of a chip.
#[derive(Clone, Copy, Debug, PartialEq, Eq)]
pub enum Chip {
    /// With FIFOs of 16 characters, which FCR switches on.
    Uart16550A,
    /// Without FIFOs. Writes to FCR do nothing.
    Uart16450,
}

/// An event of a schedule: what happens to the chip, in order.
#[derive(Clone, Copy, Debug, PartialEq, Eq)]
pub enum Event {
    /// This number of ticks passes.
    Ticks(u16),
    /// A character arrives from the remote, with these errors, which are bits of LSR: parity 0x04,
    /// framing 0x08, break 0x10.
    Arrive {
        /// The byte.
        byte: u8,
        /// Its errors.
        errors: u8,
    },
    /// The modem lines become these, which are bits of MSR: CTS 0x10, DSR 0x20, RI 0x40, CD 0x80.
    Lines(u8),
    /// The next register access takes place here, without the tick that passes elsewhere.
    Access,
    /// No register access goes beyond this event. `Device16550::next` does.
    Mark,
}

impl Event {
    // Returns whether this is an arrival with a bit that is not an error of a character.
    fn has_bad_errors(&self) -> bool
        ensures { result ≡ spec.has_bad_errors self.now }
    {
        match self {
            Event::Arrive { errors, .. } => {
                let errors = LSR::from_bits_retain(*errors);
                errors.intersection(LSR::CHARACTER_ERRORS) != errors
            }
            _ => false,
        }
    }

    // Returns whether this is a change of lines with a bit that is not a line.
    fn has_bad_lines(&self) -> bool
        ensures { result ≡ spec.has_bad_lines self.now }
    {
        match self {
            Event::Lines(inputs) => {
                let inputs = MSR::from_bits_retain(*inputs);
                inputs.intersection(MSR::LINES) != inputs
            }
            _ => false,
        }
    }

    fn is_arrival(&self) -> bool
        ensures { result ≡ spec.is_arrival self.now }
    {
        matches!(self, Event::Arrive { .. })
    }
}

/// Returns the number of arrivals among these events.
pub fn arrivals(events: &[Event]) -> usize
    ensures { result ≡ count_by spec.is_arrival events.now }
{
    events.iter().filter(|event| event.is_arrival()).count()
}

// Returns the index of the first arrival with a bit that is not an error of a character.
fn first_bad_errors(events: &[Event]) -> Option<usize>
    ensures { result ≡ position spec.has_bad_errors events.now }
{
    events.iter().position(|event| event.has_bad_errors())
}

// Returns the index of the first change of lines with a bit that is not a line.
fn first_bad_lines(events: &[Event]) -> Option<usize>
    ensures { result ≡ position spec.has_bad_lines events.now }
{
    events.iter().position(|event| event.has_bad_lines())
}

/// Returns why no machine can be built, however much memory there is: the first reason in the order
/// of [`BuildError`].
pub fn refusal(char_ticks: u16, wire_capacity: usize, events: &[Event]) -> Option<BuildError>
    // proved: Why no machine can be built, however much memory there is: the first reason in a
    //   fixed order. How many arrivals a schedule has. A character takes 1000 ticks at most, and
    //   a wire has room for 65,536 bytes at most
    // on: `refusal`, `arrivals`, `laws::limits_are_these`
    ensures { result ≡ spec.refusal char_ticks wire_capacity events.now }
{
    if char_ticks == 0 || char_ticks > MAX_CHAR_TICKS {
        Some(BuildError::BadTicks)
    } else if wire_capacity > MAX_WIRE_CAPACITY {
        Some(BuildError::BadWire)
    } else if let Some(i) = first_bad_errors(events) {
        Some(BuildError::BadErrors(i))
    } else {
        first_bad_lines(events).map(BuildError::BadLines)
    }
}

/// What became of an arrival of the schedule.
#[derive(Clone, Copy, Debug, PartialEq, Eq)]
pub enum ArrivalMark {
    /// It has not arrived yet.
    Pending,
    /// It is in the receiver, and has not been read.
    Waiting,
    /// It was read from the data register.
    Read,
    /// It arrived in loopback, or was discarded by a reset of the receiver.
    Discarded,
    /// It was lost to an overrun.
    Dropped,
}

/// Why no machine was built: the first reason in this order.
#[derive(Clone, Copy, Debug, PartialEq, Eq, Error)]
pub enum BuildError {
    /// A character takes no ticks, or more than `MAX_CHAR_TICKS`.
    #[error("a character takes 1 to {max} ticks", max = MAX_CHAR_TICKS)]
    BadTicks,
    /// The wire has room for more than `MAX_WIRE_CAPACITY` bytes.
    #[error("the wire has room for at most {max} bytes", max = MAX_WIRE_CAPACITY)]
    BadWire,
    /// An arrival has error bits other than parity, framing and break. Holds the index of the
    /// event.
    #[error("event {0}: an arrival has other error bits than parity, framing and break")]
    BadErrors(usize),
    /// A change of lines has bits other than CTS, DSR, RI and CD. Holds the index of the event.
    #[error("event {0}: a change of lines has other bits than CTS, DSR, RI and CD")]
    BadLines(usize),
    /// Memory could not be allocated.
    #[error("out of memory")]
    OutOfMemory,
}
