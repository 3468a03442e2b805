//! The errors of the baud rate arithmetic and of the driver.
use crate::registers::{IER, LCR, MCR};
use std::fmt;
use thiserror::Error;

/// A clock frequency and a divisor that give no whole baud rate.
#[derive(Clone, Debug, Default, PartialEq, Eq, PartialOrd, Hash, Drop, Error)]
#[error("Input values do not result in even (integer representable) baud rate! \
    frequency={frequency}, divisor={divisor}, \
    prescaler_division_factor={prescaler_division_factor:?}")]
pub struct NonIntegerBaudRateError {
    /// The clock frequency, in hertz.
    pub frequency: u32,
    /// The divisor.
    pub divisor: u32,
    /// The prescaler division factor.
    pub prescaler_division_factor: Option<u32>,
}

/// A clock frequency and a baud rate for which there is no whole divisor.
#[derive(Clone, Debug, Default, PartialEq, Eq, PartialOrd, Hash, Drop, Error)]
#[error("input values do not result in even (integer representable) baud rate! \
    frequency={frequency}, baud_rate={baud_rate}, \
    prescaler_division_factor={prescaler_division_factor:?}")]
pub struct NonIntegerDivisorError {
    /// The clock frequency, in hertz.
    pub frequency: u32,
    /// The baud rate, in bits per second.
    pub baud_rate: u32,
    /// The prescaler division factor.
    pub prescaler_division_factor: Option<u32>,
}

/// Why a port cannot be taken as it is.
#[derive(Clone, Copy, Debug, PartialEq, Eq, PartialOrd, Hash, Drop, Error)]
pub enum AttachError {
    /// DLAB is set: offsets 0 and 1 are the divisor latch.
    #[error("the divisor latch was left open")]
    DivisorLatchOpen,
    /// The chip is in loopback.
    #[error("the chip was left in loopback")]
    Loopback,
    /// The divisor latch reads as 0: no port is set up there, or there is none.
    #[error("the port has no divisor")]
    NoDivisor,
}

/// The FIFOs are off, so they have no trigger level.
#[derive(Clone, Copy, Debug, PartialEq, Eq, PartialOrd, Hash, Drop, Error)]
#[error("the FIFOs are off")]
pub struct FifosOffError;

/// Why a change of the frame that waits for an empty transmitter failed.
#[derive(Clone, Debug, PartialEq, Eq, Hash, Drop, Error)]
pub enum FrameError {
    /// There is no divisor for the baud rate. No access was made, and nothing changed.
    #[error("invalid baud rate: {0}")]
    InvalidBaudRate(InvalidDivisorError),
    /// The transmitter did not become empty within the spin limit. Nothing was written.
    #[error("the device stalled")]
    Stalled,
}

/// What a chip shows in place of what was written to it. The first difference is told, in the order
/// of the cases.
#[derive(Clone, Copy, Debug, PartialEq, Eq, Hash, Drop, Error)]
pub enum ConfigurationError {
    /// The configuration of the driver has no divisor, so no chip can be set up so. No access was
    /// made.
    #[error("there is no divisor for the baud rate")]
    NoDivisor,
    /// LCR shows another frame; or DLAB, which is set to reach the divisor latch, was not set or
    /// not cleared. A DesignWare UART ignores LCR while it is busy.
    #[error("LCR shows {shown:?}, and not {expected:?}")]
    LineControl {
        /// What was written to LCR.
        expected: LCR,
        /// What LCR shows.
        shown: LCR,
    },
    /// MCR shows other outputs, or loopback.
    #[error("MCR shows {shown:?}, and not {expected:?}")]
    ModemControl {
        /// What was written to MCR.
        expected: MCR,
        /// What MCR shows.
        shown: MCR,
    },
    /// IER shows other interrupts.
    #[error("IER shows {shown:?}, and not {expected:?}")]
    Interrupts {
        /// The interrupts that were enabled.
        expected: IER,
        /// What IER shows.
        shown: IER,
    },
    /// The divisor latch has another divisor.
    #[error("the divisor latch shows {shown}, and not {expected}")]
    Divisor {
        /// The divisor for the baud rate.
        expected: u16,
        /// What the divisor latch shows.
        shown: u16,
    },
    /// ISR shows FIFOs that are on where the driver takes them to be off, or the other way round.
    #[error("the FIFOs are on: ISR shows {shown}, and not {expected}")]
    Fifos {
        /// Whether the driver takes the FIFOs to be on.
        expected: bool,
        /// Whether ISR shows that they are on.
        shown: bool,
    },
}

/// Why the nearest divisor for a baud rate cannot be used. `OutOfRange` comes first.
#[derive(Clone, Debug, PartialEq, Eq, PartialOrd, Hash, Drop, Error)]
pub enum NearestDivisorError {
    /// The baud rate that the nearest divisor gives differs by more than the tolerance.
    #[error("the nearest divisor {divisor} is not near enough")]
    TooFar {
        /// The nearest divisor.
        divisor: u64,
    },
    /// The nearest divisor does not fit into the divisor latch of 16 bits, or the frequency at
    /// which it is exact not into 32 bits.
    #[error("the nearest divisor {divisor} is out of range")]
    OutOfRange {
        /// The nearest divisor.
        divisor: u64,
    },
}

/// Why there is no divisor for a baud rate.
#[derive(Clone, Debug, PartialEq, Eq, PartialOrd, Hash, Drop, Error)]
pub enum InvalidDivisorError {
    /// No whole divisor gives the baud rate.
    #[error(transparent)]
    NonInteger(NonIntegerDivisorError),
    /// The divisor does not fit into the divisor latch of 16 bits.
    #[error("divisor {divisor} is out of range (1..=65535)")]
    OutOfRange {
        /// The divisor.
        divisor: u32,
    },
}

/// Why a device cannot be at an address. The stride is checked first.
#[derive(Clone, Debug, PartialEq, Eq, Hash, Drop, Error)]
pub enum InvalidAddressError {
    /// The last of the eight registers would be beyond the last address, or beyond port 65535.
    /// Holds the base address, or the base port.
    #[error("invalid register address: {0:#x}")]
    InvalidBaseAddress(usize),
    /// The distance between two registers is zero, or not a power of two. Holds the stride.
    #[error("invalid stride {0}: must be non-zero and a power of two (typically 1, 2, 4, or 8)")]
    InvalidStride(u8),
}

/// Why an initialisation failed.
#[derive(Clone, Debug, PartialEq, Eq, Hash, Drop, Error)]
pub enum InitError {
    /// The scratch register did not keep what was written to it, so no device is at the address.
    /// The scratch register was written back, and the driver has the new configuration.
    #[error("the device could not be detected")]
    DeviceNotPresent,
    /// There is no divisor for the baud rate. No access was made, and nothing changed.
    #[error("invalid baud rate: {0}")]
    InvalidBaudRate(InvalidDivisorError),
    /// The transmitter did not become empty within the spin limit. The device is set up, except
    /// that all of its interrupts are disabled.
    #[error("the device stalled")]
    Stalled,
}

/// No received byte is available: LSR did not show `DATA_READY`.
#[derive(Clone, Debug, PartialEq, Eq, Hash, Drop, Error)]
#[error("there is no data to read")]
pub struct ByteReceiveError;

/// Why no byte can be sent at the moment.
#[derive(Clone, Debug, PartialEq, Eq, Hash, Drop, Error)]
pub enum ByteSendError {
    /// The transmitter holding register, or the transmitter FIFO, is not empty.
    #[error("device has no capacity to send another byte (the FIFO might be full)")]
    NoCapacity,
    /// The remote does not assert clear to send (CTS), and the configuration checks CTS before
    /// sending.
    #[error("the remote didn't raised its clear to send signal")]
    RemoteNotClearToSend,
}

/// Why the remote seems not to be connected, or not to be ready.
///
/// Many cables never assert DSR, CD or CTS, so sending may still work. Check again after a modem
/// status interrupt.
#[derive(Clone, Debug, PartialEq, Eq, Hash, Drop, Error)]
pub enum RemoteReadyToReceiveError {
    /// Data set ready (DSR) is clear.
    #[error("there is no remote connected: missing Data Set Ready (DSR)")]
    NoRemoteConnectedNoDSR,
    /// Carrier detect (CD) is clear. No call returns this case.
    #[error("there is no remote connected: missing Carrier Detect (CD)")]
    NoRemoteConnectedNoCD,
    /// Clear to send (CTS) is clear, while DSR is set.
    #[error("remote is not (yet) ready to receive more data")]
    RemoteNotClearToSend,
}

// How each message of a [`LoopbackError`] begins. It is a constant because `rt` takes an attribute
// with the word `test` for that of a test.
const LOOPBACK: &str = "loopback test failed";

/// Why a loopback test failed.
#[derive(Clone, Debug, PartialEq, Eq, Hash, Drop, Error)]
pub enum LoopbackError {
    /// The device did not accept the single test byte, although its transmitter had been empty. The
    /// cause is always `NoCapacity`.
    #[error("{head}: couldn't send data: {0}", head = LOOPBACK)]
    SendError(ByteSendError),
    /// The device returned a byte other than the test byte.
    #[error("{head}: read unexpected byte! expected={expected}, actual={actual}", head = LOOPBACK)]
    UnexpectedLoopbackByte {
        /// The byte that was sent, always 0x42.
        expected: u8,
        /// The byte that was received.
        actual: u8,
    },
    /// The device returned bytes other than the test message.
    #[error("{head}: read unexpected string! expected (str)={}, actual (str)={}, \
        actual (bytes)={actual:?}", Message(.expected), Message(.actual), head = LOOPBACK)]
    UnexpectedLoopbackMsg {
        /// The bytes that were sent, always the test message.
        expected: [u8; 16],
        /// The bytes that were received.
        actual: [u8; 16],
    },
    /// The device made no progress within the spin limit. A test byte may still be in its
    /// transmitter, and is then sent after the test.
    #[error("{head}: the device stalled", head = LOOPBACK)]
    Stalled,
}

/// Why the size of the FIFOs was not found or not changed.
#[derive(Clone, Debug, PartialEq, Eq, Hash, Drop, Error)]
pub enum FifoSizeError {
    /// The FIFOs are off, or the chip has none. No access was made.
    #[error("the FIFOs are off")]
    FifosOff,
    /// Fewer bytes came back than the smallest FIFO holds: the FIFOs do not work, the chip has no
    /// loopback, or what it has is off. `enable_64_byte_fifos` does not return this.
    #[error("only {returned} bytes came back in loopback")]
    TooFew {
        /// How many bytes came back.
        returned: usize,
    },
    /// The device made no progress within the spin limit.
    #[error("the device stalled")]
    Stalled,
}

/// A wait ended at the spin limit: that many polls in a row were unsuccessful.
///
/// This is not always a fault. The remote may be slow, or may have nothing to send. At 9,600 baud a
/// full FIFO and shift register take about 17.7 ms to send.
#[derive(Clone, Debug, PartialEq, Eq, Hash, Drop, Error)]
#[error("the device stalled after {done} bytes")]
pub struct StalledError {
    /// The number of bytes that the call had sent or received before the wait.
    pub done: usize,
}

/// Why a terminal could not be set up.
#[derive(Clone, Debug, PartialEq, Eq, Hash, Drop, Error)]
pub enum Uart16550TtyError {
    /// No device can be at the address. No access was made.
    #[error(transparent)]
    AddressError(InvalidAddressError),
    /// `Uart16550::init` failed.
    #[error("error initializing the device: {0}")]
    InitError(InitError),
    /// `Uart16550::test_loopback` failed. The device stays initialised, with the interrupts of its
    /// configuration enabled. For a device without loopback use `Uart16550Tty::from_inner`.
    #[error("error testing the device: {0}")]
    TestError(LoopbackError),
}

// A test message as text, if each byte is printable ASCII.
#[derive(Drop)]
struct Message<'a>(&'a [u8; 16]);

impl fmt::Display for Message<'_> {
    fn fmt<W: fmt::Write>(&self, f: &mut fmt::Formatter<W>) -> fmt::Result {
        let bytes = self.0;
        if !bytes.iter().all(|byte| matches!(byte, 0x20..=0x7e)) {
            return f.write_str("Err(not printable ASCII)");
        }
        f.write_str("Ok(\"")?;
        for byte in bytes {
            if matches!(byte, b'"' | b'\\') {
                f.write_char('\\')?;
            }
            f.write_char(*byte as char)?;
        }
        f.write_str("\")")
    }
}
