//! Calls of a driver, and their answers.

ghost use Rattle.std.specs.Prelude.{◌↔◌, IsTrue};
ghost use Rattle.uart_call.specs.Calls.{IsRunnable};

use arrayvec::{ArrayString, ArrayVec};
use uart_spec::registers::{FifoTriggerLevel, IER, MCR};
use uart_spec::{
    AttachError, ByteSendError, Config, ConfigRegisterDump, ConfigurationError, FifoAction,
    FrameError, InitError, InvalidDivisorError, LoopbackError, Received, RemoteReadyToReceiveError,
    Setup,
};

/// The most bytes that a call sends or receives.
pub const CALL_BYTES: usize = 64;

/// A call of the driver as data, in a script or in a program.
///
/// Each case is the driver's call of that name, except for `Next`, which is a call of the device. A
/// count is a number of slots, at most [`CALL_BYTES`].
#[derive(Debug, PartialEq, Drop)]
pub enum Call {
    /// `Device16550::next`: goes on to the next mark of the schedule.
    Next,
    /// `Uart16550::init` with this configuration, which must be computable.
    Init(Config),
    /// `Uart16550::init_with` with this configuration, which must be computable, and this setup.
    InitWith(Config, Setup),
    /// `Uart16550::set_frame` with this configuration, which must be computable.
    SetFrame(Config),
    /// `Uart16550::set_frame_when_idle` with this configuration, which must be computable.
    SetFrameWhenIdle(Config),
    /// `Uart16550::set_trigger_level`.
    SetTriggerLevel(FifoTriggerLevel),
    /// `Uart16550::attach`.
    Attach,
    /// `Uart16550::set_break`.
    SetBreak(bool),
    /// `Uart16550::set_modem_control` with these outputs.
    SetModemControl(MCR),
    /// `Uart16550::set_rts`.
    SetRts(bool),
    /// `Uart16550::set_dtr`.
    SetDtr(bool),
    /// `Uart16550::quiesce` with these outputs.
    Quiesce(MCR, FifoAction),
    /// `Uart16550::restore` of this dump.
    Restore(ConfigRegisterDump),
    /// `Uart16550::check_configured` with these outputs.
    CheckConfigured(MCR),
    /// `Uart16550::test_loopback`.
    TestLoopback,
    /// `Uart16550::check_present`.
    CheckPresent,
    /// `Uart16550::check_connected`.
    CheckConnected,
    /// `Uart16550::ready_to_receive`.
    ReadyToReceive,
    /// `Uart16550::ready_to_send`.
    ReadyToSend,
    /// `Uart16550::try_receive_byte`.
    TryReceive,
    /// `flush` of the trait `Write`.
    Flush,
    /// `read_ready` of the trait `ReadReady`.
    ReadReady,
    /// `write_ready` of the trait `WriteReady`.
    WriteReady,
    /// `Uart16550::ier`.
    Ier,
    /// `Uart16550::isr`.
    Isr,
    /// `Uart16550::lcr`.
    Lcr,
    /// `Uart16550::mcr`.
    Mcr,
    /// `Uart16550::lsr`.
    Lsr,
    /// `Uart16550::msr`.
    Msr,
    /// `Uart16550::peek_modem`.
    PeekModem,
    /// `Uart16550::is_idle`.
    IsIdle,
    /// `Uart16550::spr`.
    Spr,
    /// `Uart16550::dll_dlm`.
    DllDlm,
    /// `Uart16550::fifo_enabled`.
    FifoEnabled,
    /// `Uart16550::config_register_dump`.
    Dump,
    /// `Uart16550::try_send_byte` of this byte.
    TrySend(u8),
    /// `Uart16550::enable_interrupts` with these interrupts.
    Enable(IER),
    /// `Uart16550::disable_interrupts` with these interrupts.
    Disable(IER),
    /// `Uart16550::retrigger_interrupts`.
    RetriggerInterrupts,
    /// `Uart16550::receive_bytes` into this number of slots.
    Receive(usize),
    /// `Uart16550::receive_bytes_exact` into this number of slots.
    ReceiveExact(usize),
    /// `Uart16550::receive_with_errors` into this number of slots.
    ReceiveWithErrors(usize),
    /// `read` of the trait `Read`, into this number of slots.
    Read(usize),
    /// `Uart16550::send_bytes` of these bytes.
    Send(ArrayVec<u8, CALL_BYTES>),
    /// `Uart16550::send_bytes_exact` of these bytes.
    SendExact(ArrayVec<u8, CALL_BYTES>),
    /// `write` of the trait `Write`, of these bytes.
    Write(ArrayVec<u8, CALL_BYTES>),
    /// `Uart16550Tty::write_text` of this text.
    Text(ArrayString<CALL_BYTES>),
}

impl Call {
    /// Returns whether the call can be made: a count is at most [`CALL_BYTES`], and a configuration
    /// is computable.
    pub fn is_runnable(&self) -> bool
        // proved: Which calls as data can be run, and how many bytes one has at most: 64
        // on: `Call::is_runnable`, `laws::limits_are_these`
        ensures { IsTrue result ↔ IsRunnable self.now }
    {
        match self {
            Call::Init(config)
            | Call::InitWith(config, _)
            | Call::SetFrame(config)
            | Call::SetFrameWhenIdle(config) => config.is_computable(),
            Call::Receive(count)
            | Call::ReceiveExact(count)
            | Call::ReceiveWithErrors(count)
            | Call::Read(count) => *count <= CALL_BYTES,
            _ => true,
        }
    }
}

/// The answer of a call: what it returned or received, or why it failed.
#[derive(Debug, PartialEq, Drop)]
pub enum Answer {
    /// The call succeeded, and returned nothing.
    Done,
    /// Yes or no: the result of `CheckPresent`, `ReadReady`, `WriteReady`, `IsIdle` or
    /// `FifoEnabled`.
    Flag(bool),
    /// The number of bytes that were sent.
    Count(usize),
    /// The bytes that were received.
    Bytes(ArrayVec<u8, CALL_BYTES>),
    /// The bytes that were received, each with its errors.
    BytesWithErrors(ArrayVec<Received, CALL_BYTES>),
    /// The value of a register, or the byte of a `TryReceive`.
    Register(u8),
    /// The divisor latch: DLL and DLM. Also of an `Attach`.
    Latch(u8, u8),
    /// The values of all registers.
    Dump(ConfigRegisterDump),
    /// A wait reached the spin limit, after this number of bytes.
    Stalled(usize),
    /// A wait of a `ReceiveExact` reached the spin limit, after these bytes.
    ReceiveStalled(ArrayVec<u8, CALL_BYTES>),
    /// Why an `Init` or an `InitWith` failed.
    InitRefused(InitError),
    /// Why a `SetFrame` failed.
    FrameRefused(InvalidDivisorError),
    /// Why a `SetFrameWhenIdle` failed.
    FrameWhenIdleRefused(FrameError),
    /// The FIFOs are off, so that a `SetTriggerLevel` changed nothing.
    FifosOff,
    /// Why an `Attach` failed.
    AttachRefused(AttachError),
    /// What a `CheckConfigured` found wrong.
    NotConfigured(ConfigurationError),
    /// Why a `TestLoopback` failed.
    LoopbackRefused(LoopbackError),
    /// Why a `CheckConnected` failed.
    NotConnected(RemoteReadyToReceiveError),
    /// No received byte is available.
    NoData,
    /// Why no byte can be sent.
    NotSent(ByteSendError),
}
