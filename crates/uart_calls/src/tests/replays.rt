//! Calls over a replay, and what the replay then shows: a list of the call, whose reads returned
//! the bytes of the replay in turn. So over any other backend too the accesses of a call are known
//! from the driver's fields and what its reads return.
#![tactic(auto, using(crate::proofs::Replays::made_replay))]

ghost use Rattle.uart_call.specs.Calls.{IsRunnable};
ghost use Rattle.uart_calls.specs.Meaning.{meaning};
ghost use Rattle.uart_16550.specs.Driver.{Saving};
ghost use Rattle.uart_16550.specs.Expansion.{SendsStr};
ghost use Rattle.uart_calls.specs.Replay.{Replayed};
ghost use Rattle.uart_16550.specs.Tty.{inner_of};
ghost use Rattle.uart_calls.specs.Replays.{CallReplayed};

use super::assert_equal;
use crate::Answer::{
    self, AttachRefused, Bytes, BytesWithErrors, Count, Done, Flag, InitRefused, Latch,
    LoopbackRefused, NoData, NotConfigured, NotConnected, ReceiveStalled, Register, Stalled,
};
use crate::Call::{
    self, CheckConnected, CheckPresent, Disable, DllDlm, Dump, Enable, Flush, Init, ReadReady,
    ReadyToReceive, ReadyToSend, Receive, ReceiveExact, ReceiveWithErrors, RetriggerInterrupts,
    Send, SendExact, TestLoopback, TryReceive, TrySend, Write, WriteReady,
};
use crate::replay::Replay;
use crate::{CALL_BYTES, perform};
use arrayvec::{ArrayString, ArrayVec};
use bitflags::Flags;
use std::fmt;
use std::num::NonZeroU64;
use std::process::Abort;
use uart_16550::{ConfigRegisterDump, Uart16550, Uart16550Tty};
use uart_spec::AttachError::NoDivisor;
use uart_spec::ConfigurationError::LineControl;
use uart_spec::InitError::DeviceNotPresent;
use uart_spec::RemoteReadyToReceiveError::RemoteNotClearToSend;
use uart_spec::access::Access;
use uart_spec::registers::{FifoTriggerLevel, IER, ISR, LCR, LSR, MCR, MSR, offsets};
use uart_spec::{Config, FifoAction, LoopbackError, Received, Setup};

// A driver under a terminal, over a device whose reads return listed bytes.
type Replaying<'a> = Uart16550Tty<Replay<'a>>;

fn replayed(terminal: &mut Replaying<'_>, call: &Call) -> Answer
    requires { IsRunnable call.now }
    ensures { CallReplayed (meaning call.now) result (inner_of terminal.old)
        (inner_of terminal.new) }
{
    perform(terminal, call)
}

fn write_str(terminal: &mut Replaying<'_>, text: &str) -> fmt::Result
    ensures { Replayed (Saving (SendsStr text.now result)) (inner_of terminal.old)
        (inner_of terminal.new) }
{
    fmt::Write::write_str(terminal, text)
}

// Returns these bytes, for a call or an answer; none if there are too many.
fn bytes(slice: &[u8]) -> ArrayVec<u8, CALL_BYTES> {
    let mut bytes = ArrayVec::new();
    let _ = bytes.try_extend_from_slice(slice);
    bytes
}

// Returns these bytes with their errors, for an answer; none of those that are too many.
fn with_errors(items: &[(u8, u8)]) -> ArrayVec<Received, CALL_BYTES> {
    let mut received = ArrayVec::new();
    for (byte, errors) in items {
        let _ = received.try_push(Received {
            byte: *byte,
            errors: LSR::from_bits_retain(*errors),
        });
    }
    received
}

// Returns `write_text` of this text.
fn text(text: &str) -> Call {
    let mut copy = ArrayString::new();
    let _ = copy.try_push_str(text);
    Call::Text(copy)
}

// Returns a dump that shows these registers, from IER to SPR, and this divisor latch.
fn dump(registers: [u8; 7], dll: u8, dlm: u8) -> ConfigRegisterDump {
    let [ier, isr, lcr, mcr, lsr, msr, spr] = registers;
    ConfigRegisterDump {
        ier: IER::from_bits_retain(ier),
        isr: ISR::from_bits_retain(isr),
        lcr: LCR::from_bits_retain(lcr),
        mcr: MCR::from_bits_retain(mcr),
        lsr: LSR::from_bits_retain(lsr),
        msr: MSR::from_bits_retain(msr),
        spr,
        dll,
        dlm,
    }
}

// Returns the number of accesses, if all of them were kept.
fn kept(terminal: &Replaying<'_>) -> Option<usize> {
    let accesses = terminal.inner().backend().accesses()?;
    Some(accesses.len())
}

// Asserts that the call returns this answer, and that this number of accesses was made.
fn shows(rt: &impl Abort, terminal: &mut Replaying<'_>, call: Call, answer: Answer, count: usize) {
    assert!(rt; call.is_runnable());
    assert_eq!(rt; replayed(terminal, &call), answer, "{call:?}");
    assert_eq!(rt; kept(terminal), Some(count), "{call:?}");
}

// Returns a new driver over a replay of these bytes, with this spin limit.
fn replay(answers: &[u8], limit: u64) -> Replaying<'_> {
    let mut uart = Uart16550::new_with_backend(Replay::new(answers));
    if let Some(limit) = NonZeroU64::new(limit) {
        uart.set_spin_limit(limit);
    }
    Uart16550Tty::from_inner(uart)
}

#[test]
fn a_replay_shows_what_a_call_does(rt: HostRuntime) {
    let mut terminal = replay(&[0x00, 0x20], 3);
    shows(&rt, &mut terminal, SendExact(bytes(b"hi")), Done, 4);
    let accesses = [
        Access::Read(offsets::LSR, 0x00),
        Access::Read(offsets::LSR, 0x20),
        Access::Write(offsets::DATA, b'h'),
        Access::Write(offsets::DATA, b'i'),
    ];
    assert_equal(
        &rt,
        terminal.inner().backend().accesses(),
        Some(accesses.as_slice()),
    );
}

#[test]
fn a_replay_says_that_it_is_full(rt: HostRuntime) {
    let mut terminal = replay(&[], 512);
    shows(&rt, &mut terminal, Flush, Stalled(0), 512);
    assert_equal(&rt, replayed(&mut terminal, &ReadReady), Flag(false));
    assert_equal(&rt, kept(&terminal), None);
}

#[test]
fn looks_and_registers_over_a_replay(rt: HostRuntime) {
    // Each read returns 60: there is room, and no data.
    let mut terminal = replay(&[0x60; 64], 3);
    for (call, answer, count) in [
        (CheckPresent, Flag(false), 4),
        (CheckConnected, NotConnected(RemoteNotClearToSend), 5),
        (ReadyToReceive, NoData, 6),
        (ReadyToSend, Done, 7),
        (ReadReady, Flag(false), 8),
        (WriteReady, Flag(true), 9),
        (Enable(IER::empty()), Done, 11),
        (Disable(IER::empty()), Done, 13),
        (Call::Ier, Register(0x60), 14),
        (Call::Isr, Register(0x60), 15),
        (Call::Lcr, Register(0x60), 16),
        (Call::Mcr, Register(0x60), 17),
        (Call::Lsr, Register(0x60), 18),
        (Call::Msr, Register(0x60), 19),
        (Call::Spr, Register(0x60), 20),
        (DllDlm, Latch(0x60, 0x60), 25),
        (Dump, Answer::Dump(dump([0x60; 7], 0x60, 0x60)), 37),
        (RetriggerInterrupts, Done, 40),
        (Call::PeekModem, Register(0x60), 41),
        (Call::IsIdle, Flag(true), 42),
        (Call::SetBreak(true), Done, 44),
        (Call::SetRts(true), Done, 46),
        (Call::SetDtr(false), Done, 48),
        (Call::SetTriggerLevel(FifoTriggerLevel::One), Done, 49),
        (Call::Quiesce(MCR::empty(), FifoAction::Keep), Done, 51),
        (Call::SetFrameWhenIdle(Config::DEFAULT), Done, 56),
        (Call::Restore(dump([0x60; 7], 0x60, 0x60)), Done, 67),
        (
            Call::InitWith(Config::DEFAULT, Setup::DEFAULT),
            InitRefused(DeviceNotPresent),
            71,
        ),
        (Call::Attach, Latch(0x60, 0x60), 79),
        (
            Call::CheckConfigured(MCR::READY),
            NotConfigured(LineControl {
                expected: LCR::from_bits_retain(0x03),
                shown: LCR::from_bits_retain(0x60),
            }),
            80,
        ),
        (Call::SetFrame(Config::DEFAULT), Done, 84),
        (Call::SetModemControl(MCR::READY), Done, 85),
    ] {
        shows(&rt, &mut terminal, call, answer, count);
    }
}

#[test]
fn a_bus_of_zeros_is_not_attached(rt: HostRuntime) {
    let mut terminal = replay(&[0x00; 5], 3);
    let refused = AttachRefused(NoDivisor);
    // LCR, MCR, and the divisor latch under DLAB: ISR is not read.
    shows(&rt, &mut terminal, Call::Attach, refused, 7);
    assert!(rt; terminal.inner().fifo_enabled());
}

#[test]
fn bytes_over_a_replay(rt: HostRuntime) {
    let mut terminal = replay(&[0x60; 64], 3);
    for (call, answer, count) in [
        (TryReceive, NoData, 1),
        (TrySend(b'a'), Done, 3),
        (Receive(2), Bytes(bytes(b"")), 4),
        (Send(bytes(b"hi")), Count(2), 7),
        (ReceiveExact(2), ReceiveStalled(bytes(b"")), 10),
        (SendExact(bytes(b"hi")), Done, 13),
        (Call::Read(2), Stalled(0), 16),
        (Write(bytes(b"hi")), Count(2), 19),
        (Flush, Done, 20),
        (Init(Config::DEFAULT), InitRefused(DeviceNotPresent), 24),
        // The transmitter is empty, the FIFO off, the byte sent, and none returns.
        (TestLoopback, LoopbackRefused(LoopbackError::Stalled), 42),
        (text("a"), Done, 44),
        (ReceiveWithErrors(2), BytesWithErrors(with_errors(&[])), 45),
    ] {
        shows(&rt, &mut terminal, call, answer, count);
    }
    assert_equal(&rt, write_str(&mut terminal, "a"), Ok(()));
    assert_equal(&rt, kept(&terminal), Some(47));
}
