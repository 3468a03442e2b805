//! Makes a call of the driver, over any backend.
ghost use Rattle.std.specs.Prelude.{◌≡◌, ◌≤◌, length};
ghost use Rattle.uart_spec.specs.Config.{IsComputable};
ghost use Rattle.uart_call.specs.Calls.{IsRunnable};
ghost use Rattle.uart_calls.specs.Meaning.{Called, IsOfDriver, Performed, meaning};
ghost use Rattle.uart_calls.specs.Meaning.{attach_answer, frame_answer, loopback_answer, connected_answer};
ghost use Rattle.uart_calls.specs.Meaning.{frame_when_idle_answer, trigger_answer};
ghost use Rattle.uart_calls.specs.Meaning.{configured_answer};
ghost use Rattle.uart_calls.specs.Meaning.{receive_ready_answer, received_answer, sent_answer};
ghost use Rattle.uart_calls.specs.Meaning.{exact_answer, count_answer, ready_answer};

use arrayvec::ArrayVec;
use bitflags::Flags;
use uart_16550::backend::Backend;
use uart_16550::embedded_io::{Read, ReadReady, Write, WriteReady};
use uart_16550::{Uart16550, Uart16550Tty};
use uart_call::{Answer, CALL_BYTES, Call};
use uart_spec::{
    AttachError, ByteReceiveError, ByteSendError, Config, ConfigurationError, FifosOffError,
    FrameError, InitError, InvalidDivisorError, LoopbackError, Received, RemoteReadyToReceiveError,
    Setup, StalledError,
};

/// Makes one call of the driver, over any backend, and returns its answer. Allocates no memory.
///
/// Returns [`Answer::Done`] if the call succeeded and returned nothing, and else what it returned
/// or received, or why it failed. Waits as the driver's call does.
///
/// For [`Call::Next`] this makes no access and returns `Done`, since a real chip has no schedule.
/// If the device has one, the caller must make that call itself.
///
/// # Examples
///
/// ```
/// perform(uart, &Call::CheckPresent)
/// ```
pub fn perform<B: Backend>(uart: &mut Uart16550Tty<B>, call: &Call) -> Answer
    // promise: a check is a call of a session like others: it moves no byte; and a script and C
    //   tell what was expected and what is shown
    // with: IsWithinSession, perform, render
    // shown by: a_check_is_a_call, checks-what-was-written, each_difference_has_its_line
    // refused: perform_hides_a_difference, perform_checks_other_outputs,
    //   uart_language/what_is_shown_is_what_is_expected
    requires { IsRunnable call.now }
    ensures { Performed B.step uart.old call.now result uart.new }
{
    match call {
        Call::Next => Answer::Done,
        Call::Text(text) => exact(uart.write_text(text.as_str())),
        _ => perform_on_driver(uart.inner_mut(), call),
    }
}

/// Makes one call of a driver that has no terminal around it, as [`perform`] does. This is every
/// call but [`Call::Next`], which is one of a device, and [`Call::Text`], which is one of a
/// terminal.
///
/// # Examples
///
/// ```
/// perform_on_driver(ring.inner_mut(), &Call::Attach)
/// ```
pub fn perform_on_driver<B: Backend>(uart: &mut Uart16550<B>, call: &Call) -> Answer
    requires runnable { IsRunnable call.now }
    requires of_driver { IsOfDriver call.now }
    ensures { Called B.step (meaning call.now) result uart.old uart.new }
{
    match call {
        // No caller gets here: the two are not calls of a driver.
        Call::Next | Call::Text(_) => Answer::Done,
        Call::Init(config) => init(uart, config),
        Call::InitWith(config, setup) => init_with(uart, config, setup),
        Call::SetFrame(config) => framed(uart.set_frame(config)),
        Call::SetFrameWhenIdle(config) => { framed_when_idle(uart.set_frame_when_idle(config)) }
        Call::SetTriggerLevel(level) => levelled(uart.set_trigger_level(*level)),
        Call::Attach => attached(uart.attach()),
        Call::SetBreak(on) => {
            uart.set_break(*on);
            Answer::Done
        }
        Call::SetModemControl(outputs) => {
            uart.set_modem_control(*outputs);
            Answer::Done
        }
        Call::SetRts(on) => {
            uart.set_rts(*on);
            Answer::Done
        }
        Call::SetDtr(on) => {
            uart.set_dtr(*on);
            Answer::Done
        }
        Call::Quiesce(outputs, fifos) => {
            uart.quiesce(*outputs, *fifos);
            Answer::Done
        }
        Call::Restore(dump) => {
            uart.restore(dump);
            Answer::Done
        }
        Call::CheckConfigured(outputs) => configured(uart.check_configured(*outputs)),
        Call::TestLoopback => tested(uart.test_loopback()),
        Call::CheckPresent => Answer::Flag(uart.check_present()),
        Call::CheckConnected => connected(uart.check_connected()),
        Call::ReadyToReceive => receive_ready(uart.ready_to_receive()),
        Call::ReadyToSend => sent(uart.ready_to_send()),
        Call::TryReceive => received(uart.try_receive_byte()),
        Call::Flush => exact(uart.flush()),
        Call::ReadReady => ready(uart.read_ready()),
        Call::WriteReady => ready(uart.write_ready()),
        Call::Ier => Answer::Register(uart.ier().bits()),
        Call::Isr => Answer::Register(uart.isr().bits()),
        Call::Lcr => Answer::Register(uart.lcr().bits()),
        Call::Mcr => Answer::Register(uart.mcr().bits()),
        Call::Lsr => Answer::Register(uart.lsr().bits()),
        Call::Msr => Answer::Register(uart.msr().bits()),
        Call::PeekModem => Answer::Register(uart.peek_modem().bits()),
        Call::IsIdle => Answer::Flag(uart.is_idle()),
        Call::Spr => Answer::Register(uart.spr()),
        Call::DllDlm => {
            let (dll, dlm) = uart.dll_dlm();
            Answer::Latch(dll, dlm)
        }
        Call::FifoEnabled => Answer::Flag(uart.fifo_enabled()),
        Call::Dump => Answer::Dump(uart.config_register_dump()),
        Call::TrySend(byte) => sent(uart.try_send_byte(*byte)),
        Call::Enable(interrupts) => {
            uart.enable_interrupts(*interrupts);
            Answer::Done
        }
        Call::Disable(interrupts) => {
            uart.disable_interrupts(*interrupts);
            Answer::Done
        }
        Call::RetriggerInterrupts => {
            uart.retrigger_interrupts();
            Answer::Done
        }
        Call::Receive(slots) => receive(uart, &mut [0; CALL_BYTES][..*slots]),
        Call::ReceiveExact(slots) => receive_exact(uart, &mut [0; CALL_BYTES][..*slots]),
        Call::ReceiveWithErrors(slots) => receive_with_errors(
            uart,
            &mut [Received::default(); CALL_BYTES][..*slots],
        ),
        Call::Read(slots) => read(uart, &mut [0; CALL_BYTES][..*slots]),
        Call::Send(bytes) => Answer::Count(uart.send_bytes(bytes.as_slice())),
        Call::SendExact(bytes) => exact(uart.send_bytes_exact(bytes.as_slice())),
        Call::Write(bytes) => counted(uart.write(bytes.as_slice())),
    }
}

// Returns a copy of these items, for an answer.
fn copied<T: Copy + Default>(items: &[T]) -> ArrayVec<T, CALL_BYTES>
    requires { length items.now ≤ CALL_BYTES }
    ensures { result.items ≡ items.now }
{
    let mut copy = ArrayVec::new();
    for item in items {
        let _ = copy.try_push(*item);
    }
    copy
}

fn init<B: Backend>(uart: &mut Uart16550<B>, config: &Config) -> Answer
    requires { IsComputable config.now }
    ensures { Called B.step (meaning (Call.Init config.now)) result uart.old uart.new }
{
    match uart.init(Config { ..*config }) {
        Ok(()) => Answer::Done,
        Err(error) => Answer::InitRefused(error),
    }
}

fn init_with<B: Backend>(uart: &mut Uart16550<B>, config: &Config, setup: &Setup) -> Answer
    requires { IsComputable config.now }
    ensures { Called B.step (meaning (Call.InitWith config.now setup.now)) result
        uart.old uart.new }
{
    match uart.init_with(Config { ..*config }, setup) {
        Ok(()) => Answer::Done,
        Err(error) => Answer::InitRefused(error),
    }
}

// Calls that receive into slots.
fn receive<B: Backend>(uart: &mut Uart16550<B>, slots: &mut [u8]) -> Answer
    requires { length slots.old ≤ CALL_BYTES }
    ensures { Called B.step (meaning (Call.Receive (length slots.old))) result uart.old uart.new }
{
    let count = uart.receive_bytes(slots);
    Answer::Bytes(copied(&slots[..count]))
}

fn receive_exact<B: Backend>(uart: &mut Uart16550<B>, slots: &mut [u8]) -> Answer
    requires { length slots.old ≤ CALL_BYTES }
    ensures { Called B.step (meaning (Call.ReceiveExact (length slots.old))) result
        uart.old uart.new }
{
    match uart.receive_bytes_exact(slots) {
        Ok(()) => Answer::Bytes(copied(slots)),
        Err(stall) => Answer::ReceiveStalled(copied(&slots[..stall.done])),
    }
}

fn receive_with_errors<B: Backend>(uart: &mut Uart16550<B>, slots: &mut [Received]) -> Answer
    requires { length slots.old ≤ CALL_BYTES }
    ensures { Called B.step (meaning (Call.ReceiveWithErrors (length slots.old))) result
        uart.old uart.new }
{
    let count = uart.receive_with_errors(slots);
    Answer::BytesWithErrors(copied(&slots[..count]))
}

fn read<B: Backend>(uart: &mut Uart16550<B>, slots: &mut [u8]) -> Answer
    requires { length slots.old ≤ CALL_BYTES }
    ensures { Called B.step (meaning (Call.Read (length slots.old))) result uart.old uart.new }
{
    match uart.read(slots) {
        Ok(count) => Answer::Bytes(copied(&slots[..count])),
        Err(stall) => Answer::Stalled(stall.done),
    }
}

fn framed(outcome: Result<(), InvalidDivisorError>) -> Answer
    ensures { result ≡ frame_answer outcome }
{
    match outcome {
        Ok(()) => Answer::Done,
        Err(error) => Answer::FrameRefused(error),
    }
}

fn framed_when_idle(outcome: Result<(), FrameError>) -> Answer
    ensures { result ≡ frame_when_idle_answer outcome }
{
    match outcome {
        Ok(()) => Answer::Done,
        Err(error) => Answer::FrameWhenIdleRefused(error),
    }
}

fn levelled(outcome: Result<(), FifosOffError>) -> Answer
    ensures { result ≡ trigger_answer outcome }
{
    match outcome {
        Ok(()) => Answer::Done,
        Err(_) => Answer::FifosOff,
    }
}

fn attached(outcome: Result<(u8, u8), AttachError>) -> Answer
    ensures { result ≡ attach_answer outcome }
{
    match outcome {
        Ok((dll, dlm)) => Answer::Latch(dll, dlm),
        Err(error) => Answer::AttachRefused(error),
    }
}

fn configured(outcome: Result<(), ConfigurationError>) -> Answer
    ensures { result ≡ configured_answer outcome }
{
    match outcome {
        Ok(()) => Answer::Done,
        Err(error) => Answer::NotConfigured(error),
    }
}

fn tested(outcome: Result<(), LoopbackError>) -> Answer
    ensures { result ≡ loopback_answer outcome }
{
    match outcome {
        Ok(()) => Answer::Done,
        Err(error) => Answer::LoopbackRefused(error),
    }
}

fn connected(outcome: Result<(), RemoteReadyToReceiveError>) -> Answer
    ensures { result ≡ connected_answer outcome }
{
    match outcome {
        Ok(()) => Answer::Done,
        Err(error) => Answer::NotConnected(error),
    }
}

fn receive_ready(outcome: Result<(), ByteReceiveError>) -> Answer
    ensures { result ≡ receive_ready_answer outcome }
{
    match outcome {
        Ok(()) => Answer::Done,
        Err(_) => Answer::NoData,
    }
}

fn received(outcome: Result<u8, ByteReceiveError>) -> Answer
    ensures { result ≡ received_answer outcome }
{
    match outcome {
        Ok(byte) => Answer::Register(byte),
        Err(_) => Answer::NoData,
    }
}

fn sent(outcome: Result<(), ByteSendError>) -> Answer
    ensures { result ≡ sent_answer outcome }
{
    match outcome {
        Ok(()) => Answer::Done,
        Err(error) => Answer::NotSent(error),
    }
}

fn exact(outcome: Result<(), StalledError>) -> Answer
    ensures { result ≡ exact_answer outcome }
{
    match outcome {
        Ok(()) => Answer::Done,
        Err(stall) => Answer::Stalled(stall.done),
    }
}

fn counted(outcome: Result<usize, StalledError>) -> Answer
    ensures { result ≡ count_answer outcome }
{
    match outcome {
        Ok(count) => Answer::Count(count),
        Err(stall) => Answer::Stalled(stall.done),
    }
}

fn ready(outcome: Result<bool, StalledError>) -> Answer
    ensures { result ≡ ready_answer outcome }
{
    match outcome {
        Ok(ready) => Answer::Flag(ready),
        Err(stall) => Answer::Stalled(stall.done),
    }
}
