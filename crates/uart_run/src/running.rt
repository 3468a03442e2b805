//! Runs of calls over the machine.
ghost use Rattle.std.specs.Prelude.{◌≡◌, length, All};
ghost use Rattle.uart_call.specs.Calls.{IsRunnable};
ghost use Rattle.uart_run.specs.Session.{Ran};
ghost use Rattle.uart_run.specs.Uncut.{IsUncut, RanUncut};
ghost use Rattle.uart_run.specs.Run.{CallStep};

use uart_16550::Uart16550Tty;
use uart_calls::{Answer, Call, perform};
use uart_chip::Device16550;

// Makes one call of a run.
fn run_call(uart: &mut Uart16550Tty<Device16550>, call: &Call) -> Answer
    requires { IsRunnable call.now }
    ensures { CallStep uart.old call.now result uart.new }
{
    match call {
        Call::Next => {
            uart.inner_mut().backend_mut().next();
            Answer::Done
        }
        _ => perform(uart, call),
    }
}

/// Makes the calls in turn, and stores the answer of each in its slot. Never fails, and allocates
/// no memory.
///
/// A *session* begins in a ready state, and goes on up to a call that ends it: `docs/PROVED.md` of
/// the repository says which states and calls these are. A new machine is wired, so its modem lines
/// are its inputs; so is one after an `Init` or an `InitWith` that succeeds, and every call keeps
/// that. In each session
///
/// - the wire and the transmitter grow by exactly the bytes that sends reported;
/// - no data write meets a full transmitter;
/// - the bytes received, and then those in the receiver, are those that were in the receiver at the
///   start and those that arrived, in order, without those that were dropped;
/// - no break is on the line if there was none at the start. There is none after an `Init` or an
///   `InitWith` that succeeds.
///
/// The machine sends what is shifted out in a break, and a line loses it. So of a session that
/// begins in a break the wire is none.
///
/// On a machine that cuts characters to the word length ([`Device16550::new_cut`]) this holds with
/// the bytes that sends reported and those that arrived cut in this way. The clause `uncut` states
/// it without cutting, for every other machine. There a session goes on through a
/// `SetFrameWhenIdle`, which waits until the transmitter is empty.
///
/// A `SetFrame` or a `SetFrameWhenIdle` that succeeds leaves LCR and the divisor latch as
/// configured, and the other latches and the FIFO as they were. A `SetTriggerLevel` that succeeds
/// in a ready state sets the level of the receiver. An `Attach` that succeeds leaves a ready
/// state, whatever the machine was before, and changes no latch. A `Restore` leaves one too, with
/// the registers as in the dump. For both the driver has to take the FIFO for no larger than it
/// is, and no call changes for how large it takes it. After a `Quiesce` in a ready state the chip
/// raises no interrupt. A `SetModemControl`, a `SetRts` and a `SetDtr` leave the outputs as they
/// were asked for, without loopback, and change no other register. A `CheckConfigured` succeeds
/// exactly if the registers are as the driver's configuration says, with the outputs that it
/// names. An `IsIdle` that is true found the transmitter empty, and all that was in it on the
/// wire, and so did a `SetFrameWhenIdle` that succeeds. With the FIFO on, each byte of a
/// `ReceiveWithErrors` comes with exactly the errors that it arrived with, unless an earlier look
/// has shown those of the first.
///
/// An `Init` or an `InitWith` finds the device. If it succeeds, the state after it is ready,
/// whatever the machine was before, if the driver takes the FIFO for no larger than it is. A
/// `TestLoopback` in a ready state succeeds or stalls, and if it succeeds, nothing of it went to
/// the wire. With characters of 5 or 6 bits it reports an unexpected byte instead of success.
/// Every call preserves a ready state, whatever its answer is.
///
/// If each access of the schedule has a tick before it, the spin limit is at least n (t + 1) for a
/// character of t ticks and a transmitter that holds at most n, which is 17 with a FIFO of 16, and
/// the wire has room for all that is to be sent, then an `Init` and an `InitWith` with a divisor
/// succeed, and in a ready state so do a `SetFrameWhenIdle` with one, `Attach`, `TestLoopback`,
/// `Flush` and, without CTS checking, `SendExact`, `Write` and `Text`. On a chip that has automatic
/// flow control it is to be off, since the other end may hold such a chip off for ever: an `Init`
/// turns it off, and an `InitWith` is not to turn it on.
///
/// # Examples
///
/// ```
/// let mut answers = [Answer::Done];
/// run(uart, &[Call::Init(config)], &mut answers);
/// matches!(&answers[0], Answer::Done)
/// ```
pub fn run(uart: &mut Uart16550Tty<Device16550>, calls: &[Call], answers: &mut [Answer])
    // promise: the wire and the transmitter grow by exactly the bytes that sends reported, in order
    // with: run.ran, run.uncut, Conserves.sent, ConservesUncut.sent
    // shown by: send, burst, stall
    // refused: uart_16550/send_bytes_bursts_without_fifo, uart_chip/wire_full_drops,
    //   uart_16550/dll_dlm_leaves_dlab_set
    // promise: a machine that cuts characters does this with bytes cut to the word length; with 5
    //   or 6 data bits the loopback test fails on it
    // with: run.ran, Conserves.sent
    // shown by: cuts-to-five-bits, cuts-what-arrives, fails-the-test-with-five-bits
    // refused: uart_chip/arrivals_are_not_cut
    // proved: `init` never reports that there is no device. One that returns Ok, from whatever
    //   state of the machine, leaves a state in which a session begins, and a wired machine: the
    //   divisor, the frame and the interrupts as configured, MCR 0B, an empty transmitter, and the
    //   FIFO on exactly if a level is configured and the chip has a FIFO, which is what the driver
    //   takes it to be
    // proved: A `set_modem_control` leaves the outputs as they were asked for, and a `set_rts` or a
    //   `set_dtr` that one of them, with the others as they were. Loopback is off afterwards, and
    //   no other register has changed
    // on: `run`: `SetsOutputs`, `Switches`
    // proved: A `set_frame` that returns Ok leaves LCR and the divisor latch as configured, and all
    //   other latches and the FIFO as they were; one that is refused leaves the machine as it was.
    //   The same holds of a `set_frame_when_idle`, but that one that stalls has polled; after one
    //   that returns Ok the transmitter is empty, and what it held is on the wire. A session ends
    //   at a `set_frame`, since what is in the transmitter then goes out in the new frame; on a
    //   machine that does not cut characters it goes on through a `set_frame_when_idle`
    // on: `run`, clauses `ran` and `uncut`
    // proved: An `init_with` never reports that there is no device. One that returns Ok leaves what
    //   an `init` leaves, but MCR has the outputs that were asked for, and the transmitter is empty
    //   if there was a wait
    // proved: A session goes on through a `set_trigger_level`. One that returns Ok, in a state in
    //   which a session may begin, sets the level of the receiver, and one that is refused leaves
    //   the machine as it was
    // proved: After a `quiesce` in a state in which a session may begin no interrupt is enabled, so
    //   the chip raises none; MCR has the outputs that were asked for, and the FIFO stays as it is
    //   or is off. A session goes on through one that keeps the FIFOs, if it began with a wired
    //   machine: no byte is lost
    // proved: A `restore` leaves a state in which a session may begin, whatever the machine was
    //   before: the registers as the dump shows them, without DLAB and loopback, and the FIFO on
    //   exactly if the dump shows it and the chip has one
    // proved: An `attach` that returns a divisor leaves a state in which a session may begin,
    //   whatever the machine was before; no latch changes, and the divisor is the machine's, and
    //   not 0. One that answers `NoDivisor` leaves all latches as they were, and the divisor is 0;
    //   from a state in which a session may begin it answers so wherever the divisor is 0. A
    //   session goes on through an `attach`: no byte is lost
    // each call can be run, as `is_runnable` checks
    requires runnable { All IsRunnable calls.now }
    // there is a slot for each answer
    requires slots { length calls.now ≡ length answers.old }
    ensures ran { Ran uart.old calls.now answers.new uart.new }
    ensures uncut { IsUncut uart.old → RanUncut uart.old calls.now answers.new uart.new }
{
    // The contract of this call states what holds of every machine, whatever was done with it
    // before. Without the call each caller of `run` would have to bring that as a premise.
    let _fifo = uart.inner().backend().fifo_enabled();
    for i in 0..calls.len() {
        answers[i] = run_call(uart, &calls[i]);
    }
}
