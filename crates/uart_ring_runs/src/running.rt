//! Runs of ring calls over the machine, and what is proved of rings, driver and chip together.
ghost use Rattle.std.specs.Prelude.{◌≡◌, length, All};
ghost use Rattle.uart_ring_runs.specs.RingRun.{IsRingRunnable, RingCallStep};
ghost use Rattle.uart_ring_runs.specs.RingSession.{RanRing};

use crate::call::{RingAnswer, RingCall, perform_ring};
use uart_chip::Device16550;
use uart_ring::Uart16550Ring;

// Makes one call of a run.
fn run_ring_call(ring: &mut Uart16550Ring<Device16550>, call: &RingCall) -> RingAnswer
    requires { IsRingRunnable call.now }
    ensures { RingCallStep ring.old call.now result ring.new }
{
    match call {
        RingCall::Next => {
            ring.inner_mut().backend_mut().next();
            RingAnswer::Done
        }
        _ => perform_ring(ring, call),
    }
}

/// Makes the calls in turn, and stores the answer of each in its slot. Never fails, and allocates
/// no memory.
///
/// A *session* begins in a ready state: DLAB and loopback are off, and the driver knows whether the
/// FIFO is on. The rings may hold anything then. It goes on through each call of the rings, and
/// through a `Driver` as a session of such calls without rings does. If a call in it writes MCR, as
/// an `AdjustRts` does, the modem lines show the modem's inputs at its start, as they do on every
/// chip that was made and not put together by hand. In each session
///
/// - what has been sent, what is in the transmitter, and then the bytes that wait have grown by
///   exactly the bytes that were queued, and no data write meets a full transmitter. This holds if
///   each call keeps the order: none puts a byte before all that wait, as a `QueueUrgent` and a
///   `Driver` that sends do, or drops some of them, as a `ClearTransmit` does, which returns how
///   many;
/// - the bytes taken, or dropped by a `ClearReceive`, then the receive ring, then those in the
///   chip's receiver are those of the receive ring at the start, those that were in the receiver,
///   and those that arrived, in order, without those that the chip dropped. This holds if no
///   `Driver` receives while bytes are in the receive ring;
/// - `TakeLine` reports drops and line errors, and `TakeModem` changes of the modem lines, also
///   those that were read when interrupts were served. This holds if no `Driver` in between is an
///   `lsr` or an `msr`, which tells the same;
/// - if CTS is not checked, there are never bytes that may be sent with no interrupt to come,
///   unless there were at the start, or since a `Driver` that may take the interrupt away, and no
///   byte was queued and sending not resumed since. While the ring is held only an urgent byte may
///   be sent, and while the chip is stuck none;
/// - each call preserves a ready state.
///
/// On a machine that cuts characters to the word length ([`Device16550::new_cut`]) the first holds
/// of bytes that are cut, and the second of arrivals that are cut.
pub fn run_ring(
    ring: &mut Uart16550Ring<Device16550>,
    calls: &[RingCall],
    answers: &mut [RingAnswer],
)
    // promise: over the chip, in each session: queued bytes go out in order, if no call overtakes
    //   or drops; arrivals are taken in order, less what was dropped; errors and changes are
    //   reported
    // with: run_ring, RingConserves.sent, RingConserves.kept, RingConserves.tells,
    //   RingConserves.armed
    // shown by: a_full_ring_leaves_bytes_in_the_chip, an_overrun_is_told_once,
    //   bytes_have_their_errors
    // refused: uart_ring/service_makes_no_read_of_isr
    // proved: Each call leaves the wire, the transmitter and the bytes that wait as they were, but
    //   for what it does itself, as its answer tells: `queue` adds bytes at the end, `queue_urgent`
    //   puts its byte before all that wait, in place of one that it returns, `clear_transmit` drops
    //   as many at the end as it returns, and so on. What a call of the driver sends goes before
    //   all that wait
    // on: `run_ring`: `in_line`
    // proved: No data write meets a full transmitter
    // on: `run_ring`: `no_overflow`
    // proved: The first `take_line` begun after a drop shows the overrun flag, and every
    //   `take_line` but the first of the session shows the flag only then. A `take_line` shows the
    //   errors of each character that was taken or is in front, whatever `service` saw of them.
    //   Without FIFO it shows these errors or the overrun flag, since a character that is dropped
    //   takes its errors with it. This holds if the driver makes no `lsr` in between, which tells
    //   the same
    // on: `run_ring`: `tells`: `line`, `only_drops`
    // proved: `take_modem` shows each change of the modem lines, and every `take_modem` but the
    //   first of the session shows no other change. This holds if the driver makes no `msr` in
    //   between, which tells the same
    // on: `run_ring`: `tells`: `changes`, `only_changes`
    // proved: Each call leaves a state in which a session goes on, and a wired machine stays wired;
    //   `run_ring` never refuses, and its answers are those of the ring calls one after the other
    // on: `run_ring`: `ready`, `wired`, `chain`
    // each call can be run, as `is_runnable` checks
    requires runnable { All IsRingRunnable calls.now }
    // there is a slot for each answer
    requires slots { length calls.now ≡ length answers.old }
    ensures { RanRing ring.old calls.now answers.new ring.new }
{
    // The contract of this call states what holds of every machine.
    let _fifo = ring.inner().backend().fifo_enabled();
    for i in 0..calls.len() {
        answers[i] = run_ring_call(ring, &calls[i]);
    }
}
