//! Ring calls at one end of a cable.
ghost use Rattle.uart_link.specs.Link.{CabledCallStep};
ghost use Rattle.uart_ring_runs.specs.RingRun.{IsOfRings, IsRingRunnable};

use crate::device::CabledChip;
use uart_ring::Uart16550Ring;
use uart_ring_runs::{RingAnswer, RingCall, perform_ring};

/// Makes one ring call. `Next` lets all moments happen, and makes no access.
pub fn make_ring_call(ring: &mut Uart16550Ring<CabledChip>, call: &RingCall) -> RingAnswer
    requires runnable { IsRingRunnable call.now }
    requires of_rings { IsOfRings call.now }
    ensures { CabledCallStep ring.old call.now result ring.new }
{
    match call {
        RingCall::Next => {
            ring.inner_mut().backend_mut().settle();
            RingAnswer::Done
        }
        _ => perform_ring(ring, call),
    }
}
