//! Runs of calls over a link.
ghost use Rattle.std.specs.Prelude.{◌≡◌, ◌≤◌, length, All, IfOk, IfErr};
ghost use Rattle.uart_link.specs.Cable.{arranged};
ghost use Rattle.uart_link.specs.Carried.{IsJoined};
ghost use Rattle.uart_link.specs.Link.{ChangesMachine, EndStep, IsLinkRunnable, LinkCallStep};
ghost use Rattle.uart_link.specs.Parts.{RanLink};
ghost use Rattle.uart_link.specs.declared.call.TheConstants.{CALL_MOMENTS};
ghost use Rattle.uart_ring_runs.specs.RingRun.{IsOfRings, IsRingRunnable, ring_machine};

use crate::call::{CALL_MOMENTS, LinkCall, Moment, Side};
use crate::device::CabledChip;
use crate::ring_call::make_ring_call;
use uart_ring::Uart16550Ring;
use uart_ring_runs::{RingAnswer, RingCall};

/// The rings at the two ends of a cable.
#[derive(Drop)]
pub struct Link {
    /// The rings at the left end.
    pub left: Uart16550Ring<CabledChip>,
    /// The rings at the right end.
    pub right: Uart16550Ring<CabledChip>,
}

impl Link {
    /// Joins the rings at two ends by a cable, on which nothing has come to either end yet. The
    /// chips may have been initialised, and may have sent bytes.
    ///
    /// # Errors
    ///
    /// Returns the rings, if a character has arrived at one of the chips before, or a moment lies
    /// ahead of it.
    ///
    /// # Examples
    ///
    /// ```
    /// let Ok(mut link) = Link::new(left, right) else {
    ///     return Err(LinkError::Used);
    /// };
    /// ```
    pub fn new(
        left: Uart16550Ring<CabledChip>,
        right: Uart16550Ring<CabledChip>,
    ) -> Result<Self, (Uart16550Ring<CabledChip>, Uart16550Ring<CabledChip>)>
        // proved: Rings at two ends are joined, if nothing has come to either chip yet; else they
        //   are returned as they were
        // on: `Link::new`: `joined`, `ends`, `refused`
        ensures joined { IfOk result (λ link. IsJoined link) }
        ensures ends { IfOk result (λ link. (link.left ≡ left) × (link.right ≡ right)) }
        ensures refused { IfErr result (λ rings. rings ≡ (left, right)) }
    {
        let is_untouched = left.inner().backend().is_untouched();
        if is_untouched && right.inner().backend().is_untouched() {
            Ok(Link { left, right })
        } else {
            Err((left, right))
        }
    }
}

// Puts these moments ahead of one end, with what comes from the other.
fn arrange(
    here: &mut Uart16550Ring<CabledChip>,
    there: &Uart16550Ring<CabledChip>,
    moments: &[Moment],
)
    requires { length moments.now ≤ CALL_MOMENTS }
    ensures { ChangesMachine (arranged moments.now (ring_machine there.now).chip
        (ring_machine here.old)) here.old here.new }
{
    let other = there.inner().backend();
    here.inner_mut().backend_mut().arrange(moments, other);
}

// Makes a call at one end, with these moments.
fn make_end_call(
    here: &mut Uart16550Ring<CabledChip>,
    there: &Uart16550Ring<CabledChip>,
    moments: &[Moment],
    call: &RingCall,
) -> RingAnswer
    requires runnable { IsRingRunnable call.now }
    requires of_rings { IsOfRings call.now }
    requires few { length moments.now ≤ CALL_MOMENTS }
    ensures { EndStep moments.now there.now here.old call.now result here.new }
{
    arrange(here, there, moments);
    make_ring_call(here, call)
}

// Makes one call of a run.
fn make_link_call(link: &mut Link, call: &LinkCall) -> RingAnswer
    requires { IsLinkRunnable call.now }
    ensures { LinkCallStep link.old call.now result link.new }
{
    let moments = call.moments.as_slice();
    match call.side {
        Side::Left => make_end_call(&mut link.left, &link.right, moments, &call.call),
        Side::Right => make_end_call(&mut link.right, &link.left, moments, &call.call),
    }
}

/// Makes the calls in turn, each at its end, and stores the answer of each in its slot. Never
/// fails, and allocates no memory.
///
/// The ends are joined: what is ahead of each is what has left the other. Take a part of the run
/// that begins when a session may begin at both ends, on chips that cut no characters. In each such
/// part and in each direction
///
/// - the bytes taken, or dropped by a `ClearReceive`, each with which of the two, then those in the
///   receive ring and in the receiver, and then those on their way are, in this order, those that
///   were there and those that were queued, less those that the receiver dropped. On their way are
///   bytes on the cable, in the sender's transmitter and in its rings. This holds if each call of
///   the sender keeps the order: none puts a byte before all that wait, as a `QueueUrgent` does,
///   or drops some of them, as a `ClearTransmit` does;
/// - the first `TakeLine` of an end shows a drop there as the overrun flag;
/// - no character is dropped, if both programs keep to flow control in this direction: the sender
///   checks CTS, and the receiver's `AdjustRts` follows each run of the handler, with marks that
///   leave room for what may arrive before it and what is on the cable. The README says it exactly;
/// - the same by XOFF: the receiver's `AdjustXoff` follows each run of the handler, the sender's
///   `ObeyXoff` comes in time, and the marks leave room for what may be sent until it does;
/// - an end holds its transmit ring exactly if the other one has told XOFF last, once no XOFF or
///   XON is on the way, if what is sent there is text, and that end obeys before it takes;
/// - all that was there at first is taken after as many rounds as bytes wait in the sender's rings,
///   and one more, if no character is dropped. In a round time passes at the sender, what is on the
///   cable arrives, the receiver's handler runs, its program takes, and the sender goes on to send;
/// - after it, a session may go on at both ends, and they are still joined.
///
/// # Examples
///
/// ```
/// run_link(&mut link, &calls, &mut answers);
/// ```
pub fn run_link(link: &mut Link, calls: &[LinkCall], answers: &mut [RingAnswer])
    // promise: over a cable, what is queued at one end is taken at the other, cleared there or on
    //   its way, in order, less what the receiver dropped, if no call of the sender overtakes or
    //   drops; a drop is told
    // with: run_link, RanLink.parts, LinkConserves.rightward, LinkConserves.tells
    // shown by: bytes_cross_the_cable_in_order, a_byte_that_overruns_is_told, the_lines_cross_over,
    //   what_is_queued_is_taken_less_what_is_dropped
    // proved: The calls are made in turn, each at its end with its moments, and the other end stays
    //   as it is meanwhile
    // on: `run_link`: `run`
    // proved: After such a part a session may go on at both ends, and the two are still joined:
    //   what is ahead of each is what has left the other
    // on: `run_link`: `ready`, `joined`
    requires runnable { All IsLinkRunnable calls.now }
    // there is a slot for each answer
    requires slots { length calls.now ≡ length answers.old }
    ensures { RanLink link.old calls.now answers.new link.new }
{
    // The contracts of these calls state what holds of every chip.
    let _left = link.left.inner().backend().arrivals();
    let _right = link.right.inner().backend().arrivals();
    for i in 0..calls.len() {
        answers[i] = make_link_call(link, &calls[i]);
    }
}
