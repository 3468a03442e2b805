//! Laws about the output that switches a transceiver, over the software chip. They follow from the
//! contracts of the calls.
//!
//! The contract of each function is a law that callers can cite. The functions do nothing.
ghost use Rattle.uart_rs485_runs.specs.Outputs.{BeginsAtBus, CallsHoldBus, EventsStayAtBus};
ghost use Rattle.uart_rs485_runs.specs.Outputs.{GivingUpReceives, RingCallsHoldBus, RingsBeginAtBus};

/// At a bus, the output of the chip makes the transceiver do what was asked for, at each moment of
/// each call and between calls: whatever arrives, however full the receiver is, and also on a chip
/// that has automatic flow control and drives RTS by it.
///
/// The transceiver sends from `start_sending` on until `try_finish` gives the bus back, and else it
/// receives. While a character is in the transmitter, in its FIFO or on its way out, it sends. So
/// no character goes out while it receives, in whatever order calls are made.
///
/// This begins with `new`, whatever the chip was before.
pub fn outputs_are_as_switched()
    // promise: over the software chip the output makes the transceiver send while a character is in
    //   the transmitter, and switches only when a call asks for it: not by itself, whatever arrives
    // with: outputs_are_as_switched.calls, outputs_are_as_switched.begins,
    //   outputs_are_as_switched.events, HoldsBus.throughout, IsSwitched.whole
    // shown by: whatever_is_called_the_output_is_as_switched,
    //   flow_control_by_the_chip_keeps_the_bus
    // refused: flow_control_by_the_chip_is_off_anyway, loopback_turns_no_output_off,
    //   characters_may_be_left_to_send, uart_rs485/turned_leaves_the_line_to_the_chip
    // after a `new` that succeeds the transceiver receives, and no character is in the transmitter,
    // whatever the chip was before
    ensures begins { BeginsAtBus }
    // from then on, at each moment of each call, it is switched as was asked for
    ensures calls { CallsHoldBus }
    // and so it stays whatever happens between calls
    ensures events { EventsStayAtBus }
{}

/// So it is at rings that are at a bus: the transceiver sends from `start_sending` on until the
/// timer's `try_finish` gives the bus back, and no character goes out while it receives, whenever
/// interrupts are handled.
pub fn outputs_are_as_switched_by_rings()
    // promise: over the software chip no character that was queued goes out while the output makes
    //   the transceiver receive, whenever interrupts are handled and the timer comes
    // with: outputs_are_as_switched_by_rings.begins, outputs_are_as_switched_by_rings.calls
    // shown by: a_timer_gives_the_bus_back
    // refused: characters_may_be_left_to_send, uart_rs485/rings_finish_while_bytes_wait
    // after a `new` of rings that succeeds the transceiver receives, and no character is in the
    // transmitter, whatever the chip was before
    ensures begins { RingsBeginAtBus }
    // from then on, at each moment of each call, it is switched as was asked for
    ensures calls { RingCallsHoldBus }
{}

/// After a `give_up` the output makes the transceiver receive, whatever the chip was before.
pub fn output_receives_when_given_up()
    // promise: over the software chip a `give_up` frees the bus, also with characters left to send
    // with: output_receives_when_given_up
    // shown by: a_stuck_transmitter_is_given_up
    // refused: uart_rs485/give_up_goes_on_sending
    ensures { GivingUpReceives }
{}
