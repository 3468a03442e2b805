//! Laws about the direction. They follow from the contracts of the calls, for every device.
//!
//! The contract of each function is a law that callers can cite. The functions do nothing.
ghost use Rattle.uart_rs485.specs.Laws.{CallsKeepDirection, GivingUpFrees, KeepsFromNew};
ghost use Rattle.uart_rs485.specs.Laws.{OutputsReceive, SwitchesTurn};
ghost use Rattle.uart_rs485.specs.Rings.{RingCallsKeepDirection, RingGivingUpFrees, RingKeepsFromNew};

/// Whatever calls are made, in whatever order: each byte is written while the direction is to send.
/// And it is switched to receive only behind a look at LSR that showed an empty transmitter, with
/// no byte written in between. No write lets the chip drive the line itself, or turns loopback on,
/// in which all outputs are off.
///
/// Calls begin with those at a bus that is there, or with `new`, whatever the direction was before.
pub fn direction_is_kept()
    // promise: at a bus no byte is written while the direction is not to send, and the bus is given
    //   back only behind a look that showed an empty transmitter, whatever calls are made over
    //   whatever device
    // with: direction_is_kept.from_new, direction_is_kept.calls, KeepsDirection.bytes,
    //   KeepsDirection.turns, KeepsDirection.own, KeepsDirection.loopback
    // shown by: whatever_is_called_and_answered, calls_in_any_order_lose_no_byte,
    //   the_bus_loses_what_is_sent_in_the_other_direction,
    //   nothing_is_written_while_the_direction_is_not_to_send
    // refused: send_bytes_sends_in_the_other_direction, a_bus_begins_whatever_the_transmitter_does,
    //   start_sending_switches_to_receive
    // at a bus that begins with `new`, each byte is written while the direction is to send, and it
    // is switched to receive only behind a look at LSR that showed an empty transmitter, whatever
    // calls are made, in whatever order
    ensures from_new { KeepsFromNew }
    // so it is at a bus that is there
    ensures calls { CallsKeepDirection }
{}

/// So it is with rings at a bus, whatever calls are made, in whatever order: each byte that is
/// queued is written while the direction is to send, also by an interrupt handler, and the bus is
/// given back only if none waits.
pub fn rings_keep_direction()
    // promise: rings at a bus write no byte while the direction is not to send, whenever interrupts
    //   are handled, and the program's timer gives the bus back only once all that was queued has
    //   left the chip
    // with: rings_keep_direction.from_new, rings_keep_direction.calls
    // shown by: whatever_rings_at_a_bus_are_asked, a_timer_gives_the_bus_back
    // refused: rings_queue_in_the_other_direction, rings_finish_while_bytes_wait
    // at rings that begin with `new`, each byte is written while the direction is to send, and it
    // is switched to receive only behind a look at LSR that showed an empty transmitter
    ensures from_new { RingKeepsFromNew }
    // so it is at rings that are there
    ensures calls { RingCallsKeepDirection }
{}

/// After a `give_up` the transceiver receives, whatever the chip shows, and the call wrote no byte.
/// It is the one call that may cut off what was sent, and there is no bus after it. That of rings
/// leaves no byte in the transmit ring, so none goes out later.
pub fn giving_up_frees_the_bus()
    // promise: a bus is given back when its program wants it, also by a transmitter that never gets
    //   empty
    // with: giving_up_frees_the_bus.driver, giving_up_frees_the_bus.rings, give_up
    // shown by: a_stuck_transmitter_is_given_up, rings_at_a_stuck_transmitter_are_given_up
    // refused: give_up_goes_on_sending, give_up_switches_before_the_look,
    //   rings_are_given_up_before_the_look
    // a `give_up` switches the transceiver to receive, and writes no byte
    ensures driver { GivingUpFrees }
    // so it is with rings, and no byte that was queued is left to be sent
    ensures rings { RingGivingUpFrees }
{}

/// What is written to MCR to send makes the transceiver send, and what is written to receive makes
/// it receive, whatever MCR was read as. Flow control by the chip does not drive the line then.
pub fn switches_turn()
    // promise: at a bus the line and the level are those that were asked for, and what looks clear
    //   in the chip is told
    // with: switches_turn, outputs_receive, receiving, lsr
    // shown by: each_line_and_each_level, errors_are_passed_on,
    //   flow_control_by_the_chip_keeps_the_bus
    // refused: turned_leaves_the_line_to_the_chip, lsr_forgets_what_was_saved
    // proved: What is written to MCR to send makes the transceiver send, and what is written to
    //   receive makes it receive, whatever MCR was read as: where the line is RTS, flow control by
    //   the chip is off then. The other outputs stay, and loopback is off
    // on: `laws::switches_turn`, `Turns` on `start_sending`
    ensures { SwitchesTurn }
{}

/// With the outputs of `Direction::receiving` the transceiver receives, also as the driver writes
/// them, which is without loopback.
pub fn outputs_receive()
    ensures { OutputsReceive }
{}
