//! Laws of live chips. They follow from the contracts.
//!
//! The contract of each function is a law that callers can cite. The functions do nothing.
ghost use Rattle.std.specs.Prelude.{◌≡◌};
ghost use Rattle.uart_live.specs.Laws.{BytesLeaveInOrder, CharactersAreReadInOrder};
ghost use Rattle.uart_live.specs.Laws.{PlainReadsChangeNothing, OnlyInterruptsShowHolding};
ghost use Rattle.uart_live.specs.Laws.{HeldTimeoutsStay, DueTimeoutsInterrupt};
ghost use Rattle.uart_live.specs.declared.fixed.TheConstants.{WIRE_ROOM};
ghost use Rattle.uart_live.specs.declared.sound.TheConstants.{TIMEOUT_CHARACTERS};

/// Bytes are sent in the order in which the guest wrote them, each once. A full wire loses none.
pub fn bytes_leave_in_order()
    // promise: outside of loopback, and while FCR is not written, bytes leave in order, and so are
    //   characters read, unless an overrun shows
    // with: bytes_leave_in_order, characters_are_read_in_order
    // shown by: bytes_leave_a_full_wire_in_order, characters_are_read_in_order_or_an_overrun_shows
    // refused: take_wire_takes_one_less, fixed_queue_keeps_its_front
    ensures { BytesLeaveInOrder }
{}

/// Characters are read in the order in which they were received, each once, or the guest sees the
/// overrun flag.
pub fn characters_are_read_in_order()
    ensures { CharactersAreReadInOrder }
{}

/// A read of IER, LCR, MCR, SCR or the divisor latch changes nothing.
pub fn plain_reads_change_nothing()
    // proved: A read of a register without side effects changes nothing
    // on: `laws::plain_reads_change_nothing`
    ensures { PlainReadsChangeNothing }
{}

/// Whether timeouts are held shows only in ISR and in the interrupt line: every other read and
/// every byte on the wire is as it is without.
pub fn only_interrupts_show_holding()
    ensures { OnlyInterruptsShowHolding }
{}

/// A reception timeout that is due stays due, whatever arrives by `arrive_holding_timeout`, until
/// the guest reads DATA or writes FCR, or a character comes back in loopback. It is an interrupt as
/// long as the guest has it enabled.
pub fn held_timeouts_stay()
    // promise: a held timeout stays due until DATA is read, FCR is written or time passes in
    //   loopback
    // with: held_timeouts_stay.due, only_interrupts_show_holding
    // shown by: a_timeout_is_held_until_data_is_read
    // refused: timeouts_are_withdrawn
    ensures due { HeldTimeoutsStay }
    ensures interrupting { DueTimeoutsInterrupt }
{}

/// The most bytes that the wire of a live chip has room for.
pub fn wire_room_is_this()
    // proved: The wire of a live chip has room for 64 bytes at most, and a reception timeout is due
    //   after four character times
    // on: `laws::wire_room_is_this`, `laws::timeout_is_this`
    ensures { WIRE_ROOM ≡ 64 }
{}

/// After how many character times a reception timeout is due.
pub fn timeout_is_this()
    ensures { TIMEOUT_CHARACTERS ≡ 4 }
{}
