//! Laws of the chip. They follow from the contracts.
//!
//! The contract of each function is a law that callers can cite. The functions do nothing.
ghost use Rattle.uart_chip.specs.AutoFlow.{AccessesKeepFlow, EventsKeepFlow, HeldOnlyWithFlow};
ghost use Rattle.uart_chip.specs.AutoFlow.{MarksKeepFlow, ReadsKeepFlow, WritesKeepFlow};
ghost use Rattle.uart_chip.specs.PortLaws.{PortsLoseNothingSilently};
ghost use Rattle.uart_chip.specs.Switching.{EventsKeepSizes, ReadsKeepSizes, OnlySwitchesResize};
ghost use Rattle.uart_chip.specs.Switching.{SizesStayWithoutSwitch, SizesStayWithoutDlab};

/// Only the switch of a 16750 changes the size of the FIFOs: no event does, no read, and no write
/// but one of FCR that switches it. So a chip without the switch keeps the size for ever, whatever
/// is done with it, and each chip keeps it over accesses that write FCR only while DLAB is off.
pub fn only_the_switch_resizes()
    // promise: nothing else changes the size of the FIFOs. A chip without the switch keeps it for
    //   ever, and each chip keeps it over accesses that write FCR only while DLAB is off
    // with: only_the_switch_resizes.writes, only_the_switch_resizes.without_switch,
    //   only_the_switch_resizes.without_dlab, NeverSwitches
    // shown by: other_chips_have_no_switch, fcr_switches_the_size_under_dlab_alone
    // refused: uart_live/an_array_can_be_resized
    ensures events { EventsKeepSizes }
    ensures reads { ReadsKeepSizes }
    ensures writes { OnlySwitchesResize }
    ensures without_switch { SizesStayWithoutSwitch }
    ensures without_dlab { SizesStayWithoutDlab }
{}

/// Only a chip that was made with automatic flow control has it: no event and no access gives it to
/// a chip, or takes it away. So on a chip that was made without it it is never on, whatever is
/// written to MCR, and CTS never holds the transmitter off.
pub fn only_with_auto_flow_has_it()
    // promise: nothing gives a chip automatic flow control, or takes it away, and a chip without it
    //   is never held off by CTS
    // with: only_with_auto_flow_has_it.writes, only_with_auto_flow_has_it.accesses,
    //   only_with_auto_flow_has_it.lacking
    // shown by: mcr_keeps_bit_5_with_automatic_flow_control_alone
    // refused: each_chip_goes_on_whatever_it_has
    ensures events { EventsKeepFlow }
    ensures reads { ReadsKeepFlow }
    ensures writes { WritesKeepFlow }
    ensures accesses { AccessesKeepFlow }
    ensures marks { MarksKeepFlow }
    ensures lacking { HeldOnlyWithFlow }
{}

/// A port loses nothing silently, whatever happens to it: what goes out grew by exactly what was
/// sent, in order; what was received, and then what waits, is what waited and what came, in order,
/// with some left out; and none is left out where no loss was told and none is left to be told.
///
/// This is what a program concludes of the main theorem, which says of driver and chip that they
/// are such a port.
pub fn ports_lose_nothing_silently()
    ensures { PortsLoseNothingSilently }
{}
