//! Laws of ports. They follow from the contracts.
//!
//! The contract of each function is a law that callers can cite. The functions do nothing.
ghost use Rattle.uart_virtual.specs.Clock.{NobodyWaitsForEver, EachRiseIsGiven, AFullFifoIsGiven};
ghost use Rattle.uart_virtual.specs.Clock.{WhatCanWaitIsTime, ClockedStays, GivenWhileUp};
ghost use Rattle.uart_virtual.specs.Clock.{ARiseIsGivenAtOnce, AClockAddsNone, ALookIsEnough};
ghost use Rattle.uart_virtual.specs.Laws.{LevelIsTold, ToldStays, SignalsAreUp, LineStays};
ghost use Rattle.uart_virtual.specs.Laws.{EachRiseIsSignalled, EachDipIsSignalled};
ghost use Rattle.uart_virtual.specs.Laws.{AFullFifoIsSignalled, NoOtherSignals};
ghost use Rattle.uart_virtual.specs.Laws.{ASignalCovers, AFallUsesOneUp, NoLookCoversNothing};
ghost use Rattle.uart_virtual.specs.Laws.{RoomIsTold, RoomIsToldAtOnce, RoomIsToldOnce};
ghost use Rattle.uart_virtual.specs.Laws.{RefusalLeavesNoRoom, RestoredIsTold};
ghost use Rattle.uart_virtual.specs.Laws.{BytesGoOut, EmptyThrTakesAByte, FcrKeepsTheOutput};
ghost use Rattle.uart_virtual.specs.Laws.{AnEmptiedQueueInterrupts};
ghost use Rattle.uart_virtual.specs.Laws.{ASlowHostShows, HeldOnlyIfFull, WaitingInterrupts};

/// The level that each call tells is that of the line, and what a port keeps of what it told stays
/// so.
pub fn level_is_told()
    // proved: Each call tells the level of the line, and what a port remembers of what it told
    //   stays true
    // on: `uart_virtual::laws::level_is_told`
    ensures level { LevelIsTold }
    ensures stays { ToldStays }
{}

/// Each rise of the line is signalled, and input that leaves no room. A signal is given only while
/// the line is up.
///
/// A line that was down at any moment of a call, and is up at its end, is signalled too, unless an
/// earlier signal covers that. A signal covers others only if it was given since the guest last
/// read ISR, and at most as many falls of the line as a FIFO holds characters besides one: 15 with
/// FIFOs of 16. Each fall in an access of DATA uses one up, and an access in which the line stays
/// up none. A guest that never reads ISR has none covered. There are no other signals.
pub fn rises_are_signalled()
    // promise: each rise of the line from call to call is signalled, and input that leaves no room;
    //   nothing else but falls within a call
    // with: rises_are_signalled.rise, rises_are_signalled.full, rises_are_signalled.others
    // shown by: a_monitor_that_signals, a_top_up_is_signalled_when_it_fills_the_fifo
    // refused: receive_polled_misses_a_rise
    // promise: a fall at any moment of a call is signalled, or a signal covers it, and that only
    //   after a read of ISR
    // with: rises_are_signalled.dip, rises_are_signalled.covers, rises_are_signalled.blind
    // shown by: a_burst_is_one_signal, a_guest_that_never_looks_is_signalled_each_time,
    //   a_fall_while_time_passes_in_loopback_is_signalled
    // promise: a signal covers as many falls of the line more as a FIFO holds characters, besides
    //   one, so a burst that fills a FIFO of 64 is one signal; what is written while the line stays
    //   up uses none of them
    // with: rises_are_signalled.covers, rises_are_signalled.used, rest_of
    // shown by: a_burst_is_out_after_one_interrupt, a_burst_of_64_bytes_is_one_interrupt,
    //   what_another_processor_prints_takes_nothing_from_a_handler
    // refused: what_is_written_uses_a_signal_up
    // proved: Outside of loopback the line does not fall while time passes
    // on: `uart_virtual::laws::rises_are_signalled`, clause `stays`
    // if the line is down after a call and up after a later one, a call between has signalled
    ensures rise { EachRiseIsSignalled }
    // a line that was down at any moment of a call, and is up at its end, is signalled, unless an
    // earlier signal covers that
    ensures dip { EachDipIsSignalled }
    ensures covers { ASignalCovers }
    // a fall of the line in an access of DATA that is not signalled uses up one that is covered
    ensures used { AFallUsesOneUp }
    ensures blind { NoLookCoversNothing }
    // input that leaves no room is signalled, if the line is up when the call ends
    ensures full { AFullFifoIsSignalled }
    ensures others { NoOtherSignals }
    ensures up { SignalsAreUp }
    ensures stays { LineStays }
{}

/// With a clock nobody waits for ever, whichever of the signals that can wait the monitor puts off.
///
/// If the line was down at any moment since no signal covered others, as since the guest read ISR,
/// and is up, then a signal was given since, or is given as soon as the time passes. A rise from
/// call to call is signalled at once, unless a write of DATA brings it, and input that leaves no
/// room is. What can wait is a signal for what time brings. A signal is given only while the line
/// is up, nothing is owed after it, and a clock adds none.
///
/// A guest whose handler reads ISR until it shows no interrupt needs no clock: the line is down
/// then, and the next rise is signalled though no time passes, as long as the guest reads and
/// writes no DATA for which the monitor puts a signal off.
pub fn nobody_waits_for_ever()
    // promise: with a clock nobody waits for ever: what is put off comes when the time has passed,
    //   and nothing else is put off
    // with: nobody_waits_for_ever.comes, nobody_waits_for_ever.rise, nobody_waits_for_ever.full,
    //   nobody_waits_for_ever.waits
    // shown by: each_signal_is_given_or_put_off,
    //   with_a_clock_no_handler_waits_for_ever_and_none_is_deaf
    // refused: a_clock_forgets_what_is_owed, nobody_waits_though_no_time_passes,
    //   a_clock_puts_a_rise_of_a_read_off
    // promise: a guest that reads ISR until it shows no interrupt needs no clock, whatever of its
    //   accesses of DATA was put off before
    // with: nobody_waits_for_ever.looked
    // shown by: a_fifo_of_input_is_one_signal_for_a_handler_that_drains
    // refused: a_look_is_enough_for_what_comes_after_it
    // proved: A signal is given only while the line is up, and then nothing is owed. A monitor
    //   gives at most as many as its port asks for, and one that it owed before
    // on: `uart_virtual::laws::nobody_waits_for_ever`, clauses `up`, `stays` and `most`
    // with a clock, what is put off comes when the time has passed
    ensures comes { NobodyWaitsForEver }
    ensures rise { EachRiseIsGiven }
    ensures at_once { ARiseIsGivenAtOnce }
    ensures full { AFullFifoIsGiven }
    ensures waits { WhatCanWaitIsTime }
    // if the line is down, and nothing is put off any more, the next rise is signalled without time
    ensures looked { ALookIsEnough }
    ensures up { GivenWhileUp }
    ensures stays { ClockedStays }
    ensures most { AClockAddsNone }
{}

/// The monitor is told of room for input after there was none: by the call after which nothing
/// waits, and at once if another call than a read of DATA makes room. A restored port tells too. A
/// call that refuses input leaves no room.
pub fn room_is_told()
    // promise: room is told after there was none: when nothing waits, and at once if a write makes
    //   it
    // with: room_is_told.room, room_is_told.at_once, room_is_told.told_once, room_is_told.refusal,
    //   room_is_told.restored
    // shown by: room_is_told_whichever_call_gives_it
    // refused: room_only_if_empty
    // if there is no room, and later there is and nothing waits, a call in between told of it
    ensures room { RoomIsTold }
    ensures at_once { RoomIsToldAtOnce }
    ensures told_once { RoomIsToldOnce }
    ensures refusal { RefusalLeavesNoRoom }
    ensures restored { RestoredIsTold }
{}

/// No byte that the guest writes is lost, and the order is kept, if the guest writes only to an
/// empty transmitter, outside of loopback, and does not write FCR. A write of FCR discards nothing
/// as long as the transmitter's queue is empty. A queue that is emptied interrupts a guest that has
/// this enabled, whether its bytes leave or are discarded. A host that takes nothing shows in LSR.
pub fn bytes_go_out()
    // promise: bytes go out in order, outside of loopback and unless FCR discards them; a slow host
    //   shows in LSR; and no guest waits for time: a character interrupts at once, if that is
    //   enabled
    // with: bytes_go_out.out, bytes_go_out.slow, nothing_waits_for_time.waiting
    // shown by: a_full_output_holds_the_guest_back
    // refused: take_without_time, fewer_ticks
    // promise: a queue that is emptied interrupts if the guest has enabled that, whether its bytes
    //   leave or FCR discards them
    // with: bytes_go_out.emptied
    // shown by: a_queue_that_fcr_empties_interrupts
    // refused: an_emptied_queue_is_silent, uart_c/port_is_silent_when_fcr_empties_a_queue
    // proved: What the host took, followed by what the port still holds, is what the port held
    //   before, followed by what the guest wrote: in order, and each byte once. The conditions are
    //   those of `bytes_leave_in_order`. A byte that is written while LSR shows an empty THR meets
    //   the last of these conditions
    // on: `uart_virtual::laws::bytes_go_out`, clauses `out` and `taken`
    // proved: A write of FCR discards nothing of the output while the transmitter's queue is empty.
    //   If more than 64 bytes are to go out, LSR shows a transmitter that is not empty, and with
    //   more than 65 a THR that is not
    // on: `uart_virtual::laws::bytes_go_out`, clauses `fcr` and `slow`
    // what the guest writes leaves in order, and each byte once
    ensures out { BytesGoOut }
    ensures taken { EmptyThrTakesAByte }
    ensures fcr { FcrKeepsTheOutput }
    ensures emptied { AnEmptiedQueueInterrupts }
    ensures slow { ASlowHostShows }
{}

/// Nothing waits for time to pass: bytes are held back only while the output is full, and a
/// character that waits interrupts a guest that has this enabled.
pub fn nothing_waits_for_time()
    ensures held { HeldOnlyIfFull }
    ensures waiting { WaitingInterrupts }
{}
