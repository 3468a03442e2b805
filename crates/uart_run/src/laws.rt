//! Laws of driver and machine together. They follow from the contracts.
//!
//! The contract of each function is a law that callers can cite. The functions do nothing.
ghost use Rattle.std.specs.Prelude.{◌≡◌, ◌≢◌, ℕ, Bool, List, [], ◌∷◌, ◌++◌, map, true, false, Result, Ok, Err};
ghost use Rattle.std.specs.List.{AllByRecursion};
ghost use Rattle.uart_16550.specs.Configured.{Verdict, ChecksConfigured};
ghost use Rattle.uart_16550.specs.Driver.{Did, Made, backend_of, fields};
ghost use Rattle.uart_16550.specs.Frame.{SetsBreak, SetsOutput};
ghost use Rattle.uart_16550.specs.Init.{Inits};
ghost use Rattle.uart_16550.specs.Setup.{InitsWith};
ghost use Rattle.uart_16550.specs.Sizing.{Enables64, FindsFifoSize};
ghost use Rattle.uart_chip.specs.Masks.{ier_bits, mcr_bits};
ghost use Rattle.uart_spec.specs.Bits.{IsWithin};
ghost use Rattle.uart_spec.specs.Config.{IsComputable};
ghost use Rattle.uart_spec.specs.declared.config.Config.{Config};
ghost use Rattle.uart_spec.specs.declared.setup.FifoSize.{FifoSize};
ghost use Rattle.uart_spec.specs.declared.setup.FifoSize.TheVariants.{Sixteen};
ghost use Rattle.uart_spec.specs.declared.setup.Setup.{Setup};
ghost use Rattle.uart_spec.specs.declared.errors.FifoSizeError.{FifoSizeError};
ghost use Rattle.uart_spec.specs.declared.errors.FifoSizeError.TheVariants.{Stalled};
ghost use Rattle.uart_16550.specs.Receive.{ReceivesWithErrors};
ghost use Rattle.uart_spec.specs.declared.registers.modem_control.TheConstants.MCR;
ghost use Rattle.uart_16550.specs.declared.driver.Uart16550.{Uart16550};
ghost use Rattle.uart_spec.specs.declared.received.Received.{Received};
ghost use Rattle.uart_chip.specs.Chip.{cut_of, ticks};
ghost use Rattle.uart_chip.specs.Conserved.{waiting};
ghost use Rattle.uart_chip.specs.Machine.{MachineState, MachineStep, fresh, cutting, at_mark};
ghost use Rattle.uart_chip.specs.PortLaws.{LosesNothingSilently};
ghost use Rattle.uart_events.specs.declared.event.Chip.{Chip};
ghost use Rattle.uart_events.specs.declared.event.Chip.TheVariants.{Uart16450};
ghost use Rattle.uart_events.specs.declared.event.Event.{Event};
ghost use Rattle.uart_spec.specs.declared.access.Access.{Access};
ghost use Rattle.uart_spec.specs.declared.access.Access.TheVariants.{Read};
ghost use Rattle.uart_spec.specs.declared.registers.offsets.TheConstants as offsets;
ghost use Rattle.uart_run.specs.Wired.{IsWiredChip};
ghost use Rattle.uart_call.specs.declared.call.Call.{Call};
ghost use Rattle.uart_call.specs.declared.call.Call.TheVariants.{Lsr};
ghost use Rattle.uart_call.specs.declared.call.Answer.{Answer};
ghost use Rattle.uart_run.specs.Refines.{arrived, port_of, told};
ghost use Rattle.uart_run.specs.Reported.{received, reported};
ghost use Rattle.uart_run.specs.Run.{Chain, IsRun, Link, State, machine_of};
ghost use Rattle.uart_run.specs.Session.{IsSession, Ran};
ghost use Rattle.uart_run.specs.StandsFor.{ChecksFrame, ChecksFrameWhenIdle, ChecksInit, ChecksInitWith};
ghost use Rattle.uart_run.specs.StandsFor.{EndsSession, LooksInTurn, ReadsControl, ReceivesInTurn, ReceivesOne, SendsFront};
ghost use Rattle.uart_run.specs.StandsFor.{SendsInTurn, SendsParts, SendsSized, StartsTerminal};
ghost use Rattle.uart_run.specs.StandsFor.{WritesBytes, WritesInTurn};
ghost use Rattle.uart_run.specs.Uncut.{IsUncut, RanUncut};
ghost use Rattle.uart_run.specs.Ready.{BurstsFit, KeepsReady, Ready};
ghost use Rattle.uart_run.specs.Overruns.{FlagTells, LeavesReceiver, OverrunsStand};
ghost use Rattle.uart_run.specs.ReceivedErrors.{ReceivedExactly, under_terminal};
ghost use Rattle.uart_run.specs.Progress.{HasRoom, IsTicked, IsTimely, IsUnheld};
ghost use Rattle.uart_run.specs.Unhindered.{CallsSucceed, SessionsSucceed};
ghost use Rattle.uart_run.specs.Sizes.{Enables, EnablesOff, FindsNone, FindsOff, FindsSize};
ghost use Rattle.uart_run.specs.Sizes.{IsPlain, MayFind, size_in};

use uart_16550::Uart16550;
use uart_chip::Device16550;

// A law and not a clause of `idle`, because 'ready' is a word about both driver and chip.

/// Ticks outside of the schedule, as by [`Device16550::idle`](uart_chip::Device16550::idle),
/// preserve a state in which a session may begin.
pub fn idle_keeps_ready()
    // proved: If a session may begin in some state, a session may begin after ticks outside of the
    //   schedule, and after a `set_rts`, a `set_dtr` or a `set_break`
    // on: `laws::idle_keeps_ready`, `laws::switches_keep_ready`
    ensures { (n : ℕ) (machine : MachineState) →
        KeepsReady machine (record machine { chip = ticks n machine.chip }) }
{}

/// A driver that takes the FIFOs for 16, as each does that was told no other size, takes them for
/// no larger than they are, whatever the chip is: the FIFOs of each hold at least as many. No call
/// of a run changes that. So all that a session asks of such a driver is that it knows whether the
/// FIFO is on, and of its chip that DLAB and loopback are off.
pub fn smallest_size_fits()
    // promise: no byte is lost with each size that the driver was told, up to that of the FIFO; one
    //   that was told none takes it for 16, which each chip holds
    // with: Ready.fits, BurstsFit, smallest_size_fits
    // shown by: each_size_up_to_the_chips_is_one_burst_without_a_loss,
    //   a_size_beyond_the_chips_loses_the_rest
    // refused: a_burst_may_have_one_byte_more_than_fits, any_size_fits
    // if: the driver takes the FIFOs for 16
    ensures { (uart : Uart16550 MachineState) →
        (fields uart).size ≡ Sixteen → BurstsFit (under_terminal uart) }
{}

/// Calls succeed in the middle of a run too. Take a state in which a session may begin, from which
/// each access of the schedule has a tick before it, with a spin limit of at least n (t + 1) for
/// characters of t ticks, of which the transmitter holds n, and a chip that has no automatic flow
/// control. All of that holds after each later call of the run, whatever it is and whatever it
/// answers. So with room on the wire for what the call is to send, none of these stalls: a `Flush`,
/// a `TestLoopback`, a `SetFrameWhenIdle`, an `Init` and an `InitWith` that have a divisor, and
/// without CTS checking a `SendExact`, a `Write` and a `Text`.
///
/// For a session that begins in such a state, the room is asked for where it begins: for all that
/// its calls are to send. So is CTS checking. After it there is room for what waits, so none of
/// these calls stalls behind it either.
pub fn sessions_succeed()
    // promise: calls succeed in the middle of a session too, on a chip that has no automatic flow
    //   control: ticks, the limit, the sizes and CTS checking last from call to call, and room at
    //   its start for all that its calls are to send is room for each; an `init` leaves the room
    //   that there was
    // with: sessions_succeed.calls, sessions_succeed.sessions, inits_leave_room, Follows.timely,
    //   Follows.flow, Follows.checks, Follows.size, Follows.takes
    // shown by: with_room_for_all_of_it_no_call_of_a_session_stalls,
    //   with_room_for_one_byte_less_a_session_stalls, an_init_leaves_the_room_that_there_was
    // refused: a_call_is_timely_whatever_it_does_to_the_size,
    //   a_session_needs_no_room_for_carriage_returns, each_chip_lets_calls_end
    // in the middle of a run, calls end for which there is room on the wire: an `init` and an
    // `init_with` with a divisor, a `set_frame_when_idle` with one, the loopback test with 7 or 8
    // data bits, `flush` and, without CTS checking, the sends that wait
    ensures calls { CallsSucceed }
    // of a session it is enough that the wire has room at its beginning for all that its calls are
    // to send, and that CTS is not checked there
    ensures sessions { SessionsSucceed }
{}

/// An `init` that returns Ok sends nothing: if the wire had room for what waited and so many bytes
/// more, it has room for what waits and as many more. Each access of the schedule has a tick before
/// it, as where calls must succeed. So a session that begins after an `init` has the room that the
/// machine had, which is its whole capacity on a new one.
///
/// # Examples
///
/// ```
/// inits_leave_room(&uart);
/// ```
pub fn inits_leave_room(uart: &Uart16550<Device16550>)
    ensures { (config : Config) (after : Uart16550 MachineState) (room : ℕ) →
        IsTicked (backend_of uart.now) → HasRoom room (backend_of uart.now) →
        Did MachineStep (Inits config (Ok (tt {0}))) uart.now after →
        HasRoom room (backend_of after) }
{
    // The contract of this call states what holds of every machine.
    let _fifo = uart.backend().fifo_enabled();
}

/// With the FIFO on, each byte that `receive_with_errors` returns is the next character that is in
/// the receiver or arrives, with exactly its parity error, framing error and break. Only the errors
/// of the first may be missing, if an earlier look has shown them.
///
/// # Examples
///
/// ```
/// received_errors_are_exact(&uart);
/// ```
pub fn received_errors_are_exact(uart: &Uart16550<Device16550>)
    // promise: with the FIFO on, a byte that comes with its errors has exactly those of its
    //   character; those of the first may have been shown before
    // with: ServesWithErrors.exact, received_errors_are_exact
    // shown by: bytes_come_with_their_errors
    // refused: uart_16550/receive_with_errors_hides_errors
    // if: the driver takes the FIFOs to be on
    ensures { (after : Uart16550 MachineState) (slots : ℕ) (items : List Received) →
        Ready (under_terminal uart.now) → (fields uart.now).fifo ≡ true →
        Made MachineStep (ReceivesWithErrors slots items) uart.now after →
        ReceivedExactly (backend_of uart.now) items (backend_of after) }
{
    // The contract of this call states what holds of every machine.
    let _fifo = uart.backend().fifo_enabled();
}

/// With the FIFO on, an overrun at a byte that `receive_with_errors` returns tells that a character
/// was lost right behind as many bytes from this one on as the FIFO holds, or behind one fewer, so
/// behind the 15th or the 16th with a FIFO of 16, and not before this one: it came while the FIFO
/// was full, so all that waited there are older. These are bytes that the call returns, and then
/// bytes that are in the receiver after it.
///
/// If the overrun flag was set before the call, it has to tell the same of the characters that
/// wait. After the call it does so again. It does so after each look at LSR, with which `init` ends
/// but for accesses that take no character and reset no FIFO; and after those it does so still.
///
/// # Examples
///
/// ```
/// overruns_tell_where_a_byte_is_lost(&uart);
/// ```
pub fn overruns_tell_where_a_byte_is_lost(uart: &Uart16550<Device16550>)
    // promise: with the FIFO on, a byte that comes with an overrun tells that a character was lost
    //   right behind as many from it on as the FIFO holds, or one fewer, and not before it
    // with: overruns_tell_where_a_byte_is_lost, OverrunsStand.tell, IsLostBehind.older
    // shown by: overrun-with-errors, an_overrun_comes_before_the_loss
    // refused: uart_16550/receive_with_errors_hides_errors, uart_chip/ring_loses_the_oldest
    // if: the driver takes the FIFOs to be on
    ensures stand { (after : Uart16550 MachineState) (slots : ℕ) (items : List Received) →
        Ready (under_terminal uart.now) → (fields uart.now).fifo ≡ true →
        FlagTells (backend_of uart.now).chip.receiver →
        Made MachineStep (ReceivesWithErrors slots items) uart.now after →
        OverrunsStand (backend_of uart.now) items (backend_of after) }
    ensures looks { (line : ℕ) (after : MachineState) →
        MachineStep (backend_of uart.now) (Read offsets.LSR line) after →
        FlagTells after.chip.receiver }
    // if: the driver takes the FIFOs to be on
    ensures accesses { (access : Access) (after : MachineState) →
        Ready (under_terminal uart.now) → (fields uart.now).fifo ≡ true → LeavesReceiver access →
        MachineStep (backend_of uart.now) access after →
        FlagTells (backend_of uart.now).chip.receiver → FlagTells after.chip.receiver }
{
    // The contract of this call states what holds of every machine.
    let _fifo = uart.backend().fifo_enabled();
}

/// After an `init` that returns Ok, `check_configured` with `MCR::READY` returns Ok, and after an
/// `init_with` that returns Ok, so does one with the outputs that it wrote. The configuration may
/// enable only the four interrupts that the chip has, and the outputs be only those that it has: it
/// shows no other bit.
///
/// # Examples
///
/// ```
/// configured_chips_pass_the_check(&uart);
/// ```
pub fn configured_chips_pass_the_check(uart: &Uart16550<Device16550>)
    // promise: a `check_configured` returns Ok exactly if the registers are as configured, so it
    //   does after an `init` or an `init_with` that returns Ok
    // with: Checks, IsConfigured.divisor_latch, configured_chips_pass_the_check.init,
    //   configured_chips_pass_the_check.init_with
    // shown by: an_init_is_found_by_the_check,
    //   an_interrupt_that_the_chip_does_not_have_is_found_missing, checks-what-was-written
    // refused: uart_16550/check_configured_expects_no_dtr,
    //   uart_16550/check_configured_finds_a_divisor_always
    ensures init { (config : Config) (after later : Uart16550 MachineState) (found : Verdict) →
        IsComputable config → IsWithin config.interrupts.0 ier_bits →
        Did MachineStep (Inits config (Ok (tt {0}))) uart.now after →
        Made MachineStep (ChecksConfigured (fields after).config MCR.READY.0 found) after later →
        found ≡ Ok tt }
    ensures init_with { (setup : Setup) (config : Config) (after later : Uart16550 MachineState)
        (found : Verdict) →
        IsComputable config → IsWithin config.interrupts.0 ier_bits →
        IsWithin setup.outputs.0 mcr_bits →
        Did MachineStep (InitsWith setup config (Ok (tt {0}))) uart.now after →
        Made MachineStep (ChecksConfigured (fields after).config setup.outputs.0 found)
        after later →
        found ≡ Ok tt }
{
    // The contract of this call states what holds of every machine.
    let _fifo = uart.backend().fifo_enabled();
}

/// Over a chip that has FIFOs, with DLAB and loopback off, `find_fifo_size` returns exactly the
/// size of the FIFOs, or a stall, whatever the schedule is. A state in which a session may begin,
/// with the FIFOs on, is such a state. Over any chip the call does not stall if each access of the
/// schedule has a tick before it, the spin limit is at least n (t + 1) for characters of t ticks,
/// of which the transmitter holds n, the wire has room for what waits, and automatic flow control
/// is off.
///
/// With a size nothing of the call went to the wire, and all that waited before it did; what is in
/// the receiver arrived during the call; and a session may begin, if the driver takes the FIFOs for
/// no larger than they are. After a stall at most one byte of the call goes out, and a session may
/// begin if one might before. Either way the latches are as before. A driver that takes the FIFOs
/// to be off does nothing. One that takes them to be on over a chip that has none is told that one
/// byte came back, or of a stall.
///
/// # Examples
///
/// ```
/// fifo_sizes_are_found(&uart);
/// ```
pub fn fifo_sizes_are_found(uart: &Uart16550<Device16550>)
    // promise: over the software chip `find_fifo_size` finds the size of the chip, whatever happens
    //   between the accesses, or the call stalls, and then at most one byte of it goes out; it does
    //   not stall if ticks come and the spin limit is long enough
    // with: fifo_sizes_are_found.on, fifo_sizes_are_found.succeeds, fifo_sizes_are_found.ends,
    //   FindsSize.answers, FindsSize.sends, IsMeasured.flushed
    // shown by: the_size_of_the_chip_is_found, fifos_that_are_off_are_turned_on,
    //   a_stall_sends_at_most_one_test_byte
    // refused: a_stall_of_a_find_sends_nothing, a_limit_for_the_fifo_alone_is_enough
    // promise: to `find_fifo_size` a chip that has no FIFOs sends one byte back, which is too few;
    //   and where the driver takes the FIFOs to be off no access is made
    // with: fifo_sizes_are_found.none, fifo_sizes_are_found.off, FindsNone.answers,
    //   FindsOff.machine
    // shown by: one_byte_comes_back_without_fifos, without_fifos_nothing_is_done
    // refused: uart_16550/find_fifo_size_looks_at_fifos_that_are_off
    // if: the driver takes the FIFOs to be off
    ensures off { (after : Uart16550 MachineState) (found : Result FifoSize FifoSizeError) →
        (fields uart.now).fifo ≡ false →
        Did MachineStep (FindsFifoSize found) uart.now after →
        FindsOff (under_terminal uart.now) found (under_terminal after) }
    // if: the driver takes the FIFOs to be on
    ensures may { Ready (under_terminal uart.now) → (fields uart.now).fifo ≡ true →
        MayFind (under_terminal uart.now) }
    // if: the driver takes the FIFOs to be on
    ensures on { (after : Uart16550 MachineState) (found : Result FifoSize FifoSizeError) →
        MayFind (under_terminal uart.now) → (fields uart.now).fifo ≡ true →
        Did MachineStep (FindsFifoSize found) uart.now after →
        FindsSize (under_terminal uart.now) found (under_terminal after) }
    // if: the chip has no FIFOs
    // if: the driver takes the FIFOs to be on
    ensures none { (after : Uart16550 MachineState) (found : Result FifoSize FifoSizeError) →
        IsPlain (under_terminal uart.now) → (backend_of uart.now).chip.model ≡ Uart16450 →
        (fields uart.now).fifo ≡ true →
        Did MachineStep (FindsFifoSize found) uart.now after →
        FindsNone (under_terminal uart.now) found (under_terminal after) }
    // if: the driver takes the FIFOs to be on
    ensures ends { (after : Uart16550 MachineState) (found : Result FifoSize FifoSizeError) →
        IsPlain (under_terminal uart.now) → (fields uart.now).fifo ≡ true →
        IsTimely (under_terminal uart.now) → IsUnheld (backend_of uart.now) →
        HasRoom 0 (backend_of uart.now) →
        Did MachineStep (FindsFifoSize found) uart.now after →
        found ≢ Err Stalled }
    // if: the driver takes the FIFOs to be on
    ensures succeeds { (after : Uart16550 MachineState) (found : Result FifoSize FifoSizeError) →
        MayFind (under_terminal uart.now) → (fields uart.now).fifo ≡ true →
        IsTimely (under_terminal uart.now) → IsUnheld (backend_of uart.now) →
        HasRoom 0 (backend_of uart.now) →
        Did MachineStep (FindsFifoSize found) uart.now after →
        found ≡ Ok (size_in (under_terminal uart.now)) }
{
    // The contract of this call states what holds of every machine.
    let _fifo = uart.backend().fifo_enabled();
}

/// In a ready state `enable_64_byte_fifos` returns whether the chip has the switch of a 16750, or
/// it stalls, whatever the schedule is. A chip that has it has FIFOs of 64 then, and any other the
/// size that it had.
///
/// If it does not stall, the transmitter is empty: what waited went to the wire, and nothing of the
/// call did. Received bytes that were not taken are lost only on a chip whose size has changed. The
/// latches are as before, the FIFOs are on, and a session may begin, if the driver takes them for
/// no larger than they are. After a stall nothing is lost, the size and the latches are as before,
/// and a session may begin. A driver that takes the FIFOs to be off does nothing.
///
/// The call does not stall if each access of the schedule has a tick before it, the spin limit is
/// at least n (t + 1) for characters of t ticks, of which the transmitter holds n, the wire has
/// room for what waits, and automatic flow control is off.
///
/// # Examples
///
/// ```
/// fifos_of_64_are_enabled(&uart);
/// ```
pub fn fifos_of_64_are_enabled(uart: &Uart16550<Device16550>)
    // promise: over the software chip FIFOs hold 64 after `enable_64_byte_fifos` exactly if the
    //   chip has the switch, and another has the size that it had; nothing that was sent is lost,
    //   and what was received only where the size has changed; it does not stall if ticks come and
    //   the spin limit is long enough
    // with: fifos_of_64_are_enabled.on, fifos_of_64_are_enabled.ends, IsEnabled.answers,
    //   IsEnabled.size, IsEnabled.flushed, IsEnabled.received
    // shown by: bursts_of_64_go_out_whole, what_waits_is_lost_if_the_size_changes,
    //   a_chip_of_one_size_is_no_16750, a_transmitter_that_is_not_empty_keeps_its_size
    // refused: every_chip_gets_fifos_of_64, enabling_loses_no_received_byte
    // if: the driver takes the FIFOs to be off
    ensures off { (after : Uart16550 MachineState) (enabled : Result Bool FifoSizeError) →
        (fields uart.now).fifo ≡ false →
        Did MachineStep (Enables64 enabled) uart.now after →
        EnablesOff (under_terminal uart.now) enabled (under_terminal after) }
    // if: the driver takes the FIFOs to be on
    ensures on { (after : Uart16550 MachineState) (enabled : Result Bool FifoSizeError) →
        Ready (under_terminal uart.now) → (fields uart.now).fifo ≡ true →
        Did MachineStep (Enables64 enabled) uart.now after →
        Enables (under_terminal uart.now) enabled (under_terminal after) }
    ensures ends { (after : Uart16550 MachineState) (enabled : Result Bool FifoSizeError) →
        IsTimely (under_terminal uart.now) → IsUnheld (backend_of uart.now) →
        HasRoom 0 (backend_of uart.now) →
        Did MachineStep (Enables64 enabled) uart.now after →
        enabled ≢ Err Stalled }
{
    // The contract of this call states what holds of every machine.
    let _fifo = uart.backend().fifo_enabled();
}

/// A new machine is wired, and ticks, a `next` and every access keep that. So a session that begins
/// in any state of a machine goes on through calls that write MCR.
pub fn machines_stay_wired()
    // promise: a session goes on through calls that switch the outputs, if it began with a wired
    //   machine, and `msr` then tells of the inputs alone
    // with: IsWithinSession, Follows.wired, machines_stay_wired.accesses
    // shown by: tells-the-inputs-alone, outputs
    // refused: uart_16550/set_modem_control_sets_loopback,
    //   uart_chip/lines_are_outputs_without_loopback
    ensures new { (cuts : Bool) (chip : Chip) (char_ticks room : ℕ) (events : List Event) →
        IsWiredChip (cutting cuts (fresh chip char_ticks room events)).chip }
    ensures ticking { (n : ℕ) (machine : MachineState) →
        IsWiredChip machine.chip → IsWiredChip (ticks n machine.chip) }
    ensures marks { (machine : MachineState) →
        IsWiredChip machine.chip → IsWiredChip (at_mark machine).chip }
    ensures accesses { (access : Access) (before after : MachineState) →
        MachineStep before access after → IsWiredChip before.chip → IsWiredChip after.chip }
{}

/// `set_rts`, `set_dtr` and `set_break` preserve a state in which a session may begin: they leave
/// loopback and DLAB off.
pub fn switches_keep_ready()
    ensures rts { (on : Bool) (before after : Uart16550 MachineState) →
        Ready (under_terminal before) →
        Made MachineStep (SetsOutput MCR.RTS.0 on) before after →
        Ready (under_terminal after) }
    ensures dtr { (on : Bool) (before after : Uart16550 MachineState) →
        Ready (under_terminal before) →
        Made MachineStep (SetsOutput MCR.DTR.0 on) before after →
        Ready (under_terminal after) }
    ensures set_break { (on : Bool) (before after : Uart16550 MachineState) →
        Ready (under_terminal before) →
        Made MachineStep (SetsBreak on) before after →
        Ready (under_terminal after) }
{}

/// The calls of a session lose nothing silently. What goes out grew by exactly what they reported
/// as sent; what they received, and then what waits, is what waited and what arrived, in order,
/// with some left out; and none is left out where no `lsr` of the session showed an overrun, and
/// neither chip nor driver has one left to show. An `lsr` leaves none: so if the last call is one,
/// and none showed an overrun, nothing was lost.
///
/// That is all that a program needs to know of a session to rely on its bytes. It follows from the
/// main theorem, that driver and chip are a port, and from a law of ports alone.
///
/// # Examples
///
/// ```
/// sessions_lose_nothing_silently(&uart);
/// ```
pub fn sessions_lose_nothing_silently(uart: &Uart16550<Device16550>)
    // promise: a session loses nothing silently: what it sent is in what goes out, what it received
    //   and what waits is what waited and arrived, in order, with some left out, and none if no
    //   `lsr` of it showed an overrun and the last call is one
    // with: sessions_lose_nothing_silently.loses_nothing, sessions_lose_nothing_silently.keeps_all,
    //   ports_lose_nothing_silently, LosesNothingSilently.sends, LosesNothingSilently.receives,
    //   LosesNothingSilently.tells
    // shown by: what_is_said_of_sessions_holds_of_random_runs
    // refused: what_an_overrun_lost_is_kept, uart_chip/losses_may_stay_untold
    ensures loses_nothing { (links : List Link) (after : State) →
        IsSession (under_terminal uart.now) links → Chain (under_terminal uart.now) links after →
        LosesNothingSilently (port_of (under_terminal uart.now))
        (map (cut_of (backend_of uart.now).chip) (reported links)) (received links)
        (arrived (under_terminal uart.now) after) (told links) (port_of after) }
    // if: the last call is an `lsr`
    // if: no `lsr` of these calls shows an overrun
    ensures keeps_all { (some : List Link) (last : Link) (after : State) →
        IsSession (under_terminal uart.now) (some ++ last ∷ []) →
        Chain (under_terminal uart.now) (some ++ last ∷ []) after →
        last.call ≡ Lsr →
        AllByRecursion (λ overrun. overrun ≡ false) (told (some ++ last ∷ [])) →
        received (some ++ last ∷ []) ++ waiting (machine_of after) ≡
        waiting (backend_of uart.now) ++ arrived (under_terminal uart.now) after }
{
    // The contract of this call states what holds of every machine.
    let _fifo = uart.backend().fifo_enabled();
}

/// What `run` promises of its calls holds of the driver's own, made in turn, one after the other.
///
/// # Examples
///
/// ```
/// calls_in_turn_are_runs(&uart);
/// ```
pub fn calls_in_turn_are_runs(uart: &Uart16550<Device16550>)
    // promise: what holds of a run holds of the driver's own calls in turn, and with a call in
    //   place of another that stands for it, or of others in turn; the two calls that find or
    //   switch the size of the FIFOs end a session, and the next may begin behind them
    // with: calls_in_turn_are_runs.ran, calls_in_turn_are_runs.uncut, other_calls_stand_for_these,
    //   sizing_ends_sessions
    // shown by: calls_in_turn_do_what_a_run_does,
    //   calls_that_stand_for_another_one_do_what_it_does, the_size_of_the_chip_is_found
    // refused: a_burst_of_any_size_stands_for_a_send, a_burst_of_any_size_needs_no_other_driver,
    //   a_refused_form_may_be_made, who_waits_is_asked_once_more, no_send_is_in_vain,
    //   terminals_are_initialised_twice, wired_machines_have_no_break
    ensures ran { (calls : List Call) (answers : List Answer) (after : State) →
        IsRun (under_terminal uart.now) calls answers after →
        Ran (under_terminal uart.now) calls answers after }
    ensures uncut { (calls : List Call) (answers : List Answer) (after : State) →
        IsRun (under_terminal uart.now) calls answers after → IsUncut (under_terminal uart.now) →
        RanUncut (under_terminal uart.now) calls answers after }
{
    // The contract of this call states what holds of every machine.
    let _fifo = uart.backend().fifo_enabled();
}

/// Calls of the driver that are no [`Call`](uart_calls::Call) stand for one, and what holds of a
/// run holds with them in its place: `try_receive_with_errors` for a `ReceiveWithErrors` of one
/// slot, `send_gathered` for a `Send`, `is_gone` for an `Mcr`, the terminal's `write_raw_text` for
/// a `Text`, and a `send_burst` that is given no larger size than the driver has for a `Send` of as
/// many bytes. One that is given any size stands for a `Send` of a driver that takes the FIFOs for
/// that size. `checked_init`, `checked_init_with`, `checked_set_frame` and
/// `checked_set_frame_when_idle` stand for the calls that they are forms of, or do nothing.
///
/// Others stand for several in turn. `send_bytes_while` does for `Send`, each of what is left,
/// `receive_bytes_while` for `TryReceive`, and `flush_while` for `IsIdle`; the caller is asked
/// after each that was in vain, and whatever it says, what was done is a run. A text of any length
/// is sent by `Send` of one byte at a time. A terminal is made by an `Init` and then a
/// `TestLoopback`, up to the first refusal.
pub fn other_calls_stand_for_these()
    ensures try_receive_with_errors { ReceivesOne }
    ensures send_gathered { SendsParts }
    ensures send_burst { SendsFront }
    ensures send_burst_of_any_size { SendsSized }
    ensures write_raw_text { WritesBytes }
    ensures texts_of_any_length { WritesInTurn }
    ensures is_gone { ReadsControl }
    ensures checked_init { ChecksInit }
    ensures checked_init_with { ChecksInitWith }
    ensures checked_set_frame { ChecksFrame }
    ensures checked_set_frame_when_idle { ChecksFrameWhenIdle }
    ensures send_bytes_while { SendsInTurn }
    ensures receive_bytes_while { ReceivesInTurn }
    ensures flush_while { LooksInTurn }
    ensures new_with_backend { StartsTerminal }
{}

/// `find_fifo_size` and `enable_64_byte_fifos` end a session, as a loopback test does, and the next
/// may begin behind them, whatever they return, if the driver takes the FIFOs for no larger than
/// they are. A wired machine stays wired, there is a break only if there was one, and what the
/// driver takes the FIFOs for is as it was. [`fifo_sizes_are_found`] and
/// [`fifos_of_64_are_enabled`] say what they come to.
///
/// # Examples
///
/// ```
/// sizing_ends_sessions(&uart);
/// ```
pub fn sizing_ends_sessions(uart: &Uart16550<Device16550>)
    ensures find_fifo_size { (after : Uart16550 MachineState)
        (found : Result FifoSize FifoSizeError) →
        Ready (under_terminal uart.now) → Did MachineStep (FindsFifoSize found) uart.now after →
        EndsSession (under_terminal uart.now) (under_terminal after) }
    ensures enable_64_byte_fifos { (after : Uart16550 MachineState)
        (enabled : Result Bool FifoSizeError) →
        Ready (under_terminal uart.now) → Did MachineStep (Enables64 enabled) uart.now after →
        EndsSession (under_terminal uart.now) (under_terminal after) }
{
    // The contract of this call states what holds of every machine.
    let _fifo = uart.backend().fifo_enabled();
}
