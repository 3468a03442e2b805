//! Laws on how late a handler may be. They follow from the contracts.
//!
//! The contract of each function is a law that callers can cite.
ghost use Rattle.std.specs.Prelude.{◌≡◌, ◌≤◌, ◌+◌, ◌*◌, ℕ, true, false, List, All};
ghost use Rattle.std.specs.Prelude.{length, ◌++◌, Ok, Some};
ghost use Rattle.uart_chip.specs.Chip.{ChipState};
ghost use Rattle.uart_chip.specs.Conserved.{IsDrop, entered};
ghost use Rattle.uart_chip.specs.Machine.{MachineState, MachineStep};
ghost use Rattle.uart_chip.specs.Receiver.{characters_of};
ghost use Rattle.uart_latency.specs.Arrivals.{AllInTime, KeepsAll, is_below_level, spare};
ghost use Rattle.uart_events.specs.declared.event.Event.{Event};
ghost use Rattle.uart_latency.specs.Ticks.{AreBetween, AreSpaced, ArePrompt, AreOthersQuick};
ghost use Rattle.uart_latency.specs.Ticks.{IsEarly, IsInTime, IsPrompt, IsPromptDid};
ghost use Rattle.uart_latency.specs.Ticks.{IsQuickHandle, beside, late_at, late_to_mark, passing};
ghost use Rattle.uart_latency.specs.Ticks.{visit};
ghost use Rattle.uart_latency.specs.Timely.{AllLeaveListening, AreTimely, IsListening};
ghost use Rattle.uart_ring.specs.Handle.{Handles};
ghost use Rattle.uart_ring.specs.Ring.{RingDid, free, ring_fields};
ghost use Rattle.uart_ring.specs.declared.ring.service.HandleEnd.TheVariants.{Idle};
ghost use Rattle.uart_ring.specs.declared.ring.service.Handled.{Handled};
ghost use Rattle.uart_ring_runs.specs.OwnSession.{OwnConserves};
ghost use Rattle.uart_ring_runs.specs.RingBytes.{to_take};
ghost use Rattle.uart_ring_runs.specs.RingRun.{IsOfRings, RingChain, RingLink, RingState};
ghost use Rattle.uart_ring_runs.specs.RingRun.{ring_machine, under};
ghost use Rattle.uart_run.specs.Chains.{calls_of};
ghost use Rattle.uart_run.specs.Ready.{Ready};
ghost use Rattle.uart_spec.specs.Access.{Path};
ghost use Rattle.uart_spec.specs.Bits.{has_any};
ghost use Rattle.uart_spec.specs.FifoSize.{characters};
ghost use Rattle.uart_spec.specs.Timing.{IsCharacterAnswer, IsHandlerBudget, characters_at};
ghost use Rattle.uart_spec.specs.Timing.{spare_at};
ghost use Rattle.uart_spec.specs.declared.access.Access.{Access};
ghost use Rattle.uart_spec.specs.declared.config.Config.{Config};
ghost use Rattle.uart_spec.specs.declared.registers.fifo_trigger_level.FifoTriggerLevel.{FifoTriggerLevel};
ghost use Rattle.uart_spec.specs.declared.registers.interrupt_enable.TheConstants.IER;
ghost use Rattle.uart_spec.specs.declared.registers.line_status.TheConstants.LSR;
ghost use Rattle.uart_spec.specs.declared.setup.FifoSize.{FifoSize};

use uart_chip::Device16550;
use uart_ring::Uart16550Ring;

/// If the handler comes in time, no character is dropped, without flow control.
///
/// The receiver's interrupt comes when as many characters wait as the trigger level. From then to
/// the end of the handler's visit never may more characters arrive than the FIFO still takes: two
/// at level 14 of a FIFO of 16, eight at level 8. Before that as many may arrive as will, and
/// whatever else the schedule has. The FIFO is on, fewer characters wait at first than the level,
/// and each call is one of the rings.
///
/// # Examples
///
/// ```
/// handlers_in_time_drop_nothing();
/// ```
pub fn handlers_in_time_drop_nothing()
    // promise: without flow control no character is dropped, if no more arrive from the moment at
    //   which as many wait as the trigger level to the end of the visit than the FIFO still takes
    // with: handlers_in_time_drop_nothing, visits_end_below_the_level, data_ready_stays_enabled
    // shown by: a_handler_at_the_bound_loses_nothing_and_a_tick_later_it_does
    // refused: one_character_more_is_in_time, a_paused_visit_ends_below_the_level,
    //   a_chip_that_is_stuck_listens
    // no character is dropped if, from the moment at which as many wait as the trigger level, no
    // more arrive to the end of the handler's visit than the FIFO still takes: two at level 14 of a
    // FIFO of 16, eight at level 8
    // if: the FIFO is on
    // if: fewer characters wait at first than the trigger level
    ensures { (s t : RingState) (links : List RingLink) → Ready (under s) →
        (ring_machine s).chip.fifo ≡ true → is_below_level s ≡ true →
        All IsOfRings (calls_of links) → RingChain s links t → AllInTime 0 links →
        IsDrop (ring_machine s) (ring_machine t) → ⊥ }
{}

/// If the handler comes in so many ticks, no character is dropped, without flow control.
///
/// Characters come at least `t` ticks apart. It is late by the ticks that pass while as many
/// characters wait as the trigger level, and each character that is read then gives back the `t` of
/// one. Never may it be later than `d` ticks, which are fewer than the FIFO takes to fill from the
/// level on, and one character more: `d < (F - L + 1) * t`, with `L` of `F` characters at the
/// level. At 115,200 baud a character of ten bits takes 86.8 us, so these are 260 us at level 14 of
/// a FIFO of 16, and 781 us at level 8. The bound is exact: where it is reached, a character can be
/// lost.
///
/// The FIFO is on, fewer characters wait at first than the level, and each call is one of the
/// rings.
///
/// # Examples
///
/// ```
/// prompt_handlers_drop_nothing();
/// ```
pub fn prompt_handlers_drop_nothing()
    // no character is dropped if the handler is never later than `d` ticks, with characters at
    // least `t` ticks apart and `d < (F - L + 1) * t` for `L` of `F` characters at the level
    // if: the FIFO is on
    // if: fewer characters wait at first than the trigger level
    ensures { (t d after : ℕ) (s u : RingState) (links : List RingLink)
        (chain : RingChain s links u) → Ready (under s) → (ring_machine s).chip.fifo ≡ true →
        is_below_level s ≡ true → AreSpaced t (ring_machine s).ahead → IsEarly t d s →
        ArePrompt t d 0 after s links u chain → IsDrop (ring_machine s) (ring_machine u) → ⊥ }
{}

/// If each visit of the handler begins in time, no character is dropped, without flow control.
///
/// A visit is a `handle` or a `try_handle` that ends with `Idle`. It begins while receiving is not
/// paused, and the receive ring has room for a whole FIFO: [`the_receive_ring_has_room`] says when.
/// Its first access, which reads ISR, is made at most `b` ticks after the receiver's interrupt, and
/// at most `e` ticks pass before each other one. The first byte is read with the third access, or
/// with the fifth, if a line error is told before it: no more than one can be while nothing is
/// lost. So `b + 4 * e` is to be at most `d`, which is less than the FIFO takes to fill from the
/// level on, and one character more: `d < (F - L + 1) * t`, with `L` of `F` characters at the
/// level, and `t` ticks for each. Two accesses are to take no longer than a character. And the
/// accesses that are for no byte, as to send what waits, are to take at most `d`, with two more;
/// and with `b` and four more at most `d` and what a whole FIFO gives back.
///
/// Each other call of the rings begins at most `b` late too, and makes so few accesses that the
/// last one is at most `d` late. A `try_handle` finds no stuck chip.
///
/// At 115,200 baud, level 8 of 16 and a microsecond for each access the handler may be 777 us late.
///
/// # Examples
///
/// ```
/// timely_handlers_drop_nothing();
/// ```
pub fn timely_handlers_drop_nothing()
    // promise: without flow control no character is dropped, if each visit of the handler begins in
    //   time after the interrupt, and the other calls make few accesses
    // with: timely_handlers_drop_nothing, prompt_handlers_drop_nothing, handles_are_prompt,
    //   visits_that_read_all_are_prompt, what_is_not_dropped_is_kept
    // shown by: a_handler_at_the_bound_loses_nothing_and_a_tick_later_it_does
    // refused: one_tick_more_is_early, a_read_gives_back_two, a_byte_may_take_three_accesses,
    //   the_first_byte_is_read_an_access_earlier, a_call_may_end_an_access_later,
    //   a_visit_is_timely_while_paused
    // no character is dropped if each visit of the handler begins at most `b` ticks late, and each
    // other call makes few accesses, whatever the schedule, the calls and the line errors
    // if: the FIFO is on
    // if: fewer characters wait at first than the trigger level
    ensures { (t d b e : ℕ) (s u : RingState) (links : List RingLink)
        (chain : RingChain s links u) → Ready (under s) → (ring_machine s).chip.fifo ≡ true →
        is_below_level s ≡ true → IsListening s → AreSpaced t (ring_machine s).ahead →
        IsEarly t d s → AreTimely t d b e 0 s links u chain →
        IsDrop (ring_machine s) (ring_machine u) → ⊥ }
{}

/// A visit is never later than it began, and the time of its accesses: if its first access finds it
/// at most `b` ticks late, and at most `e` pass before each other one, it is at most `b` and `e`
/// times the others late. So it is enough to know how late the handler begins, and how many
/// accesses it makes.
pub fn quick_visits_are_prompt()
    // proved: Any accesses in turn are at most b + (n - 1) e late, if there are n
    // on: `laws::quick_visits_are_prompt`
    // if: the first access finds the visit at most `b` ticks late
    // if: with the time of its accesses it is at most `d` late
    ensures { (t d b e late : ℕ) (l : List Access) (m n : MachineState)
        (path : Path MachineStep m l n) → late_at late m.ahead m.chip ≤ b →
        AreOthersQuick e l m n path → b + length l * e ≤ d + e →
        (after : ℕ) × IsPrompt t d late after l m n path }
{}

/// What `Config::handler_budget` returns is in time, where a tick is a clock of the chip's input.
///
/// Let a character of the configuration take `t`, the chip have FIFOs of this size with the
/// configured level, an access take `e`, and what is served before take `before`. Then there is a
/// `d` as `timely_handlers_drop_nothing` asks for it, and a visit that begins late by the budget,
/// behind what is served before, begins by a `b` with `b + 4 * e ≤ d`.
pub fn budgets_are_in_time()
    // promise: a handler that is not later than `Config::handler_budget` says, with its accesses
    //   and what is served before it, is in time
    // with: budgets_are_in_time
    // shown by: a_handler_at_its_budget_loses_nothing_and_a_clock_later_it_does
    // refused: a_clock_more_than_the_budget_is_in_time
    // proved: What `Config::handler_budget` returns is a time by which a visit may begin, if a tick
    //   is a clock of the chip's input
    // on: `laws::budgets_are_in_time`
    // what `Config::handler_budget` returns for accesses of `e` clocks, behind what is served for
    // `before`, is a `b` of `timely_handlers_drop_nothing`, less `before`, if a tick is a clock
    // if: the chip takes as many more as the configuration's level leaves of FIFOs of this size
    ensures { (config : Config) (size : FifoSize) (e before clocks : ℕ) (s : RingState) →
        spare_at size config.fifo_trigger_level ≡ spare s →
        IsHandlerBudget config size e before (Ok (Some clocks)) →
        (t d : ℕ) × IsCharacterAnswer config (Ok t) × IsEarly t d s ×
        (clocks + before + 4 * e ≤ d) × (2 * e ≤ t) }
{}

/// At a line that several ports share a visit begins late by the accesses of those that are served
/// before.
///
/// Let the handler of the line find this port at most `b` ticks late when it begins, and let the
/// others take at most `taken` ticks until the first access at this port: then that finds it at
/// most `b + taken` late, whatever arrives meanwhile. So `timely_handlers_drop_nothing` holds for a
/// visit at such a line with this sum in place of its `b`.
pub fn visits_behind_others_begin_late_by_them()
    // promise: at a line that several ports share the handler may be late by as much less as those
    //   take that are served before
    // with: visits_behind_others_begin_late_by_them
    // shown by: a_port_that_is_served_second_loses_nothing_at_its_bound_and_a_tick_later_it_does
    // refused: others_at_the_line_take_no_time
    // proved: At a line that several ports share a visit begins late by no more than the handler of
    //   the line, and the time of those that are served before
    // on: `laws::visits_behind_others_begin_late_by_them`
    // if: the handler of the line finds the port at most `b` ticks late
    // if: those that are served before take at most `taken` ticks
    ensures { (b taken late : ℕ) (first others : List Event) (c : ChipState) → AreBetween first →
        late_to_mark late first c ≤ b → passing others ≤ taken →
        late_at late (first ++ others) c ≤ b + taken }
{}

/// A `handle` that ends with `Idle` is never later than at its first byte.
///
/// It is called after a session in which the receiver was never late, with DATA_READY enabled. Its
/// first access, which reads ISR, finds it at most `b` ticks late, and at most `e` ticks pass
/// before each other one. If as many characters wait as the trigger level, ISR shows the receiver's
/// interrupt, and the first byte is read with the third access. Or it shows a line error, which a
/// look at LSR clears, and then the receiver's interrupt, since no second one comes while there is
/// room: so the first byte is at most `b + 4 * e` late. That is to be at most `d`; two accesses are
/// to take no longer than a character; the receive ring is to have room for a whole FIFO; and the
/// accesses that are for no byte, as to send what waits, are to take at most `d`, with two more,
/// and with `b` and four more at most `d` and what a whole FIFO gives back.
pub fn handles_are_prompt()
    // if: the FIFO is on
    // if: fewer characters wait at first than the trigger level
    // if: DATA_READY is enabled when it is called
    // if: it ended with no interrupt pending
    // if: the receive ring has room for a whole FIFO
    // if: its first access finds it at most `b` ticks late
    ensures { (t d b e late limit : ℕ) (handled : Handled) (s u v : RingState)
        (links : List RingLink) (chain : RingChain s links u)
        (did : RingDid MachineStep (Handles limit handled) u v) → Ready (under s) →
        (ring_machine s).chip.fifo ≡ true → is_below_level s ≡ true →
        AreSpaced t (ring_machine s).ahead → IsEarly t d s →
        ArePrompt t d 0 late s links u chain →
        has_any (ring_machine u).chip.latches.ier IER.DATA_READY.0 ≡ true → handled.end ≡ Idle →
        characters (ring_fields u).driver.size ≤ free (ring_fields u).receive →
        late_at late (ring_machine u).ahead (ring_machine u).chip ≤ b →
        AreOthersQuick e did.list (ring_machine u) (ring_machine v) did.path →
        IsQuickHandle t d b e (characters (ring_fields u).driver.size) (beside did.list) →
        (after : ℕ) × IsPromptDid t d late after u v did }
{}

/// A visit that reads until nothing waits is never later than at its first byte, if two accesses
/// take no longer than a character.
///
/// Let its first access, which reads ISR, find it at most `b` ticks late, and at most `e` ticks
/// pass before each other one. The first byte is read two accesses later, or four if a line error
/// is told first, so then it is at most `b + 2 * e` late, or `b + 4 * e`. If that is at most `d`,
/// so it is at each access until none waits. What the handler does after that begins in time anew:
/// it may make as many accesses as pass in `d`, as to send what waits.
pub fn visits_that_read_all_are_prompt()
    // if: the last look shows that nothing waits
    // if: its first access finds it at most `b` ticks late
    ensures { (t d b e late line : ℕ) (first : Access) (front : List Access)
        (bytes : List (ℕ × ℕ)) (back : List Access) (m n : MachineState)
        (path : Path MachineStep m (visit first front bytes line back) n) →
        has_any line LSR.DATA_READY.0 ≡ false → late_at late m.ahead m.chip ≤ b →
        AreOthersQuick e (visit first front bytes line back) m n path →
        IsInTime t d b e front back →
        (after : ℕ) × IsPrompt t d late after (visit first front bytes line back) m n path }
{}

/// A visit of the handler that ends with `Idle` leaves fewer characters waiting than the trigger
/// level, if DATA_READY was enabled before it, and receiving is not paused after it. So from there
/// characters are counted anew.
pub fn visits_end_below_the_level()
    // if: it ended with no interrupt pending
    // if: DATA_READY is enabled before it
    // if: receiving is not paused after it
    ensures { (limit : ℕ) (handled : Handled) (s t : RingState) → handled.end ≡ Idle →
        RingDid MachineStep (Handles limit handled) s t → Ready (under s) →
        has_any (ring_machine s).chip.latches.ier IER.DATA_READY.0 ≡ true →
        (ring_fields t).is_paused ≡ false → is_below_level t ≡ true }
{}

/// DATA_READY stays enabled while receiving is not paused, in a session of calls of the rings in
/// which no `try_handle` finds the chip stuck. So the receiver's interrupt comes in each of them.
pub fn data_ready_stays_enabled()
    ensures { (s u : RingState) (links : List RingLink) → Ready (under s) → IsListening s →
        AllLeaveListening links → RingChain s links u → IsListening u }
{}

/// The receive ring has room for so many bytes, as of a whole FIFO, if no more came since it was as
/// empty as it begins: those that it held, those that waited in the chip, those that have arrived
/// since, and so many more are no more than its capacity. So it is enough that `take` empties it
/// once for so many characters.
pub fn the_receive_ring_has_room()
    // promise: the receive ring has room for a whole FIFO, if `take` empties it once for so many
    //   characters; and a level is the number at which the chip's interrupt comes
    // with: the_receive_ring_has_room, levels_are_those_of_the_chip
    // shown by: a_ring_that_is_emptied_in_time_has_room_for_a_whole_fifo
    // refused: one_byte_more_has_room
    // if: with these bytes it is no more than the capacity of the receive ring
    ensures { (s t : RingState) (links : List RingLink) (count : ℕ) → OwnConserves s links t →
        length (to_take s) + length (entered (ring_machine s) (ring_machine t)) + count ≤
        (ring_fields t).receive.capacity → count ≤ free (ring_fields t).receive }
{}

/// `FifoTriggerLevel::characters` says of each level at how many characters the interrupt of the
/// chip comes.
pub fn levels_are_those_of_the_chip()
    ensures { (size : FifoSize) (level : FifoTriggerLevel) →
        characters_at size level ≡ characters_of size level }
{}

/// If no character was dropped in calls of these rings, all that arrived in them was taken or
/// cleared, is in the receive ring, or waits in the chip, in order.
///
/// # Examples
///
/// ```
/// what_is_not_dropped_is_kept(&ring);
/// ```
pub fn what_is_not_dropped_is_kept(ring: &Uart16550Ring<Device16550>)
    // if: no character was dropped meanwhile
    ensures { (links : List RingLink) (t : RingState) → OwnConserves ring.now links t →
        (IsDrop (ring_machine ring.now) (ring_machine t) → ⊥) → KeepsAll ring.now links t }
{
    // The contract of this call states what holds of every machine.
    let _fifo = ring.inner().backend().fifo_enabled();
}
