//! Laws of rings, driver and machine together. They follow from the contracts.
//!
//! The contract of each function is a law that callers can cite.
ghost use Rattle.std.specs.Prelude.{◌≡◌, ◌≤◌, ◌+◌, ℕ, suc, Bool, true, false, List, [], ◌∷◌};
ghost use Rattle.std.specs.Prelude.{None, Some};
ghost use Rattle.std.specs.Prelude.{Result, Ok, Err, All, length, map, take};
ghost use Rattle.uart_call.specs.declared.call.Call.{Call};
ghost use Rattle.uart_events.specs.declared.event.Chip.TheVariants.{Uart16550A};
ghost use Rattle.uart_16550.specs.Driver.{Did, backend_of};
ghost use Rattle.uart_16550.specs.Init.{Inits};
ghost use Rattle.uart_16550.specs.declared.driver.Uart16550.{Uart16550};
ghost use Rattle.uart_chip.specs.Chip.{is_dlab_set, is_loopback};
ghost use Rattle.uart_chip.specs.Laws.{reported_front};
ghost use Rattle.uart_chip.specs.Machine.{MachineState, MachineStep};
ghost use Rattle.uart_chip.specs.declared.receiver.Character.{Character};
ghost use Rattle.uart_ring_runs.specs.Edges.{LosesNoEdge, is_line_up};
ghost use Rattle.uart_ring_runs.specs.SharedLine.{Moment, AreDlabsOff, Happened, WereLowered};
ghost use Rattle.uart_ring_runs.specs.SharedLine.{is_shared_line_up, last_of, RisesIn};
ghost use Rattle.uart_ring_runs.specs.SharedLine.{port_machine};
ghost use Rattle.uart_ring.specs.Handle.{Handles, Retriggers};
ghost use Rattle.uart_ring.specs.Line.{EachGoes, HandlesPorts};
ghost use Rattle.uart_ring.specs.declared.line.LinePort.{LinePort};
ghost use Rattle.uart_ring.specs.Notes.{NotesErrors, bytes_of, errors_in, errors_of};
ghost use Rattle.uart_ring.specs.Notes.{notes_of, unnoted_in};
ghost use Rattle.uart_ring.specs.Receive.{TakesBytes};
ghost use Rattle.uart_ring.specs.Storm.{TriesToHandle, round_limit};
ghost use Rattle.uart_ring.specs.Ring.{AreEmpty, RingDid, driver_of};
ghost use Rattle.uart_ring.specs.Ring.{ring_backend_of, ring_fields};
ghost use Rattle.uart_ring.specs.declared.notes.ErrorNotes.{ErrorNotes};
ghost use Rattle.uart_ring.specs.declared.ring.service.HandleEnd.TheVariants.{Idle};
ghost use Rattle.uart_ring.specs.declared.ring.service.Handled.{Handled};
ghost use Rattle.uart_ring.specs.declared.ring.storm.StuckError.{StuckError};
ghost use Rattle.uart_ring_runs.specs.Healthy.{IsInRoom, most_without_news, news_between};
ghost use Rattle.uart_ring_runs.specs.NotedErrors.{AreExact, AreUnlooked, Holds};
ghost use Rattle.uart_ring_runs.specs.NotedErrors.{IsInStep, MayBegin};
ghost use Rattle.uart_ring_runs.specs.NotedErrors.{NotesExactly, notes_in};
ghost use Rattle.uart_ring_runs.specs.NotedErrors.{NotedChain, NotedLink, NotedState, receiver_of};
ghost use Rattle.uart_ring_runs.specs.NotedErrors.{links_without_notes, without_notes};
ghost use Rattle.uart_ring_runs.specs.RingArmed.{IsRingArmed, KeepsArmed, LeavesThrEmpty};
ghost use Rattle.uart_ring_runs.specs.RingBytes.{AllTakeInTurn};
ghost use Rattle.uart_ring_runs.specs.RingPlain.{AreUntold, ArePlain, ConservesPlainly};
ghost use Rattle.uart_ring_runs.specs.RingRun.{DriverCalled, IsOfRings, RingChain, RingLink};
ghost use Rattle.uart_ring_runs.specs.RingRun.{RingState, ring_machine, under};
ghost use Rattle.uart_ring_runs.specs.OwnSession.{OwnConserves};
ghost use Rattle.uart_ring_runs.specs.RingSession.{AllWithinRingSession, RingConserves};
ghost use Rattle.uart_ring_runs.specs.RingStatuses.{NeitherIs};
ghost use Rattle.uart_ring_runs.specs.RingUnhindered.{RingCallsSucceed, RingSessionsSucceed};
ghost use Rattle.uart_ring_runs.specs.declared.call.RingAnswer.{RingAnswer};
ghost use Rattle.uart_ring_runs.specs.declared.call.RingCall.{RingCall};
ghost use Rattle.uart_ring_runs.specs.declared.call.RingCall.TheVariants.{Driver};
ghost use Rattle.uart_run.specs.Chains.{NoneIs, calls_of};
ghost use Rattle.uart_run.specs.Progress.{IsTimely};
ghost use Rattle.uart_run.specs.Ready.{BurstsFit, Ready};
ghost use Rattle.uart_run.specs.ReceivedErrors.{under_terminal};
ghost use Rattle.uart_run.specs.Unhindered.{IsUnhindered};
ghost use Rattle.uart_run.specs.Wired.{IsWired};
ghost use Rattle.uart_spec.specs.Access.{Path};
ghost use Rattle.uart_spec.specs.Bits.{has_any};
ghost use Rattle.uart_spec.specs.declared.access.Access.TheVariants.{Read};
ghost use Rattle.uart_spec.specs.declared.config.Config.{Config};
ghost use Rattle.uart_spec.specs.declared.received.Received.{Received};
ghost use Rattle.uart_spec.specs.declared.registers.fifo_trigger_level.FifoTriggerLevel.{FifoTriggerLevel};
ghost use Rattle.uart_spec.specs.declared.registers.line_status.TheConstants.LSR;
ghost use Rattle.uart_spec.specs.declared.registers.offsets.TheConstants as offsets;

use uart_16550::Uart16550;
use uart_chip::Device16550;
use uart_ring::{ErrorNotes, Uart16550Ring};

/// If an `init` of this driver returns `Ok`, a session of ring calls may begin with the driver that
/// it leaves, whatever the chip did before, also one with calls of `adjust_rts`. The driver may be
/// put into rings then, or be in rings already, which may hold anything. It takes the FIFOs for no
/// larger than they are, as each driver does that was told no size:
/// [`smallest_size_fits`](uart_run::laws::smallest_size_fits).
///
/// If ticks come before the `init` and the limit is long enough, on a chip that has no automatic
/// flow control, a call of the driver in that session is held up only for want of room on the wire
/// or of CTS: [`ring_sessions_succeed`].
///
/// # Examples
///
/// ```
/// init_leaves_ready(&uart);
/// if let Err(cause) = uart.init(config) {
///     return Err(StartError::NoDevice(cause));
/// }
/// ```
pub fn init_leaves_ready(uart: &Uart16550<Device16550>)
    // proved: After an `init` that returns Ok, whatever the chip was before it, if its FIFOs are no
    //   smaller than the driver takes them for, a session of ring calls may begin, with any call of
    //   the rings themselves in it, whether the rings are made after the `init` or were there
    //   before
    // on: `laws::init_leaves_ready`: `ready`, `wired`
    ensures ready { (config : Config) (after : Uart16550 MachineState) (ring : RingState) →
        BurstsFit (under_terminal uart.now) →
        Did MachineStep (Inits {T = Unit {0}} config (Ok tt)) uart.now after →
        driver_of ring ≡ after → Ready (under ring) }
    ensures wired { (config : Config) (after : Uart16550 MachineState) (ring : RingState) →
        Did MachineStep (Inits {T = Unit {0}} config (Ok tt)) uart.now after →
        driver_of ring ≡ after → IsWired (under ring) }
    // if: the chip has no automatic flow control
    // if: the rings have the driver that the `init` left
    ensures unhindered { (config : Config) (after : Uart16550 MachineState) (ring : RingState) →
        BurstsFit (under_terminal uart.now) → IsTimely (under_terminal uart.now) →
        (backend_of uart.now).chip.auto_flow ≡ false →
        Did MachineStep (Inits {T = Unit {0}} config (Ok tt)) uart.now after →
        driver_of ring ≡ after → IsUnhindered (under ring) }
{
    // The law takes the driver before its `init`, since it needs that its machine is sound.
    // The contract of this call states that of every machine, so no caller has to bring it.
    let _fifo = uart.backend().fifo_enabled();
}

/// Calls of the driver through `inner_mut` succeed in the middle of a run of rings too. Take a
/// state in which a session may begin, from which each access of the schedule has a tick before it,
/// with a spin limit of at least n (t + 1) for characters of t ticks, of which the transmitter
/// holds n, and a chip that has no automatic flow control. All of that holds after each later call
/// of the run, whatever it is and whatever it answers. So with room on the wire for what the call
/// is to send, none of these stalls: a `flush`, a `test_loopback`, a `set_frame_when_idle`, an
/// `init` and an `init_with` that have a divisor, and without CTS checking the sends that wait.
/// Calls of the rings themselves wait for nothing.
///
/// For a session that begins in such a state, the room is asked for where it begins: for what waits
/// in the rings, and for all that its calls are to send or add to the rings. So is CTS checking.
/// After it there is room for all that waits, so none of these calls stalls behind it either.
pub fn ring_sessions_succeed()
    // promise: calls of the driver succeed in the middle of a session of rings too, on a chip that
    //   has no automatic flow control: ticks, the limit, the sizes and CTS checking last from call
    //   to call, and room at its start for what waits in the rings and all that is to come is room
    //   for each
    // with: ring_sessions_succeed.calls, ring_sessions_succeed.sessions,
    //   init_leaves_ready.unhindered, RingFollows.timely, RingFollows.flow, RingFollows.checks,
    //   RingFollows.size, RingFollows.takes
    // shown by: with_room_for_all_of_it_no_call_of_a_session_of_rings_stalls,
    //   with_room_for_one_byte_less_a_session_of_rings_stalls
    // refused: a_call_of_the_driver_keeps_the_size_always, an_urgent_byte_needs_no_room,
    //   bytes_in_the_rings_need_no_room
    // in the middle of a run of rings, the same calls of the driver end, made through `inner_mut`
    ensures calls { RingCallsSucceed }
    // of a session of rings it is enough that the wire has room at its beginning for what waits in
    // the rings and for all that its calls are to send or add, and that CTS is not checked there
    ensures sessions { RingSessionsSucceed }
{}

/// `handle`, `try_handle` and `retrigger` lose no edge, at a controller that calls the handler when
/// the chip's interrupt line rises, whatever the schedule.
///
/// During the call the line was low at some time. So if the line is high after the call, or after
/// any ring calls that follow, it has risen since the call began. The controller acknowledged the
/// edge that it called the handler for before that, so it has seen the new one. DLAB is off, as in
/// each session.
///
/// If `handle` ends with `Idle`, the line is low when it returns. So a controller that calls the
/// handler as long as the line is high does not call it again before the next interrupt. The line
/// is low too when `try_handle` returns that the chip is stuck.
///
/// # Examples
///
/// ```
/// handles_lose_no_edge();
/// ```
pub fn handles_lose_no_edge()
    // promise: a handler loses no edge of the interrupt line, while DLAB is off
    // with: handles_lose_no_edge.handle, handles_lose_no_edge.retrigger
    // shown by: a_handler_ends_with_a_line_that_was_low, a_handler_stops_before_all_are_served
    // refused: uart_ring/handle_takes_an_unknown_interrupt_for_none,
    //   uart_ring/handle_does_not_retrigger_at_the_limit,
    //   uart_ring/handle_looks_at_isr_once_more_at_the_limit
    // if the line is high after `handle`, it has risen since `handle` began: so a controller that
    // detects edges calls the handler again
    // if: DLAB is off
    ensures handle { (limit : ℕ) (handled : Handled) (s t : RingState) →
        is_dlab_set (ring_machine s).chip.latches ≡ false →
        (did : RingDid MachineStep (Handles limit handled) s t) →
        LosesNoEdge did.list s t did.path }
    // so it is with `retrigger`
    // if: DLAB is off
    ensures retrigger { (s t : RingState) →
        is_dlab_set (ring_machine s).chip.latches ≡ false →
        (did : RingDid MachineStep Retriggers s t) → LosesNoEdge did.list s t did.path }
    // if: it ended with no interrupt pending
    ensures idle { (limit : ℕ) (handled : Handled) (s t : RingState) → handled.end ≡ Idle →
        RingDid MachineStep (Handles limit handled) s t → is_line_up (ring_machine t) ≡ false }
    // if: DLAB is off
    ensures try_handle { (limit rounds : ℕ) (result : Result Handled StuckError)
        (s t : RingState) → is_dlab_set (ring_machine s).chip.latches ≡ false →
        (did : RingDid MachineStep (TriesToHandle limit rounds result) s t) →
        LosesNoEdge did.list s t did.path }
    // after a `try_handle` that finds the chip stuck the line is low
    // if: DLAB is off
    ensures stuck { (limit rounds : ℕ) (error : StuckError) (s t : RingState) →
        is_dlab_set (ring_machine s).chip.latches ≡ false →
        RingDid MachineStep (TriesToHandle limit rounds (Err error)) s t →
        is_line_up (ring_machine t) ≡ false }
{}

/// A line that several ports share is low at some time during each `handle_ports`, whatever happens
/// to the chips: ticks, characters and changes of modem lines, at any of them and at any time,
/// beside what their schedules say.
///
/// It is low when the first half has been done at each port, and stays low until the first access
/// of the second half. So if the line is high at a later moment, in the second half or after
/// whatever calls follow, it has risen since the call began, and a controller that detects edges
/// calls the handler again. DLAB of each chip is off. Nobody else accesses the chips meanwhile:
/// whoever does takes the lock of the line.
pub fn shared_lines_lose_no_edge()
    // promise: a line that several ports share loses no edge: it is low at some time during
    //   `handle_ports`, whatever happens to the chips while DLAB is off
    // with: shared_lines_lose_no_edge.all_low, shared_lines_lose_no_edge.has_risen
    // shown by: falling_at_once_loses_no_edge, with_the_lock_of_the_line_neither_sleeps
    // refused: uart_ring/lower_line_leaves_the_modem_interrupt,
    //   uart_ring/handle_line_raises_each_at_once, uart_ring/raise_line_enables_a_stuck_chip,
    //   uart_ring/handle_ports_raises_nothing
    // a line that several ports share, behind one lock, is low once each port's was lowered,
    // whatever happens to the chips
    ensures all_low { (limit rounds : ℕ) (before low later : Moment) → AreDlabsOff before →
        WereLowered limit rounds (length before) before low → EachGoes Happened low later →
        is_shared_line_up later ≡ false }
    // so if it is high later, it has risen since the call began
    // if: the line is up at the last moment
    ensures has_risen { (limit rounds : ℕ) (before low : Moment) (course : List Moment) →
        AreDlabsOff before → WereLowered limit rounds (length before) before low →
        is_shared_line_up (last_of low course) ≡ true → RisesIn low course }
    ensures handle_ports { (limit rounds number : ℕ) (served : Bool)
        (old new : List (LinePort MachineState)) →
        (did : HandlesPorts MachineStep limit rounds number served old new) →
        WereLowered limit rounds number (map port_machine old) (map port_machine did.all_low) }
{}

/// Rings are two queues as long as they are told nothing: no call holds them, overtakes, drops or
/// counts rounds, and no call of the driver sends, receives or may take the THR_EMPTY interrupt
/// away.
///
/// In a session of such calls, from rings that were told nothing, what has been sent or is in the
/// transmitter, and then the transmit ring, grows by exactly the bytes that were queued. The bytes
/// taken, then the receive ring, then those in the receiver are those that were there and those
/// that were kept since. If CTS is not checked, there are never bytes in the transmit ring with no
/// interrupt to come. In the end the rings are still told nothing.
///
/// Rings are told nothing when they are made.
pub fn plain_sessions_conserve()
    // promise: rings that are told nothing are two queues over the chip, with an interrupt to come
    //   while bytes are in the transmit ring
    // with: plain_sessions_conserve.session
    // shown by: bytes_are_queued_and_sent
    // proved: New rings are two queues until a call holds them, overtakes, drops or counts rounds,
    //   or a call of the driver sends, receives or may take the interrupt away. In such a session
    //   the wire, the transmitter and the transmit ring together grow by exactly what was queued.
    //   What was taken and what waits is what waited and what arrived, less what the chip dropped.
    //   If CTS is not checked, bytes in the transmit ring have an interrupt to come
    // on: `laws::plain_sessions_conserve`: `session`, `made`
    ensures session { (s t : RingState) (links : List RingLink) → RingChain s links t →
        RingConserves s links t → AreUntold (ring_fields s) → ArePlain links →
        ConservesPlainly s links t }
    ensures made { (r : RingState) (driver : Uart16550 MachineState) (transmit receive : ℕ) →
        AreEmpty r driver transmit receive → AreUntold (ring_fields r) }
{}

/// A chip that works is found stuck only if news come all the while: characters that arrive, and
/// changes of the modem's inputs, by the schedule.
///
/// `try_handle` counts a round more, or finds the chip stuck, only if news came in the course of
/// that call, whatever its limit is. Of as many interrupts as the limit allows, and of 6 if it is
/// lower, all but 5 are such news. So if there is a call in each row of `rounds` calls in which
/// fewer come, the chip is never found stuck, whatever the schedule has between the calls, and
/// however many come there.
///
/// DLAB and loopback are off, as in each session, and the chip was not stuck before. The receive
/// ring holds no more bytes than it has room for: `receive_len` promises this of all rings, in its
/// clause `within`.
pub fn chips_that_work_are_not_stuck()
    // a working chip has a round counted only if characters or line changes came while it was
    // served: at least one, whatever the limit is, and with a limit of 64 at least 59
    // if: no chip was found stuck before
    // if: the call counted a round
    ensures counted { (limit rounds : ℕ) (handled : Handled) (s t : RingState) → Ready (under s) →
        IsInRoom s → (ring_fields s).stuck ≡ None →
        RingDid MachineStep (TriesToHandle limit rounds (Ok handled)) s t →
        (ring_fields t).rounds ≡ suc (ring_fields s).rounds →
        round_limit limit ≤ most_without_news + news_between s t }
    // the same of the call that finds it stuck: so it is turned off only if so many came in every
    // one of those calls
    // if: no chip was found stuck before
    ensures stuck { (limit rounds : ℕ) (error : StuckError) (s t : RingState) → Ready (under s) →
        IsInRoom s → (ring_fields s).stuck ≡ None →
        RingDid MachineStep (TriesToHandle limit rounds (Err error)) s t →
        round_limit limit ≤ most_without_news + news_between s t }
{}

/// A call of the driver, through `inner_mut`, leaves the rings armed in a ready state if it is none
/// of those that may take the THR_EMPTY interrupt away. These are named in the definition, and on
/// the page of `inner_mut`. A `resume_transmit` arms the rings again after them.
///
/// This is for each call by itself, also for those that end a session. Rings are armed if no byte
/// waits that may be sent, or if THR_EMPTY is enabled and due.
pub fn calls_of_the_driver_leave_armed()
    // promise: an interrupt is to come while bytes wait, if CTS is not checked, also after each
    //   call of the driver but those that are named, and after a dump of the rings' own
    // with: calls_of_the_driver_leave_armed, other_accesses_leave_armed,
    //   ring_calls_leave_armed.config_register_dump, ring_calls_leave_armed.queue_arms,
    //   ring_calls_leave_armed.service, ring_calls_leave_armed.resume_transmit
    // shown by: bytes_that_wait_are_sent_at_the_interrupt, sending_is_resumed,
    //   a_full_ring_goes_on_after_an_init, these_calls_leave_the_interrupt,
    //   without_it_bytes_wait_for_ever, a_dump_of_the_rings_wakes_them
    // refused: uart_ring/pump_without_room_leaves_thr_empty_off,
    //   uart_ring/resume_transmit_only_enables_thr_empty,
    //   uart_ring/config_register_dump_lets_what_waits_sleep
    // a call of the driver, through `inner_mut`, leaves the rings armed if it is none of those that
    // the page of `inner_mut` names; a `resume_transmit` arms them again
    ensures { (c : Call) (answer : RingAnswer) (s t : RingState) → Ready (under s) →
        LeavesThrEmpty c → DriverCalled MachineStep c answer s t → IsRingArmed s → IsRingArmed t }
{}

/// Calls of the rings themselves meet each condition that a session has because of calls of the
/// driver.
///
/// From a wired machine they go on with a session. None receives past bytes in the receive ring,
/// takes the THR_EMPTY interrupt away, or forgets what a `take_line` or a `take_modem` is to tell.
/// So what is said of a session holds of them without these conditions.
pub fn calls_of_the_rings_meet_conditions()
    // proved: Calls of the rings themselves meet each condition that a session has because of calls
    //   of the driver: from a wired machine they go on with it, and none receives past bytes in the
    //   receive ring, takes the interrupt away, or forgets what `take_line` and `take_modem` are to
    //   tell
    // on: `laws::calls_of_the_rings_meet_conditions`: `within`, `in_turn`, `armed`, `told`
    ensures within { (s : RingState) (links : List RingLink) → All IsOfRings (calls_of links) →
        IsWired (under s) → AllWithinRingSession s links }
    ensures in_turn { (links : List RingLink) → All IsOfRings (calls_of links) →
        AllTakeInTurn links }
    ensures armed { (call : RingCall) → IsOfRings call → KeepsArmed call }
    ensures told { (call : RingCall) (other : Call) (links : List RingLink) →
        All IsOfRings (calls_of links) → NoneIs call links → NeitherIs call (Driver other) links }
{}

/// In a session of which every call is one of the rings themselves, what `run_ring` promises holds
/// without the conditions that calls of the driver bring.
///
/// So bytes taken, then the receive ring, then what waits in the chip, are those that were there
/// and those that arrived; a `take_line` and a `take_modem` tell all since the last; and each call
/// leaves an interrupt to come, if CTS is not checked.
pub fn own_sessions_conserve()
    // promise: what is said of sessions of rings holds of rings that are made after an `init`, for
    //   calls of the rings themselves without the conditions that are there for calls of the
    //   driver; and with calls of the driver among them, if each goes on with the session
    // with: run_from_init, own_sessions_conserve, calls_of_the_rings_meet_conditions.within
    // shown by: rings_from_an_init
    // refused: uart_uses/run_from_init_makes_no_call,
    //   uart_uses/run_from_init_writes_by_itself
    ensures { (s t : RingState) (links : List RingLink) → All IsOfRings (calls_of links) →
        RingConserves s links t → OwnConserves s links t }
{}

/// With the FIFO on, the errors that are noted of the bytes in the receive ring are exactly those
/// of their characters, so `take_with_errors` returns each byte with its parity error, its framing
/// error and its break, and no other. An overrun at a byte tells that a character was lost right
/// behind as many characters from this one on as the FIFO holds, or behind one fewer, so behind the
/// 15th or the 16th with a FIFO of 16, counted through the receive ring and then the chip, and not
/// before this one.
///
/// This holds after any calls of the rings themselves, whatever the schedule has between their
/// accesses: those that left the receive ring, those in it and those in the chip are the characters
/// that were there and those that came, in order, without those that were dropped. A
/// `take_with_errors` is one of these calls, as a `take`. Calls of the driver through `inner_mut`
/// are none of them. The errors of all bytes have to be noted, as they are if the notes have room
/// for as many as the receive ring.
///
/// The notes have to be in step with the chip when the calls begin. They are after the first look
/// at LSR since the notes were made or the receiver was reset, if no earlier look has shown the
/// character in front. So they are after an `init`: [`init_leaves_notes_in_step`]. And they are
/// after each byte that was read behind a look, whatever was noted before.
///
/// # Examples
///
/// ```
/// noted_errors_are_exact(&ring);
/// ```
pub fn noted_errors_are_exact(ring: &Uart16550Ring<ErrorNotes<Device16550>>)
    // if: the driver takes the FIFO to be on
    // if: no earlier look has shown the character in front
    ensures begins { (line : ℕ) (after : ErrorNotes MachineState) →
        Ready (under (without_notes ring.now)) → (ring_fields ring.now).driver.fifo ≡ true →
        AreUnlooked (notes_in ring.now) → reported_front (receiver_of ring.now) ≡ None →
        NotesErrors MachineStep (ring_backend_of ring.now) (Read offsets.LSR line) after →
        IsInStep (notes_of after) after.backend.chip.receiver }
    // if: the driver takes the FIFO to be on
    // if: DLAB is off
    // if: the look shows that a byte waits
    ensures with_a_byte { (line byte : ℕ) (after : ErrorNotes MachineState) →
        Ready (under (without_notes ring.now)) → (ring_fields ring.now).driver.fifo ≡ true →
        (notes_in ring.now).is_latch ≡ false → has_any line LSR.DATA_READY.0 ≡ true →
        Path (NotesErrors MachineStep) (ring_backend_of ring.now)
        (Read offsets.LSR line ∷ Read offsets.DATA byte ∷ []) after →
        IsInStep (notes_of after) after.backend.chip.receiver }
    ensures session { (before : List Character) (links : List NotedLink) (t : NotedState) →
        MayBegin before ring.now →
        AllWithinRingSession (without_notes ring.now) (links_without_notes links) →
        All IsOfRings (calls_of links) → NotedChain ring.now links t →
        NotesExactly before ring.now links t }
    // if: the errors of all bytes in the ring are noted
    // if: the errors that were returned are the first that are noted
    ensures taken { (characters : List Character) (slots count : ℕ) (items : List Received)
        (t : NotedState) → Holds characters ring.now → unnoted_in ring.now ≡ 0 →
        RingDid (NotesErrors MachineStep) (TakesBytes slots (bytes_of items)) ring.now t →
        errors_of items ≡ take count (errors_in ring.now) →
        AreExact items characters (receiver_of ring.now) }
{
    // The contract of this call states what holds of every machine.
    let _fifo = ring.inner().backend().backend().fifo_enabled();
}

/// If an `init` of a driver over noted errors returns `Ok`, the notes are in step with the chip, so
/// calls of rings over this driver may begin for which [`noted_errors_are_exact`] holds. The chip
/// has a FIFO, a trigger level is configured, and the chip was not left in loopback before.
///
/// # Examples
///
/// ```
/// init_leaves_notes_in_step(&uart);
/// ```
pub fn init_leaves_notes_in_step(uart: &Uart16550<ErrorNotes<Device16550>>)
    // proved: After an `init` that returns Ok the notes are in step, if the chip has a FIFO, a
    //   trigger level is configured, and the chip was not left in loopback before
    // on: `laws::init_leaves_notes_in_step`
    // if: the chip is not in loopback
    // if: the chip is a 16550A
    // if: a trigger level is configured
    ensures { (config : Config) (level : FifoTriggerLevel)
        (after : Uart16550 (ErrorNotes MachineState)) →
        is_loopback (backend_of uart.now).backend.chip.latches ≡ false →
        (backend_of uart.now).backend.chip.model ≡ Uart16550A →
        config.fifo_trigger_level ≡ Some level →
        Did (NotesErrors MachineStep) (Inits {T = Unit {0}} config (Ok tt)) uart.now after →
        IsInStep (notes_of (backend_of after)) (backend_of after).backend.chip.receiver }
{
    // The contract of this call states what holds of every machine.
    let _fifo = uart.backend().backend().fifo_enabled();
}
