//! Laws about the ring calls, over any backend. They follow from the contracts of the calls.
//!
//! The contract of each function is a law that callers can cite. The functions do nothing.
ghost use Rattle.std.specs.Prelude.{◌≡◌, ◌<◌, ⊤, ℕ, Bool, List, [], ◌++◌, Option, Result, Ok, Err, take};
ghost use Rattle.std.specs.Prelude.{option_to_list};
ghost use Rattle.uart_spec.specs.declared.access.Access.{Access};
ghost use Rattle.uart_ring.specs.Ring.{RingFields};
ghost use Rattle.uart_ring.specs.Transmit.{Queues, ResumesTransmit};
ghost use Rattle.uart_ring.specs.Transmit.{Holds, Releases, QueuesUrgent, ClearsTransmit};
ghost use Rattle.uart_ring.specs.Transmit.{SetsLowMark, TakesLow};
ghost use Rattle.uart_ring.specs.Receive.{TakesBytes, ClearsReceive, AdjustsRts, AdjustsXoff};
ghost use Rattle.uart_ring.specs.Receive.{HoldsAsTold, ObeysXoff};
ghost use Rattle.uart_ring.specs.Storm.{TriesToHandle, Restarts, LeavesOff};
ghost use Rattle.uart_ring.specs.Storm.{CountsOrIsIdle, IsLastStill};
ghost use Rattle.uart_ring.specs.Status.{TakesLine, TakesModem, DumpsRegisters};
ghost use Rattle.uart_spec.specs.declared.dump.ConfigRegisterDump.{ConfigRegisterDump};
ghost use Rattle.uart_ring.specs.Service.{Services};
ghost use Rattle.uart_ring.specs.Handle.{Handles, Retriggers};
ghost use Rattle.uart_ring.specs.Line.{LowersLine, RaisesLine, most_of_lower};
ghost use Rattle.uart_ring.specs.Ring.{RingNext};
ghost use Rattle.uart_ring.specs.declared.ring.line.Lowered.{Lowered};
ghost use Rattle.uart_ring.specs.Lossless.{LosesNothing, LosesOnly, Implies};
ghost use Rattle.uart_ring.specs.Lossless.{overtaken_by, without_dropped};
ghost use Rattle.uart_ring.specs.Armed.{Arms, ArmsUnlessHeld, LeavesArmed};
ghost use Rattle.uart_ring.specs.Armed.{AllHarmless, IsArmed, ThrEmpty, known_after_all};
ghost use Rattle.uart_ring.specs.Choice.{LeavesNoRingChoice};
ghost use Rattle.uart_ring.specs.Bounded.{MakesAtMost, MakesAtMostBySize};
ghost use Rattle.uart_ring.specs.Bounded.{most_of_change, most_of_adjust};
ghost use Rattle.uart_ring.specs.Bounded.{most_of_pump, most_of_service};
ghost use Rattle.uart_ring.specs.Bounded.{most_of_handle, most_of_retrigger};
ghost use Rattle.uart_ring.specs.Bounded.{most_of_try_handle, most_of_restart, most_of_dump};
ghost use Rattle.uart_ring.specs.declared.ring.receive.ReceiveMarks.{ReceiveMarks};
ghost use Rattle.uart_ring.specs.declared.ring.service.Handled.{Handled};
ghost use Rattle.uart_ring.specs.declared.ring.storm.StuckError.{StuckError};
ghost use Rattle.uart_ring.specs.declared.ring.TheConstants.{MAX_CAPACITY};
ghost use Rattle.uart_ring.specs.declared.ring.service.TheConstants.{MAX_INTERRUPTS};

/// No byte is lost between the rings and DATA, and nothing that reads of LSR and MSR cleared. What
/// was written to DATA and what is left in the transmit ring is what was there and what was queued.
/// What was taken and what is left in the receive ring is what was there and what was read from
/// DATA. Line errors and changes of the modem lines are kept until `take_line` and `take_modem`
/// return them.
///
/// `config_register_dump` has no clause here: under DLAB it reads the divisor latch at the place of
/// DATA. Over the chip it loses nothing either, as a call of the driver and a `resume_transmit`.
///
/// An urgent byte goes before all bytes that wait, in place of one that `queue_urgent` returns.
/// What `clear_transmit` drops are as many bytes as it returns, from the end of those that wait:
/// all of the ring. What `clear_receive` drops is all that was in the receive ring.
pub fn ring_calls_lose_nothing()
    // promise: nothing is lost between the rings and the chip, over every device
    // with: ring_calls_lose_nothing.queue, ring_calls_lose_nothing.service,
    //   ring_calls_lose_nothing.take
    // shown by: bytes_are_queued_and_sent, receiving_is_paused_by_a_full_ring,
    //   line_errors_are_noted, modem_changes_are_noted
    // refused: pump_drops_what_was_not_sent, service_receives_more_than_fits,
    //   service_forgets_line_errors
    // promise: an urgent byte overtakes all that waits, and what is dropped is counted
    // with: ring_calls_lose_nothing.queue_urgent, ring_calls_lose_nothing.clear_transmit,
    //   ring_calls_lose_nothing.clear_receive, RingConserves.in_line
    // shown by: an_urgent_byte_overtakes, bytes_are_dropped
    // refused: queue_urgent_keeps_the_older_byte, clear_transmit_keeps_half,
    //   clear_receive_drops_half
    ensures queue { (bytes : List ℕ) (count : ℕ) →
        Implies (Queues bytes count) (LosesNothing (take count bytes) [] 0 0) }
    ensures resume_transmit { Implies ResumesTransmit (LosesNothing [] [] 0 0) }
    ensures take { (slots : ℕ) (bytes : List ℕ) →
        Implies (TakesBytes slots bytes) (LosesNothing [] bytes 0 0) }
    ensures service { (count : ℕ) → Implies (Services count) (LosesNothing [] [] 0 0) }
    ensures handle { (limit : ℕ) (handled : Handled) →
        Implies (Handles limit handled) (LosesNothing [] [] 0 0) }
    ensures retrigger { Implies Retriggers (LosesNothing [] [] 0 0) }
    ensures take_line { (line : ℕ) → Implies (TakesLine line) (LosesNothing [] [] line 0) }
    ensures take_modem { (modem : ℕ) → Implies (TakesModem modem) (LosesNothing [] [] 0 modem) }
    ensures hold_transmit { Implies Holds (LosesNothing [] [] 0 0) }
    ensures release_transmit { Implies Releases (LosesNothing [] [] 0 0) }
    ensures queue_urgent { (byte : ℕ) (replaced : Option ℕ) →
        Implies (QueuesUrgent byte replaced) (LosesOnly (overtaken_by byte replaced) [] 0 0) }
    ensures clear_transmit { (count : ℕ) →
        Implies (ClearsTransmit count) (LosesOnly (without_dropped count) [] 0 0) }
    ensures clear_receive { (f : RingFields) (count : ℕ) (l : List Access) (after : RingFields) →
        ClearsReceive count f l after → LosesNothing [] f.receive.items 0 0 f l after }
    ensures set_low_mark { (mark : ℕ) → Implies (SetsLowMark mark) (LosesNothing [] [] 0 0) }
    ensures take_low { (low : Bool) → Implies (TakesLow low) (LosesNothing [] [] 0 0) }
    ensures try_handle { (limit rounds : ℕ) (result : Result Handled StuckError) →
        Implies (TriesToHandle limit rounds result) (LosesNothing [] [] 0 0) }
    ensures restart { (bits : ℕ) → Implies (Restarts bits) (LosesNothing [] [] 0 0) }
    ensures adjust_rts { (marks : ReceiveMarks) →
        Implies (AdjustsRts marks) (LosesNothing [] [] 0 0) }
{}

/// Rings are armed if no byte waits that may be sent, or if an interrupt is still to come, as far
/// as accesses show it on a chip that keeps IER as it was written. While the chip is stuck no byte
/// may be sent, and while the transmit ring is held only the urgent byte.
///
/// If CTS is not checked, each ring call leaves the rings armed if they were armed before it. A
/// `queue` that accepts a byte, a `resume_transmit`, a `release_transmit`, a `queue_urgent`, a
/// `restart` and a `config_register_dump` leave them armed in any case.
///
/// If CTS is checked, the first four of these leave the rings armed unless they read that CTS is
/// clear.
pub fn ring_calls_leave_armed()
    ensures queue { (bytes : List ℕ) (count : ℕ) → Implies (Queues bytes count) LeavesArmed }
    // a `queue` that accepts a byte arms the rings, if CTS is not checked
    // if: at least one byte was accepted
    ensures queue_arms { (bytes : List ℕ) (count : ℕ) → 0 < count →
        Implies (Queues bytes count) Arms }
    ensures queue_arms_unless_held { (bytes : List ℕ) (count : ℕ) → 0 < count →
        Implies (Queues bytes count) ArmsUnlessHeld }
    ensures resume_transmit { Implies ResumesTransmit Arms }
    ensures resume_transmit_unless_held { Implies ResumesTransmit ArmsUnlessHeld }
    ensures take { (slots : ℕ) (bytes : List ℕ) → Implies (TakesBytes slots bytes) LeavesArmed }
    ensures service { (count : ℕ) → Implies (Services count) LeavesArmed }
    ensures handle { (limit : ℕ) (handled : Handled) →
        Implies (Handles limit handled) LeavesArmed }
    ensures retrigger { Implies Retriggers LeavesArmed }
    ensures take_line { (line : ℕ) → Implies (TakesLine line) LeavesArmed }
    ensures take_modem { (modem : ℕ) → Implies (TakesModem modem) LeavesArmed }
    ensures hold_transmit { Implies Holds LeavesArmed }
    ensures release_transmit { Implies Releases Arms }
    ensures release_transmit_unless_held { Implies Releases ArmsUnlessHeld }
    ensures queue_urgent { (byte : ℕ) (replaced : Option ℕ) →
        Implies (QueuesUrgent byte replaced) Arms }
    ensures queue_urgent_unless_held { (byte : ℕ) (replaced : Option ℕ) →
        Implies (QueuesUrgent byte replaced) ArmsUnlessHeld }
    ensures clear_transmit { (count : ℕ) → Implies (ClearsTransmit count) LeavesArmed }
    ensures clear_receive { (count : ℕ) → Implies (ClearsReceive count) LeavesArmed }
    ensures set_low_mark { (mark : ℕ) → Implies (SetsLowMark mark) LeavesArmed }
    ensures take_low { (low : Bool) → Implies (TakesLow low) LeavesArmed }
    ensures try_handle { (limit rounds : ℕ) (result : Result Handled StuckError) →
        Implies (TriesToHandle limit rounds result) LeavesArmed }
    ensures restart { (bits : ℕ) → Implies (Restarts bits) Arms }
    ensures config_register_dump { (dump : ConfigRegisterDump) →
        Implies (DumpsRegisters dump) Arms }
    ensures adjust_rts { (marks : ReceiveMarks) → Implies (AdjustsRts marks) LeavesArmed }
{}

/// Calls of the driver, through `inner_mut`, leave the rings armed if they neither read ISR nor
/// write a register other than DATA and MCR: those that read other registers, send, receive, wait
/// or switch outputs. Their contracts name their accesses. So any list of such calls and of ring
/// calls leaves the rings armed.
pub fn other_accesses_leave_armed()
    // proved: Calls of the driver through `inner_mut` leave rings armed that neither read ISR nor
    //   write a register other than DATA and MCR
    // on: `laws::other_accesses_leave_armed`
    ensures { (l : List Access) → AllHarmless l → (known : ThrEmpty) (f : RingFields) →
        IsArmed known f → IsArmed (known_after_all known l) f }
{}

/// No ring call waits: each makes at most this number of accesses, whatever they return. Where a
/// call may fill or empty a FIFO, the number depends on the size that is set.
pub fn ring_calls_are_bounded()
    // promise: each ring call makes a bounded number of accesses
    // with: ring_calls_are_bounded.service, ring_calls_are_bounded.handle
    // shown by: a_storm_of_each_kind_ends
    // refused: handle_serves_more_than_the_limit, service_serves_nine
    ensures queue { (bytes : List ℕ) (count : ℕ) →
        Implies (Queues bytes count) (MakesAtMostBySize most_of_pump) }
    ensures resume_transmit { Implies ResumesTransmit (MakesAtMostBySize most_of_pump) }
    ensures take { (slots : ℕ) (bytes : List ℕ) →
        Implies (TakesBytes slots bytes) (MakesAtMost most_of_change) }
    ensures service { (count : ℕ) → Implies (Services count) (MakesAtMostBySize most_of_service) }
    ensures handle { (limit : ℕ) (handled : Handled) →
        Implies (Handles limit handled) (MakesAtMostBySize (most_of_handle limit)) }
    ensures retrigger { Implies Retriggers (MakesAtMost most_of_retrigger) }
    ensures take_line { (line : ℕ) → Implies (TakesLine line) (MakesAtMost 1) }
    ensures take_modem { (modem : ℕ) → Implies (TakesModem modem) (MakesAtMost 1) }
    ensures hold_transmit { Implies Holds (MakesAtMost 0) }
    ensures release_transmit { Implies Releases (MakesAtMostBySize most_of_pump) }
    ensures queue_urgent { (byte : ℕ) (replaced : Option ℕ) →
        Implies (QueuesUrgent byte replaced) (MakesAtMostBySize most_of_pump) }
    ensures clear_transmit { (count : ℕ) → Implies (ClearsTransmit count) (MakesAtMost 0) }
    ensures clear_receive { (count : ℕ) →
        Implies (ClearsReceive count) (MakesAtMost most_of_change) }
    ensures set_low_mark { (mark : ℕ) → Implies (SetsLowMark mark) (MakesAtMost 0) }
    ensures take_low { (low : Bool) → Implies (TakesLow low) (MakesAtMost 0) }
    ensures try_handle { (limit rounds : ℕ) (result : Result Handled StuckError) →
        Implies (TriesToHandle limit rounds result) (MakesAtMostBySize (most_of_try_handle limit)) }
    ensures restart { (bits : ℕ) → Implies (Restarts bits) (MakesAtMostBySize most_of_restart) }
    ensures config_register_dump { (dump : ConfigRegisterDump) →
        Implies (DumpsRegisters dump) (MakesAtMostBySize most_of_dump) }
    ensures adjust_rts { (marks : ReceiveMarks) →
        Implies (AdjustsRts marks) (MakesAtMost most_of_adjust) }
{}

/// The contract of each ring call determines what the call does: what its reads have returned so
/// far determines the next access, and in the end the result, the contents of the rings, and the
/// driver's fields.
pub fn ring_calls_leave_no_choice()
    // proved: No ring call has a choice: what its reads returned so far decides the next access,
    //   and in the end what is returned and what is in the rings
    // on: `laws::ring_calls_leave_no_choice`
    ensures queue { (bytes : List ℕ) → LeavesNoRingChoice (Queues bytes) }
    ensures resume_transmit { LeavesNoRingChoice (λ (_ : ⊤). ResumesTransmit) }
    ensures take { (slots : ℕ) → LeavesNoRingChoice (TakesBytes slots) }
    ensures service { LeavesNoRingChoice Services }
    ensures handle { (limit : ℕ) → LeavesNoRingChoice (Handles limit) }
    ensures retrigger { LeavesNoRingChoice (λ (_ : ⊤). Retriggers) }
    ensures take_line { LeavesNoRingChoice TakesLine }
    ensures take_modem { LeavesNoRingChoice TakesModem }
    ensures hold_transmit { LeavesNoRingChoice (λ (_ : ⊤). Holds) }
    ensures release_transmit { LeavesNoRingChoice (λ (_ : ⊤). Releases) }
    ensures queue_urgent { (byte : ℕ) → LeavesNoRingChoice (QueuesUrgent byte) }
    ensures clear_transmit { LeavesNoRingChoice ClearsTransmit }
    ensures clear_receive { LeavesNoRingChoice ClearsReceive }
    ensures set_low_mark { (mark : ℕ) → LeavesNoRingChoice (λ (_ : ⊤). SetsLowMark mark) }
    ensures take_low { LeavesNoRingChoice TakesLow }
    ensures try_handle { (limit rounds : ℕ) →
        LeavesNoRingChoice (TriesToHandle limit rounds) }
    ensures restart { (bits : ℕ) → LeavesNoRingChoice (λ (_ : ⊤). Restarts bits) }
    ensures config_register_dump { LeavesNoRingChoice DumpsRegisters }
    ensures adjust_rts { (marks : ReceiveMarks) →
        LeavesNoRingChoice (λ (_ : ⊤). AdjustsRts marks) }
{}

/// `try_handle` ends a storm. If it returns that the chip is stuck, its last access writes 0 to
/// IER. If it returns anything else, it has counted one more unfinished round in a row, and more
/// are allowed, or a byte moved between the rings and the chip, or its last access read ISR, which
/// showed that no interrupt is pending.
///
/// So of as many calls in a row as there may be rounds, one finds the chip stuck, unless a byte
/// moved or an access showed that no interrupt is pending.
///
/// And a chip is found stuck only then: in as many calls in a row as there may be rounds no byte
/// moved, and none of them ended with no interrupt pending.
pub fn storms_end()
    // promise: a storm ends with IER 0, after as many rounds as the caller allows; and a chip is
    //   found stuck only if in so many calls in a row no byte moved and none ended with no
    //   interrupt pending; over the chip, only if characters or changes of the modem lines came in
    //   the course of each of them, whatever the limit is: as many as the limit, but for five
    // with: storms_end.off, storms_end.counted, storms_end.still, handles_lose_no_edge.stuck,
    //   chips_that_work_are_not_stuck.stuck, chips_that_work_are_not_stuck.counted,
    //   receive_len.within
    // shown by: a_storm_of_unknown_interrupts, an_interrupt_that_does_not_go_away,
    //   a_slow_chip_is_not_stuck_at_any_limit,
    //   a_large_ring_goes_out_in_more_rounds_than_are_allowed, no_limit_stops_a_chip_that_works
    // refused: try_handle_allows_one_round_more, try_handle_counts_no_round,
    //   try_handle_takes_a_limit_of_five, a_stuck_chip_gets_data_ready_back
    // if `try_handle` finds the chip stuck, it says why, and turns the chip's interrupts off: its
    // last access writes 0 to IER
    ensures off { (limit rounds : ℕ) (error : StuckError) →
        Implies (TriesToHandle limit rounds (Err error)) (LeavesOff error) }
    // a chip is found stuck only then: in so many calls in a row no byte moved, and none of them
    // ended with no interrupt pending
    ensures still { (limit rounds : ℕ) (error : StuckError) →
        Implies (TriesToHandle limit rounds (Err error)) (IsLastStill rounds) }
    // else it has counted one more unfinished round in a row, and more are allowed, or a byte
    // moved, or ISR showed that no interrupt is pending: so it finds the chip stuck after as many
    // calls in a row as the program allows
    ensures counted { (limit rounds : ℕ) (handled : Handled) →
        Implies (TriesToHandle limit rounds (Ok handled)) (CountsOrIsIdle rounds) }
{}

/// What is said of the ring calls holds of `lower_line` and `raise_line` too, which are made at
/// each port of a line that several share: they lose nothing, make few accesses, and have no
/// choice. Both together leave the rings armed. A chip that is stuck has 0 in IER after both.
pub fn line_calls_are_ring_calls()
    // proved: Both halves of a `handle_line` lose nothing, have no choice and make at most as many
    //   accesses for each interrupt of the limit, which is 6 if it is lower, as twice the size of
    //   the FIFOs and 3, with FIFOs of 16 these are 35, and 11 more; together they leave the rings
    //   armed, and IER of a stuck chip 0
    // on: `laws::line_calls_are_ring_calls`
    ensures lower_loses_nothing { (limit rounds : ℕ) (lowered : Lowered) →
        Implies (LowersLine limit rounds lowered) (LosesNothing [] [] 0 0) }
    ensures raise_loses_nothing { (bits : ℕ) →
        Implies (RaisesLine bits) (LosesNothing [] [] 0 0) }
    ensures armed { (limit rounds : ℕ) (lowered : Lowered) →
        Implies (RingNext (LowersLine limit rounds lowered) (RaisesLine lowered.enabled.0))
        LeavesArmed }
    ensures off { (limit rounds : ℕ) (lowered : Lowered) (error : StuckError) →
        lowered.handled ≡ Err error →
        Implies (RingNext (LowersLine limit rounds lowered) (RaisesLine lowered.enabled.0))
        (LeavesOff error) }
    ensures lower_is_bounded { (limit rounds : ℕ) (lowered : Lowered) →
        Implies (LowersLine limit rounds lowered) (MakesAtMostBySize (most_of_lower limit)) }
    ensures raise_is_bounded { (bits : ℕ) →
        Implies (RaisesLine bits) (MakesAtMost most_of_change) }
    ensures lower_leaves_no_choice { (limit rounds : ℕ) →
        LeavesNoRingChoice (LowersLine limit rounds) }
    ensures raise_leaves_no_choice { (bits : ℕ) →
        LeavesNoRingChoice (λ (_ : ⊤). RaisesLine bits) }
{}

/// What is said of the ring calls holds of `adjust_xoff` too: it loses nothing, makes at most the
/// accesses of a `queue_urgent`, has no choice and leaves the rings armed. What it tells goes
/// before all bytes that wait.
pub fn adjust_xoff_is_a_ring_call()
    ensures loses_only { (marks : ReceiveMarks) (told : Option ℕ) → Implies (AdjustsXoff marks told)
        (LosesOnly (λ waiting. option_to_list told ++ waiting) [] 0 0) }
    ensures leaves_armed { (marks : ReceiveMarks) (told : Option ℕ) →
        Implies (AdjustsXoff marks told) LeavesArmed }
    ensures is_bounded { (marks : ReceiveMarks) (told : Option ℕ) →
        Implies (AdjustsXoff marks told) (MakesAtMostBySize most_of_pump) }
    ensures leaves_no_choice { (marks : ReceiveMarks) → LeavesNoRingChoice (AdjustsXoff marks) }
{}

/// What is said of the ring calls holds of `obey_xoff` too: it loses nothing, makes at most the
/// accesses of a `release_transmit`, has no choice and leaves the rings armed. The hold is then as
/// the last character says, the receive ring is as it was, and no byte in it is looked at again.
pub fn obey_xoff_is_a_ring_call()
    ensures loses_nothing { (told : Option ℕ) →
        Implies (ObeysXoff told) (LosesNothing [] [] 0 0) }
    ensures leaves_armed { (told : Option ℕ) → Implies (ObeysXoff told) LeavesArmed }
    ensures is_bounded { (told : Option ℕ) →
        Implies (ObeysXoff told) (MakesAtMostBySize most_of_pump) }
    ensures leaves_no_choice { LeavesNoRingChoice ObeysXoff }
    ensures holds { (told : Option ℕ) → Implies (ObeysXoff told) (HoldsAsTold told) }
{}

/// The values of the limits.
pub fn constants_are_these()
    // proved: The largest capacity of a ring is 4096, and a `service` serves at most 8 interrupts
    // on: `laws::constants_are_these`
    ensures capacity { MAX_CAPACITY ≡ 4096 }
    ensures interrupts { MAX_INTERRUPTS ≡ 8 }
{}
