//! Laws of the judge of a driver, and of our own driver.
//!
//! The contract of each function is a law that callers can cite. The functions do nothing.
ghost use Rattle.std.specs.Prelude.{◌≡◌, ◌<◌, ℕ, Bool, false, List, [], ◌∷◌};
ghost use Rattle.std.specs.List.{AllByRecursion};
ghost use Rattle.uart_spec.specs.declared.access.Access.{Access};
ghost use Rattle.uart_spec.specs.declared.access.Access.TheVariants.{Read, Write};
ghost use Rattle.uart_spec.specs.declared.registers.offsets.TheConstants as offsets;
ghost use Rattle.uart_spec.specs.FifoSize.{characters};
ghost use Rattle.uart_spec.specs.declared.config.Config.{Config};
ghost use Rattle.uart_spec.specs.declared.registers.frame.WordLength.TheVariants.{EightBits};
ghost use Rattle.uart_16550.specs.Driver.{Fields, fields};
ghost use Rattle.uart_16550.specs.Init.{frame_bits};
ghost use Rattle.uart_16550.specs.Tty.{inner_of};
ghost use Rattle.uart_call.specs.declared.call.Call.{Call};
ghost use Rattle.uart_call.specs.declared.call.Answer.{Answer};
ghost use Rattle.uart_events.specs.declared.event.Chip.TheVariants.{Uart16550A};
ghost use Rattle.uart_chip.specs.Chip.{is_dlab_set};
ghost use Rattle.uart_chip.specs.Machine.{MachineState, MachineStep};
ghost use Rattle.uart_chip.specs.Sound.{IsSound};
ghost use Rattle.uart_run.specs.Ready.{IsInitialised};
ghost use Rattle.uart_run.specs.Run.{State, machine_of};
ghost use Rattle.uart_judges.specs.History.{known};
ghost use Rattle.uart_judges.specs.declared.recording.entry.Entry.{Entry};
ghost use Rattle.uart_judges.specs.declared.recording.entry.Happening.TheVariants as happening;
ghost use Rattle.uart_judges_runs.specs.Calls.{IsSteady, AreTaken, KnowsAsTaken};
ghost use Rattle.uart_judges_runs.specs.Causes.{AreShownFor, AsksFor, Causes, Fits, GivesOnly};
ghost use Rattle.uart_judges_runs.specs.Causes.{IsConfiguredFor, IsSetUpFor, KnowsFor, cause_some};
ghost use Rattle.uart_judges_runs.specs.Causes.{is_unfounded, is_warning};
ghost use Rattle.uart_judges_runs.specs.Lost.{IsRight, KnowsDlab, KnowsWhatIs, LeaveSize};
ghost use Rattle.uart_judges_runs.specs.Recorded.{AreRecorded, HasNone, accesses_in, is_of_calls};
ghost use Rattle.uart_judges_runs.specs.Recorded.{told};
ghost use Rattle.uart_judges_runs.specs.Runs.{IsOpenTo, IsSession};
ghost use Rattle.uart_calls.specs.Lists.{IsListOf};

/// Of each call in a session, over whatever backend: the recording of its accesses has no finding
/// that is about how a call is made, with whatever happens between them. The chip is to show
/// loopback off, DLAB off unless the call has just set it, and the FIFOs as the driver takes them
/// to be. Here and below the judge was told the size that the driver takes the FIFOs for
/// ([`of_fifos`](../specs/Told.antt)). One that was told none takes them for 16, as such a driver
/// does.
pub fn calls_are_not_warned()
    // promise: no warning about how a call is made comes of our own driver's calls that neither set
    //   up, change modes nor test (`IsSteady`), over the software chip, whatever the schedule, if
    //   the audit was told the size that the driver takes the FIFOs for
    // with: calls_are_not_warned, sessions_are_not_warned
    // shown by: our_own_driver_has_no_warning
    // refused: clear_cts_is_never_ignored, the_driver_may_be_wrong_about_the_fifos,
    //   lcr_shows_what_it_likes, the_audit_is_told_no_size
    // proved: Over any backend, no recording of such a call has one of these, if what is read shows
    //   loopback off, DLAB off unless it was on in the latest write of LCR, and the FIFOs as the
    //   driver takes them to be
    // on: `laws::calls_are_not_warned`
    ensures { (call : Call) (before after : Fields) (accesses : List Access) (answer : Answer)
        (past entries : List Entry) → IsSteady call →
        IsListOf call before accesses answer after → AreTaken before.fifo accesses →
        KnowsAsTaken before.fifo (known past) → AreRecorded accesses entries →
        HasNone (told (characters before.size) is_of_calls) past entries }
{}

/// Of a session over the software chip, whatever its schedule: its recording has no such finding.
pub fn sessions_are_not_warned()
    // proved: Over the software chip no recording of such calls in turn has one of these, whatever
    //   the schedule, if DLAB and loopback are off before the first, and the driver takes
    //   the FIFOs to be on or off as they are
    // on: `laws::sessions_are_not_warned`
    ensures { (calls : List Call) (fields : Fields) (accesses : List Access)
        (old new : MachineState) (past entries : List Entry) →
        IsOpenTo fields old → IsSession calls fields old accesses new →
        KnowsAsTaken fields.fifo (known past) → AreRecorded accesses entries →
        HasNone (told (characters fields.size) is_of_calls) past entries }
{}

/// Of each call in a session, over whatever backend: each warning in the recording of its accesses
/// has one of these causes, if the call, the driver and what is read give no other.
pub fn warned_calls_have_a_cause()
    // promise: each other warning of such calls has a cause that its caller gave, whatever the
    //   schedule; `frame-changed` has none, and there is no warning if the caller gave no cause
    // with: warned_calls_have_a_cause, warned_sessions_have_a_cause, an_init_gives_no_other_cause,
    //   nothing_is_known_at_first
    // shown by: our_own_driver_has_no_warning
    // refused: lcr_may_have_a_break, a_call_may_enable_interrupts, errors_stay_without_fifos,
    //   cts_is_known_at_first, a_configuration_may_leave_cts
    // proved: Over any backend, no recording of a call has a warning without one of its causes, if
    //   what is read gives no other: LCR is as it was written last, no interrupt is enabled or
    //   pending, and OUT2 is on
    // on: `laws::warned_calls_have_a_cause`
    ensures { (causes : Causes) (line : ℕ) (call : Call) (before after : Fields)
        (accesses : List Access) (answer : Answer) (past entries : List Entry) → IsSteady call →
        AsksFor causes line call → IsSetUpFor causes line before →
        IsListOf call before accesses answer after → AreTaken before.fifo accesses →
        AreShownFor causes line accesses → KnowsAsTaken before.fifo (known past) →
        KnowsFor causes line (known past) → AreRecorded accesses entries →
        HasNone (told (characters before.size) (is_unfounded causes)) past entries }
{}

/// Of a session over the software chip, whatever its schedule: each warning in its recording has
/// one of these causes, if the calls, the driver and the chip give no other. If they cause none,
/// there is no warning.
pub fn warned_sessions_have_a_cause()
    // proved: Over the software chip no recording of calls in turn has a warning without one of its
    //   causes, whatever the schedule
    // on: `laws::warned_sessions_have_a_cause`: `caused`
    // proved: If none of these causes is there (`cause_some`), there is no warning: with eight data
    //   bits, no break, the FIFOs on, CTS checked, a divisor that is not zero, and no interrupt
    //   enabled, for example
    // on: `laws::warned_sessions_have_a_cause`: `none`
    // each warning in the recording of calls that set nothing up, change no mode and test nothing
    // has one of the causes that the caller gave: the README of the crate has them
    ensures caused { (causes : Causes) (calls : List Call) (fields : Fields)
        (accesses : List Access) (old new : MachineState) (past entries : List Entry) →
        GivesOnly causes calls fields old → IsSession calls fields old accesses new →
        KnowsAsTaken fields.fifo (known past) → KnowsFor causes old.chip.latches.lcr (known past) →
        AreRecorded accesses entries →
        HasNone (told (characters fields.size) (is_unfounded causes)) past entries }
    // if none of the causes is there, there is no warning
    // if: the causes cause no warning
    ensures none { (causes : Causes) (calls : List Call) (fields : Fields)
        (accesses : List Access) (old new : MachineState) (past entries : List Entry) →
        cause_some causes ≡ false → GivesOnly causes calls fields old →
        IsSession calls fields old accesses new → KnowsAsTaken fields.fifo (known past) →
        KnowsFor causes old.chip.latches.lcr (known past) → AreRecorded accesses entries →
        HasNone (told (characters fields.size) is_warning) past entries }
{}

/// After an `init` that succeeds: what a session begins with gives no cause but those of the
/// configuration and the calls, so no break and no OUT2 that is off. With eight data bits each byte
/// fits.
pub fn an_init_gives_no_other_cause()
    // proved: In the state that an `init` leaves if it succeeds
    //   ([`IsInitialised`](../uart_run/specs/Ready.antt)), whatever the chip was before, a session
    //   begins with no cause but those of the configuration and of the calls: with no break, and
    //   with OUT2 on. With eight data bits each byte fits
    // on: `laws::an_init_gives_no_other_cause`
    // if: the driver has this configuration
    ensures given { (causes : Causes) (config : Config) (calls : List Call) (state : State) →
        IsInitialised config state → (fields (inner_of state)).config ≡ config →
        IsConfiguredFor causes config (machine_of state).chip.model →
        AllByRecursion (AsksFor causes (frame_bits config)) calls →
        GivesOnly causes calls (fields (inner_of state)) (machine_of state) }
    // if: a character has eight bits
    // if: it is a byte
    ensures eight { (config : Config) (byte : ℕ) → config.data_bits ≡ EightBits → byte < 256 →
        Fits (frame_bits config) byte }
{}

/// Of a recording that begins with the driver: the judge knows nothing before it, and so nothing
/// that is against the driver, and of no cause.
pub fn nothing_is_known_at_first()
    ensures taken { (fifo : Bool) → KnowsAsTaken fifo (known []) }
    ensures causes { (causes : Causes) (line : ℕ) → KnowsFor causes line (known []) }
{}

/// Of a recording of the software chip, a 16550A under any schedule, made by any driver: each
/// finding that says that a byte is lost names an access that loses it on the chip. The judge was
/// told the size of its FIFOs, and what it knows at the beginning is to be so. No access of the
/// recording switches the size, as on a 16750.
pub fn lost_bytes_are_lost()
    // promise: a warning that a byte is lost names an access that loses it on a 16550A in software,
    //   if the audit was told the size of its FIFOs and no access switches it; one that says 'may',
    //   unless the transmitter sent meanwhile
    // with: lost_bytes_are_lost, any_piece_is_enough, one_access_is_enough
    // shown by: a_byte_beyond_the_room_is_dropped, a_seventeenth_byte_can_still_fit,
    //   an_emptied_receiver_has_nothing
    // refused: a_byte_beyond_the_room_is_always_dropped, one_more_byte_is_discarded,
    //   the_fifos_may_be_switched, the_judge_is_told_no_size
    ensures { (past entries : List Entry) (left : ℕ) (machine : MachineState) → IsSound machine →
        LeaveSize machine (accesses_in entries) → KnowsWhatIs (known past) left machine.chip →
        IsRight past left machine entries }
{}

/// A judge that was given nothing knows nothing that is not so: a recording may begin anywhere.
pub fn any_piece_is_enough()
    // if: the chip is a 16550A
    ensures { (machine : MachineState) → machine.chip.model ≡ Uart16550A →
        KnowsWhatIs (known []) 0 machine.chip }
{}

/// A judge that was given nothing knows what is so, and DLAB, after one access that shows it: of
/// LCR, or a read of LSR while DLAB is off.
pub fn one_access_is_enough()
    // if: the chip is a 16550A
    // if: the entry is a read of LCR with this value
    ensures read { (old new : MachineState) (e : Entry) (value : ℕ) → old.chip.model ≡ Uart16550A →
        e.happening ≡ happening.Access (Read offsets.LCR value) →
        MachineStep old (Read offsets.LCR value) new → KnowsDlab (known (e ∷ [])) 0 new.chip }
    // if: the chip is a 16550A
    // if: the entry is a write of this value to LCR
    ensures written { (old new : MachineState) (e : Entry) (value : ℕ) →
        old.chip.model ≡ Uart16550A → e.happening ≡ happening.Access (Write offsets.LCR value) →
        MachineStep old (Write offsets.LCR value) new → KnowsDlab (known (e ∷ [])) 0 new.chip }
    // if: the chip is a 16550A
    // if: DLAB is off
    // if: the entry is a read of LSR with this value
    ensures looked { (old new : MachineState) (e : Entry) (value : ℕ) →
        old.chip.model ≡ Uart16550A → is_dlab_set old.chip.latches ≡ false →
        e.happening ≡ happening.Access (Read offsets.LSR value) →
        MachineStep old (Read offsets.LSR value) new → KnowsDlab (known (e ∷ [])) 0 new.chip }
{}
