//! Laws of the modem lines at a cable. They follow from the contracts.
//!
//! The contract of each function is a law that callers can cite. The functions do nothing.
ghost use Rattle.std.specs.Prelude.{◌≡◌, ℕ, Bool, false};
ghost use Rattle.uart_16550.specs.Driver.{Made, backend_of};
ghost use Rattle.uart_16550.specs.Frame.{SetsControl, SetsOutput};
ghost use Rattle.uart_16550.specs.declared.driver.Uart16550.{Uart16550};
ghost use Rattle.uart_chip.specs.Chip.{is_auto_flow};
ghost use Rattle.uart_chip.specs.Machine.{MachineState, MachineStep};
ghost use Rattle.uart_link.specs.Cable.{lines_joined, lines_from};
ghost use Rattle.uart_link.specs.Later.{PartsGoOn};
ghost use Rattle.uart_link.specs.declared.call.TheConstants.{CALL_MOMENTS};
ghost use Rattle.uart_spec.specs.Bits.{has_any};
ghost use Rattle.uart_spec.specs.declared.registers.modem_control.TheConstants.MCR;
ghost use Rattle.uart_spec.specs.declared.registers.modem_status.TheConstants.MSR;

/// The other end of the cable finds the outputs that were set: CTS is as `set_rts` left RTS, and
/// DSR and CD are as `set_dtr` left DTR. After a `set_modem_control` all its lines are those of the
/// outputs. While automatic flow control is on, which may turn RTS off, this is said of DTR alone.
pub fn outputs_are_the_lines_of_the_other_end()
    // promise: a `set_modem_control`, a `set_rts` and a `set_dtr` leave the outputs as they were
    //   asked for, and change no other register; the other end of a cable finds them, RTS while
    //   automatic flow control is off
    // with: SetsOutputs.mcr, Switches.is_on, Switches.others,
    //   outputs_are_the_lines_of_the_other_end.rts, outputs_are_the_lines_of_the_other_end.control
    // shown by: outputs_are_as_they_were_asked_for, outputs
    // refused: uart_16550/set_rts_clears_the_other_outputs,
    //   uart_16550/set_modem_control_sets_loopback
    // proved: The other end's CTS is as a `set_rts` left RTS, its DSR and CD are as a `set_dtr`
    //   left DTR, and after a `set_modem_control` all its lines are those of the outputs. Of RTS
    //   this is said while automatic flow control is off, which may turn it off
    // on: `laws::outputs_are_the_lines_of_the_other_end`: `rts`, `dtr`, `control`
    // if: automatic flow control is off
    ensures rts { (on : Bool) (before after : Uart16550 MachineState) →
        Made MachineStep (SetsOutput MCR.RTS.0 on) before after →
        is_auto_flow (backend_of after).chip ≡ false →
        has_any (lines_from (backend_of after).chip) MSR.CTS.0 ≡ on }
    ensures dtr { (on : Bool) (before after : Uart16550 MachineState) →
        Made MachineStep (SetsOutput MCR.DTR.0 on) before after →
        (has_any (lines_from (backend_of after).chip) MSR.DSR.0 ≡ on)
        × (has_any (lines_from (backend_of after).chip) MSR.CD.0 ≡ on) }
    // if: automatic flow control is off
    ensures control { (outputs : ℕ) (before after : Uart16550 MachineState) →
        Made MachineStep (SetsControl outputs) before after →
        is_auto_flow (backend_of after).chip ≡ false →
        lines_from (backend_of after).chip ≡
        lines_joined (has_any outputs MCR.RTS.0) (has_any outputs MCR.DTR.0) }
{}

/// What is asked for where a part begins lasts from the beginning of the run. Take a run that
/// begins joined, with both ends ready, on chips that cut no characters. Then each part of it
/// conserves, also one in its middle; and both ends keep their FIFOs, the settings of their
/// drivers, and whether their chips have automatic flow control. So if the sender's chip has none
/// where the run begins, and there is room there for all that is sent, all that was queued before a
/// part is taken in it after rounds enough. Likewise RTS stays on that was turned on.
pub fn parts_go_on()
    // promise: all that was queued is taken in the middle of a run too: what is asked of the chips
    //   and the drivers lasts from call to call, and room at the beginning of the run is room in
    //   each part
    // with: parts_go_on, LinkConserves.stays, LinkConserves.queues, LinkConserves.uncut
    // shown by: the_next_part_of_a_run_takes_what_was_queued
    // refused: a_part_may_begin_with_flow_control, room_at_the_beginning_is_for_the_part_alone
    // proved: Each part of a run conserves that begins joined, with both ends ready, on chips that
    //   cut no characters. If the sender's chip has no automatic flow control at the beginning of
    //   the run, and there is room there for all that is sent, all is taken that was queued before
    //   a part, after rounds enough in it, and RTS stays on that was turned on
    // on: `laws::parts_go_on`
    ensures { PartsGoOn }
{}

/// How many moments a call has at most.
pub fn call_moments_are_these()
    ensures { CALL_MOMENTS ≡ 64 }
{}
