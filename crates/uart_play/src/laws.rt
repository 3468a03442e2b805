//! Laws about runs and scripts. They follow from the contracts.
//!
//! The contract of each function is a law that callers can cite. The functions do nothing.
ghost use Rattle.uart_play.specs.OneOutcome.{RunsHaveOneOutcome, ScriptsHaveOneOutput};

/// The answers of `run`, and the state after it, are a function of the calls and the state before
/// it.
pub fn runs_have_one_outcome()
    // promise: a run has one outcome
    // shown by: calls_in_turn_do_what_a_run_does
    ensures { RunsHaveOneOutcome }
{}

/// What `play` writes for a script is a function of the script.
pub fn scripts_have_one_output()
    ensures { ScriptsHaveOneOutput }
{}
