//! Whether a recorded list of accesses is one that a call of the driver makes.
ghost use Rattle.std.specs.Prelude.{◌≡◌, IfSome, IsNone, map};
ghost use Rattle.uart_16550.specs.Driver.{Fields};
ghost use Rattle.uart_16550.specs.State.{fields_of};
ghost use Rattle.uart_call.specs.Calls.{IsRunnable};
ghost use Rattle.uart_call.specs.declared.call.Answer.{Answer};
ghost use Rattle.uart_calls.specs.Lists.{IsFollowed, IsListOf, IsNext, Makes};

use crate::performing::perform;
use crate::tape::{Recorded, Request, Tape};
use uart_16550::{DriverState, Uart16550, Uart16550Tty};
use uart_call::{Answer, Call};

/// What a call returned, and the state of the driver after it.
#[derive(Debug, Drop)]
pub struct Returned {
    /// The answer of the call.
    pub answer: Answer,
    /// The state of the driver after it.
    pub state: DriverState,
}

/// What a driver does at some point of a call.
#[derive(Debug, Drop)]
pub enum Turn {
    /// It makes this access.
    Asks(Request),
    /// It returns.
    Returns(Returned),
}

/// How many of the accesses of a list a driver makes, and what it does then.
#[derive(Debug, Drop)]
pub struct Followed {
    /// The number of accesses from the first on that the driver makes.
    pub kept: usize,
    /// What it does after these.
    pub turn: Turn,
}

/// What the driver does next in a call, after some accesses.
#[derive(Debug, Drop)]
pub enum NextStep {
    /// The call is done.
    Done(Returned),
    /// The driver makes this access.
    Asked(Request),
    /// No list of the call starts with the accesses that were made.
    Strayed,
}

/// Returns how many of these accesses the driver makes in this call, starting from this state, and
/// what it does instead of the first that it does not make. Allocates no memory.
pub fn follow<R: Recorded>(accesses: &[R], state: &DriverState, call: &Call) -> Followed
    requires { IsRunnable call.now }
    ensures { IsFollowed call.now (fields_of state.now) (map R.access accesses.now) result }
{
    let mut uart = Uart16550Tty::from_inner(Uart16550::from_state(Tape::new(accesses), state));
    let answer = perform(&mut uart, call);
    let tape = uart.inner().backend();
    let turn = match tape.asked() {
        Some(request) => Turn::Asks(request),
        None => Turn::Returns(Returned {
            answer,
            state: uart.inner().state(),
        }),
    };
    Followed {
        kept: accesses.len() - tape.left(),
        turn,
    }
}

/// Returns whether these accesses are a list of this call, starting from this state: if so, what
/// the call returned, and the state of the driver after it; `None` if they are not, whatever the
/// call might have returned. Allocates no memory.
pub fn check<R: Recorded>(accesses: &[R], state: &DriverState, call: &Call) -> Option<Returned>
    // promise: a recorded list is a list of the call, or none of the call's lists is this one
    // with: check.sound, check.complete
    // shown by: no_call_runs_on_beyond_its_list
    // refused: check_always_refuses, follow_keeps_half
    // proved: `check` returns an answer only if the recorded list is a list of this call from these
    //   fields, with this answer, and the driver's fields are then those returned; it returns none
    //   only if no answer of the call has that list. For every call
    // on: `check`, `follow`
    requires { IsRunnable call.now }
    ensures sound { IfSome result (λ returned.
        Makes call.now (fields_of state.now) (map R.access accesses.now) returned) }
    ensures complete { IsNone result → (answer : Answer) (after : Fields) →
        IsListOf call.now (fields_of state.now) (map R.access accesses.now) answer after → ⊥ }
{
    match next(accesses, state, call) {
        NextStep::Done(returned) => Some(returned),
        NextStep::Asked(_) => None,
        NextStep::Strayed => None,
    }
}

/// Returns what the driver does next in this call, starting from this state, after it has made
/// these accesses. Allocates no memory.
pub fn next<R: Recorded>(made: &[R], state: &DriverState, call: &Call) -> NextStep
    // proved: What the driver would do next: the call is done, with this answer; or the driver asks
    //   for this access, which continues a list of the call; or no list of the call begins with the
    //   accesses that were made
    requires { IsRunnable call.now }
    ensures { IsNext call.now (fields_of state.now) (map R.access made.now) result }
{
    let Followed { kept, turn } = follow(made, state, call);
    if kept < made.len() {
        return NextStep::Strayed;
    }
    match turn {
        Turn::Returns(returned) => NextStep::Done(returned),
        Turn::Asks(request) => NextStep::Asked(request),
    }
}
