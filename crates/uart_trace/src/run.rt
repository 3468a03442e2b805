//! Runs a script, and tells a listener of each call and each access.
ghost use Rattle.std.specs.Prelude.{◌≡◌, ℕ, All, Err, IfOk};
ghost use Rattle.uart_language.specs.Script.{IsFaulty, IsPlayable, IsScript, Plan, plan_of};
ghost use Rattle.uart_language.specs.declared.cause.Cause.{Cause};
ghost use Rattle.uart_language.specs.declared.cause.ScriptError.TheVariants.{Refused};
ghost use Rattle.uart_call.specs.Calls.{IsRunnable};
ghost use Rattle.uart_trace.specs.Told.{Begins, IsToldRun, Makes, Tells, TellsInTurn};

use crate::listener::Listener;
use crate::recorder::Recorder;
use std::alloc::{AllocError, Global};
use uart_16550::{Uart16550, Uart16550Tty};
use uart_calls::{Call, perform};
use uart_chip::Device16550;
use uart_language::{Script, ScriptError, parse};
use uart_play::machine_for;

// A driver under its terminal, over the machine of a script and a recorder.
type Terminal<L> = Uart16550Tty<Recorder<Device16550, L>>;

// Returns a new driver with the limit of the script, which takes the FIFOs for the size of the
// script, over its machine and a recorder.
fn terminal_for<L: Listener + Drop>(
    alloc: Global,
    script: &Script,
    listener: L,
) -> Result<Terminal<L>, AllocError>
    requires { IsPlayable (plan_of script.now) }
    ensures { IfOk result (Begins (plan_of script.now) listener) }
{
    let machine = machine_for(alloc, script)?;
    let mut uart = Uart16550::new_with_backend(Recorder::new(machine, listener));
    uart.set_spin_limit(script.limit());
    uart.set_fifo_size(script.driver_fifo_size());
    Ok(Uart16550Tty::from_inner(uart))
}

// Makes one call, and `next` as a call of the machine.
fn make<L: Listener>(uart: &mut Terminal<L>, call: &Call)
    requires { IsRunnable call.now }
    ensures { Makes L.hears uart.old call.now uart.new }
{
    match call {
        Call::Next => uart.inner_mut().backend_mut().next(),
        _ => {
            perform(uart, call);
        }
    }
}

// Makes one call, and tells the listener where it begins and ends.
fn tell_call<L: Listener>(uart: &mut Terminal<L>, call: &Call)
    requires { IsRunnable call.now }
    ensures { Tells L.begins L.hears L.ends uart.old call.now uart.new }
{
    uart.inner_mut().backend_mut().begin();
    make(uart, call);
    uart.inner_mut().backend_mut().end();
}

// Makes the calls in turn.
fn tell_calls<L: Listener>(uart: &mut Terminal<L>, calls: &[Call])
    requires { All IsRunnable calls.now }
    ensures { TellsInTurn L.begins L.hears L.ends uart.old calls.now uart.new }
{
    for i in 0..calls.len() {
        tell_call(uart, &calls[i]);
    }
}

// Runs a script, and returns the listener.
fn tell_script<L: Listener + Drop>(
    alloc: Global,
    script: &Script,
    listener: L,
) -> Result<L, AllocError>
    requires { IsPlayable (plan_of script.now) }
    ensures { IfOk result (λ after.
        IsToldRun L.begins L.hears L.ends (plan_of script.now) listener after) }
{
    let mut terminal = terminal_for(alloc, script, listener)?;
    tell_calls(&mut terminal, script.calls());
    match terminal.inner_mut().backend_mut().take_listener() {
        Some(listener) => Ok(listener),
        // Nobody has taken it before, so this is no answer that a caller gets.
        None => Err(AllocError),
    }
}

/// Runs a script, tells the listener of each call and of each access that it makes, and returns the
/// listener.
///
/// The calls are those of the script, in order, made by a new driver with the limit of the script,
/// which takes the FIFOs for the size of the script, over its machine. The listener is told of each
/// access once, in order, before the next one is made.
///
/// # Errors
///
/// - `Refused`, with the first faulty line and what is wrong with it, if the text is not a script.
/// - `OutOfMemory` if memory for the script or its machine could not be allocated.
pub fn tell<L: Listener + Drop>(alloc: Global, text: &[u8], listener: L) -> Result<L, ScriptError>
    // promise: a trace of a script has each call of its run, each access once and in order, and the
    //   answer
    // with: tell, trace.traced
    // shown by: trace-comments, trace-byte-and-lines
    // refused: an_access_is_left_out, a_read_is_told_twice
    // proved: A text that is refused has this first fault
    // on: `tell`, `trace`: `refused`
    ensures told { IfOk result (λ after. (plan : Plan) × IsScript text.now plan ×
        IsToldRun L.begins L.hears L.ends plan listener after) }
    ensures refused { (line : ℕ) (cause : Cause) → result ≡ Err (Refused line cause) →
        IsFaulty text.now line cause }
{
    let script = parse(alloc, text)?;
    Ok(tell_script(alloc, &script, listener)?)
}
