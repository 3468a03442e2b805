//! Callers of `run_ring` that begin a session.
ghost use Rattle.std.specs.Prelude.{◌≡◌, List, [], All, IfOk, length};
ghost use Rattle.uart_ring_runs.specs.RingBytes.{AllTakeInTurn, to_send, to_take};
ghost use Rattle.uart_ring_runs.specs.RingRun.{IsOfRings, IsRingRunnable, RingLink, RingState, under};
ghost use Rattle.uart_ring_runs.specs.RingSession.{AllWithinRingSession, RingConserves};
ghost use Rattle.uart_run.specs.Chains.{answers_of, calls_of};
ghost use Rattle.uart_run.specs.Ready.{Ready};
ghost use Rattle.uart_run.specs.Wired.{IsWired};
ghost use Rattle.uart_spec.specs.Config.{IsComputable};

use std::alloc::Global;
use uart_16550::{Config, InitError, Uart16550, Uart16550Tty};
use uart_chip::Device16550;
use uart_ring::{Refused, RingError, Uart16550Ring};
use uart_ring_runs::laws::init_leaves_ready;
use uart_ring_runs::{RingAnswer, RingCall, run_ring};
use uart_run::laws::smallest_size_fits;

/// The capacity of each ring.
const CAPACITY: usize = 256;

/// Why no calls were made.
#[derive(Debug, PartialEq, Drop)]
pub enum StartError {
    /// The device could not be initialised.
    NoDevice(InitError),
    /// The rings could not be made.
    NoRings(RingError),
}

/// Puts a driver over the chip, initialises it, and puts it into rings. A session begins, with
/// empty rings, and each call of the rings themselves goes on with it. A new driver takes the FIFOs
/// for 16, and each chip holds as many.
pub fn start_rings(
    alloc: Global,
    device: Device16550,
    config: Config,
) -> Result<Uart16550Ring<Device16550>, StartError>
    requires computable { IsComputable config }
    ensures begins { IfOk result (λ ring. Ready (under ring)) }
    ensures wired { IfOk result (λ ring. IsWired (under ring)) }
    ensures empty { IfOk result (λ ring. (to_send ring ≡ []) × (to_take ring ≡ [])) }
{
    smallest_size_fits();
    let mut uart = Uart16550::new_with_backend(device);
    init_leaves_ready(&uart);
    if let Err(cause) = uart.init(config) {
        return Err(StartError::NoDevice(cause));
    }
    match Uart16550Ring::new(alloc, uart, CAPACITY, CAPACITY) {
        Ok(ring) => Ok(ring),
        Err(refused) => Err(StartError::NoRings(refused.cause)),
    }
}

/// Starts rings as `start_rings` does, and makes the calls. If each of them goes on with a session,
/// they are one that begins with empty rings, so all that holds of a session holds of them.
///
/// Calls of the rings themselves all go on with it, and take bytes in turn. One of the driver may
/// end it, as an `init` does.
pub fn run_from_init(
    alloc: Global,
    device: Device16550,
    config: Config,
    calls: &[RingCall],
    answers: &mut [RingAnswer],
) -> Result<Uart16550Ring<Device16550>, StartError>
    requires computable { IsComputable config }
    requires runnable { All IsRingRunnable calls.now }
    // there is a slot for each answer
    requires slots { length calls.now ≡ length answers.old }
    ensures { IfOk result (λ ring. (begins : RingState) × (links : List RingLink)
        × (to_send begins ≡ []) × (to_take begins ≡ []) × IsWired (under begins)
        × (calls_of links ≡ calls.now) × (answers_of links ≡ answers.new)
        × (AllWithinRingSession begins links → RingConserves begins links ring)
        × (All IsOfRings calls.now → AllWithinRingSession begins links × AllTakeInTurn links)) }
{
    match start_rings(alloc, device, config) {
        Ok(mut ring) => {
            run_ring(&mut ring, calls, answers);
            Ok(ring)
        }
        Err(cause) => Err(cause),
    }
}

/// Puts the driver of a terminal into rings. If a session of calls can go on, one of ring calls may
/// begin.
pub fn into_rings(
    alloc: Global,
    terminal: Uart16550Tty<Device16550>,
) -> Result<Uart16550Ring<Device16550>, Refused<Uart16550<Device16550>, RingError>>
    ensures { Ready terminal → IfOk result (λ ring. Ready (under ring)) }
{
    Uart16550Ring::new(alloc, terminal.into_inner(), CAPACITY, CAPACITY)
}
