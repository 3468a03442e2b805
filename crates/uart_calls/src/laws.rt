//! Laws about the meaning of calls, and about their replays.
//!
//! The contract of each function is a law that callers can cite. The functions do nothing.
ghost use Rattle.std.specs.Prelude.{◌≡◌};
ghost use Rattle.uart_call.specs.Calls.{IsRunnable};
ghost use Rattle.uart_calls.specs.Meaning.{doing_of, meaning};
ghost use Rattle.uart_calls.specs.Replay.{Repeats, RepeatsSaving};
ghost use Rattle.uart_calls.specs.declared.replay.TheConstants.{REPLAY_ROOM};
ghost use Rattle.uart_16550.specs.Choice.{LeavesNoChoice};
ghost use Rattle.uart_16550.specs.DriverCalls.{ChangingCall, ChangingDoing};
ghost use Rattle.uart_16550.specs.DriverCalls.{SavingCall, SavingLists};
ghost use Rattle.uart_call.specs.declared.call.Call.{Call};

use uart_16550::backend::Backend;

/// The meaning of a call determines what the driver does: what its reads have returned so far
/// determines the next access, and in the end the answer and the driver's fields.
pub fn meanings_leave_no_choice()
    // proved: What a call means leaves no choice, as the driver's calls do not
    // on: `uart_calls::laws::meanings_leave_no_choice`
    ensures { (call : Call) → IsRunnable call → LeavesNoChoice (doing_of (meaning call)) }
{}

/// A call repeats another one if it starts from equal fields, over a
/// [`Replay`](crate::replay::Replay) of what the reads of the other call returned: it has the same
/// outcome, leaves equal fields, and makes the same accesses. So a replay is a function from fields
/// and read bytes to the one list of accesses that the call may make.
pub fn replays_repeat_calls<B: Backend>()
    ensures saving { (call : SavingCall) → RepeatsSaving (SavingLists call) B.step }
    ensures changing { (call : ChangingCall) → Repeats (ChangingDoing call) B.step }
{}

/// The number of accesses that a [`Replay`](crate::replay::Replay) keeps.
pub fn replay_room_is_this()
    ensures { REPLAY_ROOM ≡ 512 }
{}
