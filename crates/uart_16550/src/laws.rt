//! Laws about the calls of a driver. They follow from the contracts of the calls.
//!
//! The contract of each function is a law that callers can cite. The functions do nothing.
ghost use Rattle.std.specs.Prelude.{◌≡◌, [], ◌∷◌};
ghost use Rattle.uart_spec.specs.Orders.{partial_in_turn};
ghost use Rattle.uart_16550.specs.Choice.{Agree, AgreeSaving, HasOneOutcome};
ghost use Rattle.uart_16550.specs.Choice.{HasOneOutcomeSaving, IsFunction, LeavesNoChoice};
ghost use Rattle.uart_16550.specs.Driver.{Saving};
ghost use Rattle.uart_16550.specs.DriverCalls.{ChangingCall, ChangingDoing};
ghost use Rattle.uart_16550.specs.DriverCalls.{SavingCall, SavingLists};
ghost use Rattle.uart_16550.specs.Frame.{ChangesOnly, ChangesOutput};
ghost use Rattle.uart_16550.specs.Mmio.{Mapped};
ghost use Rattle.uart_16550.specs.Patience.{IsExactIfEndless, ReceivesExactIfEndless};
ghost use Rattle.uart_16550.specs.Patience.{FlushesIfEndless};
ghost use Rattle.uart_16550.specs.Pio.{Ports};
ghost use Rattle.uart_16550.specs.declared.driver.TheConstants.{DEFAULT_SPIN_LIMIT};
ghost use Rattle.uart_spec.specs.declared.registers.line_control.TheConstants.LCR;
ghost use Rattle.uart_spec.specs.declared.registers.modem_control.TheConstants.MCR;

use crate::backend::{Backend, MmioBackend, PioBackend};
use std::num::{NonZeroU8, NonZeroUsize};

/// The contract of each call determines what the call does: what its reads have returned so far
/// determines the next access, and in the end the result, the contents of the slots, and the
/// driver's fields.
// If a call's language were too wide, the call would still be proved to keep to it, and nobody
// would notice. This law is about the contracts alone: it is false if one of them leaves a choice.
pub fn calls_leave_no_choice()
    // promise: every access of a call is named, in order, with what the call returns for it
    // with: calls_leave_no_choice.saving, calls_leave_no_choice.changing
    // shown by: bytes_over_ff, bytes_over_00, calls_over_the_register_file
    // refused: isr_reads_twice, ier_reads_isr
    ensures saving { (call : SavingCall) →
        LeavesNoChoice (λ outcome. Saving (SavingLists call outcome)) }
    ensures changing { (call : ChangingCall) → LeavesNoChoice (ChangingDoing call) }
{}

/// Two drivers with equal fields, each over its own backend, do the same in a call whose reads
/// return the same.
pub fn calls_agree<B: Backend, C: Backend>()
    // promise: equal reads lead to the same call, and a replay repeats a call
    // with: calls_agree, calls_have_one_outcome, replays_repeat_calls
    // shown by: a_replay_shows_what_a_call_does, bytes_over_a_replay
    // refused: uart_calls/replay_forgets_writes, uart_calls/replay_shows_a_part
    ensures saving { (call : SavingCall) → AgreeSaving (SavingLists call) B.step C.step }
    ensures changing { (call : ChangingCall) → Agree (ChangingDoing call) B.step C.step }
{}

/// Over a backend whose step relation is a function, a call has one outcome, and leaves the driver
/// and the backend in one state.
pub fn calls_have_one_outcome<B: Backend>()
    ensures saving { IsFunction B.step → (call : SavingCall) →
        HasOneOutcomeSaving (SavingLists call) B.step }
    ensures changing { IsFunction B.step → (call : ChangingCall) →
        HasOneOutcome (ChangingDoing call) B.step }
{}

/// `send_bytes_while`, `receive_bytes_while` and `flush_while`, whose caller keeps waiting each
/// time it is asked, do the same as `send_bytes_exact`, `receive_bytes_exact` and `flush`. Where
/// those stall, the error says that the spin limit ended the wait.
#[tactic(auto, using(crate::proofs::Waiting::endless))]
pub fn endless_patience_is_exact()
    ensures sends { IsExactIfEndless }
    ensures receives { ReceivesExactIfEndless }
    ensures flushes { FlushesIfEndless }
{}

/// `set_rts`, `set_dtr` and `set_break` write their bit as asked, and the other bits of the
/// register as they were read: DLAB and the frame stay as they are. The first two clear loopback.
pub fn switches_change_one_bit()
    ensures rts { ChangesOutput MCR.RTS.0 }
    ensures dtr { ChangesOutput MCR.DTR.0 }
    ensures set_break { ChangesOnly LCR.SET_BREAK.0 }
{}

/// The spin limit of a driver until `set_spin_limit` is called.
pub fn default_spin_limit_is_this()
    ensures { DEFAULT_SPIN_LIMIT ≡ 1000000 }
{}

// Nobody sees the fields of a backend. If two of them were exchanged in the comparison, no other
// contract would change.
/// Backends are compared by where the first register is, then those in memory by their stride, and
/// last by the access object.
pub fn backends_are_in_order<P: PartialOrd, M: PartialOrd>()
    ensures ports { (a b : Ports P) →
        ⟦<PioBackend<P> as PartialOrd>⟧.partial_cmp a b ≡ partial_in_turn (
        ⟦<u16 as PartialOrd>⟧.partial_cmp a.base b.base
        ∷ ⟦<P as PartialOrd>⟧.partial_cmp a.access b.access
        ∷ []) }
    ensures memory { (a b : Mapped M) →
        ⟦<MmioBackend<M> as PartialOrd>⟧.partial_cmp a b ≡ partial_in_turn (
        ⟦<NonZeroUsize as PartialOrd>⟧.partial_cmp a.base b.base
        ∷ ⟦<NonZeroU8 as PartialOrd>⟧.partial_cmp a.stride b.stride
        ∷ ⟦<M as PartialOrd>⟧.partial_cmp a.access b.access
        ∷ []) }
{}
