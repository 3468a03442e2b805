//! Whether each call of a trace made one of its lists.
ghost use Rattle.std.specs.Prelude.{◌≡◌, ◌↔◌, true, IfOk, IfSome, IsNone};
ghost use Rattle.std.specs.Int.NonZero.{non_zero_u64_get};
ghost use Rattle.uart_16550.specs.Driver.{Fields};
ghost use Rattle.uart_16550.specs.State.{fields_of, fresh_fields};
ghost use Rattle.uart_language.specs.Output.{answer_text};
ghost use Rattle.uart_calls.specs.Lists.{IsFollowed};
ghost use Rattle.uart_judges.specs.Traces.{AreCalls, IsExchange, IsStray, fields_before};
ghost use Rattle.uart_judges.specs.Traces.{new_driver};

use crate::traces::exchange::Exchange;
use std::alloc::{AllocError, Global};
use std::num::NonZeroU64;
use uart_16550::DriverState;
use uart_calls::{Answer, Turn, check, follow};
use uart_language::push_answer;
use uart_spec::FifoSize;

/// The place at which a trace differs from what the driver does.
#[derive(Debug, Drop)]
pub struct Stray<'a> {
    /// The call that made another list, or returned something else.
    pub exchange: &'a Exchange,
    /// The number of its accesses, from the first on, that the driver makes.
    pub kept: usize,
    /// What the driver does then.
    pub turn: Turn,
}

// Returns whether an answer is printed as this text. A trace has no more of an answer than that.
fn is_printed(alloc: Global, answer: &Answer, text: &[u8]) -> Result<bool, AllocError>
    ensures { IfOk result (λ is. is ≡ true ↔ answer_text answer.now ≡ text.now) }
{
    let mut printed = Vec::new(alloc);
    push_answer(alloc, &mut printed, answer)?;
    Ok(printed.as_slice() == text)
}

// Returns the state of the driver before a call: the one after the call before it, or that of a new
// driver with this limit, which takes the FIFOs for this size.
fn state_before(
    exchange: &Exchange,
    state: DriverState,
    limit: NonZeroU64,
    fifo_size: FifoSize,
) -> DriverState
    ensures { fields_of result ≡ fields_before (new_driver (non_zero_u64_get limit) fifo_size)
        exchange.now (fields_of state) }
{
    if exchange.is_first {
        DriverState {
            spin_limit: limit,
            fifo_size,
            ..DriverState::new()
        }
    } else {
        state
    }
}

// Returns the state of the driver after a call, if it makes this list and returns this answer.
#[tactic(auto, using(uart_calls::proofs::Checked::same_accesses))]
fn after(
    alloc: Global,
    exchange: &Exchange,
    state: &DriverState,
) -> Result<Option<DriverState>, AllocError>
    ensures sound { IfOk result (λ after.
        IfSome after (λ state'. IsExchange exchange.now (fields_of state.now) (fields_of state'))) }
    ensures complete { IfOk result (λ after. IsNone after → (fields : Fields) →
        IsExchange exchange.now (fields_of state.now) fields → ⊥) }
{
    let Some(returned) = check(&exchange.accesses, state, &exchange.call) else {
        return Ok(None);
    };
    if is_printed(alloc, &returned.answer, &exchange.answer)? {
        Ok(Some(returned.state))
    } else {
        Ok(None)
    }
}

// Returns what the driver does instead of what a trace has.
#[tactic(auto, using(uart_calls::proofs::Checked::same_accesses))]
fn stray_at<'a>(exchange: &'a Exchange, state: &DriverState) -> Stray<'a>
    ensures call { result.exchange.now ≡ exchange.now }
    ensures first { IsFollowed exchange.now.call (fields_of state.now) exchange.now.accesses.items
        (record { kept = result.kept; turn = result.turn }) }
{
    let followed = follow(&exchange.accesses, state, &exchange.call);
    Stray {
        exchange,
        kept: followed.kept,
        turn: followed.turn,
    }
}

/// Checks whether each list of a trace is one of its call, with the recorded answer. Returns `None`
/// if so. Else returns the first call for which it is not, with its first access that no list of
/// the call has, and what the driver does there.
///
/// The first call is of a new driver with this limit, which takes the FIFOs to be of this size, and
/// so is each call after a `fresh`.
///
/// # Errors
///
/// `AllocError` if out of memory.
pub fn judge<'a>(
    alloc: Global,
    trace: &'a [Exchange],
    limit: NonZeroU64,
    fifo_size: FifoSize,
) -> Result<Option<Stray<'a>>, AllocError>
    // promise: a trace is accepted exactly if the driver can make it, else its first stray is told
    // with: judge.calls, judge.first
    // shown by: no_call_runs_on_beyond_its_list
    // refused: judge_accepts_what_strays, stray_is_one_access_early
    ensures calls { IfOk result (λ stray. IsNone stray ↔
        AreCalls (new_driver (non_zero_u64_get limit) fifo_size) fresh_fields trace.now) }
    ensures first { IfOk result (λ stray. IfSome stray
        (IsStray (new_driver (non_zero_u64_get limit) fifo_size) fresh_fields trace.now)) }
{
    let mut state = DriverState::new();
    let mut left = trace;
    while let Some((exchange, rest)) = left.split_first() {
        let before = state_before(exchange, state, limit, fifo_size);
        match after(alloc, exchange, &before)? {
            Some(next) => state = next,
            None => return Ok(Some(stray_at(exchange, &before))),
        }
        left = rest;
    }
    Ok(None)
}
