//! The meaning of a whole trace.
ghost use Rattle.std.specs.Prelude.{◌≡◌, ◌+◌, ◌<◌, ◌≤◌, List, length};
ghost use Rattle.std.specs.Prelude.{IfOk, MatchResult, Some, None};
ghost use Rattle.uart_call.specs.Calls.{IsRunnable};
ghost use Rattle.uart_language.specs.Text.{lines_of};
ghost use Rattle.uart_judges.specs.TraceLines.{CanRun, saying_of};
ghost use Rattle.uart_judges.specs.Reading.{IsTrace, ReadsExchange};
ghost use Rattle.uart_judges.specs.Reading.{ReadsLine, Refuses, RefusesLine};
ghost use Rattle.uart_judges.specs.Reading.{fault_of, first_fault};
ghost use Rattle.uart_judges.specs.declared.traces.exchange.Exchange.{Exchange};

use crate::traces::cause::{TraceError, TraceFault};
use crate::traces::exchange::Exchange;
use crate::traces::lines::{TraceLine, line_in};
use std::alloc::Global;
use uart_calls::Call;
use uart_language::first_line;

fn fault(line: usize, fault: TraceFault) -> TraceError
    ensures { result ≡ TraceError.NoTrace line fault }
{
    TraceError::NoTrace { line, fault }
}

// Returns the meaning of the first of some lines, which has this number, and the bytes after it.
fn next_line(number: usize, bytes: &[u8]) -> Result<(TraceLine<'_>, &[u8]), TraceError>
    requires { 0 < length bytes.now }
    ensures read { MatchResult result
        (λ x. ReadsLine (lines_of bytes.now) (saying_of x.0) (lines_of x.1.now))
        (RefusesLine number (lines_of bytes.now)) }
    ensures runs { IfOk result (λ x. CanRun x.0) }
    ensures shorter { IfOk result (λ x. length x.1.now < length bytes.now) }
{
    let (line, rest) = first_line(bytes);
    match line_in(line) {
        Ok(line) => Ok((line, rest)),
        Err(cause) => Err(fault(number, cause)),
    }
}

// Reads what follows a call, whose line has this number. Returns it with the call, and the bytes
// after its answer.
fn read_exchange(
    alloc: Global,
    is_first: bool,
    call: Call,
    call_line: usize,
    bytes: &[u8],
) -> Result<(Exchange, &[u8]), TraceError>
    requires runs { IsRunnable call }
    requires fits { call_line + length bytes.now ≤ usize.MAX }
    ensures read { MatchResult result
        (λ x. ReadsExchange is_first call call_line (lines_of bytes.now) x.0 (lines_of x.1.now))
        (Refuses (first_fault call_line (Some call_line) (lines_of bytes.now))) }
    ensures shorter { IfOk result (λ x. x.0.answer_line + length x.1.now ≤
        call_line + length bytes.now) }
    ensures later { IfOk result (λ x. call_line < x.0.answer_line) }
{
    let unanswered = fault(call_line, TraceFault::NoAnswer);
    let mut accesses = Vec::new(alloc);
    let mut access_lines = Vec::new(alloc);
    let mut number = call_line;
    let mut rest = bytes;
    while !rest.is_empty() {
        number += 1;
        let (line, left) = next_line(number, rest)?;
        rest = left;
        match line {
            TraceLine::Blank => {}
            TraceLine::Access(access) => {
                accesses.push(access)?;
                access_lines.push(number)?;
            }
            TraceLine::Answer(text) => {
                let exchange = Exchange {
                    is_first,
                    call,
                    accesses,
                    access_lines,
                    answer: text.to_vec(alloc)?,
                    answer_line: number,
                };
                return Ok((exchange, left));
            }
            TraceLine::Fresh => return Err(unanswered),
            TraceLine::Call(_) => return Err(unanswered),
        }
    }
    Err(unanswered)
}

// Returns the calls of some bytes.
fn read_trace(alloc: Global, bytes: &[u8]) -> Result<Vec<Exchange>, TraceError>
    ensures { MatchResult result (λ xs. IsTrace bytes.now xs.items) (Refuses (fault_of bytes.now)) }
{
    let mut exchanges = Vec::new(alloc);
    let mut is_first = true;
    let mut number = 0;
    let mut rest = bytes;
    while !rest.is_empty() {
        number += 1;
        let misplaced = fault(number, TraceFault::NoCallBefore);
        let (line, left) = next_line(number, rest)?;
        rest = left;
        match line {
            TraceLine::Blank => {}
            TraceLine::Fresh => is_first = true,
            TraceLine::Call(call) => {
                let (exchange, after) = read_exchange(alloc, is_first, call, number, rest)?;
                number = exchange.answer_line;
                rest = after;
                is_first = false;
                exchanges.push(exchange)?;
            }
            TraceLine::Access(_) => return Err(misplaced),
            TraceLine::Answer(_) => return Err(misplaced),
        }
    }
    Ok(exchanges)
}

/// Returns the calls of a trace.
///
/// # Errors
///
/// - `NoTrace`, with the first fault: the number of the line, and what is wrong with it. A call
///   without an answer is a fault of its own line.
/// - `OutOfMemory` if memory could not be allocated.
pub fn parse(alloc: Global, bytes: &[u8]) -> Result<Vec<Exchange>, TraceError>
    // proved: What the bytes of a trace mean: its calls, each with its accesses, its answer, and
    //   the numbers of their lines. `parse` returns them only if the bytes are that trace, and
    //   refuses only with the first fault and its line; and a trace has no fault
    ensures read { MatchResult result (λ xs. IsTrace bytes.now xs.items)
        (Refuses (fault_of bytes.now)) }
    // no trace is refused
    ensures faultless { (xs : List Exchange) → IsTrace bytes.now xs → fault_of bytes.now ≡ None }
{
    read_trace(alloc, bytes)
}
