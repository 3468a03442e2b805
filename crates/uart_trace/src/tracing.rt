//! The accesses of a script as lines, call by call, each written as soon as its access is made.
ghost use Rattle.std.specs.Prelude.{◌≡◌, ℕ, [], Err, IfOk, drop, map, slice_index_or};
ghost use Rattle.std.specs.List.{slice_split};
ghost use Rattle.uart_language.specs.Script.{IsFaulty, IsScript, Plan};
ghost use Rattle.uart_language.specs.declared.cause.Cause.{Cause};
ghost use Rattle.uart_language.specs.declared.play_error.PlayError.TheVariants.{Refused};
ghost use Rattle.uart_trace.specs.Lines.{error_of};
ghost use Rattle.uart_trace.specs.Trace.{IsTraced, call_lines, is_call_line, is_line_feed};

use crate::lines::{access_text, begin_text, end_text, remarks_text};
use crate::listener::Listener;
use crate::remarks::Remarks;
use crate::run::tell;
use crate::text::printable;
use std::alloc::{AllocError, Global};
use uart_language::{Item, Output, Place, PlayError, item_at, write_all};
use uart_spec::access::Access;

// The lines that are printed for a script after its answers: wire, held, waiting and marks.
const LAST_LINES: usize = 4;

// Why lines were not written.
#[derive(Clone, Copy, Drop)]
pub enum Failure {
    OutOfMemory,
    Writer,
}

impl From<AllocError> for Failure {
    ghost use Rattle.uart_trace.specs.declared.tracing.Failure.TheVariants.{OutOfMemory};

    ghost from_gives = { λ _ failure. failure ≡ OutOfMemory };

    fn from(_error: AllocError) -> Failure {
        Failure::OutOfMemory
    }
}

// Returns the error that a failure is reported as.
fn error_of(failure: Failure) -> PlayError
    ensures { result ≡ error_of failure }
{
    match failure {
        Failure::OutOfMemory => PlayError::OutOfMemory,
        Failure::Writer => PlayError::WriteFault,
    }
}

// Writes the lines of a trace, as a listener of the run.
#[derive(Drop)]
pub struct Lines<'a, R, W> {
    alloc: Global,
    // The lines of the script that are calls, and the lines that were printed for it, from the next
    // call on.
    lines: &'a [&'a [u8]],
    answers: &'a [&'a [u8]],
    remarks: R,
    writer: W,
    // Why the trace is incomplete.
    failure: Option<Failure>,
}

// Returns whether a line of a script is a call.
fn is_call(line: &[u8]) -> bool
    ensures { result ≡ is_call_line line.now }
{
    // Neither the first line of a script nor a setting of its driver is a call.
    match item_at(Place::Later, line) {
        Ok(Item::Call(_) | Item::Next) => true,
        _ => false,
    }
}

// Returns the lines of a script that are calls.
fn call_lines<'a>(alloc: Global, script: &'a [u8]) -> Result<Vec<&'a [u8]>, AllocError>
    ensures { IfOk result (λ lines.
        map (λ line. line.now) lines.items ≡ call_lines script.entry.now) }
{
    script
        .split(|b| *b == b'\n')
        .filter(|line| is_call(line))
        .collect(alloc)
}

// Returns the lines of an output.
fn lines_of<'a>(alloc: Global, output: &'a [u8]) -> Result<Vec<&'a [u8]>, AllocError>
    ensures { IfOk result (λ lines.
        map (λ line. line.now) lines.items ≡ slice_split is_line_feed output.entry.now) }
{
    output.split(|b| *b == b'\n').collect(alloc)
}

// Returns the first line, or an empty one if there is none.
fn first_or_empty<'a>(lines: &[&'a [u8]]) -> &'a [u8]
    ensures { result.now ≡ slice_index_or (map (λ line. line.now) lines.entry.now) 0 [] }
{
    lines.first().copied().unwrap_or(&[])
}

// Returns the lines without the first.
fn rest_of<'a>(lines: &'a [&'a [u8]]) -> &'a [&'a [u8]]
    ensures { result.now ≡ drop 1 lines.entry.now }
{
    lines.get(1..).unwrap_or(&[])
}

impl<'a, R: Remarks, W: Output> Lines<'a, R, W> {
    ghost use Rattle.std.specs.Prelude.{◌∷◌, []};
    ghost use Rattle.uart_trace.specs.Lines.{IsPut, IsTried, answer_of, begin_said, end_said};
    ghost use Rattle.uart_trace.specs.Lines.{line_of};
    ghost use Rattle.uart_trace.specs.Trace.{access_line};

    // Writes lines.
    fn put(&mut self, text: &[u8]) -> Result<(), Failure>
        ensures { IsPut W.contents text.now result self.old self.new }
    {
        match write_all(&mut self.writer, text) {
            Ok(()) => Ok(()),
            Err(_) => Err(Failure::Writer),
        }
    }

    // Writes the line of a call that begins.
    fn write_begin(&mut self) -> Result<(), Failure>
        ensures { IsTried W.contents (begin_said (line_of self.old)) result self.old self.new }
    {
        let line = printable(self.alloc, first_or_empty(self.lines))?;
        self.remarks.call()?;
        let text = begin_text(self.alloc, line.as_bytes())?;
        self.put(&text)
    }

    // Writes the line of an access.
    fn write_access(&mut self, access: Access) -> Result<(), Failure>
        ensures { IsTried W.contents (access_line access ∷ []) result self.old self.new }
    {
        let text = access_text(self.alloc, &mut self.remarks, access)?;
        self.put(&text)
    }

    // Writes the answer of a call that has returned.
    fn write_end(&mut self) -> Result<(), Failure>
        ensures { IsTried W.contents (end_said (line_of self.old) (answer_of self.old))
            result self.old self.new }
    {
        let line = printable(self.alloc, first_or_empty(self.lines))?;
        let answer = printable(self.alloc, first_or_empty(self.answers))?;
        let (line, answer) = (line.as_bytes(), answer.as_bytes());
        let text = end_text(self.alloc, &mut self.remarks, line, answer)?;
        self.put(&text)
    }

    // Writes the last lines that were printed for the script, as remarks.
    fn write_last(&mut self) -> Result<(), Failure>
        ensures { IsTried W.contents [] result self.old self.new }
    {
        let last = self.answers.len().min(LAST_LINES);
        let text = remarks_text(self.alloc, &self.answers[..last])?;
        self.put(&text)
    }
}

impl<'a, R: Remarks, W: Output> Listener for Lines<'a, R, W> {
    ghost use Rattle.uart_trace.specs.Lines.{BeginsCall, EndsCall, HearsAccess};

    ghost begins = { BeginsCall W.contents };

    ghost hears = { HearsAccess W.contents };

    ghost ends = { EndsCall W.contents };

    fn begin(&mut self) {
        if self.failure.is_some() {
            return;
        }
        if let Err(failure) = self.write_begin() {
            self.failure = Some(failure);
        }
    }

    // After a failure the call goes on to its end, and nothing more is written.
    fn hear(&mut self, access: Access) {
        if self.failure.is_some() {
            return;
        }
        if let Err(failure) = self.write_access(access) {
            self.failure = Some(failure);
        }
    }

    fn end(&mut self) {
        if self.failure.is_none() {
            if let Err(failure) = self.write_end() {
                self.failure = Some(failure);
            }
        }
        self.lines = rest_of(self.lines);
        self.answers = rest_of(self.answers);
    }
}

/// Runs a script and writes each call as its line, its accesses and its answer; and at the end the
/// last state of the machine, as remarks. Returns the writer.
///
/// `output` is what is printed for the script: a line for each call, and then four for the last
/// state of the machine. An access is `r OFFSET VALUE` or `w OFFSET VALUE`, and an answer is after
/// `= `. The text after a `#` is a remark, as is `next`: a trace has calls of the driver.
///
/// Each line is written before the next access is made, and none is kept. So give a writer that
/// collects them, if a write is expensive.
///
/// # Errors
///
/// - `Refused`, with the first faulty line and what is wrong with it, if the text is not a script.
/// - `WriteFault` if the writer failed or accepted no byte.
/// - `OutOfMemory` if memory could not be allocated.
///
/// After the last two, some lines may have been written, in order.
pub fn trace<R: Remarks + Drop, W: Output + Drop>(
    alloc: Global,
    text: &[u8],
    output: &[u8],
    remarks: R,
    writer: W,
) -> Result<W, PlayError>
    // proved: What is written, without its comments, is for each call of that run in turn its line
    //   of the script, one line for each of its accesses, in order, and the line that was printed
    //   for it; the line of `next` is a comment
    // on: `trace`, in `IsTraced`
    ensures traced { IfOk result (λ after. (plan : Plan) × IsScript text.now plan ×
        IsTraced plan text.now output.now (W.contents writer) (W.contents after)) }
    ensures refused { (line : ℕ) (cause : Cause) → result ≡ Err (Refused line cause) →
        IsFaulty text.now line cause }
{
    let lines = call_lines(alloc, text)?;
    let answers = lines_of(alloc, output)?;
    let mut told = tell(
        alloc,
        text,
        Lines {
            alloc,
            lines: &lines,
            answers: &answers,
            remarks,
            writer,
            failure: None,
        },
    )?;
    match told.failure {
        Some(failure) => Err(error_of(failure)),
        None => {
            told.write_last().map_err(error_of)?;
            Ok(told.writer)
        }
    }
}
