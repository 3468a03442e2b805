//! The meaning of a line of a trace.
ghost use Rattle.std.specs.Prelude.{◌≡◌, ◌<◌, IfOk};
ghost use Rattle.std.specs.List.{position_or_len};
ghost use Rattle.uart_language.specs.Fields.{seen};
ghost use Rattle.uart_language.specs.Items.{item_at};
ghost use Rattle.uart_language.specs.declared.words.Place.TheVariants.{Later};
ghost use Rattle.uart_language.specs.Text.{words_of};
ghost use Rattle.uart_spec.specs.declared.baud.TheConstants.{NUM_REGISTERS};
ghost use Rattle.uart_judges.specs.TraceLines.{CanRun, access_in, answer_in, before_remark};
ghost use Rattle.uart_judges.specs.TraceLines.{called_as, fresh_in, is_remark};
ghost use Rattle.uart_judges.specs.TraceLines.{offset_in, said_by, said_in};
ghost use Rattle.uart_judges.specs.TraceLines.{saying_of, says, without_end};

use crate::traces::cause::TraceFault;
use uart_calls::Call;
use uart_language::{Cause, Item, Place, byte_in, has_bad_byte, item_at, word_at, word_count};
use uart_spec::access::Access;

/// The meaning of a line of a trace.
#[derive(Drop)]
pub enum TraceLine<'a> {
    /// A blank line, which means nothing.
    Blank,
    /// The driver is new from here on.
    Fresh,
    /// A call.
    Call(Call),
    /// An access.
    Access(Access),
    /// What the call returned, as it is printed.
    Answer(&'a [u8]),
}

// Returns these bytes without the spaces at their end.
fn without_end(bytes: &[u8]) -> &[u8]
    ensures { result.now ≡ without_end bytes.now }
{
    let mut rest = bytes;
    while let Some((last, before)) = rest.split_last() {
        if *last != b' ' {
            return rest;
        }
        rest = before;
    }
    rest
}

// Returns where the remark of a line begins, or its length.
fn remark_start(line: &[u8]) -> usize
    ensures { result ≡ position_or_len is_remark line.now }
{
    line.iter()
        .position(|byte| *byte == b'#')
        .unwrap_or(line.len())
}

/// Returns a line without its remark, and without spaces at its end.
pub fn before_remark(line: &[u8]) -> &[u8]
    ensures { result.now ≡ before_remark line.now }
{
    without_end(&line[..remark_start(line)])
}

/// Reads the offset of a register, which is one digit.
#[tactic(auto, unfolding(crate::specs::TraceLines::offset_in))]
pub fn offset_in(word: &[u8]) -> Result<usize, Cause>
    ensures read { result ≡ offset_in word.now }
    ensures range { IfOk result (λ offset. offset < NUM_REGISTERS) }
{
    match word {
        [digit] if b'0' <= *digit && *digit <= b'7' => Ok(usize::from(*digit - b'0')),
        _ => Err(Cause::BadNumber),
    }
}

// Reads the offset and the byte of an access.
#[tactic(auto, unfolding(crate::specs::TraceLines::access_in))]
fn access_in(line: &[u8]) -> Result<(usize, u8), Cause>
    ensures { result ≡ access_in (words_of line.now) }
{
    if word_count(line) != 3 {
        return Err(Cause::WrongCount);
    }
    let offset = offset_in(word_at(line, 1))?;
    let byte = byte_in(word_at(line, 2))?;
    Ok((offset, byte))
}

// Returns the driver's call of a line, as in a script.
fn call_in(line: &[u8]) -> Result<TraceLine<'_>, TraceFault>
    ensures read { seen saying_of result ≡ called_as (item_at Later line.now) }
    ensures runs { IfOk result CanRun }
{
    // Neither the first line of a script nor a setting of its driver is a call.
    match item_at(Place::Later, line)? {
        Item::Call(call) => Ok(TraceLine::Call(call)),
        Item::Blank | Item::Limit(_) | Item::FifoSize(_) | Item::Event(_) | Item::Next => {
            Err(TraceFault::NoDriverCall)
        }
    }
}

// Returns the meaning of `fresh`, which is a line of its own.
fn fresh_in(line: &[u8]) -> Result<TraceLine<'_>, TraceFault>
    ensures read { seen saying_of result ≡ fresh_in line.now }
    ensures runs { IfOk result CanRun }
{
    if word_count(line) == 1 {
        Ok(TraceLine::Fresh)
    } else {
        Err(TraceFault::Line(Cause::WrongCount))
    }
}

// Returns the answer of a line, which follows `= `.
fn answer_in(line: &[u8]) -> Result<TraceLine<'_>, TraceFault>
    ensures read { seen saying_of result ≡ answer_in line.now }
    ensures runs { IfOk result CanRun }
{
    match line {
        [_, _, answer @ ..] => Ok(TraceLine::Answer(answer)),
        _ => Err(TraceFault::Line(Cause::WrongCount)),
    }
}

// Returns the meaning of a line that begins with this word.
fn line_by<'a>(word: &[u8], line: &'a [u8]) -> Result<TraceLine<'a>, TraceFault>
    ensures read { seen saying_of result ≡ said_by word.now line.now }
    ensures runs { IfOk result CanRun }
{
    match word {
        b"fresh" => fresh_in(line),
        b"=" => answer_in(line),
        b"r" => {
            let (offset, answer) = access_in(line)?;
            Ok(TraceLine::Access(Access::Read(offset, answer)))
        }
        b"w" => {
            let (offset, value) = access_in(line)?;
            Ok(TraceLine::Access(Access::Write(offset, value)))
        }
        _ => call_in(line),
    }
}

// Returns the meaning of a line without its remark.
#[tactic(auto, unfolding(crate::specs::TraceLines::said_in))]
fn plain_line(line: &[u8]) -> Result<TraceLine<'_>, TraceFault>
    ensures read { seen saying_of result ≡ said_in line.now }
    ensures runs { IfOk result CanRun }
{
    if has_bad_byte(line) {
        return Err(TraceFault::Line(Cause::BadByte));
    }
    if line.is_empty() {
        return Ok(TraceLine::Blank);
    }
    line_by(word_at(line, 0), line)
}

/// Returns the meaning of a line. A remark, from `#` on, means nothing. A call that is returned can
/// be run.
pub fn line_in(line: &[u8]) -> Result<TraceLine<'_>, TraceFault>
    ensures read { seen saying_of result ≡ says line.now }
    ensures runs { IfOk result CanRun }
{
    plain_line(before_remark(line))
}
