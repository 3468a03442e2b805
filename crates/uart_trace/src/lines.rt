//! The lines of a trace as text: what each says, and its remarks.
ghost use Rattle.std.specs.Prelude.{◌≡◌, ◌∷◌, ◌++◌, [], IfOk, OnOk, bytes_eq, codes};
ghost use Rattle.uart_trace.specs.Lines.{Adds, IsOneLine, begin_said, end_said, remark_line};
ghost use Rattle.uart_trace.specs.Trace.{access_line, line_said};

use crate::remarks::Remarks;
use crate::text::{line_at, printable};
use std::alloc::{AllocError, Global};
use uart_judges::traces::push_access;
use uart_spec::access::Access;

// Appends a remark of one line, unless it is empty.
fn push_remark(out: &mut Vec<u8>, remark: &[u8]) -> Result<(), AllocError>
    ensures { OnOk result (out.new.items ≡ out.old.items ++ remark_line remark.now) }
{
    if remark.is_empty() {
        return Ok(());
    }
    out.extend_from_slice(b"# ")?;
    out.extend_from_slice(remark)?;
    out.push(b'\n')?;
    Ok(())
}

// Appends each line of a text as a remark.
fn push_remarks(out: &mut Vec<u8>, text: &[u8]) -> Result<(), AllocError>
    ensures { OnOk result (Adds out.old.items out.new.items []) }
{
    for line in text.split(|b| *b == b'\n') {
        push_remark(out, line)?;
    }
    Ok(())
}

// Appends a line.
fn push_line(out: &mut Vec<u8>, line: &[u8]) -> Result<(), AllocError>
    requires { IsOneLine line.now }
    ensures { OnOk result (Adds out.old.items out.new.items (line_said line.now)) }
{
    out.extend_from_slice(line)?;
    out.push(b'\n')?;
    Ok(())
}

// Appends the line of an answer.
fn push_answer(out: &mut Vec<u8>, answer: &[u8]) -> Result<(), AllocError>
    requires { IsOneLine answer.now }
    ensures { OnOk result
        (Adds out.old.items out.new.items (line_said (codes "= " ++ answer.now))) }
{
    out.extend_from_slice(b"= ")?;
    out.extend_from_slice(answer)?;
    out.push(b'\n')?;
    Ok(())
}

// Appends the line of an access, with the first line of a remark.
fn push_access_line(out: &mut Vec<u8>, access: Access, remark: &[u8]) -> Result<(), AllocError>
    ensures { OnOk result (Adds out.old.items out.new.items (access_line access ∷ [])) }
{
    push_access(out, access)?;
    out.extend_from_slice(b" # ")?;
    out.extend_from_slice(line_at(remark, 0))?;
    out.push(b'\n')?;
    Ok(())
}

/// Returns the line of a call. Of `next` it is a remark.
pub fn begin_text(alloc: Global, line: &[u8]) -> Result<Vec<u8>, AllocError>
    requires { IsOneLine line.now }
    ensures { IfOk result (λ text. Adds [] text.items (begin_said line.now)) }
{
    let mut text = Vec::new(alloc);
    if line == b"next".as_slice() {
        push_remark(&mut text, b"next")?;
        return Ok(text);
    }
    push_line(&mut text, line)?;
    Ok(text)
}

/// Returns the line of an access, after what happened before it.
pub fn access_text<R: Remarks>(
    alloc: Global,
    remarks: &mut R,
    access: Access,
) -> Result<Vec<u8>, AllocError>
    ensures { IfOk result (λ text. Adds [] text.items (access_line access ∷ [])) }
{
    let mut before = Vec::new(alloc);
    let mut beside = Vec::new(alloc);
    remarks.access(access, &mut before, &mut beside)?;
    let mut text = Vec::new(alloc);
    push_remarks(&mut text, &before)?;
    push_access_line(&mut text, access, &beside)?;
    Ok(text)
}

/// Returns the line of an answer, after what happened up to the end of the call. `next` has none.
pub fn end_text<R: Remarks>(
    alloc: Global,
    remarks: &mut R,
    line: &[u8],
    answer: &[u8],
) -> Result<Vec<u8>, AllocError>
    requires { IsOneLine answer.now }
    ensures { IfOk result (λ text. Adds [] text.items (end_said line.now answer.now)) }
{
    let mut after = Vec::new(alloc);
    remarks.returned(&mut after)?;
    let mut text = Vec::new(alloc);
    push_remarks(&mut text, &after)?;
    if line != b"next".as_slice() {
        push_answer(&mut text, answer)?;
    }
    Ok(text)
}

/// Returns lines that are remarks: some lines that were printed.
pub fn remarks_text(alloc: Global, lines: &[&[u8]]) -> Result<Vec<u8>, AllocError>
    ensures { IfOk result (λ text. Adds [] text.items []) }
{
    let mut text = Vec::new(alloc);
    for line in lines {
        push_remarks(&mut text, printable(alloc, line)?.as_bytes())?;
    }
    Ok(text)
}
