//! How accesses are printed, and where a trace strays.
ghost use Rattle.std.specs.Prelude.{◌≡◌, ◌∷◌, ◌++◌, OnOk, slice_get};
ghost use Rattle.uart_language.specs.Output.{hex_byte};
ghost use Rattle.uart_judges.specs.Telling.{access_text, answer_line_text, found_text};
ghost use Rattle.uart_judges.specs.Telling.{line_text, place_text, request_text};
ghost use Rattle.uart_judges.specs.Telling.{stray_text, turn_text};

use crate::traces::exchange::Exchange;
use crate::traces::judging::Stray;
use std::alloc::{AllocError, Global};
use uart_calls::{Request, Turn};
use uart_language::{hex_digit, push_answer};
use uart_spec::access::Access;

// Appends a letter and the offset of a register.
fn push_place(out: &mut Vec<u8>, letter: u8, offset: usize) -> Result<(), AllocError>
    ensures { OnOk result (out.new.items ≡ out.old.items ++ place_text letter offset) }
{
    out.push(letter)?;
    out.push(b' ')?;
    out.push(hex_digit((offset % 8) as u8))?;
    Ok(())
}

fn push_byte(out: &mut Vec<u8>, byte: u8) -> Result<(), AllocError>
    ensures { OnOk result (out.new.items ≡ out.old.items ++ 32 ∷ hex_byte byte) }
{
    out.push(b' ')?;
    out.push(hex_digit(byte / 16))?;
    out.push(hex_digit(byte % 16))?;
    Ok(())
}

/// Appends an access as a trace has it, without the end of its line.
pub fn push_access(out: &mut Vec<u8>, access: Access) -> Result<(), AllocError>
    // proved: How an access is printed, and of a stray its line, what is in it, and what the driver
    //   does there
    // on: `push_access`, `push_stray`
    ensures { OnOk result (out.new.items ≡ out.old.items ++ access_text access) }
{
    match access {
        Access::Read(offset, answer) => {
            push_place(out, b'r', offset)?;
            push_byte(out, answer)
        }
        Access::Write(offset, value) => {
            push_place(out, b'w', offset)?;
            push_byte(out, value)
        }
    }
}

// Appends a request as an access. A read has no answer.
fn push_request(out: &mut Vec<u8>, request: Request) -> Result<(), AllocError>
    ensures { OnOk result (out.new.items ≡ out.old.items ++ request_text request) }
{
    match request {
        Request::Read(offset) => push_place(out, b'r', offset),
        Request::Write(offset, value) => push_access(out, Access::Write(offset, value)),
    }
}

fn push_line(alloc: Global, out: &mut Vec<u8>, line: usize) -> Result<(), AllocError>
    ensures { OnOk result (out.new.items ≡ out.old.items ++ line_text line) }
{
    let number = line.to_string(alloc)?;
    out.extend_from_slice(b"line ")?;
    out.extend_from_slice(number.as_bytes())?;
    out.extend_from_slice(b": '")
}

// Returns the access at this place of a call.
fn access_at(exchange: &Exchange, place: usize) -> Option<Access>
    ensures { result ≡ slice_get exchange.now.accesses.items place }
{
    exchange.accesses.get(place).copied()
}

// Returns the line of the access at this place of a call.
fn line_at(exchange: &Exchange, place: usize) -> Option<usize>
    ensures { result ≡ slice_get exchange.now.access_lines.items place }
{
    exchange.access_lines.get(place).copied()
}

// Appends the line of an answer, and what is in it.
fn push_answer_line(alloc: Global, out: &mut Vec<u8>, exchange: &Exchange) -> Result<(), AllocError>
    ensures { OnOk result (out.new.items ≡ out.old.items ++ answer_line_text exchange.now) }
{
    push_line(alloc, out, exchange.answer_line)?;
    out.extend_from_slice(b"= ")?;
    out.extend_from_slice(&exchange.answer)
}

// Appends the line that strays, and what is in it.
fn push_found(
    alloc: Global,
    out: &mut Vec<u8>,
    access: Option<Access>,
    line: Option<usize>,
    exchange: &Exchange,
) -> Result<(), AllocError>
    ensures { OnOk result (out.new.items ≡ out.old.items ++ found_text access line exchange.now) }
{
    match (access, line) {
        (Some(access), Some(line)) => {
            push_line(alloc, out, line)?;
            push_access(out, access)
        }
        (Some(_), None) => push_answer_line(alloc, out, exchange),
        (None, _) => push_answer_line(alloc, out, exchange),
    }
}

// Appends what the driver does.
fn push_turn(alloc: Global, out: &mut Vec<u8>, turn: &Turn) -> Result<(), AllocError>
    ensures { OnOk result (out.new.items ≡ out.old.items ++ turn_text turn.now) }
{
    match turn {
        Turn::Asks(request) => {
            out.extend_from_slice(b"makes '")?;
            push_request(out, *request)
        }
        Turn::Returns(returned) => {
            out.extend_from_slice(b"returns '= ")?;
            push_answer(alloc, out, &returned.answer)
        }
    }
}

/// Appends which line of a trace strays, and what the driver does instead, without the end of a
/// line.
pub fn push_stray(alloc: Global, out: &mut Vec<u8>, stray: &Stray<'_>) -> Result<(), AllocError>
    ensures { OnOk result (out.new.items ≡ out.old.items ++ stray_text stray.now) }
{
    let access = access_at(stray.exchange, stray.kept);
    let line = line_at(stray.exchange, stray.kept);
    push_found(alloc, out, access, line, stray.exchange)?;
    out.extend_from_slice(b"' strays: the driver ")?;
    push_turn(alloc, out, &stray.turn)?;
    out.push(b'\'')?;
    Ok(())
}
