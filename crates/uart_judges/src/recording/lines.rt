//! The meaning of a line of a recording.
ghost use Rattle.std.specs.Prelude.{◌≡◌, ℕ, ◌<◌, IfOk, bytes_eq};
ghost use Rattle.std.specs.List.{list_any};
ghost use Rattle.uart_language.specs.Text.{words_of};
ghost use Rattle.uart_judges.specs.Entries.{IsOfARegister};
ghost use Rattle.uart_judges.specs.RecordingLines.{HasEntry, access_in, again_in, alone_in, arrival_in, direction_of, event_name};
ghost use Rattle.uart_judges.specs.RecordingLines.{happened_at, has_time, interrupt_in, is_log, key_in, log_access_in, log_fields_in};
ghost use Rattle.uart_judges.specs.RecordingLines.{log_stamp_in, logged_in, modem_in, of_direction, own_in, said_in, says, stamp_in, word_of};
ghost use Rattle.uart_spec.specs.declared.baud.TheConstants.{NUM_REGISTERS};

use crate::recording::cause::RecordingFault;
use crate::recording::entry::{Entry, Happening};
use crate::recording::fields::{
    after, before, bits_in, level_in, log_byte_in, log_offset_in, log_time_in, repeats_in, time_in,
};
use crate::recording::limits::MOST_LINE_BYTES;
use crate::traces::{before_remark, offset_in};
use bitflags::Flags;
use uart_language::{Cause, byte_in, has_bad_byte, word_at, word_count};
use uart_spec::access::Access;
use uart_spec::registers::{LSR, MSR};

/// The meaning of a line of a recording.
#[derive(Clone, Copy, Debug, PartialEq, Eq)]
pub enum RecordingLine {
    /// Nothing: the line is blank, or has another event of QEMU's log.
    Blank,
    /// Something happened.
    Entry(Entry),
    /// The read before was made so many times more, and returned the same.
    Again(u64),
}

// The first word of a line that says what happened.
#[derive(Clone, Copy, Debug, PartialEq, Eq)]
enum Key {
    Read,
    Write,
    Arrive,
    Interrupt,
    Lines,
    Again,
}

// Whether an access is a read or a write.
#[derive(Clone, Copy, Debug, PartialEq, Eq)]
enum Direction {
    Read,
    Write,
}

impl Direction {
    // Returns an access in this direction.
    fn access(self, offset: usize, byte: u8) -> Access
        ensures value { result ≡ of_direction self offset byte }
        ensures register { offset < NUM_REGISTERS → IsOfARegister result }
    {
        match self {
            Direction::Read => Access::Read(offset, byte),
            Direction::Write => Access::Write(offset, byte),
        }
    }
}

// What a line says of the state after what happened: the level of the interrupt line, and the time.
#[derive(Clone, Copy, Debug, PartialEq, Eq)]
struct Stamp {
    interrupt: Option<bool>,
    time: Option<u64>,
}

// Returns the meaning of a first word.
fn key_in(word: &[u8]) -> Option<Key>
    ensures { result ≡ key_in word.now }
{
    match word {
        b"r" => Some(Key::Read),
        b"R" => Some(Key::Read),
        b"w" => Some(Key::Write),
        b"W" => Some(Key::Write),
        b"a" => Some(Key::Arrive),
        b"A" => Some(Key::Arrive),
        b"i" => Some(Key::Interrupt),
        b"I" => Some(Key::Interrupt),
        b"m" => Some(Key::Lines),
        b"M" => Some(Key::Lines),
        b"x" => Some(Key::Again),
        b"X" => Some(Key::Again),
        _ => None,
    }
}

// Returns a level or a time, by itself.
#[tactic(auto, unfolding(crate::specs::RecordingLines::alone_in))]
fn alone_in(word: &[u8]) -> Result<Stamp, Cause>
    ensures { result ≡ alone_in word.now }
{
    match word {
        [] => Err(Cause::BadNumber),
        [b'@', ..] => Ok(Stamp {
            interrupt: None,
            time: Some(time_in(word)?),
        }),
        _ => Ok(Stamp {
            interrupt: level_in(word)?,
            time: None,
        }),
    }
}

// Returns the level and the time behind so many words.
#[tactic(auto, unfolding(crate::specs::RecordingLines::stamp_in))]
fn stamp_in(count: usize, line: &[u8]) -> Result<Stamp, Cause>
    requires { count < 8 }
    ensures { result ≡ stamp_in count (words_of line.now) }
{
    let words = word_count(line);
    if words == count {
        Ok(Stamp {
            interrupt: None,
            time: None,
        })
    } else if words == count + 1 {
        alone_in(word_at(line, count))
    } else if words == count + 2 {
        let interrupt = level_in(word_at(line, count))?;
        let time = time_in(word_at(line, count + 1))?;
        Ok(Stamp {
            interrupt,
            time: Some(time),
        })
    } else {
        Err(Cause::WrongCount)
    }
}

// Returns what happened once, at the line with this number.
fn happened_at(number: u64, happening: Happening, stamp: Stamp) -> RecordingLine
    ensures { result ≡ happened_at number happening stamp }
{
    RecordingLine::Entry(Entry {
        happening,
        times: 1,
        line: number,
        time: stamp.time,
        interrupt: stamp.interrupt,
    })
}

// Returns the access of a line.
#[tactic(auto, unfolding(crate::specs::RecordingLines::access_in))]
fn access_in(direction: Direction, number: u64, line: &[u8]) -> Result<RecordingLine, Cause>
    ensures read { result ≡ access_in direction number (words_of line.now) }
    ensures entry { IfOk result (HasEntry number) }
{
    let stamp = stamp_in(3, line)?;
    let offset = offset_in(word_at(line, 1))?;
    let byte = byte_in(word_at(line, 2))?;
    let happening = Happening::Access(direction.access(offset, byte));
    Ok(happened_at(number, happening, stamp))
}

// Returns how often the read before is repeated.
#[tactic(auto, unfolding(crate::specs::RecordingLines::again_in))]
fn again_in(line: &[u8]) -> Result<RecordingLine, Cause>
    ensures read { result ≡ again_in (words_of line.now) }
    ensures entry { (number : ℕ) → IfOk result (HasEntry number) }
{
    if word_count(line) != 2 {
        return Err(Cause::WrongCount);
    }
    Ok(RecordingLine::Again(repeats_in(word_at(line, 1))?))
}

// Returns the arrival of a line.
#[tactic(auto, unfolding(crate::specs::RecordingLines::arrival_in))]
fn arrival_in(number: u64, line: &[u8]) -> Result<RecordingLine, Cause>
    ensures read { result ≡ arrival_in number (words_of line.now) }
    ensures entry { IfOk result (HasEntry number) }
{
    let stamp = stamp_in(3, line)?;
    let errors = bits_in(LSR::CHARACTER_ERRORS.bits(), word_at(line, 1))?;
    let byte = byte_in(word_at(line, 2))?;
    let errors = LSR::from_bits_retain(errors);
    let happening = Happening::Arrive { byte, errors };
    Ok(happened_at(number, happening, stamp))
}

// Returns the level of the interrupt line, which changed by itself.
#[tactic(auto, unfolding(crate::specs::RecordingLines::interrupt_in))]
fn interrupt_in(number: u64, line: &[u8]) -> Result<RecordingLine, Cause>
    ensures read { result ≡ interrupt_in number (words_of line.now) }
    ensures entry { IfOk result (HasEntry number) }
{
    let stamp = stamp_in(1, line)?;
    match stamp.interrupt {
        Some(is_raised) => Ok(happened_at(number, Happening::Interrupt { is_raised }, stamp)),
        None => Err(Cause::WrongCount),
    }
}

// Returns the modem inputs of a line.
#[tactic(auto, unfolding(crate::specs::RecordingLines::modem_in))]
fn modem_in(number: u64, line: &[u8]) -> Result<RecordingLine, Cause>
    ensures read { result ≡ modem_in number (words_of line.now) }
    ensures entry { IfOk result (HasEntry number) }
{
    let stamp = stamp_in(2, line)?;
    let inputs = MSR::from_bits_retain(bits_in(MSR::LINES.bits(), word_at(line, 1))?);
    Ok(happened_at(number, Happening::Lines(inputs), stamp))
}

// Returns the meaning of a line of our own.
fn own_in(key: Option<Key>, number: u64, line: &[u8]) -> Result<RecordingLine, Cause>
    ensures read { result ≡ own_in key number (words_of line.now) }
    ensures entry { IfOk result (HasEntry number) }
{
    match key {
        Some(Key::Read) => access_in(Direction::Read, number, line),
        Some(Key::Write) => access_in(Direction::Write, number, line),
        Some(Key::Arrive) => arrival_in(number, line),
        Some(Key::Interrupt) => interrupt_in(number, line),
        Some(Key::Lines) => modem_in(number, line),
        Some(Key::Again) => again_in(line),
        None => Err(Cause::UnknownWord),
    }
}

// Returns whether a first word is the name of an event of QEMU.
fn is_log(word: &[u8]) -> bool
    ensures { result ≡ is_log word.now }
{
    word.iter().any(|byte| *byte == b'_')
}

// Returns whether a first word has process and time in front.
fn has_time(word: &[u8]) -> bool
    ensures { result ≡ has_time word.now }
{
    word.iter().any(|byte| *byte == b':')
}

// Returns the name of an event.
fn event_name(word: &[u8]) -> &[u8]
    ensures { result.now ≡ event_name word.now }
{
    if has_time(word) {
        after(b':', word)
    } else {
        word
    }
}

// Returns the time in front of the name of an event.
#[tactic(auto, unfolding(crate::specs::RecordingLines::log_stamp_in))]
fn log_stamp_in(word: &[u8]) -> Result<Stamp, Cause>
    ensures { result ≡ log_stamp_in word.now }
{
    let time = if has_time(word) {
        Some(log_time_in(before(b':', word))?)
    } else {
        None
    };
    Ok(Stamp {
        interrupt: None,
        time,
    })
}

// Returns whether an event is an access to a serial chip, and which.
fn direction_of(name: &[u8]) -> Option<Direction>
    ensures { result ≡ direction_of name.now }
{
    if name == b"serial_read".as_slice() {
        return Some(Direction::Read);
    }
    (name == b"serial_write".as_slice()).then_some(Direction::Write)
}

// Returns whether this is the word that QEMU writes behind the name.
fn is_word_of(direction: Direction, word: &[u8]) -> bool
    ensures { result ≡ bytes_eq word.now (word_of direction) }
{
    match direction {
        Direction::Read => word == b"read".as_slice(),
        Direction::Write => word == b"write".as_slice(),
    }
}

// Returns the access of the words from here on.
#[tactic(auto, unfolding(crate::specs::RecordingLines::log_fields_in))]
fn log_fields_in(direction: Direction, at: usize, line: &[u8]) -> Result<Access, Cause>
    requires { at < 8 }
    ensures read { result ≡ log_fields_in direction at (words_of line.now) }
    ensures register { IfOk result IsOfARegister }
{
    if word_at(line, at) != b"addr".as_slice() || word_at(line, at + 2) != b"val".as_slice() {
        return Err(Cause::BadWord);
    }
    let offset = log_offset_in(word_at(line, at + 1))?;
    let byte = log_byte_in(word_at(line, at + 3))?;
    Ok(direction.access(offset, byte))
}

// Returns the access of a line of the log, with or without the word behind the name.
#[tactic(auto, unfolding(crate::specs::RecordingLines::log_access_in))]
fn log_access_in(direction: Direction, line: &[u8]) -> Result<Access, Cause>
    ensures read { result ≡ log_access_in direction (words_of line.now) }
    ensures register { IfOk result IsOfARegister }
{
    let words = word_count(line);
    if words == 5 {
        log_fields_in(direction, 1, line)
    } else if words == 6 && is_word_of(direction, word_at(line, 1)) {
        log_fields_in(direction, 2, line)
    } else {
        Err(Cause::WrongCount)
    }
}

// Returns the meaning of a line of the log. Other events than accesses mean nothing.
#[tactic(auto, unfolding(crate::specs::RecordingLines::logged_in))]
fn logged_in(direction: Option<Direction>, number: u64, line: &[u8]) -> Result<RecordingLine, Cause>
    ensures read { result ≡ logged_in direction number (words_of line.now) }
    ensures entry { IfOk result (HasEntry number) }
{
    let Some(direction) = direction else {
        return Ok(RecordingLine::Blank);
    };
    let stamp = log_stamp_in(word_at(line, 0))?;
    let access = log_access_in(direction, line)?;
    Ok(happened_at(number, Happening::Access(access), stamp))
}

// Returns the meaning of a line without its remark.
#[tactic(auto, unfolding(crate::specs::RecordingLines::said_in))]
fn said_in(number: u64, line: &[u8]) -> Result<RecordingLine, Cause>
    ensures read { result ≡ said_in number line.now }
    ensures entry { IfOk result (HasEntry number) }
{
    if line.is_empty() {
        return Ok(RecordingLine::Blank);
    }
    let first = word_at(line, 0);
    if is_log(first) {
        logged_in(direction_of(event_name(first)), number, line)
    } else if has_bad_byte(line) {
        Err(Cause::BadByte)
    } else {
        own_in(key_in(first), number, line)
    }
}

/// Returns the meaning of the line with this number. A remark, from `#` on, means nothing.
///
/// # Errors
///
/// What is wrong with the line.
pub fn line_in(number: u64, line: &[u8]) -> Result<RecordingLine, RecordingFault>
    // proved: A line means what [`says`](specs/RecordingLines.antt) has, or is refused for its
    //   first cause
    ensures read { result ≡ says number line.now }
    ensures entry { IfOk result (HasEntry number) }
{
    if line.len() > MOST_LINE_BYTES {
        return Err(RecordingFault::TooLong);
    }
    Ok(said_in(number, before_remark(line))?)
}
