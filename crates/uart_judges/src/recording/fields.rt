//! Reads the fields of a line.
ghost use Rattle.std.specs.Prelude.{◌≡◌, ◌==◌, ◌<◌, ◌≤◌, IfOk, length};
ghost use Rattle.std.specs.List.{position_or_len};
ghost use Rattle.uart_spec.specs.Bits.{IsWithin};
ghost use Rattle.uart_judges.specs.Fields.{bits_in, level_in, log_byte_in, log_offset_in, log_time_in, number_in};
ghost use Rattle.uart_judges.specs.Fields.{after, before, repeats_in, time_in, time_of};

use crate::recording::limits::{MOST_REPEATS, MOST_SECONDS};
use uart_language::limits::MOST_DIGITS;
use uart_language::{Cause, byte_in, number_of};
use uart_spec::NUM_REGISTERS;

/// The nanoseconds of a second.
pub const SECOND: u64 = 1_000_000_000;

/// The nanoseconds of a microsecond.
pub const MICROSECOND: u64 = 1_000;

/// The most microseconds that QEMU's log writes behind the seconds.
pub const MOST_MICROSECONDS: u64 = 999_999;

/// Reads a byte of two hexadecimal digits that has no other bits than these.
#[tactic(auto, unfolding(crate::specs::Fields::bits_in))]
pub fn bits_in(mask: u8, word: &[u8]) -> Result<u8, Cause>
    ensures read { result ≡ bits_in mask word.now }
    ensures range { IfOk result (λ bits. IsWithin bits mask) }
{
    let bits = byte_in(word)?;
    if bits & mask == bits {
        Ok(bits)
    } else {
        Err(Cause::BadHex)
    }
}

// Reads a number up to `most`.
fn number_in(most: u64, word: &[u8]) -> Result<u64, Cause>
    ensures value { result ≡ number_in most word.now }
    ensures range { IfOk result (λ n. n ≤ most) }
{
    number_of(MOST_DIGITS, 0, most, word)
}

/// Reads how often a read is repeated.
pub fn repeats_in(word: &[u8]) -> Result<u64, Cause>
    ensures { result ≡ repeats_in word.now }
{
    number_in(MOST_REPEATS, word)
}

/// Reads the level of the interrupt line, or that it was not recorded.
#[tactic(auto, unfolding(crate::specs::Fields::level_in))]
pub fn level_in(word: &[u8]) -> Result<Option<bool>, Cause>
    ensures { result ≡ level_in word.now }
{
    match word {
        b"0" => Ok(Some(false)),
        b"1" => Ok(Some(true)),
        b"2" => Ok(None),
        _ => Err(Cause::BadNumber),
    }
}

/// Reads a time in nanoseconds, behind an `@`.
#[tactic(auto, unfolding(crate::specs::Fields::time_in))]
pub fn time_in(word: &[u8]) -> Result<u64, Cause>
    ensures { result ≡ time_in word.now }
{
    match word {
        [b'@', digits @ ..] => number_in(u64::MAX, digits),
        _ => Err(Cause::BadNumber),
    }
}

/// Reads a byte of two hexadecimal digits behind `0x`.
#[tactic(auto, unfolding(crate::specs::Fields::log_byte_in))]
pub fn log_byte_in(word: &[u8]) -> Result<u8, Cause>
    ensures { result ≡ log_byte_in word.now }
{
    match word {
        [b'0', b'x', digits @ ..] => byte_in(digits),
        _ => Err(Cause::BadHex),
    }
}

/// Reads the offset of a register, two hexadecimal digits behind `0x`.
#[tactic(auto, unfolding(crate::specs::Fields::log_offset_in))]
pub fn log_offset_in(word: &[u8]) -> Result<usize, Cause>
    ensures read { result ≡ log_offset_in word.now }
    ensures range { IfOk result (λ offset. offset < NUM_REGISTERS) }
{
    let offset = usize::from(log_byte_in(word)?);
    if offset < NUM_REGISTERS {
        Ok(offset)
    } else {
        Err(Cause::BadNumber)
    }
}

// Returns where the first such byte is, or the length.
fn end_before(byte: u8, word: &[u8]) -> usize
    ensures value { result ≡ position_or_len (λ b. b == byte) word.now }
    ensures within { result ≤ length word.now }
{
    word.iter()
        .position(|found| *found == byte)
        .unwrap_or(word.len())
}

/// Returns what is before the first such byte, or all.
pub fn before(byte: u8, word: &[u8]) -> &[u8]
    ensures { result.now ≡ before byte word.now }
{
    &word[..end_before(byte, word)]
}

/// Returns what is behind the first such byte, or nothing.
pub fn after(byte: u8, word: &[u8]) -> &[u8]
    ensures { result.now ≡ after byte word.now }
{
    match &word[end_before(byte, word)..] {
        [_, rest @ ..] => rest,
        [] => &[],
    }
}

/// Reads the time in front of a line of QEMU's log, as in `1234@1699999999.123456`. Returns
/// nanoseconds.
#[tactic(auto, unfolding(crate::specs::Fields::log_time_in))]
pub fn log_time_in(word: &[u8]) -> Result<u64, Cause>
    ensures { result ≡ log_time_in word.now }
{
    let time = after(b'@', word);
    let _process = number_in(u64::MAX, before(b'@', word))?;
    let seconds = number_in(MOST_SECONDS, before(b'.', time))?;
    let microseconds = number_in(MOST_MICROSECONDS, after(b'.', time))?;
    Ok(seconds * SECOND + microseconds * MICROSECOND)
}
