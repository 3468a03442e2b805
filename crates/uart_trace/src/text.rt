//! Bytes as text, and lines of bytes.
ghost use Rattle.std.specs.Prelude.{◌≡◌, ◌<◌, [], IfOk, slice_index_or};
ghost use Rattle.std.specs.List.{slice_split};
ghost use Rattle.std.specs.String.{string_bytes};
ghost use Rattle.uart_trace.specs.Trace.{is_line_feed, printable, printable_byte};

use std::alloc::{AllocError, Global};

// Returns the byte, or `?` if it is not printable ASCII.
fn printable_byte(byte: u8) -> u8
    ensures byte { result ≡ printable_byte byte }
    ensures ascii { result < 128 }
{
    if 0x20 <= byte && byte <= 0x7e {
        byte
    } else {
        b'?'
    }
}

/// Returns the bytes as text, with `?` in place of each that is not printable ASCII.
pub fn printable(alloc: Global, bytes: &[u8]) -> Result<String, AllocError>
    ensures { IfOk result (λ text. string_bytes text ≡ printable bytes.now) }
{
    let mut text = String::new(alloc);
    for byte in bytes {
        text.push(char::from(printable_byte(*byte)))?;
    }
    Ok(text)
}

/// Returns the line of the bytes with this index.
pub fn line_at(bytes: &[u8], index: usize) -> &[u8]
    ensures { result.now ≡ slice_index_or (slice_split is_line_feed bytes.now) index [] }
{
    bytes.split(|b| *b == b'\n').nth(index).unwrap_or(&[])
}
