//! Comment lines, which only this program accepts.
ghost use Rattle.std.specs.Prelude.{◌≡◌, ◌++◌, IfOk, OnOk};
ghost use Rattle.uart_trace.specs.Comments.{uncommented, ended, without_comments, plain};

use std::alloc::{AllocError, Global};
use uart_language::limits::MOST_BYTES;

/// The most bytes of a script that are looked at: one more than the longest has.
pub const MOST_READ: u64 = MOST_BYTES as u64 + 1;

// Returns the line, or an empty one if it is a comment.
fn uncommented(line: &[u8]) -> &[u8]
    ensures { result.now ≡ uncommented line.now }
{
    match line {
        [b'#', ..] => &[],
        _ => line,
    }
}

// Appends a line, without a comment, and a line feed.
fn push_line(text: &mut Vec<u8>, line: &[u8]) -> Result<(), AllocError>
    ensures { OnOk result (text.new.items ≡ text.old.items ++ ended line.now) }
{
    text.extend_from_slice(uncommented(line))?;
    text.push(b'\n')?;
    Ok(())
}

/// Returns a script with an empty line in place of each that starts with `#`. So the other lines
/// keep their numbers.
pub fn without_comments(alloc: Global, script: &[u8]) -> Result<Vec<u8>, AllocError>
    // promise: a comment line is a blank line, and no other byte of a script changes
    // with: without_comments, plain
    // shown by: play-comments
    // refused: blank_lines_are_left_out
    ensures { IfOk result (λ text. text.items ≡ without_comments script.now) }
{
    let mut text = Vec::new(alloc);
    for line in script.split(|b| *b == b'\n') {
        push_line(&mut text, line)?;
    }
    // The text after the script's last line feed had none.
    text.pop();
    Ok(text)
}

/// Returns a script without its comments. One with more than [`MOST_BYTES`] bytes, comments
/// included, is refused whatever it has, and returned as it is.
pub fn plain(alloc: Global, script: &[u8]) -> Result<Vec<u8>, AllocError>
    ensures { IfOk result (λ text. text.items ≡ plain script.now) }
{
    if script.len() > MOST_BYTES {
        return script.to_vec(alloc);
    }
    without_comments(alloc, script)
}
