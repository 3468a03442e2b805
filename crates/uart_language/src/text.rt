//! Cuts a script into lines and words.

ghost use Rattle.std.specs.Prelude.{◌≡◌, ◌==◌, ◌<◌, ◌∷◌, [], length};
ghost use Rattle.std.specs.List.{position_or_len};
ghost use Rattle.uart_language.specs.Text.{lines_of, words_of, word_at, has_bad_byte};

/// Returns where the first line ends.
fn line_end(bytes: &[u8]) -> usize
    ensures { result ≡ position_or_len (λ b. b == 10) bytes.now }
{
    bytes
        .iter()
        .position(|b| *b == b'\n')
        .unwrap_or(bytes.len())
}

/// Returns the first line, without its end, and what follows it.
pub fn first_line(bytes: &[u8]) -> (&[u8], &[u8])
    requires { 0 < length bytes.now }
    ensures first { lines_of bytes.now ≡ result.0.now ∷ lines_of result.1.now }
    ensures shorter { length result.1.now < length bytes.now }
{
    let (line, rest) = bytes.split_at(line_end(bytes));
    match rest {
        [] => (line, rest),
        [_, after @ ..] => (line, after),
    }
}

/// Returns whether a line has a byte that no script may have.
pub fn has_bad_byte(line: &[u8]) -> bool
    ensures { result ≡ has_bad_byte line.now }
{
    line.iter().any(|b| *b < 0x20 || 0x7e < *b)
}

/// Returns the number of words of a line.
pub fn word_count(line: &[u8]) -> usize
    ensures { result ≡ length (words_of line.now) }
{
    line.split(|b| *b == b' ').count()
}

/// Returns the word of the line with this index.
pub fn word_at(line: &[u8], index: usize) -> &[u8]
    ensures { result.now ≡ word_at index (words_of line.now) }
{
    line.split(|b| *b == b' ').nth(index).unwrap_or(&[])
}
