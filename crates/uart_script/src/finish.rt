//! How the program ends.
ghost use Rattle.std.specs.Prelude.{◌≡◌};
ghost use Rattle.uart_script.specs.Status.{status_of, error_status};

use std::fmt;
use std::fmt::Write;
use uart_play::{Output, PlayError};

// Text for an output, written piece by piece.
#[derive(Drop)]
struct Printer<'a, W> {
    writer: &'a mut W,
}

impl<W: Output> fmt::Write for Printer<'_, W> {
    fn write_str(&mut self, text: &str) -> fmt::Result {
        let bytes = text.as_bytes();
        let mut done = 0;
        while done < bytes.len() {
            match self.writer.write(&bytes[done..]) {
                Ok(0) => return Err(fmt::Error),
                Ok(count) => done += count,
                Err(_) => return Err(fmt::Error),
            }
        }
        Ok(())
    }
}

// Returns the program's status for an error.
fn status(error: PlayError) -> u8
    ensures { result ≡ error_status error }
{
    match error {
        PlayError::Refused { line: _, cause: _ } => 1,
        PlayError::ReadFault | PlayError::WriteFault => 2,
        PlayError::OutOfMemory => 3,
    }
}

/// Writes what went wrong as one line, if anything did and the writer still works. Returns the
/// program's status: 0 if the script was played, 1 if it was refused, 2 if the reader or the writer
/// failed, 3 if out of memory.
///
/// If this line cannot be written, that is ignored. Allocates no memory.
pub fn finish<W: Output>(outcome: Result<(), PlayError>, writer: &mut W) -> u8
    // promise: the exit status
    // shown by: each_end_has_its_line_and_status
    // refused: a_refusal_is_a_success, a_success_is_a_refusal
    ensures { result ≡ status_of outcome }
{
    let Err(error) = outcome else {
        return 0;
    };
    if error != PlayError::WriteFault {
        let _ = writeln!(Printer { writer }, "{error}");
    }
    status(error)
}

#[cfg(test)]
mod tests {
    use super::*;
    use std::test::Fail;
    use uart_language::Cause;
    use uart_play::{Std, play};

    #[test]
    fn each_end_has_its_line_and_status(rt: HostRuntime) -> Result<(), Fail> {
        let refused = PlayError::Refused {
            line: 2,
            cause: Cause::BadHex,
        };
        let cases: [(Result<(), PlayError>, &str, u8); 5] = [
            (Ok(()), "", 0),
            (Err(refused), "line 2: bad hex\n", 1),
            (Err(PlayError::ReadFault), "read fault\n", 2),
            (Err(PlayError::WriteFault), "", 2),
            (Err(PlayError::OutOfMemory), "out of memory\n", 3),
        ];
        for (outcome, line, status) in cases {
            let mut written = Vec::new(rt.alloc());
            assert_eq!(rt; finish(outcome, &mut Std::new(&mut written)), status);
            assert_eq!(rt; written.as_slice(), line.as_bytes());
        }
        Ok(())
    }

    // A writer with room for so few bytes that the line is cut off.
    #[test]
    fn a_fault_of_its_own_line_changes_no_status(rt: HostRuntime) {
        for (outcome, written, status) in [
            (Ok(()), *b"\0\0\0\0", 0),
            (Err(PlayError::ReadFault), *b"read", 2),
            (Err(PlayError::WriteFault), *b"\0\0\0\0", 2),
            (Err(PlayError::OutOfMemory), *b"out ", 3),
        ] {
            let mut room = [0u8; 4];
            assert_eq!(rt; finish(outcome, &mut Std::new(&mut room[..])), status);
            assert_eq!(rt; room, written);
        }
    }

    // To one writer: nothing is before the line.
    #[test]
    fn a_refused_script_has_its_line_and_status(rt: HostRuntime) -> Result<(), Fail> {
        let cases: [(&[u8], &str); 3] = [
            (b"", "line 1: misplaced\n"),
            (b"chip 16550a 0 64\n", "line 1: bad number\n"),
            (b"chip 16450 4 64\nsend 4\n", "line 2: bad hex\n"),
        ];
        for (script, line) in cases {
            let mut written = Vec::new(rt.alloc());
            let mut writer = Std::new(&mut written);
            let outcome = play(rt.alloc(), &mut Std::new(script), &mut writer);
            assert_eq!(rt; finish(outcome, &mut writer), 1, "at {line}");
            assert_eq!(rt; written.as_slice(), line.as_bytes());
        }
        Ok(())
    }
}
