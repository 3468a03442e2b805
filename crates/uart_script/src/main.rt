//! Plays a script from standard input, and prints its output to standard output.
#![tactic(auto)]

mod finish;

use finish::finish;
use std::process::ExitCode;
use uart_play::{PlayError, Std, play};

fn main(rt: HostRuntime) -> ExitCode {
    let mut reader = Std::new(rt.stdin());
    let mut writer = Std::new(rt.stdout());
    let result = play(rt.alloc(), &mut reader, &mut writer);
    if result == Err(PlayError::WriteFault) {
        // Nothing more goes to standard output. If standard error cannot be written either, the
        // exit status says it.
        let _ = eprintln!(rt; "write fault");
    }
    ExitCode::from(finish(result, &mut writer))
}
