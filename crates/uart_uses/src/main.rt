//! Programs to copy. `main` asks a question over the software chip, and prints the answer.
//!
#![tactic(auto)]

mod port;
pub mod ring_starting;

use bitflags::Flags;
use port::{PortError, ask, open};
use std::alloc::Global;
use std::num::NonZeroU64;
use uart_16550::Uart16550;
use uart_chip::{BuildError, Chip, Device16550, Event};
use uart_spec::registers::MSR;

// How many ticks a character takes, and how many bytes the wire has room for.
const CHAR_TICKS: u16 = 4;

const WIRE_CAPACITY: usize = 64;

// Returns a chip whose modem shows these lines. From the mark on, the modem sends these bytes.
fn modem_chip(alloc: Global, lines: MSR, bytes: &[u8]) -> Result<Device16550, BuildError> {
    let Ok(mut events) = [Event::Lines(lines.bits()), Event::Mark].to_vec(alloc) else {
        return Err(BuildError::OutOfMemory);
    };
    for &byte in bytes {
        let Ok(()) = events.push(Event::Arrive { byte, errors: 0 }) else {
            return Err(BuildError::OutOfMemory);
        };
    }
    Device16550::new(alloc, Chip::Uart16550A, CHAR_TICKS, WIRE_CAPACITY, events)
}

// Opens the port, lets the modem send, and asks it.
fn talk(chip: Device16550, answer: &mut [u8]) -> Result<(), PortError> {
    let mut uart = Uart16550::new_with_backend(chip);
    if let Some(spin_limit) = NonZeroU64::new(200) {
        uart.set_spin_limit(spin_limit);
    }
    open(&mut uart)?;
    uart.backend_mut().next();
    ask(&mut uart, b"AT\r", answer)
}

fn main(rt: HostRuntime) -> std::io::Result<()> {
    let ready = MSR::CTS.union(MSR::DSR);
    let modems = [
        (ready, b"OK".as_slice()),
        (ready, b"O"),
        (MSR::empty(), b"OK"),
    ];
    for (lines, bytes) in modems {
        let mut answer = [0; 2];
        match modem_chip(rt.alloc(), lines, bytes) {
            Ok(chip) => match talk(chip, &mut answer) {
                Ok(()) => println!(rt; "answer {answer:?}")?,
                Err(error) => println!(rt; "{error}")?,
            },
            Err(error) => println!(rt; "no chip: {error}")?,
        }
    }
    Ok(())
}
