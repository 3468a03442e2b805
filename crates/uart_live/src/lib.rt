//! A live chip: the chip of [`uart_chip`] in the hands of its owner, without a schedule.
//!
//! The owner, for example a virtual machine monitor, makes the guest's accesses, takes the bytes
//! that are sent, passes characters and modem lines when they arrive, lets time pass, and reads the
//! level of the interrupt line. Each call does what the definitions of the chip say.
#![tactic(auto)]

mod due;
mod errors;
mod fixed;
pub mod laws;
mod live;
pub mod sound;

pub use due::interrupts_when_due;
pub use errors::{ChipError, InputError, RestoreError};
pub use fixed::WIRE_ROOM;
pub use live::{LiveChip, LiveChipWith};
pub use uart_chip::{
    Character, Chip, ChipData, Latches, ModemData, Origin, ReceiverData, Shifting, TransmitterData,
};
