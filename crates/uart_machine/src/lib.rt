//! A 16550 in software, runs of the driver over it, and scripts of such runs.
//!
//! - [`Device16550`] is a 16550A or 16450 under a schedule of ticks, arrivals and modem lines, as a
//!   backend of the driver. Each register access first performs the scheduled events before it, and
//!   then has the effect that the datasheet specifies.
//! - [`perform`] makes one [`Call`] of the driver over any backend, and returns its [`Answer`].
//! - [`run`] makes a list of calls over such a device. Its contract has the theorems about driver
//!   and chip together.
//! - [`run_ring`] makes a list of calls of the rings over such a device, and returns a
//!   [`RingAnswer`] for each [`RingCall`]. Its contract has the theorem about rings, driver and
//!   chip together.
//! - [`LiveChip`] is the same chip without a schedule, driven by its owner, and can be saved
//!   and restored. [`LiveChipWith`] is one with FIFOs of any size.
//! - [`script`] plays a script from a reader to a writer.
//! - [`laws`] has what follows from these contracts.
//!
//! The chip and the device are in the crate `uart_chip`, the live chip in `uart_live`, calls,
//! answers and events in `uart_events`, what calls mean in `uart_calls`, runs in `uart_run`, runs
//! of the rings in `uart_ring_runs`, the script language in `uart_language`, and the player of
//! scripts in `uart_play`. This crate re-exports them.
#![tactic(auto)]

pub mod laws;
pub mod script;

pub use uart_calls::{Answer, CALL_BYTES, Call, perform};
pub use uart_chip::{ArrivalMark, BuildError, Chip, Device16550, Event};
pub use uart_live::{
    Character, ChipData, ChipError, InputError, Latches, LiveChip, LiveChipWith, ModemData, Origin,
    ReceiverData, RestoreError, Shifting, TransmitterData, WIRE_ROOM,
};
pub use uart_ring_runs::{RingAnswer, RingCall, run_ring};
pub use uart_run::run;
