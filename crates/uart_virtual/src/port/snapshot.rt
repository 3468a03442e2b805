//! A port as plain data, and back.
ghost use Rattle.std.specs.Prelude.{◌≡◌, Err, IfOk, IsOk, true, false};
ghost use Rattle.uart_chip.specs.Snapshot.{chip_of};
ghost use Rattle.uart_live.specs.declared.errors.RestoreError.{RestoreError};
ghost use Rattle.uart_virtual.specs.Port.{IsSaved, IsStill, begun, is_unmoved, renewed, todo_of, untold};

use super::{CHAR_TICKS, RENEWED, UNTOLD, VirtualPort, VirtualPortWith, decide};
use crate::told::Todo;
use bitflags::Flags;
use uart_live::{ChipData, LiveChip, RestoreError, TransmitterData, WIRE_ROOM};
use uart_spec::FIFO_SIZE;
use uart_spec::registers::MCR;

// The ticks after which a reception timeout is due: four characters, each of one tick.
const TIMEOUT_TICKS: u16 = 4;

/// A port that was restored, and what its monitor has to do.
#[derive(Drop)]
pub struct Restored {
    /// The port.
    pub port: VirtualPort,
    /// What the monitor has to do.
    pub todo: Todo,
}

// Returns whether no character can move, with this output: the transmitter is empty, or holds bytes
// only because the output is full.
fn is_unmoved(saved: &TransmitterData, loopback: bool, output: &[u8]) -> bool
    ensures { result ≡ is_unmoved saved.now loopback output.now }
{
    match saved.shift_register {
        None => saved.queue.as_slice().is_empty(),
        Some(_) => !loopback && output.len() >= saved.wire_capacity,
    }
}

// Returns whether nothing is left to happen to a chip with these data and this output.
fn is_settled(saved: &ChipData, output: &[u8]) -> bool
    ensures settled { result ≡ true → IsStill (chip_of saved.now output.now) }
    ensures moving { result ≡ false → IsStill (chip_of saved.now output.now) → ⊥ }
{
    let loopback = saved.latches.mcr.intersects(MCR::LOOP_BACK);
    saved.transmitter.char_ticks == CHAR_TICKS
        && saved.transmitter.wire_capacity == WIRE_ROOM
        && saved.receiver.timeout_ticks == TIMEOUT_TICKS
        && is_unmoved(&saved.transmitter, loopback, output)
}

// The arrays of the data hold 16 characters.
impl VirtualPortWith<FIFO_SIZE> {
    /// Returns the port as plain data. The bytes of its output are [`VirtualPortWith::output`].
    ///
    /// What the monitor was told is not part of the data: a monitor that restores a port is told
    /// anew.
    ///
    /// # Examples
    ///
    /// ```
    /// let saved = port.data();
    /// let restored = VirtualPort::from_data(&saved, port.output())?;
    /// obey_signals(host, restored.todo);
    /// ```
    pub fn data(&self) -> ChipData
        // promise: a port that was saved is restored, and what no port can be is refused
        // with: data.saved, from_data.port, from_data.accepted
        // shown by: a_restored_port_goes_on, data_of_no_port_are_refused
        ensures data { chip_of result self.now.chip.transmitter.wire ≡ self.now.chip }
        ensures saved { IsSaved result self.now.chip.transmitter.wire }
    {
        self.chip.data()
    }

    /// Returns the port with these data, and with this output. Its guest goes on as with the port
    /// that was saved.
    ///
    /// What has to be done is said beside it. If the line is up, that is a signal: the last one may
    /// have been lost on the way. If there is room for input, that is told too.
    ///
    /// # Errors
    ///
    /// `BadData` if no port has these data: the chip is not sound, a character does not take one
    /// tick, the output has not room for 64 bytes, or something is left to happen.
    ///
    /// # Examples
    ///
    /// ```
    /// let saved = port.data();
    /// let restored = VirtualPort::from_data(&saved, port.output())?;
    /// obey_signals(host, restored.todo);
    /// ```
    pub fn from_data(saved: &ChipData, output: &[u8]) -> Result<Restored, RestoreError>
        ensures port { IfOk result (λ r. r.port ≡ begun (chip_of saved.now output.now)) }
        ensures todo { IfOk result (λ r.
            r.todo ≡ todo_of renewed true (chip_of saved.now output.now) untold) }
        ensures accepted { IsSaved saved.now output.now → IsOk result }
        ensures refused { (IsSaved saved.now output.now → ⊥) →
            result ≡ Err RestoreError.BadData }
    {
        if !is_settled(saved, output) {
            return Err(RestoreError::BadData);
        }
        let chip = LiveChip::from_data(saved, output)?;
        let mut told = UNTOLD;
        let todo = decide(&chip, true, &mut told, RENEWED);
        let port = VirtualPortWith { chip, told };
        Ok(Restored { port, todo })
    }
}
