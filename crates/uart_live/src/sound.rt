//! Whether data are those of a live chip with FIFOs of some size: one test for each part of what
//! holds of it.
//!
//! Data are typed (a trigger level, an optional character in the shift register, registers), so
//! that less of them can be wrong. The wire comes beside the data: its owner has it already.
//!
//! The tests of small parts are public: the port in C uses them for its own structs.
ghost use Rattle.std.specs.Prelude.{◌≡◌, true, false};
ghost use Rattle.std.specs.List.{list_all};
ghost use Rattle.uart_chip.specs.Chip.{with_size};
ghost use Rattle.uart_chip.specs.Snapshot.{latches_of, chip_of};
ghost use Rattle.uart_chip.specs.Sound.{HoldBytes};
ghost use Rattle.uart_live.specs.Live.{IsLive};
ghost use Rattle.uart_live.specs.Saved as spec;

use bitflags::Flags;
use uart_chip::{
    Character, Chip, ChipData, Latches, MAX_CHAR_TICKS, MAX_WIRE_CAPACITY, ModemData, Origin,
    ReceiverData, Shifting, TransmitterData, kept_interrupts, kept_modem_control, room_of,
};
use uart_spec::FifoSize;
use uart_spec::registers::{LSR, MSR};

/// The number of character times after which a reception timeout is due, if no character comes or
/// is read.
pub const TIMEOUT_CHARACTERS: u16 = 4;

/// Returns whether a character may wait in a live chip: it is no arrival of a schedule, and has
/// only errors of a character.
pub fn is_live_character(character: &Character) -> bool
    ensures { result ≡ spec.is_live_character character.now }
{
    let errors = LSR::from_bits_retain(character.errors);
    let is_unscheduled = match character.origin {
        Origin::Looped | Origin::Live => true,
        Origin::Arrived(_) => false,
    };
    is_unscheduled && errors.intersection(LSR::CHARACTER_ERRORS) == errors
}

fn are_live(characters: &[Character]) -> bool
    ensures { result ≡ list_all spec.is_live_character characters.now }
{
    characters
        .iter()
        .all(|character| is_live_character(character))
}

fn is_sound_receiver(saved: &ReceiverData, size: FifoSize, fifo: bool, char_ticks: u16) -> bool
    ensures { result ≡ spec.is_sound_receiver size fifo char_ticks saved.now }
{
    saved.queue.as_slice().len() <= room_of(fifo, size)
        && are_live(saved.queue.as_slice())
        && saved.timeout_ticks as u32 <= TIMEOUT_CHARACTERS as u32 * char_ticks as u32
}

/// Returns whether a character in the shift register has at least one tick left, and at most its
/// whole time.
pub fn is_ticking(char_ticks: u16, shift_register: Option<Shifting>) -> bool
    ensures { result ≡ spec.is_ticking char_ticks shift_register }
{
    match shift_register {
        None => true,
        Some(shifting) => 1 <= shifting.ticks_left && shifting.ticks_left <= char_ticks,
    }
}

/// Returns whether a character may take so many ticks.
pub fn is_char_time(char_ticks: u16) -> bool
    ensures { result ≡ spec.is_char_time char_ticks }
{
    1 <= char_ticks && char_ticks <= MAX_CHAR_TICKS
}

fn is_sound_transmitter(saved: &TransmitterData, size: FifoSize, fifo: bool, wire: &[u8]) -> bool
    ensures { result ≡ spec.is_sound_transmitter size fifo saved.now wire.now }
{
    is_char_time(saved.char_ticks)
        && is_ticking(saved.char_ticks, saved.shift_register)
        && saved.queue.as_slice().len() <= room_of(fifo, size)
        && wire.len() <= saved.wire_capacity
        && saved.wire_capacity <= MAX_WIRE_CAPACITY
}

/// Returns whether inputs and lines have bits of lines alone, and changes bits of changes.
pub fn is_sound_modem(saved: ModemData) -> bool
    ensures { result ≡ spec.is_sound_modem saved }
{
    saved.inputs.intersection(MSR::LINES) == saved.inputs
        && saved.lines.intersection(MSR::LINES) == saved.lines
        && saved.deltas.intersection(MSR::CHANGES) == saved.deltas
}

/// Returns whether the two latches that keep only some bits have no others.
pub fn is_sound_latches(latches: Latches) -> bool
    ensures value { result ≡ spec.is_sound_latches latches }
    ensures bytes { HoldBytes (latches_of latches) }
{
    kept_interrupts(latches.ier) == latches.ier && kept_modem_control(latches.mcr) == latches.mcr
}

/// Returns whether a chip of this model can have its FIFO as it is: only one that has a FIFO has it
/// on.
pub fn is_implemented(model: Chip, fifo: bool) -> bool
    ensures { result ≡ spec.is_implemented model fifo }
{
    match model {
        Chip::Uart16550A => true,
        Chip::Uart16450 => !fifo,
    }
}

// Every part is sound.
fn are_sound(size: FifoSize, saved: &ChipData, wire: &[u8]) -> bool
    ensures value { result ≡ spec.is_live size saved.now wire.now }
    ensures bytes { HoldBytes (latches_of saved.now.latches) }
{
    is_sound_latches(saved.latches)
        && is_implemented(saved.model, saved.fifo)
        && is_sound_modem(saved.modem)
        && is_sound_receiver(
            &saved.receiver,
            size,
            saved.fifo,
            saved.transmitter.char_ticks,
        )
        && is_sound_transmitter(&saved.transmitter, size, saved.fifo, wire)
}

/// Returns whether the data, and these bytes on the wire, are those of a live chip with FIFOs of
/// this size.
pub fn is_live(size: FifoSize, saved: &ChipData, wire: &[u8]) -> bool
    ensures sound { result ≡ true → IsLive size (with_size size (chip_of saved.now wire.now)) }
    ensures unsound { result ≡ false →
        IsLive size (with_size size (chip_of saved.now wire.now)) → ⊥ }
{
    are_sound(size, saved, wire)
}
