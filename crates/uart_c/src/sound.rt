//! Whether the data of C are those of a sound chip. What the parts have in common with those of a
//! live chip is tested there.
//!
//! The data are not turned into those of a live chip as a whole: a copy of so many bytes would call
//! `memcpy`.
ghost use Rattle.std.specs.Prelude.{◌≡◌, ◌==◌, ◌*◌, true, false};
ghost use Rattle.std.specs.List.{list_all};
ghost use Rattle.uart_c.specs.Queue.{character_of, characters_of, fifo_size_of, wire_of};
ghost use Rattle.uart_c.specs.Saved as saved;
ghost use Rattle.uart_c.specs.Saved.{IsLiveChip};
ghost use Rattle.uart_c.specs.State as state;
ghost use Rattle.uart_c.specs.State.{chip_of, latches_of};
ghost use Rattle.uart_chip.specs.Sound.{HoldBytes};
ghost use Rattle.uart_live.specs.Saved as spec;
ghost use Rattle.uart_live.specs.declared.sound.TheConstants.{TIMEOUT_CHARACTERS};
ghost use Rattle.uart_spec.specs.FifoSize.{characters};

use crate::chip::UartChip;
use crate::queue::{UartCharacter, places_of};
use crate::receiver::UartReceiver;
use crate::transmitter::UartTransmitter;
use uart_chip::controlling::ChipParts;
use uart_chip::receiving::ReceiverParts;
use uart_chip::transmitting::TransmitterParts;
use uart_chip::{MAX_WIRE_CAPACITY, room_of};
use uart_live::sound::{
    TIMEOUT_CHARACTERS, is_char_time, is_implemented, is_live_character, is_sound_latches,
    is_sound_modem, is_ticking,
};
use uart_spec::FifoSize;

// Each of these characters may wait in a live chip.
fn are_live(characters: &[UartCharacter]) -> bool
    ensures { result ≡
        list_all (λ character. spec.is_live_character (character_of character)) characters.now }
{
    characters
        .iter()
        .all(|character| is_live_character(&character.shown()))
}

// Each character of the queue is sound.
fn is_sound_queue(receiver: &UartReceiver) -> bool
    ensures { result ≡ list_all spec.is_live_character
        (characters_of (fifo_size_of receiver.now.fifo_size) receiver.now.queue) }
{
    let len = receiver.queue_len();
    are_live(&receiver.queue.items[..len])
}

// The queue fits, its characters may be there, and the idle ticks end when a reception timeout is
// due.
fn is_sound_receiver(receiver: &UartReceiver, size: FifoSize, fifo: bool, char_ticks: u16) -> bool
    ensures { result ≡
        spec.is_sound_receiver size fifo char_ticks (state.receiver_data receiver.now) }
{
    receiver.queue_len() <= room_of(fifo, size)
        && is_sound_queue(receiver)
        && receiver.timeout_ticks as u32 <= TIMEOUT_CHARACTERS as u32 * char_ticks as u32
}

// The ticks of a character are in their range, and the queue and the wire fit.
fn is_sound_transmitter(transmitter: &UartTransmitter, size: FifoSize, fifo: bool) -> bool
    ensures { result ≡ spec.is_sound_transmitter size fifo
        (state.transmitter_data transmitter.now) (wire_of transmitter.now.wire) }
{
    is_char_time(transmitter.char_ticks)
        && is_ticking(transmitter.char_ticks, transmitter.shifting())
        && transmitter.queue_len() <= room_of(fifo, size)
        && transmitter.wire.len() <= transmitter.wire.capacity()
        && transmitter.wire.capacity() <= MAX_WIRE_CAPACITY
}

// The idle ticks are counted up to four character times.
fn has_limit(chip: &UartChip) -> bool
    ensures { result ≡
        (chip.now.receiver.timeout_limit == TIMEOUT_CHARACTERS * chip.now.transmitter.char_ticks) }
{
    chip.receiver.timeout_limit as u32
        == TIMEOUT_CHARACTERS as u32 * chip.transmitter.char_ticks as u32
}

// Both FIFOs have one size.
fn has_one_size(chip: &UartChip) -> bool
    ensures { result ≡ (characters (fifo_size_of chip.now.receiver.fifo_size)
        == characters (fifo_size_of chip.now.transmitter.fifo_size)) }
{
    places_of(chip.receiver.fifo_size) == places_of(chip.transmitter.fifo_size)
}

// Every part is sound.
fn are_sound(chip: &UartChip) -> bool
    ensures value { result ≡ saved.is_sound chip.now }
    ensures bytes { HoldBytes (latches_of chip.now.latches) }
{
    let fifo = chip.fifo();
    let size = chip.transmitter.size();
    is_sound_latches(chip.latches())
        && is_implemented(chip.model(), fifo)
        && is_sound_modem(chip.modem.data())
        && is_sound_receiver(&chip.receiver, size, fifo, chip.transmitter.char_ticks)
        && is_sound_transmitter(&chip.transmitter, size, fifo)
        && has_limit(chip)
        && has_one_size(chip)
}

/// The data are those of a sound chip. No function of this library makes another of one.
pub fn is_sound(chip: &UartChip) -> bool
    ensures sound { result ≡ true → IsLiveChip (chip_of chip.now) }
    ensures unsound { result ≡ false → IsLiveChip (chip_of chip.now) → ⊥ }
{
    are_sound(chip)
}
