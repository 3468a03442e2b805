//! The functions of the chip that C calls. The header says what each does.
ghost use Rattle.std.specs.Prelude.{◌≡◌, ◌≢◌, ◌++◌, ◌-◌, ◌%◌, ◌<◌, ◌&&◌, take, drop};
ghost use Rattle.std.specs.Prelude.{min, length, is_some, bit_and, not, nat_lt};
ghost use Rattle.uart_c.specs.Canonical.{IsCanonical};
ghost use Rattle.uart_c.specs.Queue as queue_spec;
ghost use Rattle.uart_c.specs.Saved.{IsLiveChip};
ghost use Rattle.uart_c.specs.State.{chip_of, model_of};
ghost use Rattle.uart_c.specs.Status.{new_status, sized_status};
ghost use Rattle.uart_c.specs.declared.codes.TheConstants.{UART_OK, UART_BAD_CHIP};
ghost use Rattle.uart_c.specs.declared.codes.TheConstants.{UART_BAD_ERRORS, UART_BAD_LINES};
ghost use Rattle.uart_chip.specs.Chip as spec;
ghost use Rattle.uart_spec.specs.Bits.{IsWithin, flag};
ghost use Rattle.uart_chip.specs.Transmitter.{held};
ghost use Rattle.uart_spec.specs.declared.baud.TheConstants.{FIFO_SIZE, NUM_REGISTERS};
ghost use Rattle.uart_spec.specs.declared.registers.line_status.TheConstants.LSR;
ghost use Rattle.uart_spec.specs.declared.registers.modem_status.TheConstants.MSR;

use crate::chip::UartChip;
use crate::codes::{
    UART_BAD_CHIP, UART_BAD_ERRORS, UART_BAD_FIFO, UART_BAD_LINES, UART_BAD_TICKS, UART_BAD_WIRE,
    UART_OK,
};
use crate::queue::{WIRE_ROOM, is_fifo_size};
use crate::sound::is_sound;
use bitflags::Flags;
use uart_chip::MAX_CHAR_TICKS;
use uart_chip::controlling::{
    ChipParts, advance, arrive_live, change_lines, divisor, is_dlab_set, is_interrupting, read,
    receive_room, write,
};
use uart_chip::receiving::ReceiverParts;
use uart_chip::transmitting::{TransmitterParts, held_len};
use uart_spec::registers::{LSR, MSR, offsets};
use uart_spec::{FIFO_SIZE, NUM_REGISTERS};

/// Makes a chip after power on.
#[unsafe(no_mangle)]
pub extern "C" fn uart_chip_new(
    chip: &mut UartChip,
    model: u8,
    char_ticks: u16,
    wire_capacity: u8,
    cuts: u8,
) -> u32
    // proved: A chip after power on is made, of this model, which cuts characters if that is asked
    //   for, with FIFOs of 16 or of the size that is asked for, or the first refusal is returned
    //   and nothing changed
    // on: `uart_chip_new`, `uart_chip_new_sized`
    // proved: A chip's flags are 0 or 1, its trigger is 1, 4, 8 or 14, the sizes of its FIFOs are
    //   16, 32, 64 or 128, and each length is within its FIFO or its array (`IsCanonical`), once it
    //   was made, loaded or saved; each call keeps this. So it is with the chip of a port, and the
    //   flags of what its monitor was told are 0 or 1
    // on: `uart_chip_new`, `uart_chip_new_sized`, `uart_chip_load`, `uart_chip_save`, and those of
    //   the first row; each function of a port that changes it
    ensures status { result ≡ new_status char_ticks wire_capacity }
    ensures built { result ≡ UART_OK → chip_of chip.new ≡
        record (spec.fresh (model_of model) char_ticks wire_capacity 0)
        { cuts = queue_spec.is_on cuts } }
    ensures canonical { result ≡ UART_OK → IsCanonical chip.new }
    ensures kept { result ≢ UART_OK → chip.new ≡ chip.old }
{
    uart_chip_new_sized(
        chip,
        model,
        FIFO_SIZE as u8,
        char_ticks,
        wire_capacity,
        cuts,
    )
}

/// Makes a chip after power on, with FIFOs of so many characters.
#[unsafe(no_mangle)]
pub extern "C" fn uart_chip_new_sized(
    chip: &mut UartChip,
    model: u8,
    fifo_size: u8,
    char_ticks: u16,
    wire_capacity: u8,
    cuts: u8,
) -> u32
    // promise: a chip in C, and a port, has FIFOs of 16, 32, 64 or 128, whatever bytes the struct
    //   holds, and no other is made
    // with: uart_chip_new_sized, uart_port_new_sized, IsCanonical
    // shown by: tools/c/compare
    // refused: new_sized_takes_any_size, port_new_sized_is_of_16, load_takes_two_sizes
    ensures status { result ≡ sized_status fifo_size char_ticks wire_capacity }
    ensures built { result ≡ UART_OK → chip_of chip.new ≡
        record (spec.with_size (queue_spec.fifo_size_of fifo_size)
        (spec.fresh (model_of model) char_ticks wire_capacity 0))
        { cuts = queue_spec.is_on cuts } }
    ensures canonical { result ≡ UART_OK → IsCanonical chip.new }
    ensures kept { result ≢ UART_OK → chip.new ≡ chip.old }
{
    if !is_fifo_size(fifo_size) {
        return UART_BAD_FIFO;
    }
    if char_ticks == 0 || char_ticks > MAX_CHAR_TICKS {
        return UART_BAD_TICKS;
    }
    if wire_capacity as usize > WIRE_ROOM {
        return UART_BAD_WIRE;
    }
    chip.power_on(model, fifo_size, char_ticks, wire_capacity, cuts);
    UART_OK
}

/// Makes a chip like one that was saved, unless the data are those of no sound chip.
#[unsafe(no_mangle)]
pub extern "C" fn uart_chip_load(chip: &mut UartChip, saved: &UartChip) -> u32
    // proved: A saved chip is restored exactly if it is sound as a live chip with FIFOs of its size
    //   is (`IsLiveChip`), and else nothing changes
    // on: `uart_chip_load`, `uart_chip_save`
    ensures accepted { IsLiveChip (chip_of saved.now) →
        (result ≡ UART_OK) × (chip_of chip.new ≡ chip_of saved.now) }
    // if: the saved chip is not sound as a live chip is, or has something of a schedule
    ensures refused { (IsLiveChip (chip_of saved.now) → ⊥) →
        (result ≡ UART_BAD_CHIP) × (chip.new ≡ chip.old) }
    ensures canonical { result ≡ UART_OK → IsCanonical chip.new }
{
    if !is_sound(saved) {
        return UART_BAD_CHIP;
    }
    chip.restore(saved);
    UART_OK
}

/// Saves a chip.
#[unsafe(no_mangle)]
pub extern "C" fn uart_chip_save(chip: &UartChip, saved: &mut UartChip)
    ensures saved { chip_of saved.new ≡ chip_of chip.now }
    ensures canonical { IsCanonical saved.new }
{
    saved.restore(chip);
}

/// The guest reads a register.
#[unsafe(no_mangle)]
pub extern "C" fn uart_chip_read(chip: &mut UartChip, offset: u8) -> u8
    // promise: each function of the port in C is one function of the chip, whatever bytes a
    //   struct holds
    // with: uart_chip_read, uart_chip_write, uart_chip_load, sound_chips_stay_sound
    // shown by: tools/c/compare
    // refused: read_of_another_register, load_takes_any_bytes
    // proved: The caller's struct is some chip, whatever bytes it holds. Each exported function
    //   does to this chip what one function of the chip's definitions says
    // on: `uart_chip_read`, `uart_chip_write`, `uart_chip_ticks`, `uart_chip_arrive`,
    //   `uart_chip_set_lines`, `uart_chip_take_wire`
    ensures answers { result ≡ spec.answer (offset % NUM_REGISTERS) (chip_of chip.old) }
    ensures after { chip_of chip.new ≡ spec.after_read (offset % NUM_REGISTERS) (chip_of chip.old) }
    ensures canonical { IsCanonical chip.old → IsCanonical chip.new }
{
    read(chip, offset % NUM_REGISTERS as u8)
}

// Returns whether a byte that is written to DATA goes into the queue of a FIFO as it is, as most
// do: DATA is not the divisor latch, characters are not cut, and there is room.
#[tactic(auto, using(crate::proofs::Queues::at_least_16))]
fn queues_whole(chip: &UartChip) -> bool
    ensures { result ≡ (not (spec.is_dlab_set (chip_of chip.now).latches)
        && (not (chip_of chip.now).cuts && ((chip_of chip.now).fifo
        && nat_lt (length (chip_of chip.now).transmitter.queue) FIFO_SIZE))) }
{
    // Each FIFO has room for 16. More in a larger one go the longer way: so its size is not read.
    let has_room = (chip.transmitter.queue.len as usize) < FIFO_SIZE;
    !is_dlab_set(chip) && (!chip.cuts() && (chip.fifo() && has_room))
}

// Writes DATA, whatever that is and does, out of line: most bytes need none of it.
#[inline(never)]
fn write_data_slowly(chip: &mut UartChip, value: u8)
    ensures after { chip_of chip.new ≡ spec.write_data value (chip_of chip.old) }
    ensures canonical { IsCanonical chip.old → IsCanonical chip.new }
{
    write(chip, offsets::DATA as u8, value);
}

/// The guest writes a register.
#[unsafe(no_mangle)]
pub extern "C" fn uart_chip_write(chip: &mut UartChip, offset: u8, value: u8)
    ensures after { chip_of chip.new ≡
        spec.after_write (offset % NUM_REGISTERS) value (chip_of chip.old) }
    ensures canonical { IsCanonical chip.old → IsCanonical chip.new }
{
    let offset = offset % NUM_REGISTERS as u8;
    if offset != offsets::DATA as u8 {
        write(chip, offset, value);
    } else if queues_whole(chip) {
        chip.transmitter.put(value);
        chip.transmitter.set_thr_pending(false);
    } else {
        write_data_slowly(chip, value);
    }
}

/// So many ticks pass.
#[unsafe(no_mangle)]
pub extern "C" fn uart_chip_ticks(chip: &mut UartChip, count: u16)
    ensures after { chip_of chip.new ≡ spec.ticks count (chip_of chip.old) }
    ensures canonical { IsCanonical chip.old → IsCanonical chip.new }
{
    advance(chip, count);
}

/// A character comes in.
#[unsafe(no_mangle)]
pub extern "C" fn uart_chip_arrive(chip: &mut UartChip, byte: u8, errors: u8) -> u32
    ensures accepted { IsWithin errors LSR.CHARACTER_ERRORS.0 →
        (result ≡ UART_OK) × (chip_of chip.new ≡ spec.arrive_live byte errors (chip_of chip.old)) }
    ensures refused { bit_and errors LSR.CHARACTER_ERRORS.0 ≢ errors →
        (result ≡ UART_BAD_ERRORS) × (chip.new ≡ chip.old) }
    ensures canonical { IsCanonical chip.old → IsCanonical chip.new }
{
    if LSR::from_bits_retain(errors).intersection(LSR::CHARACTER_ERRORS)
        != LSR::from_bits_retain(errors)
    {
        return UART_BAD_ERRORS;
    }
    arrive_live(chip, byte, errors);
    UART_OK
}

/// The modem's inputs become these.
#[unsafe(no_mangle)]
pub extern "C" fn uart_chip_set_lines(chip: &mut UartChip, inputs: u8) -> u32
    ensures accepted { IsWithin inputs MSR.LINES.0 →
        (result ≡ UART_OK) × (chip_of chip.new ≡ spec.change_lines inputs (chip_of chip.old)) }
    ensures refused { bit_and inputs MSR.LINES.0 ≢ inputs →
        (result ≡ UART_BAD_LINES) × (chip.new ≡ chip.old) }
    ensures canonical { IsCanonical chip.old → IsCanonical chip.new }
{
    if MSR::from_bits_retain(inputs).intersection(MSR::LINES) != MSR::from_bits_retain(inputs) {
        return UART_BAD_LINES;
    }
    change_lines(chip, inputs);
    UART_OK
}

/// 1 if the chip asks for an interrupt, else 0.
#[unsafe(no_mangle)]
pub extern "C" fn uart_chip_is_interrupting(chip: &UartChip) -> u8
    // proved: What is shown is the chip's: the interrupt line, lengths and room, the divisor latch
    // on: `uart_chip_is_interrupting`, `uart_chip_wire_len`, `uart_chip_wire_room`,
    //   `uart_chip_receive_room`, `uart_chip_waiting_len`, `uart_chip_held_len`,
    //   `uart_chip_divisor`
    ensures { result ≡ flag (is_some (spec.interrupt (chip_of chip.now))) 1 }
{
    is_interrupting(chip) as u8
}

/// Takes bytes that have gone out. Returns how many.
#[unsafe(no_mangle)]
pub extern "C" fn uart_chip_take_wire(chip: &mut UartChip, bytes: &mut [u8]) -> usize
    ensures count { result ≡ min (length bytes.old) (length (chip_of chip.old).transmitter.wire) }
    ensures taken { bytes.new ≡
        take result (chip_of chip.old).transmitter.wire ++ drop result bytes.old }
    ensures after { chip_of chip.new ≡ spec.take_wire (length bytes.old) (chip_of chip.old) }
    ensures canonical { IsCanonical chip.old → IsCanonical chip.new }
{
    chip.transmitter.take_wire(bytes)
}

/// How many bytes have gone out and were not taken yet.
#[unsafe(no_mangle)]
pub extern "C" fn uart_chip_wire_len(chip: &UartChip) -> usize
    ensures { result ≡ length (chip_of chip.now).transmitter.wire }
{
    chip.transmitter.wire.len()
}

/// How many more bytes the wire has room for.
#[unsafe(no_mangle)]
pub extern "C" fn uart_chip_wire_room(chip: &UartChip) -> usize
    ensures { result ≡
        (chip_of chip.now).transmitter.capacity - length (chip_of chip.now).transmitter.wire }
{
    let wire = &chip.transmitter.wire;
    wire.capacity().saturating_sub(wire.len())
}

/// How many characters can come in before one is lost.
#[unsafe(no_mangle)]
pub extern "C" fn uart_chip_receive_room(chip: &UartChip) -> usize
    ensures { result ≡ spec.receive_room (chip_of chip.now) }
{
    receive_room(chip)
}

/// How many characters wait for the guest to read them.
#[unsafe(no_mangle)]
pub extern "C" fn uart_chip_waiting_len(chip: &UartChip) -> usize
    ensures { result ≡ length (chip_of chip.now).receiver.queue }
{
    chip.receiver.queue_len()
}

/// How many bytes are still to go out.
#[unsafe(no_mangle)]
pub extern "C" fn uart_chip_held_len(chip: &UartChip) -> usize
    ensures { result ≡ length (held (chip_of chip.now).transmitter) }
{
    held_len(&chip.transmitter)
}

/// The divisor latch.
#[unsafe(no_mangle)]
pub extern "C" fn uart_chip_divisor(chip: &UartChip) -> u16
    ensures { result ≡ spec.divisor (chip_of chip.now).latches }
{
    divisor(chip)
}
