//! The port for a monitor: a chip, and what its monitor was told last. The header says what each
//! function does.
//!
//! What a call leaves, and what its monitor has to do then, is that of a port of `uart_virtual`,
//! whatever bytes the struct holds.
ghost use Rattle.std.specs.Prelude.{◌≡◌, ◌≢◌, ◌<◌, ◌%◌, bit_and, true, false, if◌then◌else◌};
ghost use Rattle.uart_c.specs.Canonical.{IsCanonical};
ghost use Rattle.uart_c.specs.Port as port_spec;
ghost use Rattle.uart_c.specs.Port.{IsCanonicalPort, port_of, told_of};
ghost use Rattle.uart_c.specs.Queue.{fifo_size_of};
ghost use Rattle.uart_c.specs.Saved.{IsLiveChip};
ghost use Rattle.uart_c.specs.State.{chip_of, model_of};
ghost use Rattle.uart_c.specs.Status.{is_fifo_size};
ghost use Rattle.uart_c.specs.declared.codes.TheConstants.{UART_OK, UART_BAD_FIFO, UART_BAD_PORT};
ghost use Rattle.uart_c.specs.declared.codes.TheConstants.{UART_BAD_ERRORS, UART_BAD_LINES};
ghost use Rattle.uart_chip.specs.Chip as chip_spec;
ghost use Rattle.uart_chip.specs.Sending.{sends_at_once};
ghost use Rattle.uart_spec.specs.Bits.{IsWithin, flag};
ghost use Rattle.uart_spec.specs.declared.baud.TheConstants.{NUM_REGISTERS};
ghost use Rattle.uart_spec.specs.declared.registers.line_status.TheConstants.LSR;
ghost use Rattle.uart_spec.specs.declared.registers.modem_status.TheConstants.MSR;
ghost use Rattle.uart_spec.specs.declared.registers.offsets.TheConstants as offsets;
ghost use Rattle.uart_spec.specs.declared.setup.FifoSize.TheVariants.{Sixteen};
ghost use Rattle.uart_virtual.specs.Port as spec;
ghost use Rattle.uart_virtual.specs.Port.{Read, Write, Receive, ReceiveOne, SetLines, TakeOutput};
ghost use Rattle.uart_virtual.specs.Port.{IsStill};

use crate::chip::UartChip;
use crate::codes::{UART_BAD_ERRORS, UART_BAD_FIFO, UART_BAD_LINES, UART_BAD_PORT, UART_OK};
use crate::queue::{WIRE_ROOM, is_fifo_size, is_on, places_of};
use crate::sound::is_sound;
use bitflags::Flags;
use uart_chip::controlling::{
    ChipParts, advance, arrive_live, change_lines, is_interrupting, is_loopback, read,
    receive_room, write,
};
use uart_chip::receiving::{ReceiverParts, count_up};
use uart_chip::sending::{send_at_once, sends_at_once};
use uart_chip::transmitting::{TransmitterParts, held_len, next_move};
use uart_live::interrupts_when_due;
use uart_spec::registers::{LSR, MSR, offsets};
use uart_spec::{FIFO_SIZE, NUM_REGISTERS};
use uart_virtual::{Kind, Seen, Todo, Told, kind_of_read, kind_of_write, settle_ticks, tell};

// The ticks that a character of a port takes.
const CHAR_TICKS: u16 = 1;

/// What a monitor was told, as far as the next call depends on it.
#[repr(C)]
#[derive(Clone, Copy)]
pub struct UartTold {
    pub line: u8,
    pub has_room: u8,
    pub has_looked: u8,
    pub spare: u8,
}

/// What a monitor has to do after a call.
#[repr(C)]
#[derive(Clone, Copy)]
pub struct UartTodo {
    pub ready: usize,
    pub signal: u8,
    pub level: u8,
    pub has_moved: u8,
    pub has_room: u8,
}

/// A serial port of a virtual machine.
#[repr(C)]
#[derive(Clone, Copy)]
pub struct UartPort {
    pub chip: UartChip,
    pub told: UartTold,
}

// Nothing was told yet.
const UNTOLD: UartTold = UartTold {
    line: 0,
    has_room: 0,
    has_looked: 0,
    spare: 0,
};

// A call of the host that brings something, and a port that is new, or restored.
const INPUT: Kind = Kind {
    brings: true,
    looks: false,
    moves_data: false,
    may_make_room: false,
};

const RENEWED: Kind = Kind {
    brings: false,
    looks: false,
    moves_data: false,
    may_make_room: true,
};

impl UartTold {
    // Returns what the monitor was told as a port of `uart_virtual` has it.
    fn known(self) -> Told
        ensures { result ≡ told_of self }
    {
        Told {
            line: is_on(self.line),
            has_room: is_on(self.has_room),
            has_looked: is_on(self.has_looked),
            spare: self.spare,
        }
    }

    // Returns what the monitor was told as C has it.
    fn of(told: Told) -> Self
        ensures { result ≡ port_spec.kept told }
    {
        UartTold {
            line: told.line as u8,
            has_room: told.has_room as u8,
            has_looked: told.has_looked as u8,
            spare: told.spare,
        }
    }
}

// Returns what the monitor has to do as C has it.
pub fn shown(todo: Todo) -> UartTodo
    ensures { result ≡ port_spec.shown todo }
{
    UartTodo {
        ready: todo.ready,
        signal: todo.signal as u8,
        level: todo.level as u8,
        has_moved: todo.has_moved as u8,
        has_room: todo.has_room as u8,
    }
}

// Returns what the monitor has to do as a port of `uart_virtual` asks for it.
pub fn asked(todo: UartTodo) -> Todo
    ensures { result ≡ port_spec.asked todo }
{
    Todo {
        signal: is_on(todo.signal),
        level: is_on(todo.level),
        has_moved: is_on(todo.has_moved),
        has_room: is_on(todo.has_room),
        ready: todo.ready,
    }
}

// Returns how many more characters than one a FIFO holds: none, if the guest has the FIFOs off.
fn rest_of(chip: &UartChip) -> u8
    ensures { result ≡ spec.rest_of (chip_of chip.now) }
{
    if chip.fifo() {
        places_of(chip.transmitter.fifo_size) - 1
    } else {
        0
    }
}

// Returns whether a character can be received.
fn has_room(chip: &UartChip) -> bool
    ensures { result ≡ spec.has_room (chip_of chip.now) }
{
    if is_loopback(chip) {
        false
    } else if chip.fifo() {
        chip.receiver.has_place()
    } else {
        chip.receiver.queue_len() == 0
    }
}

// Returns what is seen of the chip when a call ends.
fn seen(chip: &UartChip) -> Seen
    ensures { result ≡ spec.seen_of (chip_of chip.now) }
{
    Seen {
        level: is_interrupting(chip),
        has_room: has_room(chip),
        is_empty: chip.receiver.queue_len() == 0,
        rest: rest_of(chip),
        ready: chip.transmitter.wire.len(),
    }
}

// Says what is to be told after a call, and notes that it was told.
fn decide(port: &mut UartPort, was_up: bool, kind: Kind, todo: &mut UartTodo)
    ensures chip { port.new.chip ≡ port.old.chip }
    ensures told { told_of port.new.told ≡
        spec.tell kind was_up (chip_of port.old.chip) (told_of port.old.told) }
    ensures todo { todo.new ≡ port_spec.shown
        (spec.todo_of kind was_up (chip_of port.old.chip) (told_of port.old.told)) }
    ensures canonical { IsCanonical port.old.chip → IsCanonicalPort port.new }
{
    let mut told = port.told.known();
    *todo = shown(tell(seen(&port.chip), was_up, &mut told, kind));
    port.told = UartTold::of(told);
}

// Nothing to do, but to take the output.
fn nothing_but(ready: usize) -> UartTodo
    ensures { result ≡ port_spec.nothing_but ready }
{
    UartTodo {
        ready,
        signal: 0,
        level: 0,
        has_moved: 0,
        has_room: 0,
    }
}

// Returns whether a call of this kind leaves nothing to be told, as most do that find no interrupt.
fn leaves_nothing(port: &UartPort, kind: Kind) -> bool
    ensures { result ≡
        port_spec.leaves_nothing kind (chip_of port.now.chip) (told_of port.now.told) }
{
    // What is known is asked first: if the line was up, the chip is asked for it once.
    !kind.looks
        && (!is_on(port.told.line)
            && (is_on(port.told.has_room)
                && (has_room(&port.chip) && !is_interrupting(&port.chip))))
}

// Does the same as `decide`, which is called only if something is new: it writes all that the
// monitor was told, which takes as long as the rest of a call.
fn report(port: &mut UartPort, was_up: bool, kind: Kind, todo: &mut UartTodo)
    ensures chip { port.new.chip ≡ port.old.chip }
    ensures told { told_of port.new.told ≡
        spec.tell kind was_up (chip_of port.old.chip) (told_of port.old.told) }
    ensures todo { todo.new ≡ port_spec.shown
        (spec.todo_of kind was_up (chip_of port.old.chip) (told_of port.old.told)) }
    ensures canonical { IsCanonicalPort port.old → IsCanonicalPort port.new }
{
    if leaves_nothing(port, kind) {
        *todo = nothing_but(port.chip.transmitter.wire.len());
    } else {
        decide(port, was_up, kind, todo);
    }
}

// Lets the time of a call pass. If the transmitter holds nothing, as in most calls, a reception
// timeout is all that time brings, and nothing if that is due.
fn settle(chip: &mut UartChip)
    ensures after { chip_of chip.new ≡ spec.settle (chip_of chip.old) }
    ensures canonical { IsCanonical chip.old → IsCanonical chip.new }
{
    if held_len(&chip.transmitter) != 0 {
        let ticks = settle_ticks(chip.transmitter.size());
        advance(chip, ticks);
    } else if chip.receiver.timeout_ticks != chip.receiver.timeout_limit {
        let ticks = settle_ticks(chip.transmitter.size());
        count_up(&mut chip.receiver, ticks);
    }
}

// Lets the time of a call pass, and says what is to be told.
fn finish(port: &mut UartPort, was_up: bool, kind: Kind, todo: &mut UartTodo)
    ensures chip { chip_of port.new.chip ≡ spec.settle (chip_of port.old.chip) }
    ensures told { told_of port.new.told ≡
        spec.tell kind was_up (spec.settle (chip_of port.old.chip)) (told_of port.old.told) }
    ensures todo { todo.new ≡ port_spec.shown
        (spec.todo_of kind was_up (spec.settle (chip_of port.old.chip)) (told_of port.old.told)) }
    ensures canonical { IsCanonicalPort port.old → IsCanonicalPort port.new }
{
    settle(&mut port.chip);
    report(port, was_up, kind, todo);
}

// Does the same as `finish`, if what happened is all that the line was to show. If the monitor was
// told that it was down, it does not matter whether it was up meanwhile.
fn conclude(port: &mut UartPort, kind: Kind, todo: &mut UartTodo)
    ensures chip { chip_of port.new.chip ≡ spec.settle (chip_of port.old.chip) }
    ensures told { let c = chip_of port.old.chip in
        told_of port.new.told ≡
        spec.tell kind (spec.is_up c) (spec.settle c) (told_of port.old.told) }
    ensures todo { let c = chip_of port.old.chip in
        todo.new ≡ port_spec.shown
        (spec.todo_of kind (spec.is_up c) (spec.settle c) (told_of port.old.told)) }
    ensures canonical { IsCanonicalPort port.old → IsCanonicalPort port.new }
{
    let was_up = is_on(port.told.line) && is_interrupting(&port.chip);
    finish(port, was_up, kind, todo);
}

// Makes a port after power on, with FIFOs of this size.
fn power_on(port: &mut UartPort, model: u8, fifo_size: u8)
    ensures built { port_of port.new ≡ spec.fresh (fifo_size_of fifo_size) (model_of model) }
    ensures canonical { IsCanonicalPort port.new }
{
    port.chip
        .power_on(model, fifo_size, CHAR_TICKS, WIRE_ROOM as u8, 0);
    port.told = UNTOLD;
    settle(&mut port.chip);
    let mut todo = nothing_but(0);
    decide(port, true, RENEWED, &mut todo);
}

/// Makes a port after power on.
#[unsafe(no_mangle)]
pub extern "C" fn uart_port_new(port: &mut UartPort, model: u8)
    // proved: A port after power on is made, with FIFOs of 16 or of the size that is asked for. A
    //   saved port is restored exactly if its chip is sound as a live chip is and nothing is left
    //   to happen to it, and else nothing changes; its monitor is told as if nothing had been told
    //   before
    // on: `uart_port_new`, `uart_port_new_sized`, `uart_port_save`, `uart_port_load`
    ensures built { port_of port.new ≡ spec.fresh Sixteen (model_of model) }
    ensures canonical { IsCanonicalPort port.new }
{
    power_on(port, model, FIFO_SIZE as u8);
}

/// Makes a port after power on, with FIFOs of so many characters.
#[unsafe(no_mangle)]
pub extern "C" fn uart_port_new_sized(port: &mut UartPort, model: u8, fifo_size: u8) -> u32
    ensures status { result ≡ (if is_fifo_size fifo_size then UART_OK else UART_BAD_FIFO) }
    ensures built { result ≡ UART_OK →
        port_of port.new ≡ spec.fresh (fifo_size_of fifo_size) (model_of model) }
    ensures canonical { result ≡ UART_OK → IsCanonicalPort port.new }
    ensures kept { result ≢ UART_OK → port.new ≡ port.old }
{
    if !is_fifo_size(fifo_size) {
        return UART_BAD_FIFO;
    }
    power_on(port, model, fifo_size);
    UART_OK
}

/// The guest reads a register.
#[unsafe(no_mangle)]
pub extern "C" fn uart_port_read(port: &mut UartPort, offset: u8, todo: &mut UartTodo) -> u8
    // promise: each function of a port in C is one call of a port, whatever bytes a struct holds,
    //   and a port that is made or restored stays one
    // with: uart_port_read.todo, uart_port_receive.after, uart_port_load.accepted,
    //   sound_ports_stay_sound.stay
    // shown by: tools/c/compare
    // refused: port_receive_takes_one_byte, port_load_takes_any_bytes,
    //   port_lets_half_of_the_time_pass
    // proved: The caller's struct is some port, whatever bytes it holds. Each function leaves
    //   exactly the port that a call of [`uart_virtual`](../uart_virtual/README.md) leaves, and
    //   returns and writes exactly what its monitor then has to do
    // on: `uart_port_read`, `uart_port_write`, `uart_port_receive`, `uart_port_receive_one`,
    //   `uart_port_set_lines`, `uart_port_take_output`
    ensures answers { result ≡ chip_spec.answer (offset % NUM_REGISTERS) (chip_of port.old.chip) }
    ensures after { port_of port.new ≡
        spec.after (Read (offset % NUM_REGISTERS)) (port_of port.old) }
    ensures todo { todo.new ≡
        port_spec.shown (spec.todo (Read (offset % NUM_REGISTERS)) (port_of port.old)) }
    ensures canonical { IsCanonicalPort port.old → IsCanonicalPort port.new }
{
    let offset = offset % NUM_REGISTERS as u8;
    let value = read(&mut port.chip, offset);
    conclude(port, kind_of_read(offset), todo);
    value
}

// Writes a register, and raises a THR-empty interrupt if this is a write of FCR that discards bytes
// which the transmitter held: its queue is empty then.
fn write_and_raise(chip: &mut UartChip, offset: u8, value: u8)
    requires { offset < NUM_REGISTERS }
    ensures after { chip_of chip.new ≡ spec.written offset value (chip_of chip.old) }
    ensures canonical { IsCanonical chip.old → IsCanonical chip.new }
{
    let held = held_len(&chip.transmitter);
    write(chip, offset, value);
    if offset as usize == offsets::FCR && held_len(&chip.transmitter) < held {
        chip.transmitter.set_thr_pending(true);
    }
}

// Writes a register, and lets the time of a call pass.
fn write_slowly(port: &mut UartPort, offset: u8, value: u8, todo: &mut UartTodo)
    requires { offset < NUM_REGISTERS }
    ensures after { port_of port.new ≡ spec.after (Write offset value) (port_of port.old) }
    ensures todo { todo.new ≡
        port_spec.shown (spec.todo (Write offset value) (port_of port.old)) }
    ensures canonical { IsCanonicalPort port.old → IsCanonicalPort port.new }
{
    write_and_raise(&mut port.chip, offset, value);
    // What comes back in loopback can take the line down for a moment, while time passes.
    let was_up = is_interrupting(&port.chip) && !is_loopback(&port.chip);
    finish(port, was_up, kind_of_write(offset), todo);
}

// Returns whether a write can be made by `send`: it is a byte that meets an idle transmitter.
fn is_fast(port: &UartPort, offset: u8) -> bool
    ensures { result ≡ true → (offset ≡ offsets.DATA) ×
        ((sends_at_once (chip_of port.now.chip) ≡ true) × IsStill (chip_of port.now.chip)) }
{
    offset as usize == offsets::DATA && (sends_at_once(&port.chip) && is_settled(&port.chip))
}

// Does the same as `write_slowly` for a byte that can be sent at once: queue, shift register and
// time are passed over.
fn send(port: &mut UartPort, value: u8, todo: &mut UartTodo)
    requires sends { sends_at_once (chip_of port.old.chip) ≡ true }
    requires still { IsStill (chip_of port.old.chip) }
    ensures after { port_of port.new ≡ spec.after (Write offsets.DATA value) (port_of port.old) }
    ensures todo { todo.new ≡
        port_spec.shown (spec.todo (Write offsets.DATA value) (port_of port.old)) }
    ensures canonical { IsCanonicalPort port.old → IsCanonicalPort port.new }
{
    let kind = kind_of_write(offsets::DATA as u8);
    let was_up = interrupts_when_due(&port.chip, false);
    send_at_once(&mut port.chip, value);
    report(port, was_up, kind, todo);
}

/// The guest writes a register.
#[unsafe(no_mangle)]
pub extern "C" fn uart_port_write(port: &mut UartPort, offset: u8, value: u8, todo: &mut UartTodo)
    ensures after { port_of port.new ≡
        spec.after (Write (offset % NUM_REGISTERS) value) (port_of port.old) }
    ensures todo { todo.new ≡
        port_spec.shown (spec.todo (Write (offset % NUM_REGISTERS) value) (port_of port.old)) }
    ensures canonical { IsCanonicalPort port.old → IsCanonicalPort port.new }
{
    let offset = offset % NUM_REGISTERS as u8;
    if is_fast(port, offset) {
        send(port, value, todo);
    } else {
        write_slowly(port, offset, value, todo);
    }
}

// These characters arrive, without errors.
fn arrive_all(chip: &mut UartChip, bytes: &[u8])
    ensures after { chip_of chip.new ≡ spec.arrive_all bytes.now (chip_of chip.old) }
    ensures canonical { IsCanonical chip.old → IsCanonical chip.new }
{
    for byte in bytes {
        arrive_live(chip, *byte, 0);
    }
}

/// Characters come in, as many as there is room for. Returns how many.
#[unsafe(no_mangle)]
pub extern "C" fn uart_port_receive(port: &mut UartPort, bytes: &[u8], todo: &mut UartTodo) -> usize
    ensures count { result ≡ spec.accepted bytes.now (chip_of port.old.chip) }
    ensures after { port_of port.new ≡ spec.after (Receive bytes.now) (port_of port.old) }
    ensures todo { todo.new ≡
        port_spec.shown (spec.todo (Receive bytes.now) (port_of port.old)) }
    ensures canonical { IsCanonicalPort port.old → IsCanonicalPort port.new }
{
    let room = receive_room(&port.chip);
    let count = bytes.len().min(room);
    let kind = Kind {
        brings: 0 < count,
        looks: false,
        moves_data: false,
        may_make_room: false,
    };
    arrive_all(&mut port.chip, &bytes[..count]);
    conclude(port, kind, todo);
    count
}

// Whether no other bits are set than those of the mask.
fn is_within(bits: u8, mask: u8) -> bool
    ensures within { result ≡ true → IsWithin bits mask }
    ensures beyond { result ≡ false → bit_and bits mask ≢ bits }
{
    bits & mask == bits
}

/// A character comes in, with errors.
#[unsafe(no_mangle)]
pub extern "C" fn uart_port_receive_one(
    port: &mut UartPort,
    byte: u8,
    errors: u8,
    todo: &mut UartTodo,
) -> u32
    ensures accepted { IsWithin errors LSR.CHARACTER_ERRORS.0 → (result ≡ UART_OK) ×
        (port_of port.new ≡ spec.after (ReceiveOne byte errors) (port_of port.old)) }
    ensures todo { IsWithin errors LSR.CHARACTER_ERRORS.0 →
        todo.new ≡ port_spec.shown (spec.todo (ReceiveOne byte errors) (port_of port.old)) }
    ensures refused { bit_and errors LSR.CHARACTER_ERRORS.0 ≢ errors →
        (result ≡ UART_BAD_ERRORS) × (port.new ≡ port.old) × (todo.new ≡ todo.old) }
    ensures canonical { IsCanonicalPort port.old → IsCanonicalPort port.new }
{
    if !is_within(errors, LSR::CHARACTER_ERRORS.bits()) {
        return UART_BAD_ERRORS;
    }
    arrive_live(&mut port.chip, byte, errors);
    conclude(port, INPUT, todo);
    UART_OK
}

/// The modem's inputs become these.
#[unsafe(no_mangle)]
pub extern "C" fn uart_port_set_lines(port: &mut UartPort, inputs: u8, todo: &mut UartTodo) -> u32
    ensures accepted { IsWithin inputs MSR.LINES.0 → (result ≡ UART_OK) ×
        (port_of port.new ≡ spec.after (SetLines inputs) (port_of port.old)) }
    ensures todo { IsWithin inputs MSR.LINES.0 →
        todo.new ≡ port_spec.shown (spec.todo (SetLines inputs) (port_of port.old)) }
    ensures refused { bit_and inputs MSR.LINES.0 ≢ inputs →
        (result ≡ UART_BAD_LINES) × (port.new ≡ port.old) × (todo.new ≡ todo.old) }
    ensures canonical { IsCanonicalPort port.old → IsCanonicalPort port.new }
{
    if !is_within(inputs, MSR::LINES.bits()) {
        return UART_BAD_LINES;
    }
    change_lines(&mut port.chip, inputs);
    conclude(port, INPUT, todo);
    UART_OK
}

/// The host took so many bytes of the output.
#[unsafe(no_mangle)]
pub extern "C" fn uart_port_take_output(port: &mut UartPort, count: usize, todo: &mut UartTodo)
    ensures after { port_of port.new ≡ spec.after (TakeOutput count) (port_of port.old) }
    ensures todo { todo.new ≡
        port_spec.shown (spec.todo (TakeOutput count) (port_of port.old)) }
    ensures canonical { IsCanonicalPort port.old → IsCanonicalPort port.new }
{
    // Room is something that the host brings only if it lets a byte go on that was held.
    let kind = Kind {
        brings: held_len(&port.chip.transmitter) != 0,
        looks: false,
        moves_data: false,
        may_make_room: false,
    };
    port.chip.transmitter.remove_wire(count);
    conclude(port, kind, todo);
}

/// The level of the interrupt line.
#[unsafe(no_mangle)]
pub extern "C" fn uart_port_level(port: &UartPort) -> u8
    // proved: The level that is shown is that of the interrupt line
    ensures { result ≡ flag (spec.is_up (chip_of port.now.chip)) 1 }
{
    is_interrupting(&port.chip) as u8
}

/// Saves the chip of a port.
#[unsafe(no_mangle)]
pub extern "C" fn uart_port_save(port: &UartPort, saved: &mut UartChip)
    ensures saved { chip_of saved.new ≡ chip_of port.now.chip }
    ensures canonical { IsCanonical saved.new }
{
    saved.restore(&port.chip);
}

// Nothing is left to happen to a chip with these data, and it has the pace and the room of a port.
fn is_settled(chip: &UartChip) -> bool
    ensures settled { result ≡ true → IsStill (chip_of chip.now) }
    ensures moving { result ≡ false → IsStill (chip_of chip.now) → ⊥ }
{
    chip.transmitter.char_ticks == CHAR_TICKS
        && chip.transmitter.wire.capacity() == WIRE_ROOM
        && chip.receiver.timeout_ticks == chip.receiver.timeout_limit
        && next_move(&chip.transmitter, is_loopback(chip), false).is_none()
}

/// Makes a port with a chip that was saved, unless the data are those of no port.
#[unsafe(no_mangle)]
pub extern "C" fn uart_port_load(port: &mut UartPort, saved: &UartChip, todo: &mut UartTodo) -> u32
    ensures accepted { IsLiveChip (chip_of saved.now) → IsStill (chip_of saved.now) →
        (result ≡ UART_OK) × (port_of port.new ≡ spec.begun (chip_of saved.now)) }
    ensures todo { IsLiveChip (chip_of saved.now) → IsStill (chip_of saved.now) → todo.new ≡
        port_spec.shown (spec.todo_of spec.renewed true (chip_of saved.now) spec.untold) }
    ensures dead { (IsLiveChip (chip_of saved.now) → ⊥) →
        (result ≡ UART_BAD_PORT) × (port.new ≡ port.old) × (todo.new ≡ todo.old) }
    ensures moving { (IsStill (chip_of saved.now) → ⊥) →
        (result ≡ UART_BAD_PORT) × (port.new ≡ port.old) × (todo.new ≡ todo.old) }
    ensures canonical { result ≡ UART_OK → IsCanonicalPort port.new }
{
    if !is_sound(saved) || !is_settled(saved) {
        return UART_BAD_PORT;
    }
    port.chip.restore(saved);
    port.told = UNTOLD;
    decide(port, true, RENEWED, todo);
    UART_OK
}
