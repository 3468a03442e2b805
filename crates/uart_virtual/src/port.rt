//! The port: how each call is carried out, and what is told of it.
ghost use Rattle.std.specs.Prelude.{◌≡◌, ◌≢◌, ◌<◌, ◌≤◌, length, min, take, bit_and, bit_or, Err, IfOk, IsOk, Ok, ◌==◌, true, false, ℕ};
ghost use Rattle.std.specs.Prelude.{Some, is_some, [], ◌∷◌, ◌&&◌, ◌||◌};
ghost use Rattle.uart_chip.specs.Chip as spec;
ghost use Rattle.uart_chip.specs.Chip.{ChipState};
ghost use Rattle.uart_chip.specs.Jumps.{most_jumps};
ghost use Rattle.uart_chip.specs.Sending.{sends_at_once};
ghost use Rattle.uart_live.specs.Live.{IsLive};
ghost use Rattle.uart_live.specs.Quick.{clear_status, when_due};
ghost use Rattle.uart_live.specs.Size.{fifo_size, is_size};
ghost use Rattle.uart_live.specs.declared.errors.ChipError.{ChipError};
ghost use Rattle.uart_spec.specs.Bits.{IsWithin, flag};
ghost use Rattle.uart_live.specs.declared.errors.InputError.{InputError};
ghost use Rattle.uart_spec.specs.declared.baud.TheConstants.{NUM_REGISTERS};
ghost use Rattle.uart_spec.specs.declared.registers.interrupt_status.TheConstants.ISR;
ghost use Rattle.uart_spec.specs.declared.registers.line_status.TheConstants.LSR;
ghost use Rattle.uart_spec.specs.declared.registers.modem_status.TheConstants.MSR;
ghost use Rattle.uart_virtual.specs.Port as port;
ghost use Rattle.uart_virtual.specs.Port.{Read, Write, Receive, ReceiveOne, SetLines, TakeOutput};
ghost use Rattle.uart_virtual.specs.Port.{IsTold, IsStill, IsPaced, IsUnmoved};
ghost use Rattle.uart_virtual.specs.Port.{settle, settle_ticks, arrive_all, stays_up, idle};
ghost use Rattle.uart_virtual.specs.Port.{is_up, tell, todo_of, kind_of, told_after, todo_after};
ghost use Rattle.uart_spec.specs.declared.registers.offsets.TheConstants as offsets;
ghost use Rattle.uart_spec.specs.declared.setup.FifoSize.TheVariants.{Sixteen};

mod snapshot;

use crate::told::{Kind, Seen, Todo, Told};
use bitflags::Flags;
pub use snapshot::Restored;
use std::marker::Model;
use uart_live::{Chip, ChipError, InputError, LiveChipWith, WIRE_ROOM};
use uart_spec::registers::{ISR, LSR, MSR, offsets};
use uart_spec::{FIFO_SIZE, FifoSize};

// The ticks that a character takes.
const CHAR_TICKS: u16 = 1;

// The ticks that pass in each call, beside one for each character that a FIFO holds: one for the
// character in the shift register, 4 until a reception timeout is due, and one. So time between
// calls would change nothing, and no guest waits for a clock that its monitor does not have.
const MORE_TICKS: u16 = 6;

// A call of the host that brings something, and a port that is new, or restored.
const INPUT: Kind = Kind {
    brings: true,
    looks: false,
    moves_data: false,
    may_make_room: false,
};

const RENEWED: Kind = Kind {
    brings: false,
    looks: false,
    moves_data: false,
    may_make_room: true,
};

// Nothing was told yet.
const UNTOLD: Told = Told {
    line: false,
    has_room: false,
    has_looked: false,
    spare: 0,
};

/// A serial port of a virtual machine.
///
/// For each access of the guest call `read` or `write`. When the host has input, call `receive`,
/// and when it can take output, take it with `output` and `take_output`. After each call do what
/// the returned [`Todo`] says.
///
/// Nothing has to be told of time: each call lets so much pass that nothing is left to happen. A
/// byte that the guest writes is on the output when the call returns, unless the output is full,
/// and a character that waits interrupts a guest that has this enabled. No call allocates memory,
/// and none blocks.
///
/// Each FIFO of the port holds `FIFO` characters: 16, 32, 64, 128 or 256. A [`VirtualPort`] has 16.
/// With larger ones a guest writes more bytes for each interrupt, if it is told so: no register of
/// the chip shows it, but `fifo-size` of a device tree does.
///
/// # Examples
///
/// ```
/// obey_signals(host, port.write(offset, value));
/// let taken = host.take(port.output());
/// obey_signals(host, port.take_output(taken));
/// ```
#[derive(Drop)]
pub struct VirtualPortWith<const FIFO: usize> {
    // The output that the host has not taken is the chip's wire. A second queue would have to be
    // emptied into it, and a full one would have to hold the guest back as the full wire does.
    chip: LiveChipWith<FIFO>,
    told: Told,
}

/// A [`VirtualPortWith`] FIFOs of 16 characters, as those of a 16550A. Nearly everybody wants this.
pub type VirtualPort = VirtualPortWith<FIFO_SIZE>;

impl<const FIFO: usize> Model for VirtualPortWith<FIFO> {
    ghost use Rattle.uart_virtual.specs.Port.{PortState, IsPort};

    ghost Value = { PortState };

    ghost view = { λ port. record { chip = port.chip; told = port.told } };

    ghost invariant = { λ port. IsPort (record { chip = port.chip; told = port.told }) };
}

/// What a read returns: the value for the guest, and what the monitor has to do.
#[derive(Clone, Copy, Debug, PartialEq, Eq)]
pub struct Answer {
    /// The value for the guest.
    pub value: u8,
    /// What the monitor has to do.
    pub todo: Todo,
}

/// What became of input: how many bytes were received, and what the monitor has to do.
#[derive(Clone, Copy, Debug, PartialEq, Eq)]
pub struct Received {
    /// How many bytes were received, from the front. The others are put off.
    pub count: usize,
    /// What the monitor has to do.
    pub todo: Todo,
}

/// Returns what the guest's read of this register is, as far as signals are concerned.
// Only a read of ISR is a look. With LSR and MSR, a handler that reads LSR before each byte, as
// most do, would be signalled for each byte, as long as more wait. A handler that never reads ISR
// is signalled each time that the line falls and rises, so it cannot wait for ever.
pub fn kind_of_read(offset: u8) -> Kind
    ensures { result ≡ record {
      brings = false;
      looks = offset == offsets.ISR;
      moves_data = offset == offsets.DATA;
      may_make_room = false;
    } }
{
    let offset = offset as usize;
    Kind {
        brings: false,
        looks: offset == offsets::ISR,
        moves_data: offset == offsets::DATA,
        may_make_room: false,
    }
}

/// Returns what the guest's write of this register is, as far as signals are concerned.
pub fn kind_of_write(offset: u8) -> Kind
    ensures { result ≡ record {
      brings = false;
      looks = false;
      moves_data = offset == offsets.DATA;
      may_make_room = (offset == offsets.FCR) || (offset == offsets.MCR);
    } }
{
    let offset = offset as usize;
    Kind {
        brings: false,
        looks: false,
        moves_data: offset == offsets::DATA,
        may_make_room: offset == offsets::FCR || offset == offsets::MCR,
    }
}

/// Returns the ticks that pass in each call of a port whose FIFOs have this size.
#[inline]
pub fn settle_ticks(size: FifoSize) -> u16
    ensures { result ≡ settle_ticks size }
{
    size.characters() as u16 + MORE_TICKS
}

/// Lets so much time pass that nothing is left to happen, if a character takes one tick: 6 ticks
/// more than a FIFO holds characters, which are 22 with FIFOs of 16. Returns the number of jumps,
/// which is at most two more than a FIFO holds characters: 18 with FIFOs of 16.
///
/// Each call of a [`VirtualPortWith`] does this once or not at all, and takes no other time. So
/// what a guest can make its monitor do in a call has this bound.
pub fn settle<const FIFO: usize>(chip: &mut LiveChipWith<FIFO>) -> usize
    // proved: The time of a call takes at most two jumps more than a FIFO holds characters, which
    //   are 18 with FIFOs of 16
    // on: `uart_virtual::settle`
    ensures after { chip.new ≡ settle chip.old }
    ensures most { result ≤ most_jumps (fifo_size FIFO) }
{
    let count = settle_ticks(chip.fifo_size());
    chip.ticks(count)
}

// Returns how many more characters than one a FIFO holds: none, if the guest has the FIFOs off.
#[inline(always)]
fn rest_of<const FIFO: usize>(chip: &LiveChipWith<FIFO>) -> u8
    ensures { result ≡ port.rest_of chip.now }
{
    if chip.has_fifo_on() {
        (chip.fifo_size().characters() - 1) as u8
    } else {
        0
    }
}

// Returns how many more falls of the line the last signal covers.
//
// A burst of 16 bytes takes the line down 16 times. The first of them is signalled, which calls the
// guest's handler again once it is done; 15 signals more would say nothing. But a guest that does
// not look may have returned from its handler before any of them. So a signal covers others only
// after a look, and no more than a FIFO has room for: `rest` says how many that are, with the one
// access in which the signal is given. An access in which the line stays up uses none of them: so
// what another processor prints meanwhile takes nothing from a handler that reads.
#[inline(always)]
fn spare_after(kind: Kind, was_up: bool, signal: bool, rest: u8, told: Told) -> u8
    ensures { result ≡ port.spare_after kind was_up signal rest told }
{
    let fell = told.line && !was_up;
    if kind.looks {
        0
    } else if signal {
        if kind.moves_data && told.has_looked {
            rest
        } else {
            0
        }
    } else if kind.moves_data && fell {
        told.spare.saturating_sub(1)
    } else {
        told.spare
    }
}

// Returns whether the guest's interrupt is signalled after a call of this kind.
//
// A rise of the line is not enough. If the line falls and rises in one call, a handler that has
// already left would not be called again: so such a fall is signalled, if no signal covers it. And
// a guest that left its handler while the line is up gets no edge from a real chip either, but it
// would stay without one for good if the port could receive nothing more. So input that fills the
// FIFO is signalled. Other input while the line is up is not: Linux's handler takes what was added
// since, and an interrupt for it would find nothing.
#[inline(always)]
fn is_signalled(kind: Kind, was_up: bool, seen: Seen, told: Told) -> bool
    ensures { result ≡ port.is_signalled kind was_up seen told }
{
    let news = kind.brings && !seen.has_room;
    // All of these are known already, so they are joined without branches: 20 instructions less for
    // a character that comes in and is read.
    seen.level && (!told.line | news | (!was_up & (told.spare == 0)))
}

// Returns whether the monitor may take it that there is room.
//
// Most guests read a FIFO to its end. If room was told after each character, a monitor would read
// the host's input byte by byte, and the guest's handler would never end.
#[inline(always)]
fn room_after(kind: Kind, seen: Seen, told: Told) -> bool
    ensures { result ≡ port.room_after kind seen told }
{
    seen.has_room && (told.has_room || (kind.may_make_room || seen.is_empty))
}

/// Returns what is to be told after a call of this kind, and notes that it was told. `was_up` says
/// whether the line was up all the time.
///
/// A port over another chip, as the one for C, tells its monitor by this too.
// Inlined in any case: of most calls the kind is known, and little of this is left.
#[inline(always)]
pub fn tell(seen: Seen, was_up: bool, told: &mut Told, kind: Kind) -> Todo
    ensures told { told.new ≡ told_after kind was_up seen told.old }
    ensures todo { result ≡ todo_after kind was_up seen told.old }
{
    let level = seen.level;
    let signal = is_signalled(kind, was_up, seen, *told);
    let has_room = room_after(kind, seen, *told);
    let todo = Todo {
        signal,
        level,
        has_moved: if level { !told.line } else { told.line },
        has_room: has_room && !told.has_room,
        ready: seen.ready,
    };
    *told = Told {
        line: level,
        has_room,
        has_looked: kind.looks || (told.has_looked && !signal),
        spare: spare_after(kind, was_up, signal, seen.rest, *told),
    };
    todo
}

// Returns what is to be told after a call that leaves the line at this level, and notes that it
// was told.
#[inline(always)]
fn decide_at<const FIFO: usize>(
    chip: &LiveChipWith<FIFO>,
    is_high: bool,
    was_up: bool,
    told: &mut Told,
    kind: Kind,
) -> Todo
    requires paced { IsPaced chip.now }
    requires level { is_high ≡ is_up chip.now }
    ensures holds { IsTold (record { chip = chip.now; told = told.new }) }
    ensures told { told.new ≡ tell kind was_up chip.now told.old }
    ensures todo { result ≡ todo_of kind was_up chip.now told.old }
{
    let has_room = chip.receive_room() != 0;
    let seen = Seen {
        level: is_high,
        has_room,
        is_empty: chip.waiting_len() == 0,
        rest: rest_of(chip),
        ready: WIRE_ROOM - chip.wire_room(),
    };
    tell(seen, was_up, told, kind)
}

// Returns what is to be told after a call, and notes that it was told.
#[inline(always)]
fn decide<const FIFO: usize>(
    chip: &LiveChipWith<FIFO>,
    was_up: bool,
    told: &mut Told,
    kind: Kind,
) -> Todo
    requires { IsPaced chip.now }
    ensures live { IsLive (fifo_size FIFO) chip.now }
    ensures holds { IsTold (record { chip = chip.now; told = told.new }) }
    ensures told { told.new ≡ tell kind was_up chip.now told.old }
    ensures todo { result ≡ todo_of kind was_up chip.now told.old }
{
    let level = chip.is_interrupting();
    decide_at(chip, level, was_up, told, kind)
}

// Returns what is to be told after a call that leaves the line and the room as they were.
#[inline(always)]
fn nothing_new<const FIFO: usize>(chip: &LiveChipWith<FIFO>, told: Told) -> Todo
    requires told { IsTold (record { chip = chip.now; told = told }) }
    requires paced { IsPaced chip.now }
    ensures live { IsLive (fifo_size FIFO) chip.now }
    ensures told { tell idle (is_up chip.now) chip.now told ≡ told }
    ensures todo { result ≡ todo_of idle (is_up chip.now) chip.now told }
{
    Todo {
        signal: false,
        level: told.line,
        has_moved: false,
        has_room: false,
        ready: WIRE_ROOM - chip.wire_room(),
    }
}

// Returns what is to be told after a read of DATA that left a character, and notes that it was
// told. The line is up before and after, and the room is as it was told. If the line was up all the
// time, nothing is new.
#[inline(always)]
fn tell_more<const FIFO: usize>(chip: &LiveChipWith<FIFO>, was_up: bool, told: &mut Told) -> Todo
    requires paced { IsPaced chip.now }
    requires told { IsTold (record { chip = chip.now; told = told.old }) }
    requires up { is_up chip.now ≡ true }
    ensures holds { IsTold (record { chip = chip.now; told = told.new }) }
    ensures told { told.new ≡
        tell (kind_of (Read offsets.DATA) chip.now) was_up chip.now told.old }
    ensures todo { result ≡
        todo_of (kind_of (Read offsets.DATA) chip.now) was_up chip.now told.old }
{
    if was_up {
        nothing_new(chip, *told)
    } else {
        let kind = kind_of_read(offsets::DATA as u8);
        decide_at(chip, true, was_up, told, kind)
    }
}

// Lets the time of a call pass, and returns what is to be told.
#[inline(never)]
fn finish<const FIFO: usize>(
    chip: &mut LiveChipWith<FIFO>,
    was_up: bool,
    told: &mut Told,
    kind: Kind,
) -> Todo
    requires live { IsLive (fifo_size FIFO) chip.old }
    requires paced { IsPaced chip.old }
    ensures after { chip.new ≡ settle chip.old }
    ensures still { IsStill chip.new }
    ensures holds { IsTold (record { chip = chip.new; told = told.new }) }
    ensures told { told.new ≡ tell kind was_up (settle chip.old) told.old }
    ensures todo { result ≡ todo_of kind was_up (settle chip.old) told.old }
{
    settle(chip);
    decide(chip, was_up, told, kind)
}

// Does the same as `finish`, if no character can move in the transmitter. Then a reception timeout
// is all that time brings.
#[inline(always)]
fn finish_unmoved<const FIFO: usize>(
    chip: &mut LiveChipWith<FIFO>,
    told: &mut Told,
    kind: Kind,
) -> Todo
    requires paced { IsPaced chip.old }
    requires unmoved { IsUnmoved chip.old }
    ensures after { chip.new ≡ settle chip.old }
    ensures still { IsStill chip.new }
    ensures holds { IsTold (record { chip = chip.new; told = told.new }) }
    ensures told { told.new ≡ tell kind (is_up chip.old) (settle chip.old) told.old }
    ensures todo { result ≡ todo_of kind (is_up chip.old) (settle chip.old) told.old }
{
    // If the line was down before the call, it does not matter here.
    let was_up = told.line && chip.is_interrupting();
    chip.expire_timeout();
    decide(chip, was_up, told, kind)
}

// Does the same as `finish_unmoved`, out of line: most reads are of LSR, and need none of it.
#[inline(never)]
fn finish_read<const FIFO: usize>(
    chip: &mut LiveChipWith<FIFO>,
    told: &mut Told,
    kind: Kind,
) -> Todo
    requires paced { IsPaced chip.old }
    requires unmoved { IsUnmoved chip.old }
    ensures after { chip.new ≡ settle chip.old }
    ensures still { IsStill chip.new }
    ensures holds { IsTold (record { chip = chip.new; told = told.new }) }
    ensures told { told.new ≡ tell kind (is_up chip.old) (settle chip.old) told.old }
    ensures todo { result ≡ todo_of kind (is_up chip.old) (settle chip.old) told.old }
{
    finish_unmoved(chip, told, kind)
}

// Returns whether a read that returned this value left the line and the room as they were, and was
// no look: a read of LSR shows no error, or the register has no side effects.
#[inline(always)]
fn is_quiet(offset: u8, value: u8) -> bool
    ensures { result ≡ port.is_quiet offset value }
{
    let offset = offset as usize;
    if offset == offsets::LSR {
        !LSR::from_bits_retain(value).intersects(LSR::LINE_ERRORS)
    } else {
        offset != offsets::DATA && (offset != offsets::ISR && offset != offsets::MSR)
    }
}

// Does the same as `read`, whatever the line is.
#[inline]
fn read_any<const FIFO: usize>(chip: &mut LiveChipWith<FIFO>, offset: u8, told: &mut Told) -> Answer
    requires offset { offset < NUM_REGISTERS }
    requires told { IsTold (record { chip = chip.old; told = told.old }) }
    requires still { IsStill chip.old }
    ensures value { result.value ≡ spec.answer offset chip.old }
    ensures after { chip.new ≡ settle (spec.after_read offset chip.old) }
    ensures still { IsStill chip.new }
    ensures holds { IsTold (record { chip = chip.new; told = told.new }) }
    ensures told { let c = spec.after_read offset chip.old in
        let call = Read offset in
        told.new ≡ tell (kind_of call chip.old) (stays_up call c) (settle c) told.old }
    ensures todo { let c = spec.after_read offset chip.old in
        let call = Read offset in
        result.todo ≡ todo_of (kind_of call chip.old) (stays_up call c) (settle c) told.old }
{
    let value = chip.read(offset);
    if is_quiet(offset, value) {
        let todo = nothing_new(chip, *told);
        Answer { value, todo }
    } else {
        let todo = finish_read(chip, told, kind_of_read(offset));
        Answer { value, todo }
    }
}

// Returns whether this is a read of ISR while the line is down. Then it shows no interrupt, and
// acknowledges none.
#[inline(always)]
fn is_idle_look(offset: u8, told: Told) -> bool
    ensures isr { result ≡ true → offset ≡ offsets.ISR }
    ensures down { result ≡ true → told.line ≡ false }
{
    offset as usize == offsets::ISR && !told.line
}

// Returns ISR without an interrupt.
#[inline(always)]
fn shown_idle(fifo: bool) -> u8
    ensures { result ≡ bit_or ISR.INTERRUPT_STATUS.0 (flag fifo ISR.FIFOS_ENABLED.0) }
{
    if fifo {
        ISR::INTERRUPT_STATUS.union(ISR::FIFOS_ENABLED).bits()
    } else {
        ISR::INTERRUPT_STATUS.bits()
    }
}

// Does the same as `read` for a read of ISR while the line is down. It is a look, and nothing else
// is new: so the chip is asked neither for an interrupt nor for the line.
#[inline(always)]
fn look_idle<const FIFO: usize>(chip: &LiveChipWith<FIFO>, told: &mut Told) -> Answer
    requires told { IsTold (record { chip = chip.now; told = told.old }) }
    requires still { IsStill chip.now }
    requires down { told.old.line ≡ false }
    ensures value { result.value ≡ spec.answer offsets.ISR chip.now }
    ensures after { chip.now ≡ settle (spec.after_read offsets.ISR chip.now) }
    ensures holds { IsTold (record { chip = chip.now; told = told.new }) }
    ensures told { let c = spec.after_read offsets.ISR chip.now in
        let call = Read offsets.ISR in
        told.new ≡ tell (kind_of call chip.now) (stays_up call c) (settle c) told.old }
    ensures todo { let c = spec.after_read offsets.ISR chip.now in
        let call = Read offsets.ISR in
        result.todo ≡ todo_of (kind_of call chip.now) (stays_up call c) (settle c) told.old }
{
    let fifo = chip.has_fifo_on();
    let value = shown_idle(fifo);
    let todo = nothing_new(chip, *told);
    told.has_looked = true;
    told.spare = 0;
    Answer { value, todo }
}

// Reads a register, and lets the time of a call pass.
#[inline]
fn read<const FIFO: usize>(chip: &mut LiveChipWith<FIFO>, offset: u8, told: &mut Told) -> Answer
    // proved: Each call leaves exactly the port that `after` says, and returns exactly the `Todo`
    //   of `todo`; a read returns what the chip's definitions answer, and input is received from
    //   the front as far as there is room
    // on: `read`, `write`, `receive`, `receive_one`, `set_lines` and `take_output` of `VirtualPort`
    requires offset { offset < NUM_REGISTERS }
    requires told { IsTold (record { chip = chip.old; told = told.old }) }
    requires still { IsStill chip.old }
    ensures value { result.value ≡ spec.answer offset chip.old }
    ensures after { chip.new ≡ settle (spec.after_read offset chip.old) }
    ensures still { IsStill chip.new }
    ensures holds { IsTold (record { chip = chip.new; told = told.new }) }
    ensures told { let c = spec.after_read offset chip.old in
        let call = Read offset in
        told.new ≡ tell (kind_of call chip.old) (stays_up call c) (settle c) told.old }
    ensures todo { let c = spec.after_read offset chip.old in
        let call = Read offset in
        result.todo ≡ todo_of (kind_of call chip.old) (stays_up call c) (settle c) told.old }
{
    if is_idle_look(offset, *told) {
        look_idle(chip, told)
    } else {
        read_any(chip, offset, told)
    }
}

// Returns whether something else than an empty THR keeps the line up, if it was up.
#[inline(always)]
fn is_kept_up<const FIFO: usize>(chip: &LiveChipWith<FIFO>, told: Told) -> bool
    ensures up { told.line ≡ true → result ≡ is_up (when_due false chip.now) }
    ensures down { told.line ≡ false → result ≡ false }
{
    told.line && chip.interrupts_when_due(false)
}

// Returns whether a write can be made by `send`: it is a byte that meets an idle transmitter.
fn is_fast<const FIFO: usize>(chip: &LiveChipWith<FIFO>, offset: u8) -> bool
    ensures fast { result ≡ true → (offset ≡ offsets.DATA) × (sends_at_once chip.now ≡ true) }
    ensures live { IsLive (fifo_size FIFO) chip.now }
{
    let sends = chip.sends_at_once();
    offset as usize == offsets::DATA && sends
}

// Does the same as `write_slowly` for a byte that can be sent at once. The byte ends the interrupt
// of an empty THR, and brings it again. So the line stays up if it has another cause.
#[inline]
fn send<const FIFO: usize>(chip: &mut LiveChipWith<FIFO>, value: u8, told: &mut Told) -> Todo
    requires live { IsLive (fifo_size FIFO) chip.old }
    requires still { IsStill chip.old }
    requires sends { sends_at_once chip.old ≡ true }
    ensures after { chip.new ≡ settle (port.written offsets.DATA value chip.old) }
    ensures still { IsStill chip.new }
    ensures holds { IsTold (record { chip = chip.new; told = told.new }) }
    ensures told { let c = port.written offsets.DATA value chip.old in
        let call = Write offsets.DATA value in
        told.new ≡ tell (kind_of call chip.old) (stays_up call c) (settle c) told.old }
    ensures todo { let c = port.written offsets.DATA value chip.old in
        let call = Write offsets.DATA value in
        result ≡ todo_of (kind_of call chip.old) (stays_up call c) (settle c) told.old }
{
    let kind = kind_of_write(offsets::DATA as u8);
    let was_up = chip.interrupts_when_due(false);
    let is_on = chip.has_output_interrupt_on();
    let level = was_up | is_on;
    chip.send_at_once(value);
    decide_at(chip, level, was_up, told, kind)
}

// Writes a register, and raises a THR-empty interrupt if this is a write of FCR that discards bytes
// which the transmitter held.
//
// A switch of the FIFOs empties the queue too, and the chip leaves the interrupt as it was then. A
// guest that prints by interrupts would wait for ever.
fn write_and_raise<const FIFO: usize>(chip: &mut LiveChipWith<FIFO>, offset: u8, value: u8)
    requires { offset < NUM_REGISTERS }
    ensures { chip.new ≡ port.written offset value chip.old }
{
    let held = chip.held_len();
    chip.write(offset, value);
    if offset as usize == offsets::FCR && chip.held_len() < held {
        chip.raise_thr_empty();
    }
}

// Writes a register and lets the time of a call pass.
#[inline(never)]
fn write_slowly<const FIFO: usize>(
    chip: &mut LiveChipWith<FIFO>,
    offset: u8,
    value: u8,
    told: &mut Told,
) -> Todo
    requires offset { offset < NUM_REGISTERS }
    requires still { IsStill chip.old }
    ensures after { chip.new ≡ settle (port.written offset value chip.old) }
    ensures still { IsStill chip.new }
    ensures holds { IsTold (record { chip = chip.new; told = told.new }) }
    ensures told { let c = port.written offset value chip.old in
        let call = Write offset value in
        told.new ≡ tell (kind_of call chip.old) (stays_up call c) (settle c) told.old }
    ensures todo { let c = port.written offset value chip.old in
        let call = Write offset value in
        result ≡ todo_of (kind_of call chip.old) (stays_up call c) (settle c) told.old }
{
    write_and_raise(chip, offset, value);
    // What comes back in loopback takes the line down for four ticks if a timeout was due, and up
    // again. So there a line that is up before and after counts as one that fell.
    let was_up = chip.is_interrupting() && !chip.is_loopback();
    finish(chip, was_up, told, kind_of_write(offset))
}

// Does the same as `write_slowly`, by `send` where that can do it.
#[inline]
fn write<const FIFO: usize>(
    chip: &mut LiveChipWith<FIFO>,
    offset: u8,
    value: u8,
    told: &mut Told,
) -> Todo
    requires offset { offset < NUM_REGISTERS }
    requires still { IsStill chip.old }
    ensures after { chip.new ≡ settle (port.written offset value chip.old) }
    ensures still { IsStill chip.new }
    ensures holds { IsTold (record { chip = chip.new; told = told.new }) }
    ensures told { let c = port.written offset value chip.old in
        let call = Write offset value in
        told.new ≡ tell (kind_of call chip.old) (stays_up call c) (settle c) told.old }
    ensures todo { let c = port.written offset value chip.old in
        let call = Write offset value in
        result ≡ todo_of (kind_of call chip.old) (stays_up call c) (settle c) told.old }
{
    if is_fast(chip, offset) {
        send(chip, value, told)
    } else {
        write_slowly(chip, offset, value, told)
    }
}

// Takes this number of bytes from the output, or all if there are fewer, and lets the time of a
// call pass. Only if the transmitter holds something, time has something to do, and something is
// new.
#[inline]
fn take<const FIFO: usize>(chip: &mut LiveChipWith<FIFO>, count: usize, told: &mut Told) -> Todo
    requires told { IsTold (record { chip = chip.old; told = told.old }) }
    requires still { IsStill chip.old }
    ensures after { chip.new ≡ settle (spec.take_wire count chip.old) }
    ensures still { IsStill chip.new }
    ensures holds { IsTold (record { chip = chip.new; told = told.new }) }
    ensures told { let c = spec.take_wire count chip.old in
        let call = TakeOutput count in
        told.new ≡ tell (kind_of call chip.old) (stays_up call c) (settle c) told.old }
    ensures todo { let c = spec.take_wire count chip.old in
        let call = TakeOutput count in
        result ≡ todo_of (kind_of call chip.old) (stays_up call c) (settle c) told.old }
{
    let held = chip.held_len();
    chip.take_wire(count);
    if held == 0 {
        nothing_new(chip, *told)
    } else {
        let was_up = chip.is_interrupting();
        finish(chip, was_up, told, INPUT)
    }
}

// Receives these bytes, without errors.
fn receive_all<const FIFO: usize>(chip: &mut LiveChipWith<FIFO>, input: &[u8])
    ensures { chip.new ≡ arrive_all input.now chip.old }
{
    for byte in input {
        let _received = chip.arrive(*byte, LSR::empty());
    }
}

impl VirtualPortWith<FIFO_SIZE> {
    /// Returns a port after power-on. The output has room for 64 bytes. No interrupt is enabled, so
    /// nothing is to be done.
    ///
    /// # Examples
    ///
    /// ```
    /// let mut port = VirtualPort::new(Chip::Uart16550A);
    /// ```
    pub fn new(chip: Chip) -> Self
        ensures { result ≡ port.fresh Sixteen chip }
    {
        // With FIFOs of 16 a port is never refused: the contract of `try_new` says so, and the
        // check proves it here. A `Result` would give each caller an error that never comes.
        Self::try_new(chip).unwrap()
    }
}

impl<const FIFO: usize> VirtualPortWith<FIFO> {
    /// Returns a port after power-on, whose FIFOs hold `FIFO` characters. The output has room for
    /// 64 bytes, whatever that number is. No interrupt is enabled, so nothing is to be done.
    ///
    /// # Errors
    ///
    /// `BadFifo` if `FIFO` is none of 16, 32, 64, 128 and 256.
    ///
    /// # Examples
    ///
    /// ```
    /// let mut port = VirtualPortWith::<64>::try_new(Chip::Uart16550A)?;
    /// ```
    pub fn try_new(chip: Chip) -> Result<Self, ChipError>
        ensures made { IfOk result (λ made. made ≡ port.fresh (fifo_size FIFO) chip) }
        // if: it is no size of a FIFO
        ensures refused { is_size FIFO ≡ false → result ≡ Err ChipError.BadFifo }
        ensures accepted { is_size FIFO ≡ true → IsOk result }
    {
        // A chip with this time and this wire is refused for its FIFOs alone.
        let mut chip = LiveChipWith::new(chip, CHAR_TICKS, WIRE_ROOM)?;
        // Nothing is in the chip that could move.
        let mut told = UNTOLD;
        let _todo = finish_unmoved(&mut chip, &mut told, RENEWED);
        Ok(VirtualPortWith { chip, told })
    }

    /// Reads the register at this offset for the guest. Returns its value, and what the monitor has
    /// to do.
    ///
    /// A read can change the port: one of DATA takes a received byte and makes room for another,
    /// one of ISR tells the guest what interrupted it, and one of LSR or MSR ends what it shows.
    ///
    /// # Examples
    ///
    /// ```
    /// let answer = port.read(offset);
    /// obey_signals(host, answer.todo);
    /// answer.value
    /// ```
    #[inline]
    pub fn read(&mut self, offset: u8) -> Answer
        requires { offset < NUM_REGISTERS }
        ensures value { result.value ≡ spec.answer offset self.old.chip }
        ensures after { self.new ≡ port.after (Read offset) self.old }
        ensures todo { result.todo ≡ port.todo (Read offset) self.old }
    {
        read(&mut self.chip, offset, &mut self.told)
    }

    /// Reads LSR for the guest, if it shows no error and no character that waits has one. Then the
    /// monitor has nothing to do. Otherwise returns `None`, and nothing changes.
    ///
    /// The value and the effect are those of [`VirtualPortWith::read`]. A guest that waits makes
    /// this read again and again.
    #[inline]
    pub fn read_clear_status(&mut self) -> Option<u8>
        // proved: The short ways of what guests do most leave the port that `after` says, and what
        //   `todo` says has to be done: a read of LSR that shows no error; a byte that meets an
        //   idle transmitter and that the host takes at once; a byte of input, and a read of DATA,
        //   while no interrupt is enabled; with the interrupt of received characters enabled, a
        //   byte of input while none waits, and a read that leaves a character; a read of DATA that
        //   takes the last character. One that refuses changes nothing
        // on: `read_clear_status`, `passing`, `pass`, `receive_polled`, `read_polled`,
        //   `receive_first`, `read_last` and `read_more` of `VirtualPort`
        ensures value { result ≡ clear_status self.old.chip }
        ensures read { is_some result ≡ true → self.new ≡ port.after (Read offsets.LSR) self.old }
        ensures todo { is_some result ≡ true →
            port.todo (Read offsets.LSR) self.old ≡ port.nothing_new self.old }
        ensures left { is_some result ≡ false → self.new ≡ self.old }
    {
        self.chip.read_clear_status()
    }

    // Returns whether a read of DATA leaves nothing to be told.
    #[inline]
    fn reads_polled(&self) -> bool
        ensures { result ≡ port.reads_polled self.now }
    {
        let is_polled = !self.chip.has_interrupts_on();
        is_polled && self.told.has_room
    }

    /// Reads DATA for a guest that polls: if no interrupt is enabled, and the monitor knows of room
    /// for input. Then it has nothing to do. Otherwise returns `None`, and nothing changes.
    ///
    /// The value and the effect are those of [`VirtualPortWith::read`].
    #[inline]
    pub fn read_polled(&mut self) -> Option<u8>
        ensures polled { is_some result ≡ port.reads_polled self.old }
        ensures value { (value : ℕ) → result ≡ Some value →
            value ≡ spec.answer offsets.DATA self.old.chip }
        ensures read { is_some result ≡ true → self.new ≡ port.after (Read offsets.DATA) self.old }
        ensures todo { is_some result ≡ true →
            port.todo (Read offsets.DATA) self.old ≡ port.nothing_new self.old }
        ensures left { is_some result ≡ false → self.new ≡ self.old }
    {
        if !self.reads_polled() {
            return None;
        }
        let value = self.chip.read_data();
        LiveChipWith::expire_timeout(&mut self.chip);
        Some(value)
    }

    // Returns whether a read of DATA takes the last character that waits.
    #[inline]
    fn reads_last(&self) -> bool
        ensures { result ≡ port.reads_last self.now }
    {
        self.chip.waiting_len() == 1 && !self.chip.is_dlab_set()
    }

    /// Reads DATA for the guest, if one character waits. Returns its value, and what the monitor
    /// has to do. Otherwise returns `None`, and nothing changes.
    ///
    /// The value, the effect and what has to be done are those of [`VirtualPortWith::read`].
    // No reception timeout is to come when no character waits. So the line is asked for once.
    #[inline]
    pub fn read_last(&mut self) -> Option<Answer>
        ensures last { is_some result ≡ port.reads_last self.old }
        ensures value { (answer : Answer) → result ≡ Some answer →
            answer.value ≡ spec.answer offsets.DATA self.old.chip }
        ensures read { is_some result ≡ true → self.new ≡ port.after (Read offsets.DATA) self.old }
        ensures todo { (answer : Answer) → result ≡ Some answer →
            answer.todo ≡ port.todo (Read offsets.DATA) self.old }
        ensures left { is_some result ≡ false → self.new ≡ self.old }
    {
        if !self.reads_last() {
            return None;
        }
        let value = self.chip.read_data();
        let level = self.chip.is_interrupting();
        LiveChipWith::expire_timeout(&mut self.chip);
        let kind = kind_of_read(offsets::DATA as u8);
        let todo = decide_at(&self.chip, level, level, &mut self.told, kind);
        Some(Answer { value, todo })
    }

    // Returns whether a read of DATA leaves a character, and the guest has the interrupt of
    // received characters enabled.
    #[inline]
    fn reads_more(&self) -> bool
        ensures { result ≡ port.reads_more self.now }
    {
        let is_on = self.chip.has_input_interrupt_on();
        is_on && (1 < self.chip.waiting_len() && !self.chip.is_dlab_set())
    }

    /// Reads DATA for the guest, if more than one character waits, and the guest has the interrupt
    /// of received characters enabled. Returns its value, and what the monitor has to do. Otherwise
    /// returns `None`, and nothing changes.
    ///
    /// The value, the effect and what has to be done are those of [`VirtualPortWith::read`].
    // A character that waits takes the line up when the call ends, and it was up before. A FIFO of
    // which a character was read has room, if it had. So the chip is asked only whether the line
    // fell meanwhile, and mostly it did not.
    #[inline]
    pub fn read_more(&mut self) -> Option<Answer>
        ensures more { is_some result ≡ port.reads_more self.old }
        ensures value { (answer : Answer) → result ≡ Some answer →
            answer.value ≡ spec.answer offsets.DATA self.old.chip }
        ensures read { is_some result ≡ true → self.new ≡ port.after (Read offsets.DATA) self.old }
        ensures todo { (answer : Answer) → result ≡ Some answer →
            answer.todo ≡ port.todo (Read offsets.DATA) self.old }
        ensures left { is_some result ≡ false → self.new ≡ self.old }
    {
        if !self.reads_more() {
            return None;
        }
        let value = self.chip.read_data();
        let was_up = self.chip.is_interrupting();
        LiveChipWith::expire_timeout(&mut self.chip);
        let todo = tell_more(&self.chip, was_up, &mut self.told);
        Some(Answer { value, todo })
    }

    // Returns whether a byte that the guest writes to DATA would be alone on the output at once.
    #[inline]
    fn passes(&self) -> bool
        ensures { result ≡ port.passes self.now }
    {
        let is_empty = self.chip.wire_room() == WIRE_ROOM;
        is_empty && self.chip.sends_at_once()
    }

    /// Returns the byte that goes out if the guest writes this value to DATA, if the host can take
    /// it before it is on the output: if nothing is before it there, and the transmitter is idle.
    ///
    /// If the host takes it, call `pass`; if not, `write`.
    #[inline]
    pub fn passing(&self, value: u8) -> Option<u8>
        ensures { result ≡ port.passing value self.now }
    {
        if self.passes() {
            Some(self.chip.cut(value))
        } else {
            None
        }
    }

    /// Notes that the guest wrote a byte to DATA, and that the host took it. Returns what the
    /// monitor has to do, or `None` if [`passing`](Self::passing) returns that: then nothing
    /// changes.
    ///
    /// The port is as after `write` and `take_output(1)`, and what has to be done is the same.
    #[inline]
    pub fn pass(&mut self) -> Option<Todo>
        ensures passes { is_some result ≡ port.passes self.old }
        ensures after { (value : ℕ) → is_some result ≡ true →
            self.new ≡ port.after (TakeOutput 1) (port.after (Write offsets.DATA value) self.old) }
        ensures todo { (value : ℕ) (todo : Todo) → result ≡ Some todo →
            todo ≡ record (port.todo (Write offsets.DATA value) self.old) { ready = 0 } }
        ensures taken { (value : ℕ) → is_some result ≡ true →
            port.todo (TakeOutput 1) (port.after (Write offsets.DATA value) self.old) ≡
            port.nothing_new (port.after (TakeOutput 1)
            (port.after (Write offsets.DATA value) self.old)) }
        ensures left { is_some result ≡ false → self.new ≡ self.old }
    {
        if !self.passes() {
            return None;
        }
        let was_up = is_kept_up(&self.chip, self.told);
        let is_on = self.chip.has_output_interrupt_on();
        let _passed = self.chip.pass_wire();
        // There is as much room for input as there was, and as many characters wait. So what the
        // monitor knows of that stays, and the chip need not be asked.
        let seen = Seen {
            level: was_up | is_on,
            has_room: self.told.has_room,
            is_empty: false,
            rest: rest_of(&self.chip),
            ready: 0,
        };
        let kind = kind_of_write(offsets::DATA as u8);
        Some(tell(seen, was_up, &mut self.told, kind))
    }

    /// Writes a value to the register at this offset for the guest. Returns what the monitor has to
    /// do.
    ///
    /// What the transmitter then holds goes to the output as far as that has room, in loopback to
    /// the receiver. If the transmitter itself has no room, a byte is lost: LSR shows room, and
    /// drivers look there first.
    ///
    /// # Examples
    ///
    /// ```
    /// obey_signals(host, port.write(offset, value));
    /// ```
    #[inline]
    pub fn write(&mut self, offset: u8, value: u8) -> Todo
        requires { offset < NUM_REGISTERS }
        ensures after { self.new ≡ port.after (Write offset value) self.old }
        ensures todo { result ≡ port.todo (Write offset value) self.old }
    {
        write(&mut self.chip, offset, value, &mut self.told)
    }

    /// Receives as many of these bytes as there is room for, from the front. Returns how many that
    /// were, and what the monitor has to do.
    ///
    /// If that is not all, there is no room left. The first call after which nothing waits says in
    /// `has_room` that there is room, or one by which the guest makes room otherwise than by
    /// reading DATA. Offer the others again then, and not before. Without FIFO there is room for
    /// one byte, with it for `FIFO`, and in loopback for none.
    ///
    /// # Examples
    ///
    /// ```
    /// let received = port.receive(input);
    /// obey_signals(host, received.todo);
    /// &input[received.count..]
    /// ```
    #[inline]
    pub fn receive(&mut self, input: &[u8]) -> Received
        ensures count { result.count ≡ port.accepted input.now self.old.chip }
        ensures after { self.new ≡ port.after (Receive input.now) self.old }
        ensures todo { result.todo ≡ port.todo (Receive input.now) self.old }
    {
        let room = self.chip.receive_room();
        let count = input.len().min(room);
        let kind = Kind {
            brings: 0 < count,
            looks: false,
            moves_data: false,
            may_make_room: false,
        };
        receive_all(&mut self.chip, &input[..count]);
        let todo = finish_unmoved(&mut self.chip, &mut self.told, kind);
        Received { count, todo }
    }

    /// Receives a byte for a guest that polls: if no interrupt is enabled, and the monitor knows of
    /// room for the byte. Then it has nothing to do. Otherwise returns `false`, and nothing
    /// changes.
    ///
    /// The effect is that of [`VirtualPortWith::receive`].
    #[inline]
    pub fn receive_polled(&mut self, byte: u8) -> bool
        ensures polled { result ≡ port.receives_polled self.old }
        ensures received { result ≡ true → self.new ≡ port.after (Receive (byte ∷ [])) self.old }
        ensures todo { result ≡ true →
            port.todo (Receive (byte ∷ [])) self.old ≡ port.nothing_new self.old }
        ensures left { result ≡ false → self.new ≡ self.old }
    {
        if self.chip.has_interrupts_on() || !self.told.has_room {
            return false;
        }
        if !self.chip.arrive_in_room(byte) {
            return false;
        }
        LiveChipWith::expire_timeout(&mut self.chip);
        self.told.has_room = self.chip.receive_room() != 0;
        true
    }

    // Returns whether a byte of input comes while none waits, there is room for it, of which the
    // monitor knows, and the guest has the interrupt of received characters enabled.
    #[inline]
    fn receives_first(&self) -> bool
        ensures first { result ≡ port.receives_first self.now }
        ensures live { IsLive (fifo_size FIFO) self.now.chip }
    {
        let is_on = self.chip.has_input_interrupt_on();
        let has_room = self.chip.receive_room() != 0;
        self.chip.waiting_len() == 0 && (self.told.has_room && (is_on && has_room))
    }

    /// Receives a byte while none waits, for a guest that has the interrupt of received characters
    /// enabled: if the monitor knows of room. Returns what the monitor has to do. Otherwise returns
    /// `None`, and nothing changes.
    ///
    /// The effect and what has to be done are those of [`VirtualPortWith::receive`].
    // A character that waits takes the line up when the call ends, and one that comes while none
    // waits takes no line down. So the chip is not asked for the line.
    #[inline]
    pub fn receive_first(&mut self, byte: u8) -> Option<Todo>
        // promise: the short ways of a guest with interrupts do what the calls do for which they
        //   stand
        // with: receive_first.received, receive_first.todo, read_last.read, read_last.todo,
        //   read_more.read, read_more.todo
        // shown by: each_call_does_what_its_definition_says
        // refused: a_first_byte_is_no_rise, a_last_read_takes_the_line_down,
        //   a_fall_before_the_last_read_is_missed
        ensures first { is_some result ≡ port.receives_first self.old }
        ensures received { is_some result ≡ true →
            self.new ≡ port.after (Receive (byte ∷ [])) self.old }
        ensures todo { (todo : Todo) → result ≡ Some todo →
            todo ≡ port.todo (Receive (byte ∷ [])) self.old }
        ensures left { is_some result ≡ false → self.new ≡ self.old }
    {
        if !self.receives_first() {
            return None;
        }
        let _arrived = self.chip.arrive_in_room(byte);
        LiveChipWith::expire_timeout(&mut self.chip);
        let todo = decide_at(&self.chip, true, true, &mut self.told, INPUT);
        Some(todo)
    }

    /// Receives a character with these errors: parity, framing and break, as bits of LSR. Returns
    /// what the monitor has to do.
    ///
    /// Without room the character overruns, which the guest sees as the overrun flag, and in
    /// loopback it is lost. For bytes without errors, `receive` loses none.
    ///
    /// # Errors
    ///
    /// `BadErrors` if `errors` has any other bit. Nothing changes then.
    ///
    /// # Examples
    ///
    /// ```
    /// let todo = port.receive_one(0, LSR::BREAK_INTERRUPT)?;
    /// ```
    pub fn receive_one(&mut self, byte: u8, errors: LSR) -> Result<Todo, InputError>
        // proved: What is refused, and that it then changes nothing
        // on: `receive_one` and `set_lines`, clause `refused`
        ensures accepted { IsWithin errors.0 LSR.CHARACTER_ERRORS.0 →
            IsOk result × (self.new ≡ port.after (ReceiveOne byte errors.0) self.old) }
        ensures todo { IsWithin errors.0 LSR.CHARACTER_ERRORS.0 →
            result ≡ Ok (port.todo (ReceiveOne byte errors.0) self.old) }
        ensures refused { bit_and errors.0 LSR.CHARACTER_ERRORS.0 ≢ errors.0 →
            (result ≡ Err InputError.BadErrors) × (self.new ≡ self.old) }
    {
        if errors.intersection(LSR::CHARACTER_ERRORS) != errors {
            return Err(InputError::BadErrors);
        }
        let _received = self.chip.arrive(byte, errors);
        let todo = finish_unmoved(&mut self.chip, &mut self.told, INPUT);
        Ok(todo)
    }

    /// Sets the inputs of the modem: CTS, DSR, RI and CD, as bits of MSR. Returns what the monitor
    /// has to do.
    ///
    /// # Errors
    ///
    /// `BadLines` if `inputs` has any other bit. Nothing changes then.
    ///
    /// # Examples
    ///
    /// ```
    /// let todo = port.set_lines(MSR::CTS.union(MSR::DSR))?;
    /// ```
    pub fn set_lines(&mut self, inputs: MSR) -> Result<Todo, InputError>
        ensures accepted { IsWithin inputs.0 MSR.LINES.0 →
            IsOk result × (self.new ≡ port.after (SetLines inputs.0) self.old) }
        ensures todo { IsWithin inputs.0 MSR.LINES.0 →
            result ≡ Ok (port.todo (SetLines inputs.0) self.old) }
        ensures refused { bit_and inputs.0 MSR.LINES.0 ≢ inputs.0 →
            (result ≡ Err InputError.BadLines) × (self.new ≡ self.old) }
    {
        if inputs.intersection(MSR::LINES) != inputs {
            return Err(InputError::BadLines);
        }
        let _set = self.chip.set_lines(inputs);
        let todo = finish_unmoved(&mut self.chip, &mut self.told, INPUT);
        Ok(todo)
    }

    /// Returns the output that the host has not taken, in order: at most 64 bytes. While there are
    /// 64, the transmitter keeps what the guest writes, and LSR tells the guest so.
    ///
    /// # Examples
    ///
    /// ```
    /// let taken = host.take(port.output());
    /// ```
    #[inline]
    pub fn output(&self) -> &[u8]
        // proved: The output is what was sent and not taken, in order
        // on: `VirtualPort::output`
        ensures { result.now ≡ self.now.chip.transmitter.wire }
    {
        self.chip.wire()
    }

    /// Removes this number of bytes from the front of the output, or all if there are fewer: the
    /// host took them. Returns what the monitor has to do.
    ///
    /// What the transmitter holds goes to the output as far as there is room now.
    ///
    /// # Examples
    ///
    /// ```
    /// obey_signals(host, port.take_output(taken));
    /// ```
    #[inline]
    pub fn take_output(&mut self, count: usize) -> Todo
        ensures after { self.new ≡ port.after (TakeOutput count) self.old }
        ensures todo { result ≡ port.todo (TakeOutput count) self.old }
    {
        take(&mut self.chip, count, &mut self.told)
    }

    /// Returns how many bytes `receive` has room for. In loopback that is 0.
    ///
    /// If it is 0, the first call after which nothing waits says in `has_room` that there is room,
    /// or one by which the guest makes room otherwise than by reading DATA.
    pub fn receive_room(&self) -> usize
        ensures room { result ≡ spec.receive_room self.now.chip }
        ensures told { IsTold self.now }
    {
        self.chip.receive_room()
    }

    /// Returns the chip, for what can be seen of it.
    pub fn chip(&self) -> &LiveChipWith<FIFO>
        ensures { result.now ≡ self.now.chip }
    {
        &self.chip
    }

    /// Returns the level of the interrupt line, which is the level that was told last. It stays so
    /// until the next call, however much time passes.
    ///
    /// # Examples
    ///
    /// ```
    /// host.set_line(port.level());
    /// ```
    pub fn level(&self) -> bool
        // proved: Of every port, whatever was done with it: its level is the level of the interrupt
        //   line, and the level that the monitor was told; what it was told of room is so; and no
        //   number of ticks changes the chip
        // on: `VirtualPort::level`, clauses `level`, `told`, `still` and `time`
        ensures level { result ≡ port.is_up self.now.chip }
        ensures told { IsTold self.now }
        ensures still { port.IsStill self.now.chip }
        ensures time { (n : ℕ) → spec.ticks n self.now.chip ≡ self.now.chip }
    {
        self.chip.is_interrupting()
    }
}
