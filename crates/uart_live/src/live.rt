//! The live chip.
ghost use Rattle.std.specs.Prelude.{◌≡◌, ◌≢◌, ◌<◌, ◌≤◌, ◌-◌, ◌==◌, length, Some, None};
ghost use Rattle.std.specs.Prelude.{true, false, not, bit_and, is_some, Err, IfOk, IsOk, ℕ, []};
ghost use Rattle.uart_chip.specs.Chip as spec;
ghost use Rattle.uart_chip.specs.Sending as sending_spec;
ghost use Rattle.uart_chip.specs.Jumps.{most_jumps, jumps_in};
ghost use Rattle.uart_spec.specs.Bits.{IsWithin, has_any};
ghost use Rattle.uart_chip.specs.Receiver.{waiting};
ghost use Rattle.uart_chip.specs.Transmitter.{held};
ghost use Rattle.uart_live.specs.declared.errors.ChipError.{ChipError};
ghost use Rattle.uart_live.specs.declared.errors.InputError.{InputError};
ghost use Rattle.uart_live.specs.Live.{IsLive};
ghost use Rattle.uart_live.specs.Outputs.{outputs};
ghost use Rattle.uart_live.specs.Held.{arrive_holding, expire};
ghost use Rattle.uart_live.specs.Quick.{clear_status, passed, when_due};
ghost use Rattle.uart_live.specs.Refused.{refusal};
ghost use Rattle.uart_live.specs.Size.{fifo_size};
ghost use Rattle.uart_spec.specs.declared.baud.TheConstants.{NUM_REGISTERS};
ghost use Rattle.uart_spec.specs.declared.registers.interrupt_enable.TheConstants.IER;
ghost use Rattle.uart_spec.specs.declared.registers.interrupt_status.TheConstants.ISR;
ghost use Rattle.uart_spec.specs.declared.registers.line_control.TheConstants.LCR;
ghost use Rattle.uart_spec.specs.declared.registers.line_status.TheConstants.LSR;
ghost use Rattle.uart_spec.specs.declared.registers.modem_status.TheConstants.MSR;
ghost use Rattle.uart_spec.specs.declared.registers.offsets.TheConstants as offsets;

mod snapshot;

use crate::due::interrupts_when_due;
use crate::errors::{ChipError, InputError};
use crate::fixed::{FixedFifo, FixedWire, NoMarks, WIRE_ROOM, is_size};
use bitflags::Flags;
use std::marker::Model;
use uart_chip::controlling::{ChipParts, cut};
use uart_chip::receiving::{ReceiverParts, take_front};
use uart_chip::transmitting::TransmitterParts;
use uart_chip::{Character, NoCapabilities, Origin, Uart, room_of};
use uart_events::{Chip, MAX_CHAR_TICKS};
use uart_spec::registers::{IER, LCR, LSR, MCR, MSR, offsets};
use uart_spec::{FIFO_SIZE, FifoSize};

// A chip all of whose memory is in arrays, without a schedule. So no call can be refused memory.
// The wire has room for 64 bytes, as in the port in C: its owner takes them after each `ticks`.
// It is a 16550A or a 16450, which have neither automatic flow control nor a switch of their size.
type LiveUart<const FIFO: usize> = Uart<
    FixedFifo<u8, FIFO>,
    FixedWire,
    FixedFifo<Character, FIFO>,
    NoMarks,
    NoCapabilities,
>;

/// A serial chip in software whose owner lets time pass, passes characters to it, and takes the
/// bytes that it sends.
///
/// For each access of the guest call `read` or `write`. As the clock goes on, call `ticks`, and
/// take what was sent with `wire` and `take_wire`. When a character or a change of the modem lines
/// arrives, call `arrive` or `set_lines`. After each of these calls set the guest's interrupt line
/// to `is_interrupting`.
///
/// No call allocates memory, and none blocks. The chip keeps no record of what was sent and
/// received, so it can run without end.
///
/// Each of its FIFOs holds `FIFO` characters: 16, 32, 64, 128 or 256. A [`LiveChip`] has 16. A
/// guest finds no other number in a register of the chip: whoever makes the machine tells it, as by
/// `fifo-size` of a device tree.
///
/// # Examples
///
/// ```
/// chip.write(offset, value);
/// chip.ticks(elapsed);
/// let sent = chip.wire().len().min(sink.len());
/// sink[..sent].copy_from_slice(&chip.wire()[..sent]);
/// chip.take_wire(sent);
/// ```
#[derive(Drop)]
pub struct LiveChipWith<const FIFO: usize> {
    uart: LiveUart<FIFO>,
}

/// A [`LiveChipWith`] FIFOs of 16 characters, as those of a 16550A. Nearly everybody wants this.
pub type LiveChip = LiveChipWith<FIFO_SIZE>;

impl<const FIFO: usize> Model for LiveChipWith<FIFO> {
    ghost use Rattle.std.specs.Prelude.{◌≤◌};
    ghost use Rattle.uart_chip.specs.Chip.{ChipState};
    ghost use Rattle.uart_live.specs.Live.{IsLive};
    ghost use Rattle.uart_live.specs.Size.{fifo_size};

    ghost Value = { ChipState };

    ghost view = { λ live. live.uart };

    ghost invariant = { λ live. (FIFO ≤ 256) × IsLive (fifo_size FIFO) live.uart };
}

// Returns why no chip is made.
fn refusal(characters: usize, char_ticks: u16, wire_capacity: usize) -> Option<ChipError>
    ensures { result ≡ refusal characters char_ticks wire_capacity }
{
    if !is_size(characters) {
        Some(ChipError::BadFifo)
    } else if char_ticks == 0 || char_ticks > MAX_CHAR_TICKS {
        Some(ChipError::BadTicks)
    } else if wire_capacity > WIRE_ROOM {
        Some(ChipError::BadWire)
    } else {
        None
    }
}

// There is no `new_cut`. An owner who wants characters cut makes a chip, sets `cuts` of its data,
// and restores it: data are sound with either value.
impl<const FIFO: usize> LiveChipWith<FIFO> {
    /// Returns a chip after power-on.
    ///
    /// A character takes `char_ticks` ticks in the shift register, and the wire has room for
    /// `wire_capacity` bytes until they are taken. If it is full, the transmitter keeps what it
    /// holds.
    ///
    /// # Errors
    ///
    /// The first of these:
    ///
    /// - `BadFifo` if `FIFO` is none of 16, 32, 64, 128 and 256. A [`LiveChip`] has 16.
    /// - `BadTicks` if `char_ticks` is 0 or more than 1000.
    /// - `BadWire` if `wire_capacity` is more than 64.
    ///
    /// # Examples
    ///
    /// ```
    /// LiveChip::new(Chip::Uart16550A, 4, 64)
    /// ```
    pub fn new(chip: Chip, char_ticks: u16, wire_capacity: usize) -> Result<Self, ChipError>
        // promise: a live chip, and a port, has FIFOs of the size that its type names, 16, 32, 64,
        //   128 or 256, and keeps it; any other number is refused before all else
        // with: new.built, try_new.made, try_new.refused, IsLive, is_size, refusal
        // shown by: a_chip_of_each_size_holds_as_many, no_fifo_holds_another_number
        ensures built { IfOk result (λ live. live ≡
            spec.with_size (fifo_size FIFO) (spec.fresh chip char_ticks wire_capacity 0)) }
        ensures refused { (reason : ChipError) →
            refusal FIFO char_ticks wire_capacity ≡ Some reason → result ≡ Err reason }
        ensures accepted { refusal FIFO char_ticks wire_capacity ≡ None → IsOk result }
    {
        if let Some(reason) = refusal(FIFO, char_ticks, wire_capacity) {
            return Err(reason);
        }
        let uart = Uart::with_parts(
            FixedFifo::new(0),
            FixedWire::new(wire_capacity),
            FixedFifo::new(Character::default()),
            NoMarks,
            chip,
            char_ticks,
            false,
        );
        Ok(Self { uart })
    }

    /// Reads the register at this offset for the guest, and returns its value. No time passes.
    ///
    /// A read can change the chip: of DATA it takes a received byte, of LSR and MSR it clears the
    /// errors and changes, and of ISR it may acknowledge an interrupt. So check `is_interrupting`
    /// after it.
    ///
    /// # Examples
    ///
    /// ```
    /// let value = chip.read(offset);
    /// let line = chip.is_interrupting();
    /// ```
    #[inline]
    pub fn read(&mut self, offset: u8) -> u8
        requires { offset < NUM_REGISTERS }
        ensures answers { result ≡ spec.answer offset self.old }
        ensures after { self.new ≡ spec.after_read offset self.old }
    {
        self.uart.read(offset)
    }

    /// Writes a value to the register at this offset for the guest. No time passes.
    ///
    /// Never fails: a byte that is written to DATA is sent by later `ticks`. If the transmitter has
    /// no room, a byte is lost, and `overflows` counts it. Check `is_interrupting` after it.
    ///
    /// # Examples
    ///
    /// ```
    /// chip.write(offset, value);
    /// chip.ticks(elapsed);
    /// ```
    pub fn write(&mut self, offset: u8, value: u8)
        requires { offset < NUM_REGISTERS }
        ensures { self.new ≡ spec.after_write offset value self.old }
    {
        self.uart.write(offset, value);
    }

    /// Returns whether a byte that the guest writes to DATA can go onto the wire at once: outside
    /// of loopback, with nothing in the transmitter and with room on the wire. Under DLAB, where
    /// DATA is the divisor latch, it cannot.
    ///
    /// # Examples
    ///
    /// ```
    /// if chip.sends_at_once() {
    ///     chip.send_at_once(value);
    /// } else {
    ///     chip.write(offsets::DATA as u8, value);
    /// }
    /// ```
    #[inline]
    pub fn sends_at_once(&self) -> bool
        // proved: Whether a byte can go onto the wire at once, and what that leaves: the byte is on
        //   the wire, and THR became empty
        // on: `LiveChip::sends_at_once`, clause `sends`; `send_at_once`
        ensures sends { result ≡ sending_spec.sends_at_once self.now }
        ensures live { IsLive (fifo_size FIFO) self.now }
    {
        self.uart.sends_at_once()
    }

    /// Puts a byte that the guest writes to DATA onto the wire. The caller must have asked
    /// `sends_at_once`.
    ///
    /// If a character takes one tick, the transmitter is as after a write of DATA and two ticks or
    /// more. But no time passes: a reception timeout is as near as before.
    ///
    /// # Examples
    ///
    /// ```
    /// if chip.sends_at_once() {
    ///     chip.send_at_once(value);
    /// } else {
    ///     chip.write(offsets::DATA as u8, value);
    /// }
    /// ```
    #[inline]
    pub fn send_at_once(&mut self, value: u8)
        requires { sending_spec.sends_at_once self.old ≡ true }
        ensures { self.new ≡ sending_spec.send_at_once value self.old }
    {
        self.uart.send_at_once(value);
    }

    /// Notes that a byte which the guest writes to DATA was taken, and does not go onto the wire.
    /// Returns whether that is possible: whether the chip
    /// [`sends_at_once`](Self::sends_at_once). If it is not, nothing changes.
    ///
    /// If the wire is empty, this does the same as `send_at_once` and `take_wire(1)`, whatever the
    /// byte is.
    #[inline]
    pub fn pass_wire(&mut self) -> bool
        // proved: A byte can be taken before it is on an empty wire, which leaves what
        //   `send_at_once` and `take_wire(1)` leave; the byte is the one that is sent
        // on: `LiveChip::pass_wire`, clause `after`; `cut`
        ensures sends { result ≡ sending_spec.sends_at_once self.old }
        ensures passed { result ≡ true → self.new ≡ passed self.old }
        ensures after { (value : ℕ) → result ≡ true → self.old.transmitter.wire ≡ [] →
            self.new ≡ spec.take_wire 1 (sending_spec.send_at_once value self.old) }
        ensures left { result ≡ false → self.new ≡ self.old }
        ensures live { IsLive (fifo_size FIFO) self.old }
    {
        let sends = self.uart.sends_at_once();
        if sends {
            self.uart.transmitter_mut().set_thr_pending(true);
        }
        sends
    }

    /// Makes a THR-empty interrupt pending, as when the last byte leaves the transmitter's queue.
    ///
    /// For an owner who finds that a write of FCR emptied the queue: a switch of the FIFOs does so
    /// without the interrupt. Check `is_interrupting` after it.
    ///
    /// # Examples
    ///
    /// ```
    /// let held = chip.held_len();
    /// chip.write(offsets::FCR as u8, value);
    /// if chip.held_len() < held {
    ///     chip.raise_thr_empty();
    /// }
    /// ```
    pub fn raise_thr_empty(&mut self)
        // proved: A THR-empty interrupt is made pending, and nothing else changes
        // on: `LiveChip::raise_thr_empty`
        ensures { self.new ≡ spec.with_thr_pending true self.old }
    {
        let transmitter = self.uart.transmitter_mut();
        transmitter.set_thr_pending(true);
    }

    /// Returns the byte that is sent if the guest writes this value to DATA: cut to the word length
    /// if the chip cuts characters, else the value itself.
    #[inline]
    pub fn cut(&self, value: u8) -> u8
        ensures { result ≡ spec.cut_of self.now value }
    {
        cut(&self.uart, value)
    }

    /// Receives a byte without errors, if there is room for it. Returns whether there is. If not,
    /// nothing changes.
    ///
    /// The effect is that of [`LiveChipWith::arrive`]. Most input is of this kind.
    #[inline]
    pub fn arrive_in_room(&mut self, byte: u8) -> bool
        ensures room { result ≡ not (spec.receive_room self.old == 0) }
        ensures arrived { result ≡ true → self.new ≡ spec.arrive_live byte 0 self.old }
        ensures left { result ≡ false → self.new ≡ self.old }
    {
        let receiver = self.uart.receiver();
        let room = room_of(self.uart.fifo(), receiver.size());
        if self.uart.is_loopback() || receiver.queue_len() >= room {
            return false;
        }
        // Of what can become of an arrival this is the first case, without a test of the others.
        let byte = cut(&self.uart, byte);
        let receiver = self.uart.receiver_mut();
        receiver.put(Character {
            byte,
            errors: 0,
            origin: Origin::Live,
        });
        receiver.set_timeout_ticks(0);
        receiver.set_unscheduled_lost(false);
        true
    }

    /// Returns whether the guest has an interrupt enabled. If not, the interrupt line is down.
    #[inline]
    pub fn has_interrupts_on(&self) -> bool
        // proved: Whether an interrupt is enabled, and whether that of received characters is
        // on: `LiveChip::has_interrupts_on`, `has_input_interrupt_on`
        ensures on { result ≡ not (self.now.latches.ier == 0) }
        ensures live { IsLive (fifo_size FIFO) self.now }
    {
        !self.uart.ier().is_empty()
    }

    /// Returns whether the guest has the interrupt of received characters enabled.
    #[inline]
    pub fn has_input_interrupt_on(&self) -> bool
        ensures on { result ≡ has_any self.now.latches.ier IER.DATA_READY.0 }
        ensures live { IsLive (fifo_size FIFO) self.now }
    {
        self.uart.ier().intersects(IER::DATA_READY)
    }

    /// Returns whether the guest has the interrupt of an empty THR enabled.
    #[inline]
    pub fn has_output_interrupt_on(&self) -> bool
        ensures on { result ≡ has_any self.now.latches.ier IER.THR_EMPTY.0 }
        ensures live { IsLive (fifo_size FIFO) self.now }
    {
        self.uart.ier().intersects(IER::THR_EMPTY)
    }

    /// Returns whether the interrupt line is up if a reception timeout is due, and a THR-empty
    /// interrupt is pending or is not.
    ///
    /// For an owner who lets so much time pass that a timeout is due: then it is
    /// `is_interrupting`, without a look at the trigger level and at the time.
    #[inline]
    pub fn interrupts_when_due(&self, is_thr_pending: bool) -> bool
        // proved: Whether the line is up once a reception timeout is due, with an interrupt of an
        //   empty THR and without
        // on: `LiveChip::interrupts_when_due`
        ensures up { result ≡ is_some (spec.interrupt (when_due is_thr_pending self.now)) }
        ensures live { IsLive (fifo_size FIFO) self.now }
    {
        interrupts_when_due(&self.uart, is_thr_pending)
    }

    /// Reads DATA for the guest, as [`LiveChipWith::read`] does.
    #[inline]
    pub fn read_data(&mut self) -> u8
        ensures answers { result ≡ spec.answer offsets.DATA self.old }
        ensures after { self.new ≡ spec.after_read offsets.DATA self.old }
        ensures live { IsLive (fifo_size FIFO) self.old }
    {
        if self.uart.is_dlab_set() {
            return self.uart.read(offsets::DATA as u8);
        }
        take_front(self.uart.receiver_mut())
    }

    /// Reads LSR for the guest, if it shows no error and no character that waits has one. Otherwise
    /// returns `None`, and nothing changes.
    ///
    /// The value and the effect are those of [`LiveChipWith::read`]. A guest that waits makes this
    /// read again and again.
    #[inline]
    pub fn read_clear_status(&mut self) -> Option<u8>
        // proved: The short ways of what guests do most answer and leave what `read` and `arrive`
        //   do; one that refuses changes nothing
        // on: `LiveChip::read_clear_status`, `read_data` and `arrive_in_room`
        ensures value { result ≡ clear_status self.old }
        ensures read { is_some result ≡ true → self.new ≡ spec.after_read offsets.LSR self.old }
        ensures left { is_some result ≡ false → self.new ≡ self.old }
        ensures live { IsLive (fifo_size FIFO) self.old }
    {
        if self.uart.receiver().has_errors() {
            return None;
        }
        let receiver = self.uart.receiver().status();
        let status = receiver.union(self.uart.transmitter().status());
        if status.intersects(LSR::LINE_ERRORS) {
            return None;
        }
        // Without an error there is nothing to clear. All that is new is that the front was
        // reported.
        if self.uart.receiver().queue_len() > 0 {
            self.uart.receiver_mut().set_front_reported(true);
        }
        Some(status.bits())
    }

    /// Lets `count` ticks pass. Returns the number of jumps that this took, which is at most two
    /// more than a FIFO holds characters, whatever `count` is: 18 with FIFOs of 16.
    ///
    /// A jump ends at the tick in which a character enters or leaves the shift register, or takes
    /// all ticks that are left.
    ///
    /// What was sent in this time is on the `wire`. Check `is_interrupting` after it.
    ///
    /// # Examples
    ///
    /// ```
    /// chip.ticks(elapsed);
    /// ```
    pub fn ticks(&mut self, count: u16) -> usize
        // proved: Ticks pass in at most two jumps more than a FIFO holds characters, which are 18
        //   with FIFOs of 16, whatever their number, and the result is the number of jumps, as of
        //   `idle`
        // on: `LiveChip::ticks`, clauses `jumps` and `most`
        ensures after { self.new ≡ spec.ticks count self.old }
        ensures jumps { result ≡ jumps_in count self.old }
        ensures most { result ≤ most_jumps (fifo_size FIFO) }
    {
        self.uart.ticks(count)
    }

    /// Receives a character from the remote, with these errors: parity, framing and break, as bits
    /// of LSR.
    ///
    /// In loopback the character is lost. If the FIFO is full, the character is dropped; without
    /// FIFO it replaces the one that was received before, which is dropped. The guest sees a drop
    /// as the overrun flag. To lose none, check `receive_room` first. Check `is_interrupting` after
    /// it.
    ///
    /// # Errors
    ///
    /// `BadErrors` if `errors` has any other bit. Nothing changes then.
    ///
    /// # Examples
    ///
    /// ```
    /// if chip.receive_room() > 0 {
    ///     chip.arrive(byte, LSR::empty())?;
    /// }
    /// ```
    #[inline]
    pub fn arrive(&mut self, byte: u8, errors: LSR) -> Result<(), InputError>
        ensures accepted { IsWithin errors.0 LSR.CHARACTER_ERRORS.0 →
            IsOk result × (self.new ≡ spec.arrive_live byte errors.0 self.old) }
        ensures refused { bit_and errors.0 LSR.CHARACTER_ERRORS.0 ≢ errors.0 →
            (result ≡ Err InputError.BadErrors) × (self.new ≡ self.old) }
    {
        if errors.intersection(LSR::CHARACTER_ERRORS) != errors {
            return Err(InputError::BadErrors);
        }
        self.uart.arrive_live(byte, errors.bits());
        Ok(())
    }

    /// Receives a character as [`LiveChipWith::arrive`] does, but a reception timeout that is due
    /// stays due.
    ///
    /// It then stays due until the guest reads DATA, or writes FCR so that the FIFO is emptied, or
    /// a character comes back in loopback. Only ISR and `is_interrupting` show the difference.
    ///
    /// # Errors
    ///
    /// `BadErrors` if `errors` has a bit other than parity, framing and break. Nothing changes
    /// then.
    ///
    /// # Examples
    ///
    /// ```
    /// if chip.receive_room() > 0 {
    ///     chip.arrive_holding_timeout(byte, LSR::empty())?;
    /// }
    /// ```
    pub fn arrive_holding_timeout(&mut self, byte: u8, errors: LSR) -> Result<(), InputError>
        ensures accepted { IsWithin errors.0 LSR.CHARACTER_ERRORS.0 →
            IsOk result × (self.new ≡ arrive_holding byte errors.0 self.old) }
        ensures refused { bit_and errors.0 LSR.CHARACTER_ERRORS.0 ≢ errors.0 →
            (result ≡ Err InputError.BadErrors) × (self.new ≡ self.old) }
    {
        // The receiver's count of ticks says whether a timeout is due. So no bit has to be kept and
        // saved for a held timeout, and every other contract is as it was.
        let is_due = self.uart.is_timed_out();
        self.arrive(byte, errors)?;
        if is_due {
            self.uart.expire_timeout();
        }
        Ok(())
    }

    /// Sets the inputs of the modem: CTS, DSR, RI and CD, as bits of MSR. Check `is_interrupting`
    /// after it.
    ///
    /// # Errors
    ///
    /// `BadLines` if `inputs` has any other bit. Nothing changes then.
    ///
    /// # Examples
    ///
    /// ```
    /// chip.set_lines(MSR::CTS.union(MSR::DSR))?;
    /// ```
    pub fn set_lines(&mut self, inputs: MSR) -> Result<(), InputError>
        ensures accepted { IsWithin inputs.0 MSR.LINES.0 →
            IsOk result × (self.new ≡ spec.change_lines inputs.0 self.old) }
        ensures refused { bit_and inputs.0 MSR.LINES.0 ≢ inputs.0 →
            (result ≡ Err InputError.BadLines) × (self.new ≡ self.old) }
    {
        if inputs.intersection(MSR::LINES) != inputs {
            return Err(InputError::BadLines);
        }
        self.uart.change_lines(inputs.bits());
        Ok(())
    }

    /// Returns the level of the interrupt line: whether a read of ISR would show an interrupt.
    /// Changes nothing.
    ///
    /// # Examples
    ///
    /// ```
    /// Outcome {
    ///     sent,
    ///     is_interrupting: chip.is_interrupting(),
    /// }
    /// ```
    #[inline]
    pub fn is_interrupting(&self) -> bool
        // proved: The interrupt line is up exactly if a read of ISR would show an interrupt
        // on: `LiveChip::is_interrupting`, clauses `pending` and `shown`
        // proved: Every live chip is sound, and its FIFOs keep their size, whatever was done with
        //   it
        // on: `LiveChip::is_interrupting`, clause `live`; `fifo_size`
        ensures pending { result ≡ is_some (spec.interrupt self.now) }
        ensures shown { result ≡
            not (has_any (spec.answer offsets.ISR self.now) ISR.INTERRUPT_STATUS.0) }
        ensures live { IsLive (fifo_size FIFO) self.now }
    {
        self.uart.is_interrupting()
    }

    /// Returns the bytes that were sent and have not been taken, in order.
    ///
    /// # Examples
    ///
    /// ```
    /// let sent = chip.wire().len().min(sink.len());
    /// sink[..sent].copy_from_slice(&chip.wire()[..sent]);
    /// ```
    pub fn wire(&self) -> &[u8]
        ensures { result.now ≡ self.now.transmitter.wire }
    {
        self.uart.transmitter().wire()
    }

    /// Removes this number of bytes from the front of the wire, or all if there are fewer. The wire
    /// has room for more then.
    ///
    /// # Examples
    ///
    /// ```
    /// chip.take_wire(sent);
    /// ```
    #[inline]
    pub fn take_wire(&mut self, count: usize)
        ensures { self.new ≡ spec.take_wire count self.old }
    {
        self.uart.take_wire(count);
    }

    /// Returns how many more bytes the wire has room for.
    #[inline]
    pub fn wire_room(&self) -> usize
        ensures room { result ≡ self.now.transmitter.capacity - length self.now.transmitter.wire }
        ensures live { IsLive (fifo_size FIFO) self.now }
    {
        self.uart.transmitter().wire_room()
    }

    /// Returns whether what the guest sends comes back to its receiver.
    pub fn is_loopback(&self) -> bool
        ensures { result ≡ spec.is_loopback self.now.latches }
    {
        self.uart.is_loopback()
    }

    /// Returns whether the guest has DLAB set: then DATA and IER are the divisor latch.
    pub fn is_dlab_set(&self) -> bool
        ensures { result ≡ spec.is_dlab_set self.now.latches }
    {
        self.uart.is_dlab_set()
    }

    /// Returns the outputs of the guest as the lines have them: those of DTR, RTS, OUT1 and OUT2
    /// that are on, and no other bit. In loopback all are off.
    ///
    /// # Examples
    ///
    /// ```
    /// let is_driving = chip.outputs().contains(MCR::RTS);
    /// ```
    pub fn outputs(&self) -> MCR
        ensures { result.0 ≡ outputs self.now.latches }
    {
        if self.uart.is_loopback() {
            return MCR::from_bits_retain(0);
        }
        let outputs = MCR::DTR
            .union(MCR::RTS)
            .union(MCR::OUT_1)
            .union(MCR::OUT_2_INT_ENABLE);
        self.uart.mcr().intersection(outputs)
    }

    /// Returns whether the guest sends a break: LCR bit 6 is set, and a line would be at 0 as long.
    ///
    /// The chip has no line, so what the guest writes in a break is on the wire all the same. On a
    /// real line it would be lost.
    pub fn is_breaking(&self) -> bool
        ensures { result ≡ has_any self.now.latches.lcr LCR.SET_BREAK.0 }
    {
        self.uart.lcr().intersects(LCR::SET_BREAK)
    }

    /// Returns the size of the FIFOs, which is that of `FIFO` characters.
    #[inline]
    pub fn fifo_size(&self) -> FifoSize
        ensures size { result ≡ fifo_size FIFO }
        ensures transmitter { result ≡ self.now.transmitter.size }
        ensures live { IsLive (fifo_size FIFO) self.now }
    {
        self.uart.transmitter().size()
    }

    /// Returns whether the guest has the FIFOs on.
    pub fn has_fifo_on(&self) -> bool
        ensures { result ≡ self.now.fifo }
    {
        self.uart.fifo()
    }

    /// Makes a reception timeout due now, if the FIFO is on and a character waits in it.
    ///
    /// For an owner who lets no time pass between a character and its timeout. While nothing moves
    /// in the transmitter, this is what four character times do. Check `is_interrupting` after it.
    pub fn expire_timeout(&mut self)
        ensures { self.new ≡ expire self.old }
    {
        self.uart.expire_timeout();
    }

    /// Returns how many characters can be received before one is lost. In loopback that is 0.
    ///
    /// # Examples
    ///
    /// ```
    /// if chip.receive_room() > 0 {
    ///     chip.arrive(byte, LSR::empty())?;
    /// }
    /// ```
    pub fn receive_room(&self) -> usize
        ensures { result ≡ spec.receive_room self.now }
    {
        self.uart.receive_room()
    }

    /// Returns the number of received characters that the guest has not read.
    pub fn waiting_len(&self) -> usize
        ensures { result ≡ length (waiting self.now.receiver) }
    {
        self.uart.receiver().waiting_len()
    }

    /// Returns the number of bytes in the transmitter, which are still to be sent.
    pub fn held_len(&self) -> usize
        ensures { result ≡ length (held self.now.transmitter) }
    {
        self.uart.transmitter().held_len()
    }

    /// Returns the divisor in the divisor latch, from which the baud rate follows.
    pub fn divisor(&self) -> u16
        ensures { result ≡ spec.divisor self.now.latches }
    {
        self.uart.divisor()
    }

    /// Returns how many writes of DATA found no room in the transmitter, up to `u64::MAX`.
    pub fn overflows(&self) -> u64
        ensures { result ≡ self.now.transmitter.overflows }
    {
        self.uart.transmitter().overflows()
    }
}
