//! The chip: its registers, its transmitter, its receiver and its modem lines.
ghost use Rattle.std.specs.Prelude.{◌≡◌, ◌<◌, ◌≤◌, ◌+◌, ℕ, [], ◌∷◌, true, false};
ghost use Rattle.std.specs.Prelude.{length, replicate, is_some, IfOk};
ghost use Rattle.uart_chip.specs.Chip as spec;
ghost use Rattle.uart_chip.specs.Sending as sending_spec;
ghost use Rattle.uart_chip.specs.Snapshot.{chip_of, unscheduled};
ghost use Rattle.uart_chip.specs.Machine.{arrivals, perform};
ghost use Rattle.uart_chip.specs.Jumps.{moves, jumps_in};
ghost use Rattle.uart_chip.specs.Receiver.{is_timed_out};
ghost use Rattle.uart_events.specs.declared.event.ArrivalMark.TheVariants.{Pending};
ghost use Rattle.uart_events.specs.declared.event.Chip.TheVariants.{Uart16550A};
ghost use Rattle.uart_events.specs.declared.event.TheConstants.{MAX_CHAR_TICKS};
ghost use Rattle.uart_spec.specs.declared.baud.TheConstants.{NUM_REGISTERS};
ghost use Rattle.uart_spec.specs.declared.setup.FifoSize.TheVariants.{Sixteen};

use crate::capabilities::{Capabilities, ChosenCapabilities};
use crate::controlling::{
    ChipParts, advance, arrive_live, change_lines, cut, divisor, is_dlab_set, is_interrupting,
    is_loopback, read, receive_room, rts_output, tick, write,
};
use crate::fifo::{Fifo, HeapFifo};
use crate::journal::{Journal, Marks};
use crate::modem::{Modem, ModemData};
use crate::receiver::{Character, Receiver, ReceiverData};
use crate::receiving::{expire_timeout, is_timed_out};
use crate::sending::{send_at_once, sends_at_once};
use crate::transmitter::{Transmitter, TransmitterData};
use crate::wire::{HeapWire, Wire, send};
use bitflags::Flags;
use std::alloc::{AllocError, Global};
use std::marker::Model;
use uart_events::{Chip, Event};
use uart_spec::FifoSize;
use uart_spec::registers::{DLL, DLM, IER, LCR, MCR, MSR, SPR};

/// The registers that keep what is written to them.
#[derive(Clone, Copy)]
pub struct Latches {
    /// The interrupt enable register.
    pub ier: IER,
    /// The line control register.
    pub lcr: LCR,
    /// The modem control register.
    pub mcr: MCR,
    /// The scratch register.
    pub scr: SPR,
    /// The low byte of the divisor latch.
    pub dll: DLL,
    /// The high byte of the divisor latch.
    pub dlm: DLM,
}

/// A chip without a schedule as plain data, without the bytes on its wire.
#[derive(Drop)]
pub struct ChipData {
    /// The model.
    pub model: Chip,
    /// The registers that keep what is written to them.
    pub latches: Latches,
    /// Whether the FIFOs are on.
    pub fifo: bool,
    /// The transmitter.
    pub transmitter: TransmitterData,
    /// The receiver.
    pub receiver: ReceiverData,
    /// The modem lines.
    pub modem: ModemData,
    /// Whether characters are cut to the word length.
    pub cuts: bool,
}

/// A chip of either model, without a schedule. `Device16550` puts it under one.
// The chip is written once, over queues, wires and journals of any kind: a machine allocates them
// (the defaults), and a live chip has them in arrays. What happens in it is in `controlling`,
// `transmitting` and `receiving`, over traits of its parts, which the structs for C have too.
#[derive(Drop)]
pub struct Uart<
    B: Fifo<u8> + Drop = HeapFifo<u8>,
    W: Wire + Drop = HeapWire,
    C: Fifo<Character> + Drop = HeapFifo<Character>,
    J: Journal + Drop = Marks,
    E: Capabilities + Drop = ChosenCapabilities,
> {
    model: Chip,
    latches: Latches,
    fifo: bool,
    transmitter: Transmitter<B, W>,
    receiver: Receiver<C, J>,
    modem: Modem,
    cuts: bool,
    capabilities: E,
}

impl<
    B: Fifo<u8> + Drop,
    W: Wire + Drop,
    C: Fifo<Character> + Drop,
    J: Journal + Drop,
    E: Capabilities + Drop,
> Model for Uart<B, W, C, J, E> {
    ghost use Rattle.std.specs.Prelude.{◌&&◌};
    ghost use Rattle.uart_chip.specs.Chip.{ChipState};
    ghost use Rattle.uart_chip.specs.Snapshot.{latches_of};

    ghost Value = { ChipState };

    // A register is seen as the byte that it holds. A chip whose queues keep their size has no
    // switch.
    ghost view = { λ c. record {
      model = c.model;
      cuts = c.cuts;
      auto_flow = E.auto_flow c.capabilities;
      has_size_switch = E.size_switch c.capabilities && (B.is_resizable && C.is_resizable);
      latches = latches_of c.latches;
      fifo = c.fifo;
      transmitter = c.transmitter;
      receiver = c.receiver;
      modem = c.modem;
    } };
}

impl<
    B: Fifo<u8> + Drop,
    W: Wire + Drop,
    C: Fifo<Character> + Drop,
    J: Journal + Drop,
    E: Capabilities + Drop,
> Uart<B, W, C, J, E> {
    /// Returns a chip after power-on, over empty queues of one size and an empty wire, with this
    /// journal, and with nothing beyond a 16550A.
    ///
    /// A character takes `char_ticks` ticks to be sent, and characters are cut to the word length
    /// if `cuts` is set.
    pub fn with_parts(
        bytes: B,
        wire: W,
        characters: C,
        journal: J,
        model: Chip,
        char_ticks: u16,
        cuts: bool,
    ) -> Self
        requires char_ticks { char_ticks ≤ MAX_CHAR_TICKS }
        requires bytes { B.items bytes ≡ [] }
        requires wire { W.sent wire ≡ [] }
        requires characters { C.items characters ≡ [] }
        requires sizes { C.size_of characters ≡ B.size_of bytes }
        ensures { (arrivals : ℕ) → J.recorded journal ≡ replicate arrivals Pending →
            result ≡ spec.with_size (B.size_of bytes)
            (record (spec.fresh model char_ticks (W.most wire) arrivals) { cuts = cuts }) }
    {
        Self {
            model,
            latches: Latches {
                ier: IER::empty(),
                lcr: LCR::empty(),
                mcr: MCR::empty(),
                scr: 0,
                dll: 0,
                dlm: 0,
            },
            fifo: false,
            transmitter: Transmitter::new(bytes, wire, char_ticks),
            receiver: Receiver::new(characters, journal, char_ticks),
            modem: Modem::new(),
            cuts,
            capabilities: E::none(),
        }
    }

    /// Returns the chip with these data, over empty queues of 16 and a wire that holds its bytes,
    /// without a schedule, and with nothing beyond a 16550A.
    pub fn from_parts(bytes: B, wire: W, characters: C, journal: J, saved: &ChipData) -> Self
        requires char_ticks { saved.now.transmitter.char_ticks ≤ MAX_CHAR_TICKS }
        requires bytes { B.items bytes ≡ [] }
        requires wire { W.most wire ≡ saved.now.transmitter.wire_capacity }
        requires characters { C.items characters ≡ [] }
        requires sizes { (B.size_of bytes ≡ Sixteen) × (C.size_of characters ≡ Sixteen) }
        requires journal { J.recorded journal ≡ [] }
        ensures { result ≡ chip_of saved.now (W.sent wire) }
    {
        let receiver = Receiver::from_data(
            characters,
            journal,
            saved.transmitter.char_ticks,
            &saved.receiver,
        );
        Self {
            model: saved.model,
            latches: saved.latches,
            fifo: saved.fifo,
            transmitter: Transmitter::from_data(bytes, wire, &saved.transmitter),
            receiver,
            modem: Modem::from_data(saved.modem),
            cuts: saved.cuts,
            capabilities: E::none(),
        }
    }

    /// Returns the chip as plain data, without the bytes on its wire and without its schedule. The
    /// data are those of a chip with FIFOs of 16 that has nothing beyond a 16550A.
    pub fn data(&self) -> ChipData
        requires transmitter { self.now.transmitter.size ≡ Sixteen }
        requires receiver { self.now.receiver.size ≡ Sixteen }
        requires flow { self.now.auto_flow ≡ false }
        requires switch { self.now.has_size_switch ≡ false }
        ensures { chip_of result self.now.transmitter.wire ≡ unscheduled self.now }
    {
        ChipData {
            model: self.model,
            latches: self.latches,
            fifo: self.fifo,
            transmitter: self.transmitter.data(),
            receiver: self.receiver.data(),
            modem: self.modem.data(),
            cuts: self.cuts,
        }
    }

    /// Returns the transmitter.
    pub fn transmitter(&self) -> &Transmitter<B, W>
        ensures { result.now ≡ self.now.transmitter }
    {
        &self.transmitter
    }

    /// Returns the receiver.
    pub fn receiver(&self) -> &Receiver<C, J>
        ensures { result.now ≡ self.now.receiver }
    {
        &self.receiver
    }

    /// Returns whether the FIFOs are on.
    pub fn fifo(&self) -> bool
        ensures { result ≡ self.now.fifo }
    {
        self.fifo
    }

    /// Returns whether what is sent comes back to the receiver.
    pub fn is_loopback(&self) -> bool
        ensures { result ≡ spec.is_loopback self.now.latches }
    {
        is_loopback(self)
    }

    /// Returns whether DATA and IER are the divisor latch.
    pub fn is_dlab_set(&self) -> bool
        ensures { result ≡ spec.is_dlab_set self.now.latches }
    {
        is_dlab_set(self)
    }

    /// Returns whether the chip asks the other end to send, by its output RTS.
    pub fn rts_output(&self) -> bool
        ensures { result ≡ spec.rts_output self.now }
    {
        rts_output(self)
    }

    /// Returns the divisor in the divisor latch.
    pub fn divisor(&self) -> u16
        ensures { result ≡ spec.divisor self.now.latches }
    {
        divisor(self)
    }

    /// Lets one tick pass.
    pub fn tick(&mut self)
        ensures { self.new ≡ spec.tick self.old }
    {
        tick(self);
    }

    /// Lets `n` ticks pass, and returns the number of jumps that this took.
    ///
    /// A jump ends at the tick in which a character enters or leaves the shift register, or takes
    /// all ticks that are left. So its cost does not grow with the number of ticks.
    pub fn ticks(&mut self, n: u16) -> usize
        ensures after { self.new ≡ spec.ticks n self.old }
        ensures jumps { result ≡ jumps_in n self.old }
        ensures most { result ≤ moves self.old.transmitter + 1 }
    {
        advance(self, n)
    }

    fn arrive(&mut self, byte: u8, errors: u8)
        requires { self.old.receiver.arrived < length self.old.receiver.marks }
        ensures { self.new ≡ spec.arrive byte errors self.old }
    {
        let loopback = is_loopback(self);
        let byte = cut(self, byte);
        self.receiver.arrive(loopback, self.fifo, byte, errors);
    }

    /// Receives a character without a schedule, with these error bits. In loopback the character is
    /// lost.
    pub fn arrive_live(&mut self, byte: u8, errors: u8)
        ensures { self.new ≡ spec.arrive_live byte errors self.old }
    {
        arrive_live(self, byte, errors);
    }

    /// Returns whether a reception timeout is due.
    pub fn is_timed_out(&self) -> bool
        ensures { result ≡ is_timed_out self.now.fifo self.now.receiver }
    {
        is_timed_out(&self.receiver, self.fifo)
    }

    /// Makes a reception timeout due if the FIFO is on and has a character.
    pub fn expire_timeout(&mut self)
        ensures { self.new ≡ record self.old {
          receiver = record self.old.receiver { timeout_ticks = self.old.receiver.timeout_limit };
        } }
    {
        expire_timeout(&mut self.receiver);
    }

    /// Returns how many characters can be received before one is lost. In loopback that is 0.
    pub fn receive_room(&self) -> usize
        ensures { result ≡ spec.receive_room self.now }
    {
        receive_room(self)
    }

    /// Removes this number of bytes from the front of the wire, or all if there are fewer.
    pub fn take_wire(&mut self, count: usize)
        ensures { self.new ≡ spec.take_wire count self.old }
    {
        self.transmitter.take_wire(count);
    }

    /// Sets the inputs of the modem, as bits of MSR.
    pub fn change_lines(&mut self, inputs: u8)
        ensures { self.new ≡ spec.change_lines inputs self.old }
    {
        change_lines(self, inputs);
    }

    /// Performs an event of the schedule. `Access` and `Mark` do nothing by themselves.
    pub fn perform(&mut self, event: Event)
        requires { self.old.receiver.arrived + arrivals (event ∷ []) ≤
            length self.old.receiver.marks }
        ensures { self.new ≡ perform event self.old }
    {
        match event {
            Event::Ticks(n) => {
                self.ticks(n);
            }
            Event::Arrive { byte, errors } => self.arrive(byte, errors),
            Event::Lines(inputs) => self.change_lines(inputs),
            Event::Access | Event::Mark => {}
        }
    }

    /// Returns whether an interrupt is enabled and pending: whether the interrupt output is active.
    pub fn is_interrupting(&self) -> bool
        ensures { result ≡ is_some (spec.interrupt self.now) }
    {
        is_interrupting(self)
    }

    /// Reads the register at this offset: returns its value, and has the effect of the read on the
    /// chip.
    #[inline]
    pub fn read(&mut self, offset: u8) -> u8
        // promise: each access, tick, arrival and change of lines is exactly its definition
        // with: MachineStep, read, write
        // shown by: registers, acknowledges-thr-empty, shifts-for-four-ticks
        // refused: reset_leaves_waiting
        // it is the offset of a register
        requires { offset < NUM_REGISTERS }
        ensures answers { result ≡ spec.answer offset self.old }
        ensures after { self.new ≡ spec.after_read offset self.old }
    {
        read(self, offset)
    }

    /// Writes a value to the register at this offset.
    pub fn write(&mut self, offset: u8, value: u8)
        // it is the offset of a register
        requires { offset < NUM_REGISTERS }
        ensures { self.new ≡ spec.after_write offset value self.old }
    {
        write(self, offset, value);
    }

    /// Returns whether a byte that is written to DATA can go onto the wire at once: outside of
    /// loopback, with nothing in the transmitter, which is not held off, and with room on the wire.
    pub fn sends_at_once(&self) -> bool
        ensures { result ≡ sending_spec.sends_at_once self.now }
    {
        sends_at_once(self)
    }

    /// Puts a byte that is written to DATA onto the wire. The caller must have asked
    /// `sends_at_once`.
    pub fn send_at_once(&mut self, value: u8)
        requires { sending_spec.sends_at_once self.old ≡ true }
        ensures { self.new ≡ sending_spec.send_at_once value self.old }
    {
        send_at_once(self, value);
    }
}

impl<
    B: Fifo<u8> + Drop,
    W: Wire + Drop,
    C: Fifo<Character> + Drop,
    J: Journal + Drop,
    E: Capabilities + Drop,
> ChipParts for Uart<B, W, C, J, E> {
    type Transmitter = Transmitter<B, W>;

    type Receiver = Receiver<C, J>;

    ghost state = { λ c. c };

    ghost canonical = { λ c. Unit {0} };

    ghost with_transmitter = { λ c t. record c { transmitter = t } };

    ghost with_receiver = { λ c r. record c { receiver = r } };

    fn model(&self) -> Chip {
        self.model
    }

    fn cuts(&self) -> bool {
        self.cuts
    }

    fn has_auto_flow(&self) -> bool {
        self.capabilities.has_auto_flow()
    }

    fn has_size_switch(&self) -> bool {
        self.capabilities.has_size_switch() && B::can_resize() && C::can_resize()
    }

    fn transmitter(&self) -> &Transmitter<B, W> {
        &self.transmitter
    }

    fn transmitter_mut(&mut self) -> &mut Transmitter<B, W> {
        &mut self.transmitter
    }

    fn receiver(&self) -> &Receiver<C, J> {
        &self.receiver
    }

    fn receiver_mut(&mut self) -> &mut Receiver<C, J> {
        &mut self.receiver
    }

    fn fifo(&self) -> bool {
        self.fifo
    }

    fn turn_fifo(&mut self, on: bool) {
        self.fifo = on;
    }

    fn resize(&mut self, size: FifoSize) {
        if self.has_size_switch() {
            self.transmitter.resize(size);
            self.receiver.resize(size);
        }
    }

    fn renew_modem(&mut self, mcr: MCR) {
        self.modem.renew(mcr);
    }

    fn change_inputs(&mut self, mcr: MCR, inputs: u8) {
        self.modem.change_inputs(mcr, MSR::from_bits_retain(inputs));
    }

    fn read_modem(&mut self) -> u8 {
        self.modem.read().bits()
    }

    fn has_modem_changes(&self) -> bool {
        self.modem.has_changes()
    }

    fn is_clear_to_send(&self) -> bool {
        self.modem.is_clear_to_send()
    }

    fn ier(&self) -> IER {
        self.latches.ier
    }

    fn lcr(&self) -> LCR {
        self.latches.lcr
    }

    fn mcr(&self) -> MCR {
        self.latches.mcr
    }

    fn latches(&self) -> Latches {
        self.latches
    }

    fn set_latches(&mut self, latches: Latches) {
        self.latches = latches;
    }
}

impl Uart<HeapFifo<u8>, HeapWire, HeapFifo<Character>, Marks, ChosenCapabilities> {
    /// Returns a chip after power-on, for a schedule with this number of arrivals. Allocates all of
    /// its memory.
    ///
    /// A character takes `char_ticks` ticks to be sent, the wire has room for `capacity` bytes, and
    /// characters are cut to the word length if `cuts` is set.
    ///
    /// # Errors
    ///
    /// `AllocError` if memory could not be allocated.
    pub fn new(
        alloc: Global,
        model: Chip,
        char_ticks: u16,
        capacity: usize,
        arrivals: usize,
        cuts: bool,
    ) -> Result<Self, AllocError>
        requires { char_ticks ≤ MAX_CHAR_TICKS }
        ensures { IfOk result (λ c. c ≡
            record (spec.fresh model char_ticks capacity arrivals) { cuts = cuts }) }
    {
        Self::new_sized(
            alloc,
            model,
            FifoSize::Sixteen,
            char_ticks,
            capacity,
            arrivals,
            cuts,
        )
    }

    /// Returns a chip as [`Uart::new`] does, whose FIFOs have this size.
    ///
    /// # Errors
    ///
    /// `AllocError` if memory could not be allocated.
    pub fn new_sized(
        alloc: Global,
        model: Chip,
        size: FifoSize,
        char_ticks: u16,
        capacity: usize,
        arrivals: usize,
        cuts: bool,
    ) -> Result<Self, AllocError>
        requires { char_ticks ≤ MAX_CHAR_TICKS }
        ensures { IfOk result (λ c. c ≡ spec.with_size size
            (record (spec.fresh model char_ticks capacity arrivals) { cuts = cuts })) }
    {
        let bytes = HeapFifo::new(alloc, size)?;
        let wire = HeapWire::new(alloc, capacity)?;
        let characters = HeapFifo::new(alloc, size)?;
        let journal = Marks::new(alloc, arrivals)?;
        Ok(Uart::with_parts(bytes, wire, characters, journal, model, char_ticks, cuts))
    }

    /// Returns a 16750 after power-on: a 16550A with automatic flow control and FIFOs of 16, which
    /// its size switch makes 64. Allocates all of its memory: a switch needs none.
    ///
    /// # Errors
    ///
    /// `AllocError` if memory could not be allocated.
    pub fn new_16750(
        alloc: Global,
        char_ticks: u16,
        capacity: usize,
        arrivals: usize,
        cuts: bool,
    ) -> Result<Self, AllocError>
        requires { char_ticks ≤ MAX_CHAR_TICKS }
        ensures { IfOk result (λ c. c ≡ spec.as_16750
            (record (spec.fresh Uart16550A char_ticks capacity arrivals) { cuts = cuts })) }
    {
        let uart = Self::new(
            alloc,
            Chip::Uart16550A,
            char_ticks,
            capacity,
            arrivals,
            cuts,
        )?;
        Ok(uart.into_16750())
    }

    // Returns the same chip with what a 16750 has beyond a 16550A.
    pub(crate) fn into_16750(self) -> Self
        ensures { result ≡ spec.as_16750 self }
    {
        let capabilities = ChosenCapabilities {
            auto_flow: true,
            size_switch: true,
        };
        Self {
            capabilities,
            ..self
        }
    }

    /// Returns the same chip with automatic flow control: MCR then keeps bit 5.
    pub fn with_auto_flow(self) -> Self
        // promise: with automatic flow control MCR keeps bit 5, the transmitter takes no next
        //   character while CTS is off, and RTS is off from the trigger level on; no other chip has
        //   it
        // with: with_auto_flow, kept_modem_control_of, is_held_off, rts_output
        // shown by: held-off-by-the-chip, mcr_keeps_bit_5_with_automatic_flow_control_alone,
        //   a_transmitter_that_is_held_off_sends_what_it_has_begun,
        //   rts_is_off_from_the_trigger_level_on
        // refused: held_transmitter_refills, mcr_keeps_bit_5_without_auto_flow
        ensures { result ≡ record self { auto_flow = true } }
    {
        let capabilities = ChosenCapabilities {
            auto_flow: true,
            ..self.capabilities
        };
        Self {
            capabilities,
            ..self
        }
    }

    /// Returns the chip with these data, and with these bytes on its wire. Allocates all of its
    /// memory.
    ///
    /// # Errors
    ///
    /// `AllocError` if memory could not be allocated.
    pub fn from_data(alloc: Global, saved: &ChipData, wire: &[u8]) -> Result<Self, AllocError>
        requires char_ticks { saved.now.transmitter.char_ticks ≤ MAX_CHAR_TICKS }
        requires room { length wire.now ≤ saved.now.transmitter.wire_capacity }
        ensures { IfOk result (λ c. c ≡ chip_of saved.now wire.now) }
    {
        let bytes = HeapFifo::new(alloc, FifoSize::Sixteen)?;
        let mut sent = HeapWire::new(alloc, saved.transmitter.wire_capacity)?;
        send(&mut sent, wire);
        let characters = HeapFifo::new(alloc, FifoSize::Sixteen)?;
        let journal = Marks::new(alloc, 0)?;
        Ok(Uart::from_parts(bytes, sent, characters, journal, saved))
    }
}
