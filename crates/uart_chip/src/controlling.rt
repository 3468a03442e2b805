//! What happens in a chip, over its parts: what an access does, and what happens between accesses.
ghost use Rattle.std.specs.Borrow.{Lends, sem};
ghost use Rattle.std.specs.Prelude.{◌≡◌, ◌<◌, ◌≤◌, ◌==◌, ◌+◌, true, false, [], not, bit_and};
ghost use Rattle.std.specs.Prelude.{bit_or, is_some};
ghost use Rattle.uart_chip.specs.Chip as spec;
ghost use Rattle.uart_chip.specs.Chip.{ChipState};
ghost use Rattle.uart_chip.specs.Jumps as jumps;
ghost use Rattle.uart_chip.specs.Jumps.{moves, jumps_in};
ghost use Rattle.uart_chip.specs.Masks.{kept_mcr};
ghost use Rattle.uart_chip.specs.Modem.{renew};
ghost use Rattle.uart_chip.specs.Receiver as receiver;
ghost use Rattle.uart_chip.specs.Snapshot.{latches_of};
ghost use Rattle.uart_chip.specs.Status.{fifo_status};
ghost use Rattle.uart_chip.specs.Transmitter as transmitter;
ghost use Rattle.uart_chip.specs.Transmitter.{looped_byte};
ghost use Rattle.uart_spec.specs.declared.baud.TheConstants.{NUM_REGISTERS};
ghost use Rattle.uart_spec.specs.Bits.{has_any};
ghost use Rattle.uart_spec.specs.declared.registers.modem_status.TheConstants.MSR;
ghost use Rattle.uart_spec.specs.declared.registers.offsets.TheConstants as offsets;
ghost use Rattle.uart_spec.specs.declared.setup.FifoSize.TheVariants.{SixtyFour};
ghost use Rattle.uart_spec.specs.FifoSize.{characters};

use crate::chip::Latches;
use crate::masks::{kept_interrupts, kept_modem_control_of};
use crate::receiving::{
    ReceiverParts, clear, count_up, is_data_pending, is_timed_out, report, take_front,
};
use crate::transmitting::{TransmitterParts, count_down, load, next_move};
use crate::{flag, receiving, transmitting};
use bitflags::Flags;
use uart_events::Chip;
use uart_spec::FifoSize;
use uart_spec::registers::{
    FCR, FifoTriggerLevel, IER, ISR, InterruptType, LCR, LSR, MCR, MSR, WordLength, offsets,
};

/// What a chip is made of: its model, the registers that keep what is written to them, a
/// transmitter, a receiver and the modem lines, and how each is read and changed.
// Two types have such parts: `Uart`, and the struct of the port in C. Of that struct any bytes
// are legal, so its flags are bytes and its lengths may be beyond their arrays: it can be no
// `Uart`. A `Uart` that is filled from it in each call would more than double what a read of LSR
// costs.
pub trait ChipParts {
    /// The transmitter.
    type Transmitter: TransmitterParts;

    /// The receiver.
    type Receiver: ReceiverParts;

    // The chip that the parts are.
    ghost state: { Self → ChipState };

    // Whether the parts have the one value for this chip. It stays so.
    ghost canonical: { Self → Type 0 };

    // The parts with another transmitter, and with another receiver.
    ghost with_transmitter: { Self → Self.Transmitter → Self };

    ghost with_receiver: { Self → Self.Receiver → Self };

    /// Returns the model.
    fn model(&self) -> Chip
        ensures { result ≡ (state self.now).model };

    /// Returns whether characters are cut to the word length.
    fn cuts(&self) -> bool
        ensures { result ≡ (state self.now).cuts };

    /// Returns whether the chip has automatic flow control.
    fn has_auto_flow(&self) -> bool
        ensures { result ≡ (state self.now).auto_flow };

    /// Returns whether the chip has the switch of a 16750 between FIFOs of 16 characters and of 64.
    fn has_size_switch(&self) -> bool
        ensures { result ≡ (state self.now).has_size_switch };

    /// Returns the transmitter.
    fn transmitter(&self) -> &Self::Transmitter
        ensures { Self.Transmitter.state result.now ≡ (state self.now).transmitter };

    /// Lends the transmitter.
    fn transmitter_mut(&mut self) -> &mut Self::Transmitter
        ensures* writes_back { sem 𝓛 (Lends Self.row Self.Transmitter.row self.entry result
            (with_transmitter self.old)) }
        ensures value { Self.Transmitter.state result.now ≡ (state self.old).transmitter }
        ensures after { (transmitter : Self.Transmitter) →
            state (with_transmitter self.old transmitter) ≡ record (state self.old)
            { transmitter = Self.Transmitter.state transmitter } }
        ensures part { canonical self.old → Self.Transmitter.canonical result.now }
        ensures canonical { (transmitter : Self.Transmitter) → canonical self.old →
            Self.Transmitter.canonical transmitter →
            canonical (with_transmitter self.old transmitter) };

    /// Returns the receiver.
    fn receiver(&self) -> &Self::Receiver
        ensures { Self.Receiver.state result.now ≡ (state self.now).receiver };

    /// Lends the receiver.
    fn receiver_mut(&mut self) -> &mut Self::Receiver
        ensures* writes_back { sem 𝓛 (Lends Self.row Self.Receiver.row self.entry result
            (with_receiver self.old)) }
        ensures value { Self.Receiver.state result.now ≡ (state self.old).receiver }
        ensures after { (receiver : Self.Receiver) →
            state (with_receiver self.old receiver) ≡ record (state self.old)
            { receiver = Self.Receiver.state receiver } }
        ensures part { canonical self.old → Self.Receiver.canonical result.now }
        ensures canonical { (receiver : Self.Receiver) → canonical self.old →
            Self.Receiver.canonical receiver → canonical (with_receiver self.old receiver) };

    /// Returns whether the FIFOs are on.
    fn fifo(&self) -> bool
        ensures { result ≡ (state self.now).fifo };

    /// Sets whether the FIFOs are on.
    fn turn_fifo(&mut self, on: bool)
        ensures after { state self.new ≡ record (state self.old) { fifo = on } }
        ensures canonical { canonical self.old → canonical self.new };

    /// Empties both queues, and gives both FIFOs this size, if the chip has the switch. Else it
    /// stays as it is. The caller must show that the size is at most 64.
    fn resize(&mut self, size: FifoSize)
        requires { characters size ≤ characters SixtyFour }
        ensures after { let c = state self.old in c.has_size_switch ≡ true →
            state self.new ≡ record c {
              transmitter = record c.transmitter { size = size; queue = [] };
              receiver = record c.receiver { size = size; queue = [] };
            } }
        ensures stays { (state self.old).has_size_switch ≡ false → state self.new ≡ state self.old }
        ensures canonical { canonical self.old → canonical self.new };

    /// Computes the modem lines anew under this value of MCR, and adds their changes.
    fn renew_modem(&mut self, mcr: MCR)
        ensures after { state self.new ≡
            record (state self.old) { modem = renew mcr.0 (state self.old).modem } }
        ensures canonical { canonical self.old → canonical self.new };

    /// Sets the inputs of the modem, and computes its lines anew under this value of MCR.
    fn change_inputs(&mut self, mcr: MCR, inputs: u8)
        ensures after { state self.new ≡ record (state self.old)
            { modem = renew mcr.0 (record (state self.old).modem { inputs = inputs }) } }
        ensures canonical { canonical self.old → canonical self.new };

    /// Returns what a read of MSR returns, and clears the changes of the modem lines, as the read
    /// does.
    fn read_modem(&mut self) -> u8
        ensures answers { result ≡
            bit_or (state self.old).modem.lines (state self.old).modem.deltas }
        ensures after { state self.new ≡
            record (state self.old) { modem = record (state self.old).modem { deltas = 0 } } }
        ensures canonical { canonical self.old → canonical self.new };

    /// Returns whether a modem line has changed since the last read of MSR.
    fn has_modem_changes(&self) -> bool
        ensures { result ≡ not ((state self.now).modem.deltas == 0) };

    /// Returns whether MSR shows CTS: the other end is ready to receive.
    fn is_clear_to_send(&self) -> bool
        ensures { result ≡ has_any (state self.now).modem.lines MSR.CTS.0 };

    /// Returns the interrupt enable register.
    fn ier(&self) -> IER
        ensures { result.0 ≡ (state self.now).latches.ier };

    /// Returns the line control register.
    fn lcr(&self) -> LCR
        ensures { result.0 ≡ (state self.now).latches.lcr };

    /// Returns the modem control register.
    fn mcr(&self) -> MCR
        ensures { result.0 ≡ (state self.now).latches.mcr };

    /// Returns the registers that keep what is written to them.
    fn latches(&self) -> Latches
        ensures { latches_of result ≡ (state self.now).latches };

    /// Sets the registers that keep what is written to them.
    fn set_latches(&mut self, latches: Latches)
        ensures after { state self.new ≡ record (state self.old) { latches = latches_of latches } }
        ensures canonical { canonical self.old → canonical self.new };
}

/// Returns whether a read of ISR that shows this interrupt acknowledges it.
fn is_thr_empty(interrupt: Option<InterruptType>) -> bool
    ensures { result ≡ spec.is_thr_empty interrupt }
{
    matches!(
        interrupt,
        Some(InterruptType::TransmitterHoldingRegisterEmpty)
    )
}

/// Returns ISR without the bits that show the FIFO.
pub fn identification(interrupt: Option<InterruptType>) -> ISR
    ensures { result.0 ≡ spec.identification interrupt }
{
    match interrupt {
        None => ISR::INTERRUPT_STATUS,
        Some(interrupt) => ISR::from_bits_retain(interrupt.to_bits()),
    }
}

// Returns the trigger level of a value of FCR.
fn trigger_level(fcr: FCR) -> FifoTriggerLevel
    ensures { result ≡ spec.trigger_level fcr.0 }
{
    fcr.fifo_trigger_level()
}

// Returns a byte as it is sent and received under a line control register: only its data bits if
// characters are cut. That is an option of the chip: the tests of the original driver have a model
// that moves whole bytes, and a machine from `new` does so too. A byte is cut when it is written
// and when it arrives. What comes back in loopback was cut already, and the divisor latch is no
// byte of the line.
fn cut_to(cuts: bool, lcr: LCR, byte: u8) -> u8
    ensures { result ≡ spec.cut_to cuts (spec.word_length lcr.0) byte }
{
    if !cuts {
        return byte;
    }
    match lcr.word_length() {
        WordLength::FiveBits => byte % (1 << 5),
        WordLength::SixBits => byte % (1 << 6),
        WordLength::SevenBits => byte % (1 << 7),
        WordLength::EightBits => byte,
    }
}

/// Returns a byte as it is sent and received: only its data bits if characters are cut.
pub fn cut<P: ChipParts>(parts: &P, byte: u8) -> u8
    ensures { result ≡ spec.cut_of (P.state parts.now) byte }
{
    cut_to(parts.cuts(), parts.lcr(), byte)
}

/// Returns the divisor in the divisor latch.
pub fn divisor<P: ChipParts>(parts: &P) -> u16
    ensures { result ≡ spec.divisor (P.state parts.now).latches }
{
    let latches = parts.latches();
    latches.dlm as u16 * 256 + latches.dll as u16
}

/// Returns whether DATA and IER are the divisor latch.
pub fn is_dlab_set<P: ChipParts>(parts: &P) -> bool
    ensures { result ≡ spec.is_dlab_set (P.state parts.now).latches }
{
    parts.lcr().intersects(LCR::DLAB)
}

/// Returns whether what leaves the transmitter comes back to the receiver.
pub fn is_loopback<P: ChipParts>(parts: &P) -> bool
    ensures { result ≡ spec.is_loopback (P.state parts.now).latches }
{
    parts.mcr().intersects(MCR::LOOP_BACK)
}

// Returns whether automatic flow control is on.
fn is_auto_flow<P: ChipParts>(parts: &P) -> bool
    ensures { result ≡ spec.is_auto_flow (P.state parts.now) }
{
    parts.has_auto_flow() && parts.mcr().intersects(MCR::AUTO_FLOW)
}

/// Returns whether the transmitter takes no next character: automatic flow control is on, and the
/// other end is not ready to receive.
pub fn is_held_off<P: ChipParts>(parts: &P) -> bool
    ensures { result ≡ spec.is_held_off (P.state parts.now) }
{
    is_auto_flow(parts) && !parts.is_clear_to_send()
}

/// Returns whether the chip asks the other end to send, by its output RTS.
pub fn rts_output<P: ChipParts>(parts: &P) -> bool
    ensures { result ≡ spec.rts_output (P.state parts.now) }
{
    let is_full = is_auto_flow(parts)
        && (parts.fifo() && is_data_pending(parts.receiver(), parts.fifo()));
    parts.mcr().intersects(MCR::RTS) && !is_full
}

/// Lets one tick pass.
pub fn tick<P: ChipParts>(parts: &mut P)
    ensures after { P.state parts.new ≡ spec.tick (P.state parts.old) }
    ensures canonical { P.canonical parts.old → P.canonical parts.new }
{
    let loopback = is_loopback(parts);
    let held_off = is_held_off(parts);
    let looped = transmitting::tick(parts.transmitter_mut(), loopback, held_off);
    let fifo = parts.fifo();
    receiving::tick(parts.receiver_mut(), fifo, looped);
}

// Lets ticks pass in which no character enters or leaves the shift register.
fn skip<P: ChipParts>(parts: &mut P, ticks: u16)
    ensures after { P.state parts.new ≡ jumps.skip ticks (P.state parts.old) }
    ensures canonical { P.canonical parts.old → P.canonical parts.new }
{
    count_down(parts.transmitter_mut(), ticks);
    count_up(parts.receiver_mut(), ticks);
}

/// Lets `n` ticks pass, and returns the number of jumps that this took.
///
/// A jump ends at the tick in which a character enters or leaves the shift register, or takes all
/// ticks that are left. So its cost does not grow with the number of ticks.
// A jump skips the ticks before that tick, and then makes it as any other tick. So the start and
// the end of a character have no second definition. With FIFOs of 16 at most 17 characters move,
// and one jump takes what is left: 18 jumps are enough for any number of ticks.
pub fn advance<P: ChipParts>(parts: &mut P, n: u16) -> usize
    ensures after { P.state parts.new ≡ spec.ticks n (P.state parts.old) }
    ensures jumps { result ≡ jumps_in n (P.state parts.old) }
    ensures most { result ≤ moves (P.state parts.old).transmitter + 1 }
    ensures canonical { P.canonical parts.old → P.canonical parts.new }
{
    let mut left = n;
    let mut jumps = 0;
    while left > 0 {
        let loopback = is_loopback(parts);
        let held_off = is_held_off(parts);
        match next_move(parts.transmitter(), loopback, held_off) {
            Some(ticks) if ticks <= left => {
                skip(parts, ticks - 1);
                tick(parts);
                left -= ticks;
            }
            _ => {
                skip(parts, left);
                left = 0;
            }
        }
        jumps += 1;
    }
    jumps
}

/// Receives a character without a schedule, with these error bits. In loopback the character is
/// lost.
pub fn arrive_live<P: ChipParts>(parts: &mut P, byte: u8, errors: u8)
    ensures after { P.state parts.new ≡ spec.arrive_live byte errors (P.state parts.old) }
    ensures canonical { P.canonical parts.old → P.canonical parts.new }
{
    let loopback = is_loopback(parts);
    let byte = cut(parts, byte);
    let fifo = parts.fifo();
    receiving::arrive_live(parts.receiver_mut(), loopback, fifo, byte, errors);
}

/// Returns how many characters can be received before one is lost. In loopback that is 0.
pub fn receive_room<P: ChipParts>(parts: &P) -> usize
    ensures { result ≡ spec.receive_room (P.state parts.now) }
{
    if is_loopback(parts) {
        0
    } else {
        receiving::receive_room(parts.receiver(), parts.fifo())
    }
}

/// Sets the inputs of the modem, as bits of MSR.
pub fn change_lines<P: ChipParts>(parts: &mut P, inputs: u8)
    ensures after { P.state parts.new ≡ spec.change_lines inputs (P.state parts.old) }
    ensures canonical { P.canonical parts.old → P.canonical parts.new }
{
    let mcr = parts.mcr();
    parts.change_inputs(mcr, inputs);
}

// Returns whether a character in the FIFO has errors that were not reported, as LSR shows it.
fn fifo_error<P: ChipParts>(parts: &P) -> LSR
    ensures { result.0 ≡ fifo_status (P.state parts.now).fifo (P.state parts.now).receiver.queue
        (P.state parts.now).receiver.is_front_reported }
{
    if parts.receiver().has_unreported_errors() && parts.fifo() {
        LSR::FIFO_DATA_ERROR
    } else {
        LSR::empty()
    }
}

fn lsr<P: ChipParts>(parts: &P) -> LSR
    ensures { result.0 ≡ spec.line_status (P.state parts.now) }
{
    parts
        .receiver()
        .status()
        .union(parts.transmitter().status())
        .union(fifo_error(parts))
}

// Returns the interrupt of the highest priority among those that are enabled and pending.
fn pending_interrupt<P: ChipParts>(parts: &P) -> Option<InterruptType>
    ensures { result ≡ spec.interrupt (P.state parts.now) }
{
    let enabled = parts.ier();
    if enabled.intersects(IER::RECEIVER_LINE_STATUS) && lsr(parts).intersects(LSR::LINE_ERRORS) {
        Some(InterruptType::ReceiverLineStatus)
    } else if enabled.intersects(IER::DATA_READY)
        && is_data_pending(parts.receiver(), parts.fifo())
    {
        Some(InterruptType::ReceivedDataReady)
    } else if enabled.intersects(IER::DATA_READY) && is_timed_out(parts.receiver(), parts.fifo()) {
        Some(InterruptType::ReceptionTimeout)
    } else if enabled.intersects(IER::THR_EMPTY) && parts.transmitter().is_thr_pending() {
        Some(InterruptType::TransmitterHoldingRegisterEmpty)
    } else if enabled.intersects(IER::MODEM_STATUS) && parts.has_modem_changes() {
        Some(InterruptType::ModemStatus)
    } else {
        None
    }
}

/// Returns whether an interrupt is enabled and pending: whether the interrupt output is active.
pub fn is_interrupting<P: ChipParts>(parts: &P) -> bool
    ensures { result ≡ is_some (spec.interrupt (P.state parts.now)) }
{
    !parts.ier().is_empty() && pending_interrupt(parts).is_some()
}

/// Reads the register at this offset: returns its value, and has the effect of the read on the
/// chip.
#[inline]
pub fn read<P: ChipParts>(parts: &mut P, offset: u8) -> u8
    // it is the offset of a register
    requires { offset < NUM_REGISTERS }
    ensures answers { result ≡ spec.answer offset (P.state parts.old) }
    ensures after { P.state parts.new ≡ spec.after_read offset (P.state parts.old) }
    // if: the parts are as each call leaves them
    ensures canonical { P.canonical parts.old → P.canonical parts.new }
{
    // A guest that waits reads LSR and nothing else, so it is looked for first.
    if offset == offsets::LSR as u8 {
        read_line_status(parts)
    } else {
        read_register(parts, offset)
    }
}

#[inline(never)]
fn read_register<P: ChipParts>(parts: &mut P, offset: u8) -> u8
    requires { offset < NUM_REGISTERS }
    ensures answers { result ≡ spec.answer offset (P.state parts.old) }
    ensures after { P.state parts.new ≡ spec.after_read offset (P.state parts.old) }
    ensures canonical { P.canonical parts.old → P.canonical parts.new }
{
    match offset as usize {
        offsets::DATA => read_data(parts),
        offsets::IER if is_dlab_set(parts) => parts.latches().dlm,
        offsets::IER => parts.ier().bits(),
        offsets::ISR => read_interrupt(parts),
        offsets::LCR => parts.lcr().bits(),
        offsets::MCR => parts.mcr().bits(),
        offsets::LSR => read_line_status(parts),
        offsets::MSR => parts.read_modem(),
        _ => parts.latches().scr,
    }
}

// Reads LSR, which reports the overrun and the errors of the front.
fn read_line_status<P: ChipParts>(parts: &mut P) -> u8
    ensures answers { result ≡ spec.answer offsets.LSR (P.state parts.old) }
    ensures after { P.state parts.new ≡ spec.after_read offsets.LSR (P.state parts.old) }
    ensures canonical { P.canonical parts.old → P.canonical parts.new }
{
    if parts.receiver().has_errors() {
        return read_errors(parts);
    }
    let status = parts
        .receiver()
        .status()
        .union(parts.transmitter().status());
    report(parts.receiver_mut());
    status.bits()
}

// Reads LSR while some character has errors.
#[inline(never)]
fn read_errors<P: ChipParts>(parts: &mut P) -> u8
    ensures answers { result ≡ spec.answer offsets.LSR (P.state parts.old) }
    ensures after { P.state parts.new ≡ spec.after_read offsets.LSR (P.state parts.old) }
    ensures canonical { P.canonical parts.old → P.canonical parts.new }
{
    let status = lsr(parts);
    report(parts.receiver_mut());
    status.bits()
}

fn read_data<P: ChipParts>(parts: &mut P) -> u8
    ensures answers { result ≡ spec.answer offsets.DATA (P.state parts.old) }
    ensures after { P.state parts.new ≡ spec.after_read offsets.DATA (P.state parts.old) }
    ensures canonical { P.canonical parts.old → P.canonical parts.new }
{
    if is_dlab_set(parts) {
        return parts.latches().dll;
    }
    take_front(parts.receiver_mut())
}

// Returns whether FIFOs of this size hold 64 characters.
fn is_64(size: FifoSize) -> bool
    ensures { result ≡ spec.is_64 size }
{
    matches!(size, FifoSize::SixtyFour)
}

// Returns what ISR shows of the FIFOs. Bit 5 of a chip without the size switch is 0.
fn fifo_flags<P: ChipParts>(parts: &P) -> ISR
    ensures { result.0 ≡ spec.fifo_flags (P.state parts.now) }
{
    let on = flag(parts.fifo(), ISR::FIFOS_ENABLED);
    if parts.has_size_switch() {
        let holds_64 = is_64(parts.receiver().size());
        on.union(flag(parts.fifo() && holds_64, ISR::FIFO_64_ENABLED))
    } else {
        on
    }
}

// Reads ISR. A read that shows `THR_EMPTY` acknowledges it.
fn read_interrupt<P: ChipParts>(parts: &mut P) -> u8
    ensures answers { result ≡ spec.answer offsets.ISR (P.state parts.old) }
    ensures after { P.state parts.new ≡ spec.after_read offsets.ISR (P.state parts.old) }
    ensures canonical { P.canonical parts.old → P.canonical parts.new }
{
    let interrupt = pending_interrupt(parts);
    let flags = fifo_flags(parts);
    if is_thr_empty(interrupt) {
        parts.transmitter_mut().set_thr_pending(false);
    }
    identification(interrupt).union(flags).bits()
}

/// Writes a value to the register at this offset.
#[inline]
pub fn write<P: ChipParts>(parts: &mut P, offset: u8, value: u8)
    // it is the offset of a register
    requires { offset < NUM_REGISTERS }
    ensures after { P.state parts.new ≡ spec.after_write offset value (P.state parts.old) }
    // if: the parts are as each call leaves them
    ensures canonical { P.canonical parts.old → P.canonical parts.new }
{
    // A guest that prints writes DATA most often, so it is looked for first.
    if offset == offsets::DATA as u8 {
        write_data(parts, value);
    } else {
        write_register(parts, offset, value);
    }
}

// Writes DATA.
fn write_data<P: ChipParts>(parts: &mut P, value: u8)
    ensures after { P.state parts.new ≡ spec.write_data value (P.state parts.old) }
    ensures canonical { P.canonical parts.old → P.canonical parts.new }
{
    if is_dlab_set(parts) {
        let latches = parts.latches();
        parts.set_latches(Latches {
            dll: value,
            ..latches
        });
    } else {
        let byte = cut(parts, value);
        let fifo = parts.fifo();
        load(parts.transmitter_mut(), fifo, byte);
    }
}

#[inline(never)]
fn write_register<P: ChipParts>(parts: &mut P, offset: u8, value: u8)
    requires { offset < NUM_REGISTERS }
    ensures after { P.state parts.new ≡ spec.after_write offset value (P.state parts.old) }
    ensures canonical { P.canonical parts.old → P.canonical parts.new }
{
    let latches = parts.latches();
    match offset as usize {
        offsets::DATA => write_data(parts, value),
        offsets::IER if is_dlab_set(parts) => parts.set_latches(Latches {
            dlm: value,
            ..latches
        }),
        offsets::IER => enable(parts, IER::from_bits_retain(value)),
        offsets::FCR => control(parts, FCR::from_bits_retain(value)),
        offsets::LCR => parts.set_latches(Latches {
            lcr: LCR::from_bits_retain(value),
            ..latches
        }),
        offsets::MCR => control_modem(parts, MCR::from_bits_retain(value)),
        offsets::SPR => parts.set_latches(Latches {
            scr: value,
            ..latches
        }),
        _ => {}
    }
}

// Writes IER.
fn enable<P: ChipParts>(parts: &mut P, interrupts: IER)
    ensures after { P.state parts.new ≡ spec.enable interrupts.0 (P.state parts.old) }
    ensures canonical { P.canonical parts.old → P.canonical parts.new }
{
    let latches = parts.latches();
    // A chip raises the interrupt also if THR was empty before it was enabled. Not every chip does.
    if !latches.ier.intersects(IER::THR_EMPTY)
        && interrupts.intersects(IER::THR_EMPTY)
        && parts.transmitter().queue_len() == 0
    {
        parts.transmitter_mut().set_thr_pending(true);
    }
    parts.set_latches(Latches {
        ier: kept_interrupts(interrupts),
        ..latches
    });
}

// Writes MCR.
fn control_modem<P: ChipParts>(parts: &mut P, value: MCR)
    ensures after { P.state parts.new ≡ spec.control_modem
        (kept_mcr (P.state parts.old).auto_flow value.0) (P.state parts.old) }
    ensures canonical { P.canonical parts.old → P.canonical parts.new }
{
    let mcr = kept_modem_control_of(parts.has_auto_flow(), value);
    let latches = parts.latches();
    parts.set_latches(Latches { mcr, ..latches });
    parts.renew_modem(mcr);
}

// Writes FCR.
fn control<P: ChipParts>(parts: &mut P, value: FCR)
    ensures after { P.state parts.new ≡
        spec.control (P.state parts.old).model value.0 (P.state parts.old) }
    ensures canonical { P.canonical parts.old → P.canonical parts.new }
{
    match parts.model() {
        Chip::Uart16450 => {}
        Chip::Uart16550A => set_fifo(parts, value),
    }
}

// Without the enable bit nothing but the switch is done: a chip whose FIFOs are off ignores the
// resets. Neither the character in the shift register nor the overrun flag changes. The trigger
// level survives when the FIFOs are switched off, and so does their size.
fn set_fifo<P: ChipParts>(parts: &mut P, value: FCR)
    ensures after { P.state parts.new ≡ spec.set_fifo value.0 (P.state parts.old) }
    ensures canonical { P.canonical parts.old → P.canonical parts.new }
{
    let on = value.intersects(FCR::FIFO_ENABLE);
    if parts.fifo() != on {
        switch(parts, on);
    }
    if on {
        switch_size(parts, value);
        reset_receiver(parts, value);
        reset_transmitter(parts, value);
        parts.receiver_mut().set_trigger(trigger_level(value));
    }
}

// Returns the size that a write of FCR asks for, on a chip that has the size switch.
fn switched_size(fcr: FCR) -> FifoSize
    ensures size { result ≡ spec.switched_size fcr.0 }
    ensures most { characters result ≤ characters SixtyFour }
{
    if fcr.intersects(FCR::FIFO_64_ENABLE) {
        FifoSize::SixtyFour
    } else {
        FifoSize::Sixteen
    }
}

// Returns whether a write of FCR that leaves the FIFOs on switches their size.
fn is_switching<P: ChipParts>(parts: &P, fcr: FCR) -> bool
    ensures { result ≡ spec.is_switching fcr.0 (P.state parts.now) }
{
    parts.has_size_switch()
        && is_dlab_set(parts)
        && is_64(parts.receiver().size()) != fcr.intersects(FCR::FIFO_64_ENABLE)
}

// Switches the size of the FIFOs, if the write of FCR does. That empties both.
fn switch_size<P: ChipParts>(parts: &mut P, value: FCR)
    ensures after { P.state parts.new ≡ spec.switch_size value.0 (P.state parts.old) }
    // if: the parts are as each call leaves them
    ensures canonical { P.canonical parts.old → P.canonical parts.new }
{
    if is_switching(parts, value) {
        parts.receiver_mut().discard();
        parts.resize(switched_size(value));
    }
}

fn reset_receiver<P: ChipParts>(parts: &mut P, value: FCR)
    ensures after { P.state parts.new ≡ spec.reset_receiver value.0 (P.state parts.old) }
    ensures canonical { P.canonical parts.old → P.canonical parts.new }
{
    if value.intersects(FCR::RX_FIFO_RESET) {
        clear(parts.receiver_mut());
    }
}

fn reset_transmitter<P: ChipParts>(parts: &mut P, value: FCR)
    ensures after { P.state parts.new ≡ spec.reset_transmitter value.0 (P.state parts.old) }
    ensures canonical { P.canonical parts.old → P.canonical parts.new }
{
    if value.intersects(FCR::TX_FIFO_RESET) {
        parts.transmitter_mut().clear_queue();
        parts.transmitter_mut().set_thr_pending(true);
    }
}

// Switches the FIFOs on or off, which empties both. No THR_EMPTY interrupt is raised by that, but
// by the reset of the transmitter.
fn switch<P: ChipParts>(parts: &mut P, on: bool)
    ensures after { P.state parts.new ≡ spec.switch on (P.state parts.old) }
    ensures canonical { P.canonical parts.old → P.canonical parts.new }
{
    parts.turn_fifo(on);
    clear(parts.receiver_mut());
    parts.transmitter_mut().clear_queue();
}
