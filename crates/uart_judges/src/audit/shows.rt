//! What one action does or shows, whatever was before it.
ghost use Rattle.std.specs.Prelude.{◌≡◌, ◌+◌, ◌^◌};
ghost use Rattle.uart_judges.specs.Shows as spec;
ghost use Rattle.uart_spec.specs.Fields.{word_length_code};

use crate::audit::action::Action;
use bitflags::Flags;
use uart_spec::registers::{FCR, FifoTriggerLevel, IER, ISR, InterruptType, LCR, LSR, WordLength};

// Returns the interrupt that a value of ISR identifies.
pub(crate) fn identified(isr: ISR) -> Option<InterruptType>
    ensures { result ≡ spec.identified isr }
{
    isr.interrupt_type()
}

// Returns the trigger level in a value of FCR.
pub(crate) fn level_of(fcr: FCR) -> FifoTriggerLevel
    ensures { result ≡ spec.level_of fcr }
{
    fcr.fifo_trigger_level()
}

// Returns the largest byte that a word of this length holds.
fn largest(length: WordLength) -> u8
    ensures { result + 1 ≡ 2 ^ (5 + word_length_code length) }
{
    match length {
        WordLength::FiveBits => 0x1f,
        WordLength::SixBits => 0x3f,
        WordLength::SevenBits => 0x7f,
        WordLength::EightBits => 0xff,
    }
}

/// Returns whether a byte has more bits than a character that is sent with this line control.
pub fn is_cut(lcr: LCR, byte: u8) -> bool
    ensures { result ≡ spec.is_cut lcr byte }
{
    byte > largest(lcr.word_length())
}

impl Action {
    // Returns whether a byte is given to the transmitter.
    pub(crate) fn sends(self) -> bool
        ensures { result ≡ spec.sends self }
    {
        matches!(self, Action::Sends(_))
    }

    // Returns whether a byte is taken from the receiver.
    pub(crate) fn receives(self) -> bool
        ensures { result ≡ spec.receives self }
    {
        matches!(self, Action::Receives(_))
    }

    // Returns whether a byte is given to the transmitter, or may be.
    pub(crate) fn may_send(self) -> bool
        ensures { result ≡ spec.may_send self }
    {
        matches!(self, Action::Sends(_) | Action::MaySend)
    }

    // Returns whether a byte is taken from the receiver, or may be.
    pub(crate) fn may_receive(self) -> bool
        ensures { result ≡ spec.may_receive self }
    {
        matches!(self, Action::Receives(_) | Action::MayReceive)
    }

    // Returns whether LSR is read.
    pub(crate) fn looks_at_line(self) -> bool
        ensures { result ≡ spec.looks_at_line self }
    {
        matches!(self, Action::LooksAtLine(_))
    }

    // Returns whether MSR is read.
    pub(crate) fn looks_at_modem(self) -> bool
        ensures { result ≡ spec.looks_at_modem self }
    {
        matches!(self, Action::LooksAtModem(_))
    }

    // Returns whether a character arrives.
    pub(crate) fn arrives(self) -> bool
        ensures { result ≡ spec.arrives self }
    {
        matches!(self, Action::Arrives(_, _))
    }

    // Returns whether FCR is written.
    pub(crate) fn controls_fifo(self) -> bool
        ensures { result ≡ spec.controls_fifo self }
    {
        matches!(self, Action::ControlsFifo(_))
    }

    // Returns whether MCR is written.
    pub(crate) fn sets_modem(self) -> bool
        ensures { result ≡ spec.sets_modem self }
    {
        matches!(self, Action::SetsModem(_))
    }

    // Returns whether a register is written that says how the chip works.
    pub(crate) fn configures(self) -> bool
        ensures { result ≡ spec.configures self }
    {
        matches!(
            self,
            Action::EnablesInterrupts(_)
                | Action::ControlsFifo(_)
                | Action::SetsLine(_)
                | Action::SetsModem(_)
        )
    }

    // Returns the interrupt that is identified, if ISR is read.
    pub(crate) fn identified(self) -> Option<InterruptType>
        ensures { result ≡ spec.identified_by self }
    {
        match self {
            Action::IdentifiesInterrupt(isr) => identified(isr),
            _ => None,
        }
    }

    // Returns whether ISR shows that no interrupt is pending.
    pub(crate) fn shows_none(self) -> bool
        ensures { result ≡ spec.shows_none self }
    {
        matches!(self, Action::IdentifiesInterrupt(isr) if isr.contains(ISR::INTERRUPT_STATUS))
    }

    // Returns whether ISR identifies this interrupt: the transmitter is empty.
    pub(crate) fn identifies_thr_empty(self) -> bool
        ensures { result ≡ spec.identifies_thr_empty self }
    {
        matches!(
            self.identified(),
            Some(InterruptType::TransmitterHoldingRegisterEmpty)
        )
    }

    // Returns whether THR is shown to be empty: by LSR, or by ISR.
    pub(crate) fn shows_thr_empty(self) -> bool
        ensures { result ≡ spec.shows_thr_empty self }
    {
        match self {
            Action::LooksAtLine(lsr) => lsr.contains(LSR::THR_EMPTY),
            _ => self.identifies_thr_empty(),
        }
    }

    // Returns whether nothing is going out.
    pub(crate) fn shows_idle(self) -> bool
        ensures { result ≡ spec.shows_idle self }
    {
        matches!(self, Action::LooksAtLine(lsr) if lsr.contains(LSR::TRANSMITTER_EMPTY))
    }

    // Returns whether the divisor latch is opened.
    pub(crate) fn opens(self) -> bool
        ensures { result ≡ spec.opens self }
    {
        matches!(self, Action::SetsLine(lcr) if lcr.contains(LCR::DLAB))
    }

    // Returns whether the low byte of the divisor is written.
    pub(crate) fn sets_low(self) -> bool
        ensures { result ≡ spec.sets_low self }
    {
        matches!(self, Action::SetsDivisorLow(_))
    }

    // Returns whether the high byte of the divisor is written.
    pub(crate) fn sets_high(self) -> bool
        ensures { result ≡ spec.sets_high self }
    {
        matches!(self, Action::SetsDivisorHigh(_))
    }

    // Returns whether the latch is opened, or a byte of the divisor is read.
    pub(crate) fn begins_divisor(self) -> bool
        ensures { result ≡ spec.begins_divisor self }
    {
        matches!(self, Action::ReadsDivisor) || self.opens()
    }

    // Returns whether this writes IER without these bits, or may do so.
    pub(crate) fn may_disable(self, interrupts: IER) -> bool
        ensures { result ≡ spec.may_disable interrupts.0 self }
    {
        match self {
            Action::EnablesInterrupts(ier) => !ier.contains(interrupts),
            Action::MayEnable => true,
            _ => false,
        }
    }
}
