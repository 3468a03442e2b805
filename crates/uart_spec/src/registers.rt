//! The registers of a 16550: their offsets, their named bits and their fields.
ghost use Rattle.std.specs.Prelude.{◌≡◌, ◌+◌};
ghost use Rattle.uart_spec.specs.Bits.{NamesEachByte, flag};

use bitflags::Flags;

// Modules are named in words (`line_status` has `LSR`): a module and a type whose names differ in
// case alone cannot stand side by side. The named bits of all registers are in `bits`, and the
// codes of all fields in `codes`, since each is one table of one shape.
//
// A register is a plain struct over a byte, without a model, so that a clause reads its bits as
// `.0`. Code, clauses, definitions and proofs cite one constant for each bit and mask. Driver and
// chip share these, so a mistake here would hide in both. Numbers that were written by hand guard
// against that: the laws on constants and masks, the tables of named bits in the contracts of
// `Flags`, and tests with accesses from the datasheet's numbers.
mod bits;
mod codes;
mod divisors;
mod fifo_control;
mod fifo_trigger_level;
mod frame;
mod interrupt_enable;
mod interrupt_status;
mod interrupt_type;
mod line_control;
mod line_status;
mod modem_control;
mod modem_status;
pub mod offsets;
mod prescaler_division;

pub use divisors::Divisor;
pub use fifo_control::FCR;
pub use fifo_trigger_level::FifoTriggerLevel;
pub use frame::{Parity, WordLength};
pub use interrupt_enable::IER;
pub use interrupt_status::ISR;
pub use interrupt_type::InterruptType;
pub use line_control::LCR;
pub use line_status::LSR;
pub use modem_control::MCR;
pub use modem_status::MSR;
pub use prescaler_division::PSD;

/// Data register, offset 0 while DLAB is clear: a read takes a byte from the receiver (RBR), a
/// write gives one to the transmitter (THR).
pub type DATA = u8;

/// Scratch register (SPR), offset 7, which the chip keeps and does not use.
pub type SPR = u8;

/// Low byte of the divisor latch (DLL), offset 0 while DLAB is set.
pub type DLL = u8;

/// High byte of the divisor latch (DLM), offset 1 while DLAB is set.
pub type DLM = u8;

/// Returns these bits if the condition holds, else none.
pub fn flag<F: Flags>(on: bool, bits: F) -> F
    ensures { F.exact → F.set_of result ≡ flag on (F.set_of bits) }
{
    if on { bits } else { F::empty() }
}

/// Each byte is a value of each register, since each of the eight bits has a name: `from_bits`
/// never returns `None`.
///
/// This is a law that callers can cite. The function does nothing.
#[tactic(auto, using(crate::proofs::NameLemmas::eight_names))]
pub fn every_byte_is_a_value()
    // promise: each named bit has its place, and each byte is a value of each register
    // with: every_byte_is_a_value.lsr, masks_are_these
    // shown by: status, offsets_of_the_registers
    // refused: lsr_bit_misplaced, lcr_bit_misplaced
    ensures ier { NamesEachByte ⟦<IER as Flags>⟧.table }
    ensures isr { NamesEachByte ⟦<ISR as Flags>⟧.table }
    ensures fcr { NamesEachByte ⟦<FCR as Flags>⟧.table }
    ensures lcr { NamesEachByte ⟦<LCR as Flags>⟧.table }
    ensures mcr { NamesEachByte ⟦<MCR as Flags>⟧.table }
    ensures lsr { NamesEachByte ⟦<LSR as Flags>⟧.table }
    ensures msr { NamesEachByte ⟦<MSR as Flags>⟧.table }
    ensures psd { NamesEachByte ⟦<PSD as Flags>⟧.table }
{}

/// The bits of each mask. This is a law that callers can cite. The function does nothing.
pub fn masks_are_these()
    // proved: Each named bit has its place, each mask joins its bits, and each of the 256 bytes is
    //   a value of each register
    // on: the eight `Flags` implementations, `registers::masks_are_these`, `every_byte_is_a_value`
    ensures fifos_enabled { ISR.FIFOS_ENABLED.0 ≡ ISR.FIFOS_ENABLED0.0 + ISR.FIFOS_ENABLED1.0 }
    ensures fifo_64_enabled { ISR.FIFO_64_ENABLED.0 ≡ ISR.DMA_TX_END.0 }
    ensures fifo_64_enable { FCR.FIFO_64_ENABLE.0 ≡ FCR._RESERVED0.0 }
    ensures trigger_level { FCR.RX_FIFO_TRIGGER_LEVEL.0 ≡
        FCR.RX_FIFO_TRIGGER_LEVEL0.0 + FCR.RX_FIFO_TRIGGER_LEVEL1.0 }
    ensures word_length { LCR.WORD_LENGTH.0 ≡ LCR.WORD_LENGTH0.0 + LCR.WORD_LENGTH1.0 }
    ensures character_errors { LSR.CHARACTER_ERRORS.0 ≡
        LSR.PARITY_ERROR.0 + LSR.FRAMING_ERROR.0 + LSR.BREAK_INTERRUPT.0 }
    ensures line_errors { LSR.LINE_ERRORS.0 ≡ LSR.OVERRUN_ERROR.0 + LSR.CHARACTER_ERRORS.0 }
    ensures errors { LSR.ERRORS.0 ≡ LSR.LINE_ERRORS.0 + LSR.FIFO_DATA_ERROR.0 }
    ensures ready { MCR.READY.0 ≡ MCR.DTR.0 + MCR.RTS.0 + MCR.OUT_2_INT_ENABLE.0 }
    ensures auto_flow { MCR.AUTO_FLOW.0 ≡ MCR._RESERVED0.0 }
    ensures changes { MSR.CHANGES.0 ≡
        MSR.DELTA_CTS.0 + MSR.DELTA_DSR.0 + MSR.TRAILING_EDGE_RI.0 + MSR.DELTA_CD.0 }
    ensures lines { MSR.LINES.0 ≡ MSR.CTS.0 + MSR.DSR.0 + MSR.RI.0 + MSR.CD.0 }
{}
