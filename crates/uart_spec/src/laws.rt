//! Laws about the types and constants: defaults, orders, values.
//!
//! The contract of each function is a law that callers can cite. The functions do nothing. They are
//! needed because a derive promises no default and no order by name.
ghost use Rattle.std.specs.Prelude.{◌≡◌, ℕ, [], ◌∷◌, None, Some, true, false};
ghost use Rattle.std.specs.Ordering.{nat_cmp, bool_cmp};
ghost use Rattle.std.specs.declared.cmp.Ordering.TheVariants.{Less};
ghost use Rattle.uart_spec.specs.Divisors.{divisors};
ghost use Rattle.uart_spec.specs.Orders.{IsAscending, in_turn, partial_in_turn};
ghost use Rattle.uart_spec.specs.Orders.{fifo_sizes, interrupt_types, parities, trigger_levels};
ghost use Rattle.uart_spec.specs.Orders.{word_lengths};
ghost use Rattle.uart_spec.specs.declared.baud.TheConstants.{CLK_FREQUENCY_HZ};
ghost use Rattle.uart_spec.specs.declared.baud.TheConstants.{FIFO_SIZE, NUM_REGISTERS};
ghost use Rattle.uart_spec.specs.declared.config.BaudRate.{BaudRate};
ghost use Rattle.uart_spec.specs.declared.config.BaudRate.TheVariants.{Baud9600};
ghost use Rattle.uart_spec.specs.declared.config.Config.{Config};
ghost use Rattle.uart_spec.specs.declared.config.TheConstants.Config.{DEFAULT};
ghost use Rattle.uart_spec.specs.declared.dump.ConfigRegisterDump.{ConfigRegisterDump};
ghost use Rattle.uart_spec.specs.declared.errors.InvalidDivisorError.{InvalidDivisorError};
ghost use Rattle.uart_spec.specs.declared.errors.InvalidDivisorError.TheVariants.{
  NonInteger,
  OutOfRange,
};
ghost use Rattle.uart_spec.specs.declared.errors.NonIntegerBaudRateError.{NonIntegerBaudRateError};
ghost use Rattle.uart_spec.specs.declared.errors.NonIntegerDivisorError.{NonIntegerDivisorError};
ghost use Rattle.uart_spec.specs.declared.received.Received.{Received};
ghost use Rattle.uart_spec.specs.declared.registers.divisors.Divisor.{Divisor};
ghost use Rattle.uart_spec.specs.declared.registers.divisors.Divisor.TheVariants.{Divisor1};
ghost use Rattle.uart_spec.specs.declared.registers.fifo_control.FCR.{FCR};
ghost use Rattle.uart_spec.specs.declared.registers.fifo_trigger_level.FifoTriggerLevel.{
  FifoTriggerLevel,
};
ghost use Rattle.uart_spec.specs.declared.registers.fifo_trigger_level.FifoTriggerLevel.TheVariants.{
  Fourteen,
};
ghost use Rattle.uart_spec.specs.declared.registers.frame.Parity.{Parity};
ghost use Rattle.uart_spec.specs.declared.registers.frame.Parity.TheVariants.{Disabled};
ghost use Rattle.uart_spec.specs.declared.registers.frame.WordLength.{WordLength};
ghost use Rattle.uart_spec.specs.declared.registers.frame.WordLength.TheVariants.{EightBits};
ghost use Rattle.uart_spec.specs.declared.registers.interrupt_enable.IER.{IER};
ghost use Rattle.uart_spec.specs.declared.registers.interrupt_status.ISR.{ISR};
ghost use Rattle.uart_spec.specs.declared.registers.line_control.LCR.{LCR};
ghost use Rattle.uart_spec.specs.declared.registers.line_status.LSR.{LSR};
ghost use Rattle.uart_spec.specs.declared.registers.modem_control.MCR.{MCR};
ghost use Rattle.uart_spec.specs.declared.registers.modem_control.TheConstants.MCR as mcr;
ghost use Rattle.uart_spec.specs.declared.registers.modem_status.MSR.{MSR};
ghost use Rattle.uart_spec.specs.declared.registers.offsets.TheConstants as offsets;
ghost use Rattle.uart_spec.specs.declared.registers.prescaler_division.PSD.{PSD};
ghost use Rattle.uart_spec.specs.declared.setup.FifoSize.{FifoSize};
ghost use Rattle.uart_spec.specs.declared.setup.FifoSize.TheVariants.{Sixteen};
ghost use Rattle.uart_spec.specs.declared.setup.TheConstants.Setup.{DEFAULT as DEFAULT_SETUP};
ghost use Rattle.uart_spec.specs.declared.setup.TransmitterWait.TheVariants.{Last};

use crate::config::{BaudRate, Config};
use crate::dump::ConfigRegisterDump;
use crate::errors::{InvalidDivisorError, NonIntegerBaudRateError, NonIntegerDivisorError};
use crate::received::Received;
use crate::registers::{
    Divisor, FCR, FifoTriggerLevel, IER, ISR, InterruptType, LCR, LSR, MCR, MSR, PSD, Parity,
    WordLength,
};
use crate::setup::FifoSize;

/// The default value of each type.
pub fn defaults_are_these()
    // proved: The default of each type, the order of the cases of each enum and of the fields of
    //   each record, that registers are compared as numbers, the values of the constants
    // on: `laws::defaults_are_these`, `laws::cases_are_in_order`, `laws::fields_are_in_order`,
    //   `laws::registers_are_in_order`, `laws::constants_are_these`
    ensures ier { (value : IER) → ⟦<IER as Default>⟧.is_default value → value.0 ≡ 0 }
    ensures isr { (value : ISR) → ⟦<ISR as Default>⟧.is_default value → value.0 ≡ 0 }
    ensures fcr { (value : FCR) → ⟦<FCR as Default>⟧.is_default value → value.0 ≡ 0 }
    ensures lcr { (value : LCR) → ⟦<LCR as Default>⟧.is_default value → value.0 ≡ 0 }
    ensures mcr { (value : MCR) → ⟦<MCR as Default>⟧.is_default value → value.0 ≡ 0 }
    ensures lsr { (value : LSR) → ⟦<LSR as Default>⟧.is_default value → value.0 ≡ 0 }
    ensures msr { (value : MSR) → ⟦<MSR as Default>⟧.is_default value → value.0 ≡ 0 }
    ensures psd { (value : PSD) → ⟦<PSD as Default>⟧.is_default value → value.0 ≡ 0 }
    ensures trigger_level { (level : FifoTriggerLevel) →
        ⟦<FifoTriggerLevel as Default>⟧.is_default level → level ≡ Fourteen }
    ensures word_length { (length : WordLength) → ⟦<WordLength as Default>⟧.is_default length →
        length ≡ EightBits }
    ensures parity { (parity : Parity) → ⟦<Parity as Default>⟧.is_default parity →
        parity ≡ Disabled }
    ensures divisor { (divisor : Divisor) → ⟦<Divisor as Default>⟧.is_default divisor →
        divisor ≡ Divisor1 }
    ensures baud_rate { (rate : BaudRate) →
        ⟦<BaudRate as Default>⟧.is_default rate → rate ≡ Baud9600 }
    // if: it is the default configuration
    ensures config { (config : Config) →
        ⟦<Config as Default>⟧.is_default config → config ≡ DEFAULT }
    ensures baud_rate_error { (error : NonIntegerBaudRateError) →
        ⟦<NonIntegerBaudRateError as Default>⟧.is_default error →
        error ≡ record { frequency = 0; divisor = 0; prescaler_division_factor = None } }
    ensures divisor_error { (error : NonIntegerDivisorError) →
        ⟦<NonIntegerDivisorError as Default>⟧.is_default error →
        error ≡ record { frequency = 0; baud_rate = 0; prescaler_division_factor = None } }
    ensures fifo_size { (size : FifoSize) → ⟦<FifoSize as Default>⟧.is_default size →
        size ≡ Sixteen }
    ensures received { (received : Received) → ⟦<Received as Default>⟧.is_default received →
        received ≡ record { byte = 0; errors = record { 0 = 0 } } }
{}

/// The default configuration, field by field.
pub fn default_config_is_this()
    ensures interrupts { DEFAULT.interrupts.0 ≡ 0 }
    ensures frequency { DEFAULT.frequency ≡ 1843200 }
    ensures prescaler { DEFAULT.prescaler_division_factor ≡ None }
    ensures trigger_level { DEFAULT.fifo_trigger_level ≡ Some Fourteen }
    ensures baud_rate { DEFAULT.baud_rate ≡ Baud9600 }
    ensures data_bits { DEFAULT.data_bits ≡ EightBits }
    ensures stop_bits { DEFAULT.extra_stop_bits ≡ false }
    ensures parity { DEFAULT.parity ≡ Disabled }
    ensures checks_cts { DEFAULT.check_cts_before_sending ≡ false }
{}

/// The default setup is that of `Uart16550::init`.
pub fn default_setup_is_this()
    ensures { DEFAULT_SETUP ≡ record { checks_presence = true; wait = Last; outputs = mcr.READY } }
{}

// The order is stated for neighbours in a list. The orders are total, so that decides every pair.
/// The cases of each enum, from the least on. Interrupts are in the order in which a chip reports
/// them.
pub fn cases_are_in_order()
    ensures interrupts { IsAscending ⟦<InterruptType as Ord>⟧.cmp interrupt_types }
    ensures trigger_levels { IsAscending ⟦<FifoTriggerLevel as Ord>⟧.cmp trigger_levels }
    ensures word_lengths { IsAscending ⟦<WordLength as Ord>⟧.cmp word_lengths }
    ensures parities { IsAscending ⟦<Parity as Ord>⟧.cmp parities }
    ensures divisor_errors { (error : NonIntegerDivisorError) (divisor : ℕ) →
        ⟦<InvalidDivisorError as PartialOrd>⟧.partial_cmp (NonInteger error) (OutOfRange divisor) ≡
        Some Less }
    ensures divisors { IsAscending ⟦<Divisor as Ord>⟧.cmp divisors }
    ensures fifo_sizes { IsAscending ⟦<FifoSize as Ord>⟧.cmp fifo_sizes }
{}

/// Structs are compared by their fields, in this order.
pub fn fields_are_in_order()
    // promise: orders are total and agree with equality; defaults and constants are these
    // with: fields_are_in_order.config, cases_are_in_order.divisors, defaults_are_these.config,
    //   constants_are_these.clock
    // shown by: baud_rates, configuration
    // refused: compares_by_number_alone, config_fields_in_another_order
    ensures config { (a b : Config) → ⟦<Config as Ord>⟧.cmp a b ≡ in_turn (
        ⟦<IER as Ord>⟧.cmp a.interrupts b.interrupts
        ∷ nat_cmp a.frequency b.frequency
        ∷ ⟦<Option<u32> as Ord>⟧.cmp a.prescaler_division_factor b.prescaler_division_factor
        ∷ ⟦<Option<FifoTriggerLevel> as Ord>⟧.cmp a.fifo_trigger_level b.fifo_trigger_level
        ∷ ⟦<BaudRate as Ord>⟧.cmp a.baud_rate b.baud_rate
        ∷ ⟦<WordLength as Ord>⟧.cmp a.data_bits b.data_bits
        ∷ bool_cmp a.extra_stop_bits b.extra_stop_bits
        ∷ ⟦<Parity as Ord>⟧.cmp a.parity b.parity
        ∷ bool_cmp a.check_cts_before_sending b.check_cts_before_sending
        ∷ []) }
    ensures baud_rate_error { (a b : NonIntegerBaudRateError) →
        ⟦<NonIntegerBaudRateError as PartialOrd>⟧.partial_cmp a b ≡ partial_in_turn (
        Some (nat_cmp a.frequency b.frequency) ∷ Some (nat_cmp a.divisor b.divisor)
        ∷ ⟦<Option<u32> as PartialOrd>⟧.partial_cmp
        a.prescaler_division_factor b.prescaler_division_factor ∷ []) }
    ensures divisor_error { (a b : NonIntegerDivisorError) →
        ⟦<NonIntegerDivisorError as PartialOrd>⟧.partial_cmp a b ≡ partial_in_turn (
        Some (nat_cmp a.frequency b.frequency) ∷ Some (nat_cmp a.baud_rate b.baud_rate)
        ∷ ⟦<Option<u32> as PartialOrd>⟧.partial_cmp
        a.prescaler_division_factor b.prescaler_division_factor ∷ []) }
{}

/// Dumps are compared by their registers, in this order. In the default value all bits are clear.
pub fn dump_fields_are_in_order()
    ensures order { (a b : ConfigRegisterDump) → ⟦<ConfigRegisterDump as Ord>⟧.cmp a b ≡ in_turn (
        ⟦<IER as Ord>⟧.cmp a.ier b.ier
        ∷ ⟦<ISR as Ord>⟧.cmp a.isr b.isr
        ∷ ⟦<LCR as Ord>⟧.cmp a.lcr b.lcr
        ∷ ⟦<MCR as Ord>⟧.cmp a.mcr b.mcr
        ∷ ⟦<LSR as Ord>⟧.cmp a.lsr b.lsr
        ∷ ⟦<MSR as Ord>⟧.cmp a.msr b.msr
        ∷ nat_cmp a.spr b.spr
        ∷ nat_cmp a.dll b.dll
        ∷ nat_cmp a.dlm b.dlm
        ∷ []) }
    ensures default { (dump : ConfigRegisterDump) →
        ⟦<ConfigRegisterDump as Default>⟧.is_default dump → dump ≡ record {
          ier = record { 0 = 0 };
          isr = record { 0 = 0 };
          lcr = record { 0 = 0 };
          mcr = record { 0 = 0 };
          lsr = record { 0 = 0 };
          msr = record { 0 = 0 };
          spr = 0;
          dll = 0;
          dlm = 0;
        } }
{}

/// Registers are compared as the numbers that their bytes are.
pub fn registers_are_in_order()
    ensures ier { (a b : IER) → ⟦<IER as Ord>⟧.cmp a b ≡ nat_cmp a.0 b.0 }
    ensures isr { (a b : ISR) → ⟦<ISR as Ord>⟧.cmp a b ≡ nat_cmp a.0 b.0 }
    ensures fcr { (a b : FCR) → ⟦<FCR as Ord>⟧.cmp a b ≡ nat_cmp a.0 b.0 }
    ensures lcr { (a b : LCR) → ⟦<LCR as Ord>⟧.cmp a b ≡ nat_cmp a.0 b.0 }
    ensures mcr { (a b : MCR) → ⟦<MCR as Ord>⟧.cmp a b ≡ nat_cmp a.0 b.0 }
    ensures lsr { (a b : LSR) → ⟦<LSR as Ord>⟧.cmp a b ≡ nat_cmp a.0 b.0 }
    ensures msr { (a b : MSR) → ⟦<MSR as Ord>⟧.cmp a b ≡ nat_cmp a.0 b.0 }
    ensures psd { (a b : PSD) → ⟦<PSD as Ord>⟧.cmp a b ≡ nat_cmp a.0 b.0 }
{}

/// The values of the constants.
pub fn constants_are_these()
    ensures clock { CLK_FREQUENCY_HZ ≡ 1843200 }
    ensures fifo { FIFO_SIZE ≡ 16 }
    ensures registers { NUM_REGISTERS ≡ 8 }
    ensures offsets { (offsets.DATA ∷ offsets.IER ∷ offsets.ISR ∷ offsets.LCR ∷ offsets.MCR
        ∷ offsets.LSR ∷ offsets.MSR ∷ offsets.SPR ∷ [])
        ≡ (0 ∷ 1 ∷ 2 ∷ 3 ∷ 4 ∷ 5 ∷ 6 ∷ 7 ∷ []) }
    ensures shared_offsets { (offsets.FCR ∷ offsets.DLL ∷ offsets.DLM ∷ offsets.PSD ∷ []) ≡
        (2 ∷ 0 ∷ 1 ∷ 6 ∷ []) }
{}
