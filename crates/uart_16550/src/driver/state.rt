//! The state of a driver without its backend, as a value.
ghost use Rattle.std.specs.Prelude.{◌≡◌};
ghost use Rattle.uart_16550.specs.Driver.{backend_of, fields};
ghost use Rattle.uart_16550.specs.State.{fields_of, fresh_fields};

use super::{DEFAULT_SPIN_LIMIT, Uart16550};
use crate::backend::Backend;
use bitflags::Flags;
use std::num::NonZeroU64;
use uart_spec::registers::{LSR, MSR};
use uart_spec::{Config, FifoSize};

/// The state of a driver without its backend: everything that a driver over another backend needs
/// to continue.
#[derive(Clone, Debug, PartialEq, Drop)]
pub struct DriverState {
    /// The configuration, as `Uart16550::config` returns it.
    pub config: Config,
    /// Whether the chip is taken to have a FIFO that is on.
    pub fifo_enabled: bool,
    /// Which size the FIFOs are taken to have, as `Uart16550::fifo_size` returns it.
    pub fifo_size: FifoSize,
    /// The line errors that reads of LSR cleared in the chip, and that no call of `lsr` has
    /// returned.
    pub saved_lsr: LSR,
    /// The changes of modem lines that reads of MSR cleared in the chip, and that no call of `msr`
    /// has returned.
    pub saved_msr: MSR,
    /// How many unsuccessful polls in a row a wait makes before it returns an error.
    pub spin_limit: NonZeroU64,
}

impl DriverState {
    /// Returns the state of a driver that `new_with_backend` has just made.
    pub fn new() -> Self
        ensures { fields_of result ≡ fresh_fields }
    {
        DriverState {
            config: Config::DEFAULT,
            fifo_enabled: true,
            fifo_size: FifoSize::Sixteen,
            saved_lsr: LSR::from_bits_retain(0),
            saved_msr: MSR::from_bits_retain(0),
            spin_limit: NonZeroU64::new(DEFAULT_SPIN_LIMIT).unwrap(),
        }
    }
}

impl<B: Backend> Uart16550<B> {
    /// Returns a driver over this backend that continues from this state. Makes no access.
    ///
    /// # Examples
    ///
    /// ```
    /// let mut uart = Uart16550Tty::from_inner(Uart16550::from_state(Tape::new(accesses), state));
    /// ```
    pub fn from_state(backend: B, state: &DriverState) -> Self
        ensures backend { backend_of result ≡ backend }
        ensures fields { fields result ≡ fields_of state.now }
    {
        Uart16550 {
            backend,
            config: Config { ..state.config },
            fifo_enabled: state.fifo_enabled,
            fifo_size: state.fifo_size,
            saved_lsr: state.saved_lsr,
            saved_msr: state.saved_msr,
            spin_limit: state.spin_limit,
        }
    }

    /// Returns the state of the driver, as a copy. Makes no access.
    ///
    /// # Examples
    ///
    /// ```
    /// let state = uart.inner().state();
    /// ```
    pub fn state(&self) -> DriverState
        // proved: What a driver keeps beside its backend, as a value, and a driver over any backend
        //   that goes on from it
        // on: `Uart16550::state`, `from_state`, `DriverState::new`
        ensures { fields_of result ≡ fields self.now }
    {
        DriverState {
            config: Config { ..self.config },
            fifo_enabled: self.fifo_enabled,
            fifo_size: self.fifo_size,
            saved_lsr: self.saved_lsr,
            saved_msr: self.saved_msr,
            spin_limit: self.spin_limit,
        }
    }
}
