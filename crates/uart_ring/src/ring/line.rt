//! The two halves of handling at a port whose interrupt line others share.
ghost use Rattle.uart_ring.specs.Line.{LowersLine, RaisesLine};
ghost use Rattle.uart_ring.specs.Ring.{RingDid};

use super::{Handled, StuckError, Uart16550Ring};
use bitflags::Flags;
use uart_16550::backend::Backend;
use uart_spec::registers::IER;

/// What `lower_line` did at a port.
#[derive(Clone, Copy, Debug, PartialEq, Eq)]
pub struct Lowered {
    /// What was handled, or why the chip is stuck.
    pub handled: Result<Handled, StuckError>,
    /// The interrupts that were enabled, as IER showed them.
    pub enabled: IER,
}

impl<B: Backend> Uart16550Ring<B> {
    /// Handles the chip's interrupt as `try_handle` does, and then lowers the chip's interrupt
    /// line: reads IER, and disables all interrupts. Returns what was handled and what was enabled.
    ///
    /// This is the first half of handling at a line that several ports share
    /// ([`handle_ports`](crate::handle_ports)); `raise_line` is the second. In between make no
    /// other call at this port: a `take` that ends a pause would let its line rise.
    ///
    /// Does not wait: makes 3 accesses more than `try_handle`.
    ///
    /// # Examples
    ///
    /// ```
    /// let lowered = ring.lower_line(4 * MAX_INTERRUPTS, MAX_UNFINISHED_ROUNDS);
    /// ```
    pub fn lower_line(&mut self, limit: usize, rounds: u32) -> Lowered
        // proved: `lower_line` does what `try_handle` does, reads IER, and disables all interrupts;
        //   it returns what was handled and what was enabled. `raise_line` enables what it is
        //   given, unless the chip is stuck
        // on: `lower_line`, `raise_line`
        ensures { RingDid B.step (LowersLine limit rounds result) self.old self.new }
    {
        let handled = self.try_handle(limit, rounds);
        // IER is read after the interrupt was handled: what a pump or a pause has changed stays so.
        let enabled = self.uart.ier();
        // All eight bits, as in `try_handle`: without them IER is 0, and the chip's line is low
        // whatever happens to it.
        self.uart.disable_interrupts(IER::all());
        Lowered { handled, enabled }
    }

    /// Lets the chip raise its interrupt line again: enables these interrupts, which `lower_line`
    /// found enabled. Those of a chip that is stuck stay disabled.
    ///
    /// Does not wait: makes 2 accesses, or none if the chip is stuck.
    ///
    /// # Examples
    ///
    /// ```
    /// ring.raise_line(lowered.enabled);
    /// ```
    pub fn raise_line(&mut self, enabled: IER)
        ensures { RingDid B.step (RaisesLine enabled.0) self.old self.new }
    {
        match self.stuck {
            None => self.uart.enable_interrupts(enabled),
            // A `restart` enables them. What IER shows of such a chip may be anything.
            Some(_) => {}
        }
    }
}
