//! What a bus holds, and the driver under it.
ghost use Rattle.std.specs.Prelude.{◌≡◌};
ghost use Rattle.uart_rs485.specs.Bus.{bus_fields, driver_of};

use crate::bus::HalfDuplex;
use crate::direction::Direction;
use uart_16550::Uart16550;
use uart_16550::backend::Backend;

impl<B: Backend> HalfDuplex<B> {
    /// Returns whether the direction is to send. Makes no access.
    ///
    /// # Examples
    ///
    /// ```
    /// assert!(rt; !bus.is_sending());
    /// ```
    pub fn is_sending(&self) -> bool
        // proved: What is held, and the driver under it. No access is made
        // on: `is_sending`, `direction`, `inner`, `into_inner`
        ensures { result ≡ (bus_fields self.now).sends }
    {
        self.is_sending
    }

    /// Returns how the transceiver is switched. Makes no access.
    ///
    /// # Examples
    ///
    /// ```
    /// assert_eq!(rt; bus.direction(), direction);
    /// ```
    pub fn direction(&self) -> Direction
        ensures { result ≡ (bus_fields self.now).direction }
    {
        self.direction
    }

    /// Returns the driver, to read its state. Makes no access.
    ///
    /// # Examples
    ///
    /// ```
    /// let limit = bus.inner().spin_limit();
    /// ```
    pub fn inner(&self) -> &Uart16550<B>
        ensures { result.now ≡ driver_of self.now }
    {
        &self.uart
    }

    /// Returns the driver. The direction stays as it is, so finish before. Makes no access.
    ///
    /// # Examples
    ///
    /// ```
    /// let uart = bus.into_inner();
    /// ```
    pub fn into_inner(self) -> Uart16550<B>
        ensures { result ≡ driver_of self }
    {
        self.uart
    }
}
