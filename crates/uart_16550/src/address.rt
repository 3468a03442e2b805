//! Constructors of drivers for devices at I/O ports and in memory.
ghost use Rattle.std.specs.Prelude.{IfOk, IfErr};
ghost use Rattle.std.specs.Int.NonZero.{non_zero_usize_get};
ghost use Rattle.uart_16550.specs.Pio.{IsAtPorts, IsPortRefusal};
ghost use Rattle.uart_16550.specs.Mmio.{IsInMemory, IsMappingRefusal};
ghost use Rattle.uart_16550.specs.Driver.{IsFresh, backend_of};

use crate::backend::{ByteAccess, MmioBackend, PioBackend, PortAccess};
use crate::driver::Uart16550;
use std::num::NonZeroUsize;
use uart_spec::{Config, InvalidAddressError};

impl<P: PortAccess + Drop> Uart16550<PioBackend<P>> {
    /// Returns a driver for the device whose registers are at eight consecutive I/O ports, from
    /// `base_port` on.
    ///
    /// Makes no access: call `init` before any other call. The configuration is `Config::DEFAULT`
    /// until then. Port 0 is accepted.
    ///
    /// # Errors
    ///
    /// `InvalidBaseAddress`, with the base port, if the last register would be beyond port 65535.
    /// The access object is dropped then.
    ///
    /// # Examples
    ///
    /// ```
    /// // `ports` is a `PortAccess`: how this program accesses I/O ports.
    /// let mut uart = Uart16550::new_port(0x3f8, ports)?;
    /// uart.init(Config::DEFAULT)?;
    /// uart.send_bytes_exact(b"hello")?;
    /// ```
    pub fn new_port(base_port: u16, access: P) -> Result<Self, InvalidAddressError>
        // promise: an address is refused exactly if the device would not fit, the stride first
        // with: new_port.refused, new_mmio.refused
        // shown by: new_mmio_refuses_the_stride_first, new_port_refuses_ports_beyond_the_last
        // refused: new_mmio_checks_the_base_first, new_mmio_takes_any_stride
        // proved: An address is refused exactly if the last register would lie beyond the last port
        //   or address, or if the stride is no power of two, which is checked first
        // on: `new_port`, `new_mmio`, `new_mmio_from_address`
        ensures fresh { IfOk result (λ driver. IsFresh driver (backend_of driver) Config.DEFAULT) }
        ensures place { IfOk result (λ driver. IsAtPorts (backend_of driver) base_port access) }
        ensures refused { IfErr result (IsPortRefusal base_port) }
    {
        Ok(Uart16550::new_with_backend(PioBackend::new(base_port, access)?))
    }
}

impl<M: ByteAccess + Drop> Uart16550<MmioBackend<M>> {
    /// Returns a driver for the device whose registers are in memory, from `base_address` on. The
    /// registers are `stride` bytes apart, and each is one byte wide.
    ///
    /// Makes no access: call `init` before any other call. The configuration is `Config::DEFAULT`
    /// until then.
    ///
    /// # Errors
    ///
    /// - `InvalidStride`, with the stride, if it is zero or not a power of two.
    /// - Otherwise `InvalidBaseAddress`, with the base address, if the last register would be
    ///   beyond the last address.
    ///
    /// The access object is dropped then.
    ///
    /// # Examples
    ///
    /// ```
    /// let base = NonZeroUsize::new(0x1000).unwrap();
    /// let mut uart = Uart16550::new_mmio(base, 4, Memory(cells))?;
    /// ```
    pub fn new_mmio(
        base_address: NonZeroUsize,
        stride: u8,
        access: M,
    ) -> Result<Self, InvalidAddressError>
        ensures fresh { IfOk result (λ driver. IsFresh driver (backend_of driver) Config.DEFAULT) }
        ensures place { IfOk result (λ driver.
            IsInMemory (backend_of driver) base_address stride access) }
        ensures refused { IfErr result (IsMappingRefusal (non_zero_usize_get base_address) stride) }
    {
        Ok(Uart16550::new_with_backend(MmioBackend::new(base_address, stride, access)?))
    }

    /// Does the same as `new_mmio`. Both take the base address as a number, not as a pointer.
    ///
    /// # Errors
    ///
    /// Those of `new_mmio`.
    ///
    /// # Examples
    ///
    /// ```
    /// let base = NonZeroUsize::new(0x1000).ok_or("base 0")?;
    /// let mut uart = Uart16550::new_mmio_from_address(base, 4, Memory(cells))?;
    /// ```
    pub fn new_mmio_from_address(
        base_address: NonZeroUsize,
        stride: u8,
        access: M,
    ) -> Result<Self, InvalidAddressError>
        ensures fresh { IfOk result (λ driver. IsFresh driver (backend_of driver) Config.DEFAULT) }
        ensures place { IfOk result (λ driver.
            IsInMemory (backend_of driver) base_address stride access) }
        ensures refused { IfErr result (IsMappingRefusal (non_zero_usize_get base_address) stride) }
    {
        Self::new_mmio(base_address, stride, access)
    }
}
