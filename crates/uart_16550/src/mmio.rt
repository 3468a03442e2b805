//! The backend for a device in memory.
ghost use Rattle.std.specs.Prelude.{◌≡◌, ◌<◌, IfOk, IfErr, IsTrue};
ghost use Rattle.std.specs.Borrow.{Lends, sem};
ghost use Rattle.std.specs.Int.{is_power_of_two};
ghost use Rattle.std.specs.Int.NonZero.{non_zero_usize_get, non_zero_u8_get};
ghost use Rattle.uart_spec.specs.declared.baud.TheConstants.{NUM_REGISTERS};
ghost use Rattle.uart_16550.specs.contracts.mmio.MmioBackend.{the_row};
ghost use Rattle.uart_16550.specs.Mmio.{address_of, IsMapping, IsInMemory};
ghost use Rattle.uart_16550.specs.Mmio.{IsMappingRefusal, MemoryStep};

use crate::backend::{Backend, ByteAccess};
use std::marker::Model;
use std::num::{NonZeroU8, NonZeroUsize};
use uart_spec::InvalidAddressError;
use uart_spec::registers::offsets;

/// A device whose eight registers are in memory, at equal distances: the stride.
///
/// An access to a register is one access to the byte at `base + offset * stride`, and to no other
/// byte.
#[derive(Clone, Debug, PartialEq, Eq, PartialOrd, Hash, Drop)]
pub struct MmioBackend<M> {
    base: NonZeroUsize,
    stride: NonZeroU8,
    access: M,
}

impl<M> Model for MmioBackend<M> {
    ghost use Rattle.std.specs.Int.NonZero.{non_zero_usize_get, non_zero_u8_get};
    ghost use Rattle.uart_16550.specs.Mmio.{Mapped, IsMapping};

    ghost Value = { Mapped M };

    ghost view = { λ b. record { base = b.base; stride = b.stride; access = b.access } };

    ghost invariant = { λ b. IsMapping (non_zero_usize_get b.base) (non_zero_u8_get b.stride) };

    ghost inverse = { λ m. record { base = m.base; stride = m.stride; access = m.access } };
}

impl<M: ByteAccess> MmioBackend<M> {
    // Returns the backend from this address on with this stride, unless the stride is not a power
    // of two or the last register would be beyond the last address.
    pub(crate) fn new(
        base: NonZeroUsize,
        stride: u8,
        access: M,
    ) -> Result<Self, InvalidAddressError>
    where
        M: Drop,
        ensures ok { IfOk result (λ mapped. IsInMemory mapped base stride access) }
        ensures refused { IfErr result (IsMappingRefusal (non_zero_usize_get base) stride) }
    {
        let stride = NonZeroU8::new(stride)
            .filter(|stride| stride.is_power_of_two())
            .ok_or(InvalidAddressError::InvalidStride(stride))?;
        let last = offsets::SPR * stride.get() as usize;
        if base.get().checked_add(last).is_none() {
            return Err(InvalidAddressError::InvalidBaseAddress(base.get()));
        }
        Ok(MmioBackend {
            base,
            stride,
            access,
        })
    }

    /// Returns the address of the first register.
    pub fn base(&self) -> NonZeroUsize
        // proved: An access touches exactly the port base + offset, or the address base + offset *
        //   stride; `access()` returns the access object. Backends are compared by base, stride and
        //   access object, in this order
        // on: `Backend` of `PioBackend` and of `MmioBackend`; `base`, `stride`, `access`,
        //   `access_mut`; `laws::backends_are_in_order`
        ensures value { result ≡ self.now.base }
        ensures in_range { IsMapping (non_zero_usize_get result) (non_zero_u8_get self.now.stride) }
    {
        self.base
    }

    /// Returns the distance between two registers in bytes: a power of two.
    pub fn stride(&self) -> NonZeroU8
        ensures value { result ≡ self.now.stride }
        ensures power { IsTrue (is_power_of_two (non_zero_u8_get result)) }
    {
        self.stride
    }

    /// Returns the access object, to read its state. Makes no access.
    pub fn access(&self) -> &M
        ensures { result.now ≡ self.now.access }
    {
        &self.access
    }

    /// Returns the access object, for what it can do besides the accesses, such as reporting a
    /// fault. Makes no access itself.
    ///
    /// Accesses by the caller bypass the driver: status bits that they clear are not saved, and the
    /// driver does not notice what they change.
    pub fn access_mut(&mut self) -> &mut M
        ensures* writes_back { sem 𝓛 (Lends (the_row M.row) M.row self.entry result
            (λ m. record self.old { access = m })) }
        ensures value { result.now ≡ self.old.access }
    {
        &mut self.access
    }

    // Returns the address of a register.
    fn address(&self, register_offset: u8) -> usize
        requires { register_offset < NUM_REGISTERS }
        ensures { result ≡ address_of (non_zero_usize_get self.now.base)
            (non_zero_u8_get self.now.stride) register_offset }
    {
        self.base.get() + register_offset as usize * self.stride.get() as usize
    }
}

impl<M: ByteAccess> Backend for MmioBackend<M> {
    ghost step = { MemoryStep M.step };

    fn read(&mut self, register_offset: u8) -> u8 {
        let address = self.address(register_offset);
        self.access.load(address)
    }

    fn write(&mut self, register_offset: u8, value: u8) {
        let address = self.address(register_offset);
        self.access.store(address, value);
    }
}
