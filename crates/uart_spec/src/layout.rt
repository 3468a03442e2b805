//! How the registers of a device lie: at ports, or in memory, how far apart there, how wide, and in
//! which order their bytes are.
ghost use Rattle.std.specs.Prelude.{◌≡◌, ◌+◌, ◌<◌, IfOk, IfErr};
ghost use Rattle.std.specs.Int.NonZero.{non_zero_u8_get};
ghost use Rattle.uart_spec.specs.Layout.{ArePorts, IsLaidOut, IsLayoutRefusal, IsSpaced};
ghost use Rattle.uart_spec.specs.Layout.{IsSpacingRefusal, bytes_of};
ghost use Rattle.uart_spec.specs.declared.registers.offsets.TheConstants as offsets;
ghost use Rattle.uart_spec.specs.declared.errors.InvalidAddressError.TheVariants.{InvalidBaseAddress};

use crate::errors::InvalidAddressError;
use crate::registers::offsets;
use std::fmt;
use std::num::NonZeroU8;
use thiserror::Error;

/// How many bits an access to a register has.
#[derive(Clone, Copy, Debug, PartialEq, Eq, Hash)]
pub enum RegisterWidth {
    /// One byte.
    Bits8,
    /// Two bytes.
    Bits16,
    /// Four bytes.
    Bits32,
}

impl RegisterWidth {
    /// Returns how many bytes an access has.
    ///
    /// # Examples
    ///
    /// ```
    /// assert_eq!(rt; RegisterWidth::Bits16.bytes(), 2);
    /// ```
    #[must_use]
    pub fn bytes(self) -> u8
        ensures { result ≡ bytes_of self }
    {
        match self {
            RegisterWidth::Bits8 => 1,
            RegisterWidth::Bits16 => 2,
            RegisterWidth::Bits32 => 4,
        }
    }
}

impl fmt::Display for RegisterWidth {
    fn fmt<W: fmt::Write>(&self, f: &mut fmt::Formatter<W>) -> fmt::Result {
        write!(f, "{} bits", 8 * self.bytes())
    }
}

/// Which byte of a register of several bytes is the first in memory. The chip's eight bits are in
/// the lowest byte.
#[derive(Clone, Copy, Debug, PartialEq, Eq, Hash)]
pub enum ByteOrder {
    /// The lowest.
    Little,
    /// The highest.
    Big,
}

/// How the registers of a device lie in memory, from the first one on.
///
/// # Examples
///
/// ```
/// // A device tree says: reg-shift = <2>; reg-io-width = <4>; big-endian;
/// let layout = RegisterLayout {
///     stride: 1 << 2,
///     width: RegisterWidth::Bits32,
///     byte_order: ByteOrder::Big,
/// };
/// assert_eq!(rt; layout.width.bytes(), 4);
/// ```
#[derive(Clone, Copy, Debug, PartialEq, Eq, Hash)]
pub struct RegisterLayout {
    /// The distance between two registers in bytes: a power of two, and at least the width.
    pub stride: u8,
    /// How many bits each access has.
    pub width: RegisterWidth,
    /// The order of the bytes of a register. It means nothing if a register has one byte.
    pub byte_order: ByteOrder,
}

/// Why the registers of a device cannot lie so in memory. What is first in this list is checked
/// first.
#[derive(Clone, Debug, PartialEq, Eq, Hash, Drop, Error)]
pub enum InvalidLayoutError {
    /// No device can be there, however wide its registers are.
    #[error(transparent)]
    InvalidAddress(#[from] InvalidAddressError),
    /// The registers would overlap: the distance between two of them is less than their width.
    #[error("invalid stride {stride}: registers of {width} overlap")]
    StrideTooSmall {
        /// The distance, in bytes.
        stride: u8,
        /// The width.
        width: RegisterWidth,
    },
    /// The base address is not a multiple of the width, so an access would not be one access.
    #[error("invalid register address: {base:#x} is not aligned for {width}")]
    MisalignedBase {
        /// The base address.
        base: usize,
        /// The width.
        width: RegisterWidth,
    },
}

/// Checks that the eight ports from this one on exist.
///
/// # Errors
///
/// `InvalidBaseAddress`, with the base port, if the last register would be beyond port 65535.
pub fn check_ports(base: u16) -> Result<(), InvalidAddressError>
    // proved: Which eight ports exist; how far apart, how wide and where registers in memory can
    //   be, so that each has an address, no two overlap and each is aligned; each error says what
    //   is wrong, and what is first is checked first
    // on: `check_ports`, `check_spacing`, `check_layout`, `RegisterWidth::bytes`
    ensures ok { IfOk result (λ checked. ArePorts base) }
    ensures same { IfErr result (λ error. error ≡ InvalidBaseAddress base) }
    ensures beyond { IfErr result (λ error. 65535 < base + offsets.SPR) }
{
    match base.checked_add(offsets::SPR as u16) {
        Some(_) => Ok(()),
        None => Err(InvalidAddressError::InvalidBaseAddress(base as usize)),
    }
}

/// Checks that registers may be so far apart, and that the last one, whose number this is, has an
/// address. Returns the distance.
///
/// # Errors
///
/// - `InvalidStride`, with the stride, if it is zero or not a power of two.
/// - Otherwise `InvalidBaseAddress`, with the base address, if the last register would be beyond
///   the last address.
pub fn check_spacing(base: usize, stride: u8, last: u8) -> Result<NonZeroU8, InvalidAddressError>
    ensures same { IfOk result (λ distance. non_zero_u8_get distance ≡ stride) }
    ensures ok { IfOk result (λ distance. IsSpaced base stride last) }
    ensures err { IfErr result (IsSpacingRefusal base stride last) }
{
    let Some(distance) = NonZeroU8::new(stride) else {
        return Err(InvalidAddressError::InvalidStride(stride));
    };
    if !stride.is_power_of_two() {
        return Err(InvalidAddressError::InvalidStride(stride));
    }
    match base.checked_add(last as usize * stride as usize) {
        Some(_) => Ok(distance),
        None => Err(InvalidAddressError::InvalidBaseAddress(base)),
    }
}

/// Checks that eight registers can lie so from this address on. Returns the distance between two.
///
/// # Errors
///
/// - `InvalidAddress`, with the cause, as [`check_spacing`] says.
/// - Otherwise `StrideTooSmall` if the stride is less than the width.
/// - Otherwise `MisalignedBase` if the base is not a multiple of the width.
pub fn check_layout(base: usize, layout: RegisterLayout) -> Result<NonZeroU8, InvalidLayoutError>
    // promise: registers in memory each have an address, none overlaps another, and each is
    //   aligned; an error says what is wrong
    // with: check_layout.ok, check_layout.err, check_spacing.ok, check_ports.ok
    // shown by: layouts_are_tested, bases_are_tested, what_is_tested_first
    // refused: layout_of_registers_that_overlap, layout_of_any_alignment, spacing_of_any_stride
    ensures same { IfOk result (λ distance. non_zero_u8_get distance ≡ layout.stride) }
    ensures ok { IfOk result (λ distance. IsLaidOut base layout) }
    ensures err { IfErr result (IsLayoutRefusal base layout) }
{
    let RegisterLayout { stride, width, .. } = layout;
    let distance = match check_spacing(base, stride, offsets::SPR as u8) {
        Ok(distance) => distance,
        Err(cause) => return Err(InvalidLayoutError::InvalidAddress(cause)),
    };
    if stride < width.bytes() {
        return Err(InvalidLayoutError::StrideTooSmall { stride, width });
    }
    let alignment = width.bytes() as usize;
    if base % alignment != 0 {
        return Err(InvalidLayoutError::MisalignedBase { base, width });
    }
    Ok(distance)
}
