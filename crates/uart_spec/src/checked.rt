//! Forms that return an error for arguments which the arithmetic does not accept.
//!
//! In Rattle a caller is proved to meet what a function requires. In Rust nobody does that, so the
//! function tests it and panics; these functions test it before the call, and require nothing.
ghost use Rattle.std.specs.Prelude.{◌≡◌, ◌≤◌, ◌<◌, IfSome, IfNone, IfOk, IfErr};
ghost use Rattle.std.specs.Int.RustNames.{bit_and, bit_or};
ghost use Rattle.uart_spec.specs.Baud.{prescaler};
ghost use Rattle.uart_spec.specs.Checked.{HasNoFrequency, IsAccepted, IsCheckedDivisor};
ghost use Rattle.uart_spec.specs.Checked.{IsCheckedDumpRate, IsCheckedNearest, IsCheckedRate};
ghost use Rattle.uart_spec.specs.Checked.{IsFrequency, IsRefusal};

use crate::baud::{calc_baud_rate, calc_divisor};
use crate::config::{BaudRate, Config};
use crate::dump::ConfigRegisterDump;
use crate::errors::{
    InvalidDivisorError, NearestDivisorError, NonIntegerBaudRateError, NonIntegerDivisorError,
};
use crate::registers::PSD;

// The clock ticks of a bit, before the prescaler.
const TICKS_PER_BIT: u32 = 16;

// The factor is above 15.
#[derive(Drop)]
struct UnknownFactor;

// Returns the factor if it is a factor. It is taken apart and put together again, so that the
// compiler sees that the test of the called function holds, and leaves no path to its panic.
#[inline(always)]
fn known(prescaler_division_factor: Option<u32>) -> Result<Option<u32>, UnknownFactor>
    ensures same { IfOk result (λ known. known ≡ prescaler_division_factor) }
    ensures ok { IfOk result (λ known. prescaler prescaler_division_factor ≤ 15) }
    ensures err { IfErr result (λ unknown. 15 < prescaler prescaler_division_factor) }
{
    match prescaler_division_factor {
        None => Ok(None),
        Some(factor) if factor <= 15 => Ok(Some(factor)),
        Some(_) => Err(UnknownFactor),
    }
}

/// Does the same as `calc_frequency`, but returns `None` if that would panic: if the baud rate or
/// the divisor is 0, if the prescaler division factor is above 15, or if the frequency does not
/// fit.
///
/// # Examples
///
/// ```
/// assert_eq!(rt; checked_frequency(9_600, 12, None), Some(1_843_200));
/// assert_eq!(rt; checked_frequency(9_600, 12, Some(16)), None);
/// assert_eq!(rt; checked_frequency(u32::MAX, 12, None), None);
/// ```
#[must_use]
pub fn checked_frequency(
    baud_rate: u32,
    divisor: u32,
    prescaler_division_factor: Option<u32>,
) -> Option<u32>
    // proved: Forms that require nothing, for callers in Rust, whom nobody proves to meet what the
    //   functions above require: the same answer if it is met, and otherwise an error that says
    //   why; a frequency that does not fit into 32 bits is none
    // on: `checked_frequency`, `checked_baud_rate`, `checked_divisor`, `accepted`,
    //   `Config::checked_nearest`, `ConfigRegisterDump::checked_baud_rate`, `PSD::checked_set_pdf`
    ensures some { IfSome result (IsFrequency baud_rate divisor prescaler_division_factor) }
    ensures none { IfNone result (HasNoFrequency baud_rate divisor prescaler_division_factor) }
{
    let factor = known(prescaler_division_factor).ok()?;
    if baud_rate == 0 || divisor == 0 {
        return None;
    }
    let ticks = TICKS_PER_BIT * (factor.unwrap_or(0) + 1);
    ticks.checked_mul(baud_rate)?.checked_mul(divisor)
}

/// Does the same as `calc_baud_rate`, but also returns the error if that would panic: if the
/// frequency or the divisor is 0, or if the prescaler division factor is above 15.
///
/// # Errors
///
/// `NonIntegerBaudRateError`, with the arguments.
///
/// # Examples
///
/// ```
/// assert_eq!(rt; checked_baud_rate(1_843_200, 12, None), Ok(9_600));
/// assert!(rt; checked_baud_rate(1_843_200, 0, None).is_err());
/// ```
pub fn checked_baud_rate(
    frequency: u32,
    divisor: u32,
    prescaler_division_factor: Option<u32>,
) -> Result<u32, NonIntegerBaudRateError>
    ensures { IsCheckedRate frequency divisor prescaler_division_factor result }
{
    match known(prescaler_division_factor) {
        Ok(factor) if frequency != 0 && divisor != 0 => calc_baud_rate(frequency, divisor, factor),
        _ => Err(NonIntegerBaudRateError {
            frequency,
            divisor,
            prescaler_division_factor,
        }),
    }
}

/// Does the same as `calc_divisor`, but also returns an error if that would panic: if the frequency
/// or the baud rate is 0, or if the prescaler division factor is above 15.
///
/// # Errors
///
/// Those of `calc_divisor`. A baud rate of 0 or a larger factor gives `NonInteger`, and otherwise a
/// frequency of 0 gives `OutOfRange` with the divisor 0.
///
/// # Examples
///
/// ```
/// assert_eq!(rt; checked_divisor(1_843_200, 9_600, None), Ok(12));
/// let refused = checked_divisor(0, 9_600, None);
/// assert_eq!(rt; refused, Err(InvalidDivisorError::OutOfRange { divisor: 0 }));
/// ```
pub fn checked_divisor(
    frequency: u32,
    baud_rate: u32,
    prescaler_division_factor: Option<u32>,
) -> Result<u16, InvalidDivisorError>
    // promise: a form `checked_..` returns what the other does if that is accepted, and otherwise
    //   why it is not
    // with: checked_divisor, checked_baud_rate, checked_frequency.none, checked_nearest,
    //   accepted.err, checked_init, checked_set_frame
    // shown by: checked_forms_return_what_the_others_do,
    //   arithmetic_refuses_zeros_and_larger_factors
    // refused: accepts_a_frequency_of_zero, checked_frequency_of_no_divisor,
    //   checked_factors_below_fifteen, uart_16550/checked_set_frame_refuses_each_frame
    ensures { IsCheckedDivisor frequency baud_rate prescaler_division_factor result }
{
    match accepted(frequency, baud_rate, prescaler_division_factor) {
        Ok(factor) => calc_divisor(frequency, baud_rate, factor),
        Err(cause) => Err(cause),
    }
}

/// Returns the factor if a divisor can be computed with these, and otherwise why not.
///
/// # Errors
///
/// Those of `checked_divisor`, but for the ones that depend on the divisor.
#[inline(always)]
pub fn accepted(
    frequency: u32,
    baud_rate: u32,
    prescaler_division_factor: Option<u32>,
) -> Result<Option<u32>, InvalidDivisorError>
    ensures same { IfOk result (λ factor. factor ≡ prescaler_division_factor) }
    ensures ok { IfOk result (λ factor. IsAccepted frequency baud_rate prescaler_division_factor) }
    ensures err { IfErr result (IsRefusal frequency baud_rate prescaler_division_factor) }
{
    match known(prescaler_division_factor) {
        Ok(factor) if baud_rate != 0 && frequency != 0 => Ok(factor),
        Ok(_) if baud_rate != 0 => Err(InvalidDivisorError::OutOfRange { divisor: 0 }),
        _ => Err(InvalidDivisorError::NonInteger(NonIntegerDivisorError {
            frequency,
            baud_rate,
            prescaler_division_factor,
        })),
    }
}

impl Config {
    /// Does the same as `nearest`, but also returns an error if that would panic: if the
    /// configuration is not computable.
    ///
    /// # Errors
    ///
    /// Those of `nearest`, and `OutOfRange` with the divisor 0 for a configuration that is not
    /// computable.
    ///
    /// # Examples
    ///
    /// ```
    /// let clock = |frequency| Config {
    ///     frequency,
    ///     ..Config::DEFAULT
    /// };
    /// let near = clock(24_000_000).checked_nearest(20);
    /// assert_eq!(rt; near.map(|config| config.frequency), Ok(23_961_600));
    /// let refused = clock(0).checked_nearest(20);
    /// assert_eq!(rt; refused, Err(NearestDivisorError::OutOfRange { divisor: 0 }));
    /// ```
    pub fn checked_nearest(self, per_mille: u32) -> Result<Config, NearestDivisorError>
        ensures { IsCheckedNearest self per_mille result }
    {
        if self.is_computable() {
            self.nearest(per_mille)
        } else {
            Err(NearestDivisorError::OutOfRange { divisor: 0 })
        }
    }
}

impl ConfigRegisterDump {
    /// Does the same as `baud_rate`, but also returns the error if that would panic: if the
    /// frequency is 0, or if the prescaler division factor is above 15.
    ///
    /// # Errors
    ///
    /// `NonIntegerBaudRateError`, with the frequency, the divisor and the factor.
    ///
    /// # Examples
    ///
    /// ```
    /// // As a port shows itself that is not set up.
    /// let shown = ConfigRegisterDump::default();
    /// assert!(rt; shown.checked_baud_rate(&Config::DEFAULT).is_err());
    /// ```
    pub fn checked_baud_rate(&self, config: &Config) -> Result<BaudRate, NonIntegerBaudRateError>
        ensures { IsCheckedDumpRate config.now self.now result }
    {
        let divisor = self.divisor() as u32;
        match checked_baud_rate(config.frequency, divisor, config.prescaler_division_factor) {
            Ok(rate) => Ok(BaudRate::from_integer(rate)),
            Err(error) => Err(error),
        }
    }
}

impl PSD {
    /// Does the same as `set_pdf`, but returns `None` if that would panic: if the factor is above
    /// 15.
    ///
    /// # Examples
    ///
    /// ```
    /// assert_eq!(rt; PSD::empty().checked_set_pdf(3).map(|psd| psd.pdf()), Some(3));
    /// assert_eq!(rt; PSD::empty().checked_set_pdf(16), None);
    /// ```
    #[must_use]
    pub fn checked_set_pdf(self, pdf: u8) -> Option<Self>
        ensures factor { IfSome result (λ psd. pdf ≤ 15) }
        ensures some { IfSome result (λ psd. psd.0 ≡ bit_or (bit_and self.0 0xF0) pdf) }
        ensures none { IfNone result (15 < pdf) }
    {
        if pdf > 15 {
            return None;
        }
        Some(self.set_pdf(pdf))
    }
}
