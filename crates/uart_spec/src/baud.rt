//! Clock frequency, divisor and baud rate: each of the three from the other two.
ghost use Rattle.std.specs.Prelude.{◌≡◌, ◌≢◌, ℕ, ◌+◌, ◌*◌, ◌<◌, ◌≤◌, ◌^◌, IfSome, IfNone};
ghost use Rattle.uart_spec.specs.Bits.{IsOnly, IsOnlyIfAny};
ghost use Rattle.uart_spec.specs.Baud.{IsBaudRateAnswer, IsDivisorAnswer, IsNearestFactor};
ghost use Rattle.uart_spec.specs.Baud.{frequency_of, prescaler};

use crate::errors::{InvalidDivisorError, NonIntegerBaudRateError, NonIntegerDivisorError};

/// The usual frequency of the clock that drives the baud rate generator, in hertz: 16 clock ticks
/// per bit at 115,200 baud.
pub const CLK_FREQUENCY_HZ: u32 = 1_843_200;

/// The number of characters that a FIFO of a 16550 holds.
pub const FIFO_SIZE: usize = 16;

/// The number of registers that a 16550 shows at a time, at offsets 0 to 7.
pub const NUM_REGISTERS: usize = 8;

/// Returns the clock frequency in hertz at which a divisor gives a baud rate.
///
/// The generator divides the clock by 16, by the divisor, and by the prescaler division factor plus
/// 1. The factor is between 0 and 15; `None` counts as 0.
///
/// # Examples
///
/// ```
/// assert_eq!(rt; calc_frequency(9_600, 12, None), 1_843_200);
/// ```
pub fn calc_frequency(baud_rate: u32, divisor: u32, prescaler_division_factor: Option<u32>) -> u32
    // the rate is not 0
    requires baud_rate { 0 < baud_rate }
    // the divisor is not 0
    requires divisor { 0 < divisor }
    // the prescaler is one that a chip can have
    requires prescaler { prescaler prescaler_division_factor ≤ 15 }
    // the frequency fits into 32 bits
    requires fits { frequency_of baud_rate divisor prescaler_division_factor < 2 ^ 32 }
    ensures { result ≡ frequency_of baud_rate divisor prescaler_division_factor }
{
    16 * (prescaler_division_factor.unwrap_or(0) + 1) * baud_rate * divisor
}

/// Returns the baud rate that a divisor gives at a clock frequency in hertz. Nothing is rounded.
///
/// # Errors
///
/// `NonIntegerBaudRateError`, with the arguments, if the baud rate is not a whole number.
///
/// # Examples
///
/// ```
/// assert_eq!(rt; calc_baud_rate(1_843_200, 12, None), Ok(9_600));
/// ```
pub fn calc_baud_rate(
    frequency: u32,
    divisor: u32,
    prescaler_division_factor: Option<u32>,
) -> Result<u32, NonIntegerBaudRateError>
    // the clock is not 0
    requires frequency { 0 < frequency }
    // the divisor is not 0
    requires divisor { 0 < divisor }
    // the prescaler is one that a chip can have
    requires prescaler { prescaler prescaler_division_factor ≤ 15 }
    ensures { IsOnly (IsBaudRateAnswer frequency divisor prescaler_division_factor) result }
{
    match other_factor(frequency, divisor, prescaler_division_factor) {
        Some(baud_rate) => Ok(baud_rate),
        None => Err(NonIntegerBaudRateError {
            frequency,
            divisor,
            prescaler_division_factor,
        }),
    }
}

/// Returns the divisor that gives a baud rate at a clock frequency in hertz. Nothing is rounded.
///
/// # Errors
///
/// - `NonInteger`, with the arguments, if no whole divisor gives exactly this baud rate. At the
///   usual clock that is the case for 110 baud.
/// - `OutOfRange`, with the divisor, if one does, but it does not fit into the divisor latch of 16
///   bits.
///
/// # Examples
///
/// ```
/// assert_eq!(rt; calc_divisor(1_843_200, 9_600, None), Ok(12));
/// ```
pub fn calc_divisor(
    frequency: u32,
    baud_rate: u32,
    prescaler_division_factor: Option<u32>,
) -> Result<u16, InvalidDivisorError>
    // promise: divisor, baud rate and frequency solve one equation, and nothing is rounded
    // with: calc_divisor, calc_baud_rate, calc_frequency
    // shown by: baud_rate_arithmetic, refuses-baud-rates
    // refused: rounds_to_the_nearest_divisor, forgets_the_prescaler
    // the prescaler is one that a chip can have
    requires prescaler { prescaler prescaler_division_factor ≤ 15 }
    // the clock is not 0
    requires frequency { 0 < frequency }
    // the rate is not 0
    requires baud_rate { 0 < baud_rate }
    ensures { IsOnly (IsDivisorAnswer frequency baud_rate prescaler_division_factor) result }
{
    match other_factor(frequency, baud_rate, prescaler_division_factor) {
        None => Err(InvalidDivisorError::NonInteger(NonIntegerDivisorError {
            frequency,
            baud_rate,
            prescaler_division_factor,
        })),
        Some(divisor) if divisor <= u16::MAX as u32 => Ok(divisor as u16),
        Some(divisor) => Err(InvalidDivisorError::OutOfRange { divisor }),
    }
}

// Returns the divisor for a baud rate, or the baud rate for a divisor: the two are factors of one
// product. So both errors have one relation, 'this result and no other', over one equation that is
// a product, while the code divides.
//
// The ticks are computed in 64 bits: they reach 16 * 16 * (2^32 - 1).
fn other_factor(frequency: u32, factor: u32, prescaler_division_factor: Option<u32>) -> Option<u32>
    requires factor { 0 < factor }
    requires prescaler { prescaler prescaler_division_factor ≤ 15 }
    ensures only { IsOnlyIfAny (λ other.
        frequency_of factor other prescaler_division_factor ≡ frequency) result }
    ensures some { IfSome result (λ other.
        frequency_of factor other prescaler_division_factor ≡ frequency) }
    ensures none { IfNone result ((other : ℕ) →
        frequency_of factor other prescaler_division_factor ≢ frequency) }
{
    let ticks = 16 * (prescaler_division_factor.unwrap_or(0) as u64 + 1) * factor as u64;
    whole_quotient(frequency, ticks)
}

// Returns the quotient if there is no remainder.
fn whole_quotient(dividend: u32, divisor: u64) -> Option<u32>
    requires { 0 < divisor }
    ensures { IsOnlyIfAny (λ quotient. divisor * quotient ≡ dividend) result }
{
    let dividend = dividend as u64;
    if dividend % divisor == 0 {
        Some((dividend / divisor) as u32)
    } else {
        None
    }
}

// Returns how many clock ticks a bit has at divisor 1.
pub(crate) fn ticks_of(baud_rate: u32, prescaler_division_factor: Option<u32>) -> u64
    requires prescaler { prescaler prescaler_division_factor ≤ 15 }
    ensures value { result ≡ 16 * (prescaler prescaler_division_factor + 1) * baud_rate }
    ensures fits { result < 2 ^ 40 }
{
    16 * (prescaler_division_factor.unwrap_or(0) as u64 + 1) * baud_rate as u64
}

// Returns the factor, at least 1, at which the rate is nearest to the one that is wanted, if the
// clock has this frequency, and if the factor 1 is exact at this number of ticks. If two are
// equally near, it is the larger one.
//
// A factor gives the rate `frequency / factor`, and the wanted one is `ticks`. Rates are not spaced
// as their factors are: between two neighbours the rates are equally far off where the frequency
// divided by the ticks is the harmonic mean of the two, which is below the middle.
pub(crate) fn nearest_factor(frequency: u64, ticks: u64) -> u64
    requires some { 16 ≤ ticks }
    requires ticks { ticks < 2 ^ 40 }
    requires runs { 0 < frequency }
    requires frequency { frequency < 2 ^ 32 }
    ensures nearest { IsNearestFactor frequency ticks result }
    ensures fits { ticks * result < 2 ^ 41 }
{
    let below = frequency / ticks;
    let above = below + 1;
    let product = ticks * below * above;
    if 2 * product <= frequency * (below + above) {
        above
    } else {
        below
    }
}
