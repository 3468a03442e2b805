//! Reads decimal numbers.
ghost use Rattle.std.specs.Prelude.{◌≡◌, ◌<◌, ◌≤◌, IfOk, IsTrue, length};
ghost use Rattle.std.specs.Char.{digit_value, is_ascii_digit};
ghost use Rattle.std.specs.List.{list_all};
ghost use Rattle.std.specs.Str.Parse.{digits_value};
ghost use Rattle.uart_language.specs.Fields.{is_number, number_of};

use super::cause::Cause;
use super::limits::MOST_DIGITS;

// Returns whether a word has 1 to so many decimal digits and nothing else.
fn is_number(digits: usize, word: &[u8]) -> bool
    ensures { result ≡ is_number digits word.now }
{
    !word.is_empty() && word.len() <= digits && all_decimal(word)
}

// Returns whether a word has decimal digits alone.
fn all_decimal(word: &[u8]) -> bool
    ensures { result ≡ list_all is_ascii_digit word.now }
{
    word.iter().all(|digit| digit.is_ascii_digit())
}

// Returns the value of a decimal digit.
fn decimal_digit(digit: u8) -> u8
    requires { IsTrue (is_ascii_digit digit) }
    ensures value { result ≡ digit_value digit }
    ensures small { result < 10 }
{
    digit - b'0'
}

// Returns the number that is written in decimal digits.
fn decimal(word: &[u8]) -> u64
    requires digits { IsTrue (list_all is_ascii_digit word.now) }
    requires short { length word.now ≤ MOST_DIGITS }
    ensures { result ≡ digits_value 10 word.now }
{
    let mut value = 0u64;
    for digit in word {
        value = value * 10 + u64::from(decimal_digit(*digit));
    }
    value
}

/// Reads a number from `least` to `most` that has at most so many digits.
#[tactic(auto, unfolding(crate::specs::Fields::number_of))]
pub fn number_of(digits: usize, least: u64, most: u64, word: &[u8]) -> Result<u64, Cause>
    requires { digits ≤ MOST_DIGITS }
    ensures value { result ≡ number_of digits least most word.now }
    ensures range { IfOk result (λ n. (least ≤ n) × (n ≤ most)) }
{
    if !is_number(digits, word) {
        return Err(Cause::BadNumber);
    }
    let value = decimal(word);
    if least <= value && value <= most {
        Ok(value)
    } else {
        Err(Cause::BadNumber)
    }
}
