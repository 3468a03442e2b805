//! Numbers that are written in digits.
ghost use Rattle.std.specs.Prelude.{◌≡◌, ◌<◌, ◌≤◌, IsTrue, length};
ghost use Rattle.std.specs.Char.{digit_value, is_ascii_digit, is_ascii_hexdigit};
ghost use Rattle.std.specs.List.{list_all};
ghost use Rattle.std.specs.Str.Parse.{digits_value};
ghost use Rattle.uart_discovery.specs.Numbers.{hexadecimal_of, decimal_of};

// The most digits of a number, so that any that has them fits into 64 or 32 bits.
const MOST_HEXADECIMAL: usize = 16;

const MOST_DECIMAL: usize = 9;

// Returns the value of a hexadecimal digit.
fn hexadecimal_digit(digit: u8) -> u8
    requires { IsTrue (is_ascii_hexdigit digit) }
    ensures value { result ≡ digit_value digit }
    ensures small { result < 16 }
{
    match digit {
        b'0'..=b'9' => digit - b'0',
        b'A'..=b'F' => digit - b'A' + 10,
        _ => digit - b'a' + 10,
    }
}

// Returns the value of a decimal digit.
fn decimal_digit(digit: u8) -> u8
    requires { IsTrue (is_ascii_digit digit) }
    ensures value { result ≡ digit_value digit }
    ensures small { result < 10 }
{
    digit - b'0'
}

// Returns the number that is written in hexadecimal digits.
fn hexadecimal(word: &[u8]) -> u64
    requires digits { IsTrue (list_all is_ascii_hexdigit word.now) }
    requires short { length word.now ≤ 16 }
    ensures { result ≡ digits_value 16 word.now }
{
    let mut value = 0u64;
    for digit in word {
        value = value * 16 + u64::from(hexadecimal_digit(*digit));
    }
    value
}

// Returns the number that is written in decimal digits.
fn decimal(word: &[u8]) -> u32
    requires digits { IsTrue (list_all is_ascii_digit word.now) }
    requires short { length word.now ≤ 9 }
    ensures { result ≡ digits_value 10 word.now }
{
    let mut value = 0u32;
    for digit in word {
        value = value * 10 + u32::from(decimal_digit(*digit));
    }
    value
}

// Returns whether a word has hexadecimal digits alone.
fn all_hexadecimal(word: &[u8]) -> bool
    ensures { result ≡ list_all is_ascii_hexdigit word.now }
{
    word.iter().all(|digit| digit.is_ascii_hexdigit())
}

// Returns whether a word has decimal digits alone.
fn all_decimal(word: &[u8]) -> bool
    ensures { result ≡ list_all is_ascii_digit word.now }
{
    word.iter().all(|digit| digit.is_ascii_digit())
}

// Reads a number of 1 to 16 hexadecimal digits.
pub(crate) fn hexadecimal_of(word: &[u8]) -> Option<u64>
    ensures { result ≡ hexadecimal_of word.now }
{
    if !word.is_empty() && word.len() <= MOST_HEXADECIMAL && all_hexadecimal(word) {
        Some(hexadecimal(word))
    } else {
        None
    }
}

// Reads a number of 1 to 9 decimal digits.
pub(crate) fn decimal_of(word: &[u8]) -> Option<u32>
    ensures { result ≡ decimal_of word.now }
{
    if !word.is_empty() && word.len() <= MOST_DECIMAL && all_decimal(word) {
        Some(decimal(word))
    } else {
        None
    }
}
