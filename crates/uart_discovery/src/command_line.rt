//! Options of a kernel's command line, as Linux has them. A boot loader by Multiboot gives the same
//! text.
ghost use Rattle.std.specs.Prelude.{◌≡◌, ◌≤◌, length};
ghost use Rattle.uart_discovery.specs.CommandLine.{part, part_count, placed, access_of, is_beyond};
ghost use Rattle.uart_discovery.specs.CommandLine.{positive_in, base_of, positive, has_address};
ghost use Rattle.uart_discovery.specs.CommandLine.{digit_count, parity_of, data_bits_of, framed};
ghost use Rattle.uart_discovery.specs.CommandLine.{options_with, options_of, clock_of, name_of};
ghost use Rattle.uart_discovery.specs.CommandLine.{at_most, port_of, earlycon_of, standard_port};
ghost use Rattle.uart_discovery.specs.CommandLine.{console_of};

use crate::errors::OptionError;
use crate::numbers::{decimal_of, hexadecimal_of};
use crate::port::{AddressSpace, Frame, Interrupt, PortDescription};
use uart_spec::registers::{Parity, WordLength};
use uart_spec::{ByteOrder, CLK_FREQUENCY_HZ, RegisterLayout, RegisterWidth};

// The last I/O port at which eight registers can begin.
const LAST_PORT: u64 = 0xfff8;

// The most parts of `earlycon=`, of one without a kind of access, and of `console=` with a port of
// a PC.
const EARLYCON_PARTS: usize = 5;

const WITHOUT_ACCESS_PARTS: usize = 4;

const CONSOLE_PARTS: usize = 2;

// Which addresses the registers have, and how they lie.
#[derive(Clone, Copy, Debug)]
struct Placement {
    space: AddressSpace,
    layout: RegisterLayout,
}

// A port of a PC: its first I/O port, and its line of the 8259.
#[derive(Clone, Copy, Debug)]
struct StandardPort {
    base: u64,
    line: u8,
}

// What the options `bbbbpnf` say. All may be left out.
#[derive(Clone, Copy, Debug)]
pub(crate) struct LineOptions {
    pub(crate) baud_rate: Option<u32>,
    pub(crate) frame: Option<Frame>,
    pub(crate) has_flow_control: bool,
}

// Returns the part with this index, of those that commas separate. A part that is not there is
// empty.
fn part(text: &[u8], index: usize) -> &[u8]
    ensures { result.now ≡ part text.now index }
{
    text.split(|b| *b == b',').nth(index).unwrap_or(&[])
}

// Returns how many parts there are.
fn part_count(text: &[u8]) -> usize
    ensures { result ≡ part_count text.now }
{
    text.split(|b| *b == b',').count()
}

// Returns how registers lie that are as far apart as an access is wide.
fn placed(space: AddressSpace, width: RegisterWidth, byte_order: ByteOrder) -> Placement
    ensures { result ≡ placed space width byte_order }
{
    Placement {
        space,
        layout: RegisterLayout {
            stride: width.bytes(),
            width,
            byte_order,
        },
    }
}

// Returns the address space and the layout for a kind of access.
#[tactic(auto, unfolding(crate::specs::CommandLine::access_of))]
fn access_of(word: &[u8], native: ByteOrder) -> Result<Placement, OptionError>
    ensures { result ≡ access_of native word.now }
{
    if word == b"io".as_slice() {
        Ok(placed(AddressSpace::Ports, RegisterWidth::Bits8, ByteOrder::Little))
    } else if word == b"mmio".as_slice() {
        Ok(placed(
            AddressSpace::Memory,
            RegisterWidth::Bits8,
            ByteOrder::Little,
        ))
    } else if word == b"mmio16".as_slice() {
        Ok(placed(
            AddressSpace::Memory,
            RegisterWidth::Bits16,
            ByteOrder::Little,
        ))
    } else if word == b"mmio32".as_slice() {
        Ok(placed(
            AddressSpace::Memory,
            RegisterWidth::Bits32,
            ByteOrder::Little,
        ))
    } else if word == b"mmio32be".as_slice() {
        Ok(placed(AddressSpace::Memory, RegisterWidth::Bits32, ByteOrder::Big))
    } else if word == b"mmio32native".as_slice() {
        Ok(placed(AddressSpace::Memory, RegisterWidth::Bits32, native))
    } else {
        Err(OptionError::Access)
    }
}

// Returns whether eight registers from this address on go beyond the last I/O port.
fn is_beyond(space: AddressSpace, base: u64) -> bool
    ensures { result ≡ is_beyond space base }
{
    match space {
        AddressSpace::Ports => LAST_PORT < base,
        AddressSpace::Memory => false,
    }
}

// Returns a number, if it is there and not 0.
fn positive_in(error: OptionError, number: Option<u64>) -> Result<u64, OptionError>
    ensures { result ≡ positive_in error number }
{
    match number {
        None | Some(0) => Err(error),
        Some(number) => Ok(number),
    }
}

// Returns the address.
#[tactic(auto, unfolding(crate::specs::CommandLine::base_of))]
fn base_of(space: AddressSpace, word: &[u8]) -> Result<u64, OptionError>
    ensures { result ≡ base_of space word.now }
{
    let Some(digits) = word.strip_prefix(b"0x".as_slice()) else {
        return Err(OptionError::Address);
    };
    let base = positive_in(OptionError::Address, hexadecimal_of(digits))?;
    if is_beyond(space, base) {
        return Err(OptionError::BeyondPorts);
    }
    Ok(base)
}

// Returns a decimal number that is not 0.
fn positive(word: &[u8], error: OptionError) -> Result<u32, OptionError>
    ensures { result ≡ positive word.now error }
{
    match decimal_of(word) {
        None | Some(0) => Err(error),
        Some(number) => Ok(number),
    }
}

// Returns whether a part is the address, where no kind of access stands before it.
fn has_address(word: &[u8]) -> bool
    ensures { result ≡ has_address word.now }
{
    word.strip_prefix(b"0x".as_slice()).is_some()
}

// Returns with how many decimal digits a word begins.
fn digit_count(word: &[u8]) -> usize
    ensures count { result ≡ digit_count word.now }
    ensures bound { result ≤ length word.now }
{
    word.iter()
        .position(|byte| !byte.is_ascii_digit())
        .unwrap_or(word.len())
}

// Returns the parity that a letter stands for.
fn parity_of(letter: u8) -> Result<Parity, OptionError>
    ensures { result ≡ parity_of letter }
{
    match letter {
        b'n' => Ok(Parity::Disabled),
        b'o' => Ok(Parity::Odd),
        b'e' => Ok(Parity::Even),
        _ => Err(OptionError::Frame),
    }
}

// Returns the number of data bits that a digit stands for.
fn data_bits_of(digit: u8) -> Result<WordLength, OptionError>
    ensures { result ≡ data_bits_of digit }
{
    match digit {
        b'5' => Ok(WordLength::FiveBits),
        b'6' => Ok(WordLength::SixBits),
        b'7' => Ok(WordLength::SevenBits),
        b'8' => Ok(WordLength::EightBits),
        _ => Err(OptionError::Frame),
    }
}

// Returns the options with this baud rate, and the frame that a letter and a digit stand for.
fn framed(
    baud_rate: u32,
    letter: u8,
    digit: u8,
    has_flow_control: bool,
) -> Result<LineOptions, OptionError>
    ensures { result ≡ framed baud_rate letter digit has_flow_control }
{
    let parity = parity_of(letter)?;
    let data_bits = data_bits_of(digit)?;
    Ok(LineOptions {
        baud_rate: Some(baud_rate),
        frame: Some(Frame { data_bits, parity }),
        has_flow_control,
    })
}

// Returns the options with this baud rate, and what stands behind it.
fn options_with(baud_rate: u32, letters: &[u8]) -> Result<LineOptions, OptionError>
    ensures { result ≡ options_with baud_rate letters.now }
{
    match letters {
        [] => Ok(LineOptions {
            baud_rate: Some(baud_rate),
            frame: None,
            has_flow_control: false,
        }),
        [parity] => framed(baud_rate, *parity, b'8', false),
        [parity, digit] => framed(baud_rate, *parity, *digit, false),
        [parity, digit, b'r'] => framed(baud_rate, *parity, *digit, true),
        _ => Err(OptionError::Frame),
    }
}

// Returns what the options `bbbbpnf` say, if the part that has them is there.
#[tactic(auto, unfolding(crate::specs::CommandLine::options_of))]
pub(crate) fn options_of(word: &[u8]) -> Result<LineOptions, OptionError>
    ensures { result ≡ options_of word.now }
{
    if word.is_empty() {
        return Ok(LineOptions {
            baud_rate: None,
            frame: None,
            has_flow_control: false,
        });
    }
    let (digits, letters) = word.split_at(digit_count(word));
    let baud_rate = positive(digits, OptionError::BaudRate)?;
    options_with(baud_rate, letters)
}

// Returns the frequency of the clock, if the part that says it is there.
#[tactic(auto, unfolding(crate::specs::CommandLine::clock_of))]
fn clock_of(word: &[u8]) -> Result<Option<u32>, OptionError>
    ensures { result ≡ clock_of word.now }
{
    if word.is_empty() {
        return Ok(None);
    }
    Ok(Some(positive(word, OptionError::Clock)?))
}

// Checks that the name is that of a port of any kind.
#[tactic(auto, unfolding(crate::specs::CommandLine::name_of))]
fn name_of(word: &[u8]) -> Result<(), OptionError>
    ensures { result ≡ name_of word.now }
{
    if word == b"uart8250".as_slice() {
        Ok(())
    } else if word == b"uart".as_slice() {
        Ok(())
    } else if word == b"ns16550a".as_slice() {
        Ok(())
    } else if word == b"ns16550".as_slice() {
        Ok(())
    } else {
        Err(OptionError::Name)
    }
}

// Checks that there are no more parts than so many.
fn at_most(most: usize, text: &[u8]) -> Result<(), OptionError>
    ensures { result ≡ at_most most text.now }
{
    if part_count(text) > most {
        return Err(OptionError::TooMany);
    }
    Ok(())
}

// Returns the port whose registers lie so, by its address, its options and its clock.
#[tactic(auto, unfolding(crate::specs::CommandLine::port_of))]
fn port_of(
    placement: Placement,
    address: &[u8],
    options: &[u8],
    clock: &[u8],
) -> Result<PortDescription, OptionError>
    ensures { result ≡ port_of placement address.now options.now clock.now }
{
    let base = base_of(placement.space, address)?;
    let options = options_of(options)?;
    let clock = clock_of(clock)?;
    Ok(PortDescription {
        space: placement.space,
        base,
        layout: placement.layout,
        clock,
        baud_rate: options.baud_rate,
        frame: options.frame,
        has_flow_control: options.has_flow_control,
        interrupt: None,
    })
}

/// Returns the port that the value of an option `earlycon=` says, as `uart8250,mmio32,0xfe215040`.
///
/// Commas separate its parts:
///
/// | part | its forms |
/// |---|---|
/// | the name | `uart8250`, `uart`, `ns16550a`, `ns16550` |
/// | the access | `io`, `mmio`, `mmio16`, `mmio32`, `mmio32be`, `mmio32native`, or left out |
/// | the address | `0x` and 1 to 16 hexadecimal digits |
/// | the options | `bbbbpnf`, or nothing |
/// | the clock | the frequency in hertz, or nothing |
///
/// An address without a kind of access is one of `mmio`. The registers lie as far apart as an
/// access is wide. `native` is the byte order of the processor, which `mmio32native` has.
///
/// The options are the baud rate, the parity, which is `n`, `o` or `e`, the number of data bits,
/// from `5` to `8`, and `r` if RTS and CTS hold a sender back. Those at the end may be left out; a
/// parity alone has 8 bits. Without options the port stays as it is.
///
/// # Errors
///
/// The first part that is wrong. In an empty text, for which Linux looks for the console of the
/// firmware, that is the name.
///
/// # Examples
///
/// ```
/// let port = read_earlycon(b"uart8250,mmio32,0xfe215040,115200e7", ByteOrder::Little)?;
/// assert_eq!(rt; port.base, 0xfe21_5040);
/// assert_eq!(rt; port.layout.stride, 4);
/// assert_eq!(rt; port.baud_rate, Some(115_200));
/// let frame = Frame { data_bits: WordLength::SevenBits, parity: Parity::Even };
/// assert_eq!(rt; port.frame, Some(frame));
/// ```
#[tactic(auto, unfolding(crate::specs::CommandLine::earlycon_of))]
pub fn read_earlycon(text: &[u8], native: ByteOrder) -> Result<PortDescription, OptionError>
    // promise: the port of `earlycon=` or `console=` is the one that its parts say, or the first
    //   part that is wrong is told
    // with: read_earlycon, read_console
    // shown by: earlycon_says_a_port, console_says_a_port
    // refused: earlycon_takes_its_address_for_the_rate
    ensures { result ≡ earlycon_of native text.now }
{
    name_of(part(text, 0))?;
    if has_address(part(text, 1)) {
        let bytes = placed(
            AddressSpace::Memory,
            RegisterWidth::Bits8,
            ByteOrder::Little,
        );
        let port = port_of(bytes, part(text, 1), part(text, 2), part(text, 3))?;
        at_most(WITHOUT_ACCESS_PARTS, text)?;
        return Ok(port);
    }
    let placement = access_of(part(text, 1), native)?;
    let port = port_of(placement, part(text, 2), part(text, 3), part(text, 4))?;
    at_most(EARLYCON_PARTS, text)?;
    Ok(port)
}

// Returns the port of a PC that a name stands for, and its line of the 8259.
#[tactic(auto, unfolding(crate::specs::CommandLine::standard_port))]
fn standard_port(name: &[u8]) -> Option<StandardPort>
    ensures { result ≡ standard_port name.now }
{
    match name {
        b"ttyS0" => Some(StandardPort {
            base: 0x3f8,
            line: 4,
        }),
        b"ttyS1" => Some(StandardPort {
            base: 0x2f8,
            line: 3,
        }),
        b"ttyS2" => Some(StandardPort {
            base: 0x3e8,
            line: 4,
        }),
        b"ttyS3" => Some(StandardPort {
            base: 0x2e8,
            line: 3,
        }),
        _ => None,
    }
}

/// Returns the port that the value of an option `console=` says: one of a PC, as `ttyS0,115200n8`,
/// or any that `earlycon=` may say ([`read_earlycon`]), as `uart,io,0x3f8,115200`.
///
/// Those of a PC are `ttyS0` to `ttyS3`, which stand for the ports 3F8, 2F8, 3E8 and 2E8. Behind
/// them are the options, as those of `earlycon=`, or nothing.
///
/// # Errors
///
/// The first part that is wrong. That is the name, if the console is none that is known, as `tty0`.
///
/// # Examples
///
/// ```
/// let port = read_console(b"ttyS1,9600", ByteOrder::Little)?;
/// assert_eq!(rt; port.base, 0x2f8);
/// assert_eq!(rt; port.interrupt, Some(Interrupt::Isa(3)));
/// ```
#[tactic(auto, unfolding(crate::specs::CommandLine::console_of))]
pub fn read_console(text: &[u8], native: ByteOrder) -> Result<PortDescription, OptionError>
    ensures { result ≡ console_of native text.now }
{
    let Some(port) = standard_port(part(text, 0)) else {
        return read_earlycon(text, native);
    };
    let options = options_of(part(text, 1))?;
    at_most(CONSOLE_PARTS, text)?;
    let placement = placed(AddressSpace::Ports, RegisterWidth::Bits8, ByteOrder::Little);
    Ok(PortDescription {
        space: placement.space,
        base: port.base,
        layout: placement.layout,
        clock: Some(CLK_FREQUENCY_HZ),
        baud_rate: options.baud_rate,
        frame: options.frame,
        has_flow_control: options.has_flow_control,
        interrupt: Some(Interrupt::Isa(port.line)),
    })
}
