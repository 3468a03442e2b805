//! Serial ports on PCI, by the header of a function's configuration.
ghost use Rattle.std.specs.Prelude.{◌≡◌, ◌≤◌, ◌<◌, ◌+◌, ◌*◌, ◌^◌, length, IfOk, IfErr, IfSome, IfNone};
ghost use Rattle.uart_discovery.specs.Pci.{class_of, card_of, card_in, distance, SaysPort};
ghost use Rattle.uart_discovery.specs.Pci.{IsKind, base_in, IsBaseFault, IsFault, last_base, pin_of};

use crate::bytes::{le16, le32};
use crate::errors::PciError;
use crate::port::{AddressSpace, Interrupt, PortDescription};
use uart_spec::{ByteOrder, CLK_FREQUENCY_HZ, RegisterLayout, RegisterWidth};

// How many bytes a header has, and where its fields are.
const HEADER: usize = 64;

const VENDOR: usize = 0x00;

const DEVICE: usize = 0x02;

const INTERFACE: usize = 0x09;

const SUBCLASS: usize = 0x0a;

const CLASS: usize = 0x0b;

const KIND: usize = 0x0e;

const BASE: usize = 0x10;

const UPPER_BASE: usize = 0x14;

const PIN: usize = 0x3d;

// The classes of serial ports whose interface is that of a 16550, or of one of those with a larger
// FIFO: 16650, 16750, 16850 and 16950.
const IS_16550: u32 = 0x07_0002;

const IS_16950: u32 = 0x07_0006;

// What is known of a function: how many ports it has, how far from its base address the first one
// is and from there each next one, and the frequency of their clock.
#[derive(Clone, Copy, Debug)]
struct Card {
    ports: u8,
    first: u8,
    apart: u8,
    clock: Option<u32>,
}

// Returns the class, the subclass and the interface as one number.
fn class_of(header: &[u8]) -> u32
    requires { 64 ≤ length header.now }
    ensures { result ≡ class_of header.now }
{
    u32::from(header[CLASS]) * 0x1_0000
        + u32::from(header[SUBCLASS]) * 0x100
        + u32::from(header[INTERFACE])
}

// Returns what is known of a function. Of one that is not in the table it is that its first port is
// at its base address, since that is what the class says.
fn card_of(vendor: u16, device: u16) -> Card
    ensures { result ≡ card_of vendor device }
{
    let clock = Some(CLK_FREQUENCY_HZ);
    match (vendor, device) {
        // QEMU: pci-serial, pci-serial-2x and pci-serial-4x.
        (0x1b36, 0x0002) => Card {
            ports: 1,
            first: 0,
            apart: 8,
            clock,
        },
        (0x1b36, 0x0003) => Card {
            ports: 2,
            first: 0,
            apart: 8,
            clock,
        },
        (0x1b36, 0x0004) => Card {
            ports: 4,
            first: 0,
            apart: 8,
            clock,
        },
        // WCH: CH382 with and without a parallel port, and CH384.
        (0x1c00, 0x3250) => Card {
            ports: 2,
            first: 0xc0,
            apart: 8,
            clock,
        },
        (0x1c00, 0x3253) => Card {
            ports: 2,
            first: 0xc0,
            apart: 8,
            clock,
        },
        (0x1c00, 0x3470) => Card {
            ports: 4,
            first: 0xc0,
            apart: 8,
            clock,
        },
        _ => Card {
            ports: 1,
            first: 0,
            apart: 8,
            clock: None,
        },
    }
}

// Returns what is known of the function of a header.
fn card_in(header: &[u8]) -> Card
    requires { 64 ≤ length header.now }
    ensures { result ≡ card_in header.now }
{
    card_of(le16(header, VENDOR), le16(header, DEVICE))
}

// Returns how far the registers of a port are from the function's first address.
fn distance(header: &[u8], port: u8) -> u64
    requires { 64 ≤ length header.now }
    ensures { result ≡ distance header.now port }
{
    let card = card_in(header);
    u64::from(card.first) + u64::from(card.apart) * u64::from(port)
}

// Where the registers of a function are.
#[derive(Clone, Copy, Debug)]
struct Base {
    space: AddressSpace,
    address: u64,
}

// Returns where the registers of a function are, by its first base address register.
//
// Its lowest bits say of which kind it is: 1 is I/O ports, 0 is memory below 4 GiB, and 4 is memory
// whose upper half is in the next register. The kind 2, memory below 1 MiB, is long out of use.
fn base_of(header: &[u8]) -> Result<Base, PciError>
    requires { 64 ≤ length header.now }
    ensures kind { IfOk result (λ base. IsKind header.now base.space) }
    ensures address { IfOk result (λ base. base.address ≡ base_in header.now base.space) }
    ensures there { IfOk result (λ base. 0 < base.address) }
    ensures err { IfErr result (IsBaseFault header.now) }
{
    let bar = le32(header, BASE);
    let lower = u64::from(bar - bar % 16);
    let base = match bar % 8 {
        1 | 5 => Base {
            space: AddressSpace::Ports,
            address: u64::from(bar - bar % 4),
        },
        0 => Base {
            space: AddressSpace::Memory,
            address: lower,
        },
        4 => Base {
            space: AddressSpace::Memory,
            address: u64::from(le32(header, UPPER_BASE)) * 0x1_0000_0000 + lower,
        },
        _ => return Err(PciError::BaseKind { bar }),
    };
    if base.address == 0 {
        return Err(PciError::NoAddress);
    }
    Ok(base)
}

// Returns the last address at which eight registers can begin.
fn last_base(space: AddressSpace) -> u64
    ensures { result ≡ last_base space }
{
    match space {
        AddressSpace::Ports => 0xfff8,
        AddressSpace::Memory => u64::MAX - 7,
    }
}

// Returns an address that is so far behind another one, if eight registers can begin there.
fn behind(space: AddressSpace, address: u64, distance: u64) -> Option<u64>
    ensures some { IfSome result (λ base. (base ≡ address + distance) × (base ≤ last_base space)) }
    ensures none { IfNone result (last_base space < address + distance) }
{
    let last = last_base(space);
    match address.checked_add(distance) {
        Some(base) if base <= last => Some(base),
        _ => None,
    }
}

// Returns the pin by which the function interrupts.
fn pin_of(header: &[u8]) -> Option<Interrupt>
    requires { 64 ≤ length header.now }
    ensures { result ≡ pin_of header.now }
{
    match header[PIN] {
        0 => None,
        pin => Some(Interrupt::Pin(pin)),
    }
}

/// Returns a port of a PCI function, by the first 64 bytes of its configuration.
///
/// The function has the class 07.00.02, a serial port with the interface of a 16550, or one of 03
/// to 06 behind it, those with a larger FIFO. The port 0 is the first. Of its clock and of further
/// ports something is known for the cards of QEMU, and for CH382 and CH384 of WCH.
///
/// # Errors
///
/// What is wrong with the header.
///
/// # Examples
///
/// ```
/// assert_eq!(rt; read_pci(&[], 0), Err(PciError::TooShort));
/// ```
pub fn read_pci(header: &[u8], port: u8) -> Result<PortDescription, PciError>
    // promise: a port of a PCI function is at its first base address, and as far from it as its
    //   card has it
    // with: read_pci.ok, read_pci.err
    // shown by: pci_says_each_port
    ensures ok { IfOk result (SaysPort header.now port) }
    ensures err { IfErr result (IsFault header.now port) }
{
    if header.len() < HEADER {
        return Err(PciError::TooShort);
    }
    let kind = header[KIND] % 0x80;
    if kind != 0 {
        return Err(PciError::HeaderKind { kind });
    }
    let class = class_of(header);
    if class < IS_16550 || IS_16950 < class {
        return Err(PciError::Class { class });
    }
    let card = card_in(header);
    if card.ports <= port {
        return Err(PciError::Port { port });
    }
    let Base { space, address } = base_of(header)?;
    let Some(base) = behind(space, address, distance(header, port)) else {
        return Err(PciError::BeyondAddresses { base: address });
    };
    Ok(PortDescription {
        space,
        base,
        layout: RegisterLayout {
            stride: 1,
            width: RegisterWidth::Bits8,
            byte_order: ByteOrder::Little,
        },
        clock: card.clock,
        baud_rate: None,
        frame: None,
        has_flow_control: false,
        interrupt: pin_of(header),
    })
}
