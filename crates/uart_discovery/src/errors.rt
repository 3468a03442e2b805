//! Why no port is described.

use std::fmt;
use thiserror::Error;

/// What is wrong with a table of ACPI.
#[derive(Clone, Copy, Debug, PartialEq, Eq, Hash, Drop, Error)]
pub enum TableFault {
    /// The bytes end before a field that is needed.
    #[error("the table ends too early")]
    TooShort,
    /// The table is another one.
    #[error("the signature is another one")]
    Signature,
    /// The table says that it is shorter than its header, or longer than the bytes that are there.
    #[error("the length is wrong")]
    Length,
    /// The sum of the bytes of the table is not 0.
    #[error("the checksum is wrong: the sum is {sum:#04x}")]
    Checksum {
        /// The sum.
        sum: u8,
    },
    /// The port has another interface than a 16550 has.
    #[error("interface {interface:#x} is not that of a 16550")]
    Interface {
        /// The interface, in the numbers of the table.
        interface: u16,
    },
    /// The registers are neither in memory nor at I/O ports.
    #[error("address space {space} is neither memory nor I/O ports")]
    Space {
        /// The address space, in the numbers of ACPI.
        space: u8,
    },
    /// A register does not begin at the lowest bit of its address.
    #[error("the registers begin at bit {bit}")]
    BitOffset {
        /// The bit at which it begins.
        bit: u8,
    },
    /// An access has neither 8 nor 16 nor 32 bits.
    #[error("access size {size} is none of 8, 16 and 32 bits")]
    AccessSize {
        /// The size, in the numbers of ACPI.
        size: u8,
    },
    /// There is no address: the console is turned off.
    #[error("there is no address")]
    NoAddress,
    /// The last register would be beyond the last I/O port.
    #[error("the registers at {base:#x} are beyond the last I/O port")]
    BeyondPorts {
        /// The first I/O port.
        base: u64,
    },
    /// The number for the baud rate has no meaning.
    #[error("baud rate {code} has no meaning")]
    BaudRate {
        /// The number.
        code: u8,
    },
    /// No device of the table is a serial port with the interface of a 16550.
    #[error("no device is a 16550")]
    NoPort,
}

/// What is wrong with a table of ACPI, and where.
#[derive(Clone, Copy, Debug, PartialEq, Eq, Hash, Drop, Error)]
#[error("{fault}, at offset {offset}")]
pub struct TableError {
    /// The offset of the field that is wrong. If bytes are missing, how many are there.
    pub offset: usize,
    /// What is wrong.
    pub fault: TableFault,
}

/// What is wrong with an option of a kernel's command line.
#[derive(Clone, Copy, Debug, PartialEq, Eq, Hash, Drop, Error)]
pub enum OptionError {
    /// The name is not that of a port with the interface of a 16550.
    #[error("the name is not that of a 16550")]
    Name,
    /// The kind of access is none of `io`, `mmio`, `mmio16`, `mmio32`, `mmio32be` and
    /// `mmio32native`, and no address has its place.
    #[error("the kind of access has no meaning")]
    Access,
    /// The address is not written as `0x` and 1 to 16 hexadecimal digits, or is 0.
    #[error("the address has a wrong form")]
    Address,
    /// The last register would be beyond the last I/O port.
    #[error("the registers are beyond the last I/O port")]
    BeyondPorts,
    /// The baud rate is not 1 to 9 decimal digits, or is 0.
    #[error("the baud rate has a wrong form")]
    BaudRate,
    /// Behind the baud rate stands no frame: a parity, which is `n`, `o` or `e`, then the number of
    /// data bits, from `5` to `8`, then `r` for flow control. The last two may be left out.
    #[error("the frame behind the baud rate has no meaning")]
    Frame,
    /// The frequency of the clock is not 1 to 9 decimal digits, or is 0.
    #[error("the frequency of the clock has a wrong form")]
    Clock,
    /// There is more than an option has.
    #[error("there are too many parts")]
    TooMany,
}

/// Why the configuration of a PCI function describes no port.
#[derive(Clone, Copy, Debug, PartialEq, Eq, Hash, Drop, Error)]
pub enum PciError {
    /// There are fewer than the 64 bytes of a configuration's header.
    #[error("the header ends too early")]
    TooShort,
    /// The header is not that of a device, but of a bridge.
    #[error("the header has type {kind:#04x}")]
    HeaderKind {
        /// The type, of seven bits.
        kind: u8,
    },
    /// The function is not a serial port with the interface of a 16550 or a later one.
    #[error("class {class:#08x} is not that of a 16550")]
    Class {
        /// The class, the subclass and the interface, in the lowest 24 bits.
        class: u32,
    },
    /// The function has fewer ports, or nothing is known of more than its first.
    #[error("nothing is known of port {port}")]
    Port {
        /// The number of the port, from 0 on.
        port: u8,
    },
    /// The first base address register has a kind of which nothing is known.
    #[error("base address {bar:#010x} has an unknown kind")]
    BaseKind {
        /// What is in the register.
        bar: u32,
    },
    /// The registers have no address yet.
    #[error("there is no address")]
    NoAddress,
    /// The last register would be beyond the last address.
    #[error("the registers at {base:#x} are beyond the last address")]
    BeyondAddresses {
        /// The address of the function's registers.
        base: u64,
    },
}

/// Why a device tree describes no port.
#[derive(Clone, Copy, Debug, PartialEq, Eq, Hash, Drop, Error)]
pub enum TreeError {
    /// The bytes end before the tree does, or a part of the tree is outside of it.
    #[error("the tree ends too early")]
    Truncated,
    /// The bytes are no device tree.
    #[error("the bytes are no device tree")]
    Magic,
    /// The tree needs a reader of a later version than 17.
    #[error("the tree has a later version")]
    Version,
    /// There is no such node.
    #[error("there is no such node")]
    NoNode,
    /// The path has more than 16 nodes.
    #[error("the path is too long")]
    Depth,
    /// Neither `stdout-path` nor `linux,stdout-path` is in `/chosen`.
    #[error("the tree names no console")]
    NoConsole,
    /// What `compatible` says of the node is not that it is a 16550.
    #[error("the node is not a 16550")]
    NotCompatible,
    /// The node says that it is not to be used.
    #[error("the node is disabled")]
    Disabled,
    /// The node has no `reg`.
    #[error("the node has no address")]
    NoAddress,
    /// Addresses or sizes have neither one nor two cells, as on a PCI bus. They are not followed.
    #[error("addresses of more than two cells are not followed")]
    Cells,
    /// A bus on the way has no `ranges`, or none of them has the address: the processor has no
    /// address for it.
    #[error("the address is in no range of a bus")]
    Untranslated,
    /// A property has another size than it is to have.
    #[error("a property has a wrong size")]
    PropertySize,
    /// `reg-shift` is more than 7.
    #[error("the registers are too far apart")]
    Stride,
    /// `reg-io-width` is none of 1, 2 and 4.
    #[error("the registers have an unknown width")]
    Width,
    /// What stands behind the path of the console has another form than `115200n8`.
    #[error("the options of the console: {0}")]
    Options(OptionError),
}
