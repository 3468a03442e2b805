//! The table DBG2: the ports for debuggers.
ghost use Rattle.std.specs.Prelude.{◌≡◌, ◌+◌, ◌≤◌, length, IfOk, IfSome};
ghost use Rattle.uart_discovery.specs.Acpi.{IsTable, table_of};
ghost use Rattle.uart_discovery.specs.Dbg2.{DBG2, SaysDevice, SaysPort};

use crate::acpi::address::registers_at;
use crate::acpi::spcr::is_16550;
use crate::acpi::table::checked_table;
use crate::bytes::{le16, le32};
use crate::errors::{TableError, TableFault};
use crate::port::PortDescription;

// Where the first device and their number are, and where the fields of the table end.
const DEVICES: usize = 36;

const DEVICE_COUNT: usize = 40;

const SHORTEST: usize = 44;

// Where the fields of a device are, from its first byte on, and where those end.
const LENGTH: usize = 1;

const ADDRESS_COUNT: usize = 3;

const KIND: usize = 12;

const INTERFACE: usize = 14;

const ADDRESSES: usize = 18;

const DEVICE: usize = 22;

// The kind of a serial port.
const SERIAL: u16 = 0x8000;

// Returns the port of a device, if it is a serial port with the interface of a 16550.
fn device_at(table: &[u8], at: usize) -> Result<Option<PortDescription>, TableError>
    requires { at + 22 ≤ length table.now }
    ensures { IfOk result (λ found. IfSome found (SaysDevice table.now at)) }
{
    if le16(table, at + KIND) != SERIAL || !is_16550(le16(table, at + INTERFACE)) {
        return Ok(None);
    }
    if table[at + ADDRESS_COUNT] == 0 {
        return Err(TableError {
            offset: at + ADDRESS_COUNT,
            fault: TableFault::NoAddress,
        });
    }
    let address = at + usize::from(le16(table, at + ADDRESSES));
    if table.len() < address + 12 {
        return Err(TableError {
            offset: at + ADDRESSES,
            fault: TableFault::TooShort,
        });
    }
    let registers = registers_at(table, address)?;
    Ok(Some(PortDescription {
        space: registers.space,
        base: registers.base,
        layout: registers.layout,
        clock: None,
        baud_rate: None,
        frame: None,
        has_flow_control: false,
        interrupt: None,
    }))
}

/// Returns the first port of an ACPI table DBG2 that has the interface of a 16550.
///
/// The bytes may go on behind the table. As for `read_spcr`, the registers lie
/// as far apart as an access is wide. The table says neither a clock nor a baud rate.
///
/// # Errors
///
/// The first fault, with the offset at which it is.
///
/// # Examples
///
/// ```
/// let error = TableError { offset: 0, fault: TableFault::TooShort };
/// assert_eq!(rt; read_dbg2(&[]), Err(error));
/// ```
pub fn read_dbg2(bytes: &[u8]) -> Result<PortDescription, TableError>
    // promise: a port of a table DBG2 is one of its devices, a serial port with the interface of a
    //   16550
    // with: read_dbg2.table, read_dbg2.port
    // shown by: dbg2_says_the_first_16550
    ensures table { IfOk result (λ port. IsTable DBG2 bytes.now) }
    ensures port { IfOk result (SaysPort (table_of bytes.now)) }
{
    let table = checked_table(bytes, b"DBG2".as_slice())?;
    if table.len() < SHORTEST {
        return Err(TableError {
            offset: table.len(),
            fault: TableFault::TooShort,
        });
    }
    let mut at = le32(table, DEVICES) as usize;
    for _device in 0..le32(table, DEVICE_COUNT) {
        if table.len() - DEVICE < at {
            return Err(TableError {
                offset: table.len(),
                fault: TableFault::TooShort,
            });
        }
        if let Some(port) = device_at(table, at)? {
            return Ok(port);
        }
        // So no loop has more rounds than a table has devices.
        let length = usize::from(le16(table, at + LENGTH));
        if length < DEVICE {
            return Err(TableError {
                offset: at + LENGTH,
                fault: TableFault::Length,
            });
        }
        at += length;
    }
    Err(TableError {
        offset: DEVICE_COUNT,
        fault: TableFault::NoPort,
    })
}
