//! The table SPCR: the console of the firmware.
ghost use Rattle.std.specs.Prelude.{◌≡◌, ◌≤◌, length, IfOk, IfErr, slice_index};
ghost use Rattle.uart_discovery.specs.Acpi.{IsTable, table_of};
ghost use Rattle.uart_discovery.specs.Spcr.{SaysPort, IsFault, SPCR, rate_of_code, clock_of};
ghost use Rattle.uart_discovery.specs.Spcr.{precise_rate, rate_of, interrupt_of, is_16550};

use crate::acpi::address::registers_at;
use crate::acpi::table::checked_table;
use crate::bytes::le32;
use crate::errors::{TableError, TableFault};
use crate::port::{Interrupt, PortDescription};

// Where the fields are.
const REVISION: usize = 8;

const INTERFACE: usize = 36;

const BASE_ADDRESS: usize = 40;

const INTERRUPT_TYPE: usize = 52;

const ISA_INTERRUPT: usize = 53;

const GLOBAL_INTERRUPT: usize = 54;

const BAUD_RATE: usize = 58;

const FLOW_CONTROL: usize = 61;

const CLOCK: usize = 76;

const PRECISE_BAUD_RATE: usize = 80;

// How many bytes a table of revision 1 or 2 has, and up to which a table of revision 4 has the
// precise baud rate.
const SHORTEST: usize = 80;

const WITH_PRECISE_BAUD_RATE: usize = 84;

// The revision from which on there is the frequency of the clock, and that with the precise baud
// rate.
const HAS_CLOCK: u8 = 3;

const HAS_PRECISE_BAUD_RATE: u8 = 4;

// The bit of the interrupt type for the 8259, and those for all other controllers.
const IS_ISA: u8 = 0x01;

const IS_GLOBAL: u8 = 0x1e;

// The bit of the flow control for RTS and CTS.
const BY_RTS: u8 = 0x02;

// Returns whether a port has the interface of a 16550: 0 is a 16550, 1 one that some debuggers
// know, in the first revision a 16450, and 0x12 one whose layout the address says.
pub(crate) fn is_16550(interface: u16) -> bool
    ensures { result ≡ is_16550 interface }
{
    interface == 0 || interface == 1 || interface == 0x12
}

// Returns the baud rate for a number, where 0 means that the port stays as it is.
fn rate_of_code(code: u8) -> Option<Option<u32>>
    ensures { result ≡ rate_of_code code }
{
    match code {
        0 => Some(None),
        3 => Some(Some(9_600)),
        4 => Some(Some(19_200)),
        6 => Some(Some(57_600)),
        7 => Some(Some(115_200)),
        _ => None,
    }
}

// Returns the precise baud rate, or 0 if there is none.
fn precise_rate(table: &[u8]) -> u32
    requires { 80 ≤ length table.now }
    ensures { result ≡ precise_rate table.now }
{
    if HAS_PRECISE_BAUD_RATE <= table[REVISION] && WITH_PRECISE_BAUD_RATE <= table.len() {
        le32(table, PRECISE_BAUD_RATE)
    } else {
        0
    }
}

// Returns the baud rate, if the number for it has a meaning. A precise one has the place of it.
fn rate_of(table: &[u8]) -> Option<Option<u32>>
    requires { 80 ≤ length table.now }
    ensures { result ≡ rate_of table.now }
{
    match precise_rate(table) {
        0 => rate_of_code(table[BAUD_RATE]),
        rate => Some(Some(rate)),
    }
}

// Returns the frequency of the clock, which the first revisions do not say.
fn clock_of(table: &[u8]) -> Option<u32>
    requires { 80 ≤ length table.now }
    ensures { result ≡ clock_of table.now }
{
    let clock = le32(table, CLOCK);
    if table[REVISION] < HAS_CLOCK || clock == 0 {
        None
    } else {
        Some(clock)
    }
}

// Returns the interrupt. One that is for a controller of today counts before that of the 8259.
fn interrupt_of(table: &[u8]) -> Option<Interrupt>
    requires { 80 ≤ length table.now }
    ensures { result ≡ interrupt_of table.now }
{
    let kinds = table[INTERRUPT_TYPE];
    if kinds & IS_GLOBAL != 0 {
        Some(Interrupt::Global(le32(table, GLOBAL_INTERRUPT)))
    } else if kinds & IS_ISA != 0 {
        Some(Interrupt::Isa(table[ISA_INTERRUPT]))
    } else {
        None
    }
}

/// Returns the port of an ACPI table SPCR, of any revision: the console that the firmware uses.
///
/// The bytes may go on behind the table. The registers lie as far apart as an access is wide, as
/// Linux takes them: what the table says of the width of a register is not looked at.
///
/// # Errors
///
/// The first fault, with the offset at which it is.
///
/// # Examples
///
/// ```
/// let error = TableError { offset: 0, fault: TableFault::TooShort };
/// assert_eq!(rt; read_spcr(&[]), Err(error));
/// ```
pub fn read_spcr(bytes: &[u8]) -> Result<PortDescription, TableError>
    // promise: a port of a table SPCR is the one that stands at the offsets of the format, in a
    //   whole table whose sum is right; what is wrong is so, at the offset that is told
    // with: read_spcr.table, read_spcr.port, read_spcr.err
    // shown by: spcr_says_com1, spcr_says_each_baud_rate, spcr_says_what_is_wrong_and_where
    // refused: a_table_with_another_sum_is_taken
    ensures table { IfOk result (λ port. IsTable SPCR bytes.now) }
    ensures port { IfOk result (SaysPort (table_of bytes.now)) }
    ensures err { IfErr result (IsFault bytes.now) }
{
    let table = checked_table(bytes, b"SPCR".as_slice())?;
    if table.len() < SHORTEST {
        return Err(TableError {
            offset: table.len(),
            fault: TableFault::TooShort,
        });
    }
    let interface = u16::from(table[INTERFACE]);
    if !is_16550(interface) {
        return Err(TableError {
            offset: INTERFACE,
            fault: TableFault::Interface { interface },
        });
    }
    let registers = registers_at(table, BASE_ADDRESS)?;
    let Some(baud_rate) = rate_of(table) else {
        return Err(TableError {
            offset: BAUD_RATE,
            fault: TableFault::BaudRate {
                code: table[BAUD_RATE],
            },
        });
    };
    Ok(PortDescription {
        space: registers.space,
        base: registers.base,
        layout: registers.layout,
        clock: clock_of(table),
        baud_rate,
        // The table knows no other parity than none, and says no number of data bits.
        frame: None,
        has_flow_control: table[FLOW_CONTROL] & BY_RTS != 0,
        interrupt: interrupt_of(table),
    })
}
