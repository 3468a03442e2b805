//! The numbers of the enums in the header.

// What most functions return: `enum uart_status`.

pub const UART_OK: u32 = 0;

/// A character takes no 1 to 1000 ticks.
pub const UART_BAD_TICKS: u32 = 1;

/// The wire has room for more bytes than one may have.
pub const UART_BAD_WIRE: u32 = 2;

/// A character has other errors than parity, framing and break.
pub const UART_BAD_ERRORS: u32 = 3;

/// The modem lines have other bits than CTS, DSR, RI and CD.
pub const UART_BAD_LINES: u32 = 4;

/// The saved data are those of no sound chip.
pub const UART_BAD_CHIP: u32 = 5;

/// The saved data are those of no port.
pub const UART_BAD_PORT: u32 = 6;

/// A chip has no FIFOs of so many characters.
// 7 says that a pointer is null: the two files of C return it, which are made of this library.
pub const UART_BAD_FIFO: u32 = 8;
