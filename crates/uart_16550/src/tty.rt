//! A terminal over the driver.
ghost use Rattle.std.specs.Prelude.{◌≡◌, ◌<◌, ◌≤◌, length, take, IfErr, IfOk, IsOk};
ghost use Rattle.std.specs.Borrow.{Lends, sem};
ghost use Rattle.std.specs.Int.NonZero.{non_zero_usize_get};
ghost use Rattle.uart_spec.specs.Config.{IsComputable};
ghost use Rattle.uart_16550.specs.Driver.{Made};
ghost use Rattle.uart_16550.specs.Expansion.{expansion, expansion_of, SendsEach};
ghost use Rattle.uart_16550.specs.Expansion.{SendsSingly, SendsText, SendsStr};
ghost use Rattle.uart_16550.specs.Tty.{inner_of, TerminalMade, IsStarted};
ghost use Rattle.uart_16550.specs.Tty.{BuildsTerminal, BuildsTerminalAt};
ghost use Rattle.uart_16550.specs.Pio.{IsAtPorts, IsPortRefusal, PortStep};
ghost use Rattle.uart_16550.specs.Mmio.{IsInMemory, IsMappingRefusal, MemoryStep};
ghost use Rattle.uart_16550.specs.contracts.driver.Uart16550.{the_row as driver_row};
ghost use Rattle.uart_16550.specs.contracts.tty.Uart16550Tty.{the_row};

use crate::backend::{Backend, ByteAccess, MmioBackend, PioBackend, PortAccess};
use crate::driver::Uart16550;
use std::fmt;
use std::num::NonZeroUsize;
use uart_spec::{Config, StalledError, Uart16550TtyError};

/// A driver that sends text as terminals expect it.
///
/// Backspace and delete are sent as backspace, space, backspace, and a line feed as carriage
/// return, line feed. All other bytes are sent unchanged, also a carriage return. Bytes are
/// expanded, not characters.
///
/// # Examples
///
/// ```
/// let mut terminal = Uart16550Tty::from_inner(uart);
/// assert!(rt; writeln!(terminal, "hello").is_ok());
/// assert_eq!(rt; terminal.write_text("\x7f"), Ok(()));
/// ```
#[derive(Debug, Drop)]
pub struct Uart16550Tty<B> {
    inner: Uart16550<B>,
}

/// The bytes of one expansion, at most three.
#[derive(Clone, Copy)]
struct Expansion {
    bytes: [u8; 3],
    len: usize,
    ghost in_range: { len ≤ 3 },
}

// Returns what is sent for a byte of a text.
fn expansion_of(byte: u8) -> Expansion
    ensures { take result.len result.bytes ≡ expansion_of byte }
{
    match byte {
        0x08 | 0x7f => Expansion {
            bytes: *b"\x08 \x08",
            len: 3,
        },
        b'\n' => Expansion {
            bytes: *b"\r\n\0",
            len: 2,
        },
        _ => Expansion {
            bytes: [byte, 0, 0],
            len: 1,
        },
    }
}

impl<B: Backend + Drop> Uart16550Tty<B> {
    /// Returns a terminal over this backend: constructs a driver, and calls its `init` with this
    /// configuration, which must be computable (`Config::is_computable`), and then its
    /// `test_loopback`.
    ///
    /// Waits as these two calls do, with the default spin limit. Use `from_inner` for a device
    /// without loopback.
    ///
    /// # Errors
    ///
    /// - `InitError` if `init` failed.
    /// - `TestError` if `init` succeeded and `test_loopback` failed. The device stays initialised.
    ///
    /// The backend is dropped then, in the state in which the failed call left it.
    ///
    /// # Examples
    ///
    /// ```
    /// let tty = Uart16550Tty::new_with_backend(device(), Config::DEFAULT)?;
    /// ```
    pub fn new_with_backend(backend: B, config: Config) -> Result<Self, Uart16550TtyError>
        // promise: a terminal is set up, or refused for exactly its cause
        // with: new_with_backend, new_port.refused
        // shown by: terminals_are_set_up, terminals_are_refused_by_the_test
        // refused: terminal_always_finds_no_device
        // proved: A terminal is made by an `init` and then a loopback test on a new driver; each
        //   refusal holds the cause and comes exactly if that call was refused
        // on: `Uart16550Tty::new_with_backend`, `new_port`, `new_mmio`, `new_mmio_from_address`
        requires { IsComputable config }
        ensures { BuildsTerminal B.step backend config result }
    {
        Self::start(Uart16550::new_with_backend(backend), config)
    }

    // Initialises and tests a driver.
    fn start(mut driver: Uart16550<B>, config: Config) -> Result<Self, Uart16550TtyError>
        requires { IsComputable config }
        ensures { IsStarted B.step config driver result }
    {
        if let Err(cause) = driver.init(config) {
            return Err(Uart16550TtyError::InitError(cause));
        }
        if let Err(cause) = driver.test_loopback() {
            return Err(Uart16550TtyError::TestError(cause));
        }
        Ok(Uart16550Tty { inner: driver })
    }
}

impl<P: PortAccess + Drop> Uart16550Tty<PioBackend<P>> {
    /// Returns a terminal for the device whose registers are at eight consecutive I/O ports, from
    /// `base_port` on. Sets it up as `new_with_backend` does.
    ///
    /// # Errors
    ///
    /// `AddressError` if `Uart16550::new_port` failed. No access was made then. Otherwise those of
    /// `new_with_backend`. The access object is dropped.
    ///
    /// # Examples
    ///
    /// ```
    /// let tty = Uart16550Tty::new_port(0x3f8, device(), Config::DEFAULT)?;
    /// ```
    pub fn new_port(base_port: u16, access: P, config: Config) -> Result<Self, Uart16550TtyError>
        requires { IsComputable config }
        ensures { BuildsTerminalAt (PortStep P.step) (λ ports. IsAtPorts ports base_port access)
            (IsPortRefusal base_port) config result }
    {
        match Uart16550::new_port(base_port, access) {
            Ok(driver) => Self::start(driver, config),
            Err(cause) => Err(Uart16550TtyError::AddressError(cause)),
        }
    }
}

impl<M: ByteAccess + Drop> Uart16550Tty<MmioBackend<M>> {
    /// Returns a terminal for the device whose registers are in memory, from `base_address` on and
    /// `stride` bytes apart. Sets it up as `new_with_backend` does.
    ///
    /// # Errors
    ///
    /// `AddressError` if `Uart16550::new_mmio` failed. No access was made then. Otherwise those of
    /// `new_with_backend`. The access object is dropped.
    ///
    /// # Examples
    ///
    /// ```
    /// let base = NonZeroUsize::new(0x1000).ok_or("base 0")?;
    /// let tty = Uart16550Tty::new_mmio(base, 4, device(), Config::DEFAULT)?;
    /// ```
    pub fn new_mmio(
        base_address: NonZeroUsize,
        stride: u8,
        access: M,
        config: Config,
    ) -> Result<Self, Uart16550TtyError>
        requires { IsComputable config }
        ensures { BuildsTerminalAt (MemoryStep M.step)
            (λ mapped. IsInMemory mapped base_address stride access)
            (IsMappingRefusal (non_zero_usize_get base_address) stride) config result }
    {
        match Uart16550::new_mmio(base_address, stride, access) {
            Ok(driver) => Self::start(driver, config),
            Err(cause) => Err(Uart16550TtyError::AddressError(cause)),
        }
    }

    /// Does the same as `new_mmio`. Both take the base address as a number, not as a pointer.
    ///
    /// # Errors
    ///
    /// Those of `new_mmio`.
    ///
    /// # Examples
    ///
    /// ```
    /// let base = NonZeroUsize::new(0x1000).ok_or("base 0")?;
    /// let tty = Uart16550Tty::new_mmio_from_address(base, 4, device(), Config::DEFAULT)?;
    /// ```
    pub fn new_mmio_from_address(
        base_address: NonZeroUsize,
        stride: u8,
        access: M,
        config: Config,
    ) -> Result<Self, Uart16550TtyError>
        requires { IsComputable config }
        ensures { BuildsTerminalAt (MemoryStep M.step)
            (λ mapped. IsInMemory mapped base_address stride access)
            (IsMappingRefusal (non_zero_usize_get base_address) stride) config result }
    {
        Self::new_mmio(base_address, stride, access, config)
    }
}

impl<B: Backend> Uart16550Tty<B> {
    /// Returns a terminal over a driver that is already initialised. Makes no access.
    ///
    /// This is the way for a device without loopback, for a driver with its own spin limit, and
    /// after an `init` without a test.
    ///
    /// # Examples
    ///
    /// ```
    /// let mut terminal = Uart16550Tty::from_inner(uart);
    /// assert!(rt; writeln!(terminal, "hello").is_ok());
    /// ```
    pub fn from_inner(inner: Uart16550<B>) -> Self
        ensures { inner_of result ≡ inner }
    {
        Uart16550Tty { inner }
    }

    /// Returns the driver. Makes no access.
    ///
    /// # Examples
    ///
    /// ```
    /// assert_eq!(rt; terminal.inner().fifo_enabled(), fifo_enabled);
    /// ```
    pub fn inner(&self) -> &Uart16550<B>
        ensures { result.now ≡ inner_of self.now }
    {
        &self.inner
    }

    /// Returns the driver, for its own calls: to receive, or to read a status. Makes no access
    /// itself.
    ///
    /// # Examples
    ///
    /// ```
    /// let uart = terminal.inner_mut();
    /// assert_eq!(rt; uart.receive_bytes(&mut slots), 2);
    /// ```
    pub fn inner_mut(&mut self) -> &mut Uart16550<B>
        ensures* writes_back { sem 𝓛 (Lends (the_row B.row) (driver_row B.row) self.entry result
            (λ d. record { inner = d })) }
        ensures value { result.now ≡ inner_of self.old }
    {
        &mut self.inner
    }

    /// Returns the driver. Makes no access.
    ///
    /// # Examples
    ///
    /// ```
    /// let uart = terminal.into_inner();
    /// ```
    pub fn into_inner(self) -> Uart16550<B>
        ensures { result ≡ inner_of self }
    {
        let Uart16550Tty { inner: uart } = self;
        uart
    }

    // Sends the expansion of a byte, and returns its length. Printable bytes have a branch of their
    // own, since most bytes of a text are printable, and that branch is short.
    #[inline(always)]
    fn send_expansion(&mut self, byte: u8) -> Result<usize, StalledError>
        ensures made { TerminalMade B.step (SendsSingly (expansion_of byte) result)
            self.old self.new }
        ensures count { IfOk result (λ n. n ≡ length (expansion_of byte)) }
        ensures done { IfErr result (λ e. e.done < length (expansion_of byte)) }
    {
        match byte {
            b' '..=b'~' => {
                self.inner.send_one(byte)?;
                Ok(1)
            }
            _ => {
                let expansion = expansion_of(byte);
                self.inner.send_singly(&expansion.bytes[..expansion.len])?;
                Ok(expansion.len)
            }
        }
    }

    /// Sends the expansion of the text byte by byte, and waits for room before each byte.
    ///
    /// Each wait makes at most `spin_limit` polls. Received bytes are not touched.
    ///
    /// # Errors
    ///
    /// `StalledError` after `spin_limit` unsuccessful polls in a row. `done` is the number of bytes
    /// of the expansion that were sent before that, or `usize::MAX` if there were more.
    ///
    /// # Examples
    ///
    /// ```
    /// assert_eq!(rt; terminal.write_text("\x7f"), Ok(()));
    /// ```
    pub fn write_text(&mut self, text: &str) -> Result<(), StalledError>
        // promise: a terminal sends the expansion of a text, or as much of its beginning as a stall
        //   tells
        // with: write_text, write_raw_text, write_str.made
        // shown by: texts_stall, a_line_ends_as_terminals_expect
        // refused: delete_is_sent_as_it_is, write_raw_text_sends_seven_bits,
        //   write_str_hides_a_stall
        // proved: A terminal sends the expansion of a text, or as much of its beginning as a stall
        //   reports: backspace and delete as backspace, space, backspace, and a line feed with a
        //   carriage return before it
        // on: `Uart16550Tty::write_text`, `write_raw_text`, `fmt::Write::write_str`; `from_inner`,
        //   `inner`, `inner_mut`, `into_inner`
        ensures { TerminalMade B.step (SendsText text.now result) self.old self.new }
    {
        self.write_raw_text(text.as_bytes())
    }

    /// Sends the expansion of text that need not be UTF-8, as `write_text` does.
    ///
    /// This is for a console that passes on what others write, as the messages of a log in an older
    /// code.
    ///
    /// # Errors
    ///
    /// Those of `write_text`.
    ///
    /// # Examples
    ///
    /// ```
    /// assert_eq!(rt; terminal.write_raw_text(b"caf\xe9\n"), Ok(()));
    /// ```
    pub fn write_raw_text(&mut self, text: &[u8]) -> Result<(), StalledError>
        ensures { TerminalMade B.step (SendsText text.now result) self.old self.new }
    {
        // An expansion may be three times as long as its text. So its length need not fit into a
        // `usize`, and the count of a stall ends at the largest one.
        let mut done = 0_usize;
        for &byte in text {
            match self.send_expansion(byte) {
                Ok(count) => done = done.saturating_add(count),
                Err(stall) => {
                    let done = done.saturating_add(stall.done);
                    return Err(StalledError { done });
                }
            }
        }
        Ok(())
    }
}

impl<B: Backend> fmt::Write for Uart16550Tty<B> {
    ghost write_str_gives = { λ old text new.
        TerminalMade B.step (SendsEach (expansion text)) old new };

    /// Sends the expansion of the text as `write_text` does.
    ///
    /// # Errors
    ///
    /// `fmt::Error` if `write_text` failed. It does not report how many bytes were sent.
    fn write_str(&mut self, text: &str) -> fmt::Result
        ensures ok { IsOk result → TerminalMade B.step (SendsEach (expansion text.now))
            self.old self.new }
        ensures made { TerminalMade B.step (SendsStr text.now result) self.old self.new }
    {
        match self.write_text(text) {
            Ok(()) => Ok(()),
            // `fmt::Error` has no room for the count of a stall.
            Err(_) => Err(fmt::Error),
        }
    }
}
