//! The loopback test.
ghost use Rattle.std.specs.Prelude.{◌≡◌, length, IfSome};
ghost use Rattle.uart_16550.specs.Loopback.{test_message, DrainsLoopback, HasEchoed};
ghost use Rattle.uart_16550.specs.Loopback.{HasEchoedWhole, HasEchoedEach, HasEchoedAll};
ghost use Rattle.uart_16550.specs.Loopback.{ExchangesByte, ExchangesMessage, Exchanges};
ghost use Rattle.uart_16550.specs.Loopback.{EntersAt, Leaves, TestsLoopback};
ghost use Rattle.uart_16550.specs.Driver.{Made, Did, fields};

use super::Uart16550;
use crate::backend::Backend;
use bitflags::Flags;
use uart_spec::LoopbackError;
use uart_spec::registers::{FifoTriggerLevel, IER, LSR, MCR, MSR, offsets};

pub(super) const TEST_BYTE: u8 = 0x42;

const TEST_MESSAGE: [u8; 16] = *b"hello world!1337";

impl<B: Backend> Uart16550<B> {
    // Discards received bytes until none is available: a byte from before the test would be taken
    // for the first that returns. Returns false after as many bytes as the spin limit, right after
    // the last of them. So with a limit of 1 one byte is too many, even if none is behind it.
    pub(super) fn drain_received(&mut self) -> bool
        ensures { Made B.step (DrainsLoopback result) self.old self.new }
    {
        for _turn in 0..self.spin_limit.get() {
            let Ok(_) = self.try_receive_byte() else {
                return true;
            };
        }
        false
    }

    // Sends the test byte, and compares what returns.
    fn exchange_byte(&mut self) -> Result<(), LoopbackError>
        ensures { Made B.step (ExchangesByte result) self.old self.new }
    {
        if let Err(cause) = self.try_send_byte(TEST_BYTE) {
            return Err(LoopbackError::SendError(cause));
        }
        let Some(actual) = self.receive_one() else {
            return Err(LoopbackError::Stalled);
        };
        if actual == TEST_BYTE {
            return Ok(());
        }
        Err(LoopbackError::UnexpectedLoopbackByte {
            expected: TEST_BYTE,
            actual,
        })
    }

    // Sends a byte, and waits for the byte that returns. On a real chip it returns after the time
    // of a character, and not at once.
    fn echo(&mut self, byte: u8) -> Option<u8>
        ensures { Made B.step (HasEchoed byte result) self.old self.new }
    {
        self.send_some(&[byte])?;
        self.receive_one()
    }

    // Sends the whole test message, and then receives it. A FIFO has room for all of it.
    fn echo_whole(&mut self) -> Option<[u8; 16]>
        ensures made { Made B.step (HasEchoedWhole test_message result) self.old self.new }
        ensures length { IfSome result (λ actual. length actual ≡ length test_message) }
    {
        let Ok(()) = self.send_bytes_exact(&TEST_MESSAGE) else {
            return None;
        };
        let mut actual = [0; 16];
        let Ok(()) = self.receive_bytes_exact(&mut actual) else {
            return None;
        };
        Some(actual)
    }

    // Sends the test message byte by byte, and waits for each to return. Without FIFO the receiver
    // has room for one character, and the next would replace it.
    fn echo_each(&mut self) -> Option<[u8; 16]>
        ensures made { Made B.step (HasEchoedEach test_message result) self.old self.new }
        ensures length { IfSome result (λ actual. length actual ≡ length test_message) }
    {
        let mut actual = [0; 16];
        for (i, &byte) in TEST_MESSAGE.iter().enumerate() {
            actual[i] = self.echo(byte)?;
        }
        Some(actual)
    }

    // Sends and receives the test message: as a whole if the FIFO is on, else byte by byte.
    fn echo_message(&mut self) -> Option<[u8; 16]>
        ensures made { Made B.step (HasEchoedAll test_message result) self.old self.new }
        ensures length { IfSome result (λ actual. length actual ≡ length test_message) }
    {
        if self.fifo_enabled {
            return self.echo_whole();
        }
        self.echo_each()
    }

    // Sends the test message, and compares what returns.
    fn exchange_message(&mut self) -> Result<(), LoopbackError>
        ensures { Made B.step (ExchangesMessage result) self.old self.new }
    {
        let Some(actual) = self.echo_message() else {
            return Err(LoopbackError::Stalled);
        };
        if actual != TEST_MESSAGE {
            return Err(LoopbackError::UnexpectedLoopbackMsg {
                expected: TEST_MESSAGE,
                actual,
            });
        }
        Ok(())
    }

    // Makes the test itself, while the device is in loopback.
    fn exchange(&mut self) -> Result<(), LoopbackError>
        ensures { Made B.step (Exchanges result) self.old self.new }
    {
        if !self.drain_received() {
            return Err(LoopbackError::Stalled);
        }
        self.exchange_byte()?;
        self.exchange_message()
    }

    // Reads the modem lines, and sets the device to loopback with interrupts off, and with FIFOs of
    // this level, if there is one.
    pub(super) fn enter_loopback(&mut self, level: Option<FifoTriggerLevel>) -> MSR
        ensures { Did B.step (EntersAt level result.0 (fields self.new).fifo) self.old self.new }
    {
        // Loopback connects the modem's inputs to the outputs. So the lines are read before.
        let before = self.read_msr();
        // A handler would take the bytes that come back.
        self.write_register(offsets::IER, 0);
        self.write_register(offsets::MCR, MCR::LOOP_BACK.bits());
        // Bytes that were received before are gone after the reset.
        self.fifo_enabled = self.set_fifo(level);
        before
    }

    // Leaves loopback, restores MCR and IER, and saves the changes of the lines that are not due to
    // the test.
    pub(super) fn leave_loopback(&mut self, mcr: MCR, ier: IER, before: MSR, noted: LSR)
        ensures { Did B.step (Leaves mcr.0 ier.0 before.0 noted.0) self.old self.new }
    {
        // The inputs are the modem's lines again. Those that are set change by that, which is a
        // modem status interrupt. OUT2 stays clear until the read of MSR has cleared it, and IER is
        // still 0. Otherwise the interrupt line would rise for a moment, and a controller that
        // detects edges would call the handler for nothing.
        self.write_register(offsets::MCR, mcr.difference(MCR::OUT_2_INT_ENABLE).bits());
        // The change bits that this read clears tell what the test did. What happened to the lines
        // is found by comparing them with those before.
        let now = MSR::from_bits_retain(self.read_plain(offsets::MSR));
        self.write_register(offsets::MCR, mcr.bits());
        self.write_register(offsets::IER, ier.bits());
        self.saved_msr.insert(now.changes_since(before));
        // Errors in loopback are those of the test's bytes, or of bytes that it has discarded.
        self.saved_lsr = noted;
    }

    /// Tests whether bytes that are sent return while the device is in loopback: first one byte,
    /// and then a message of 16.
    ///
    /// Call it after `init`, to find out whether the chip works. Send nothing else while it runs.
    /// In loopback the chip connects its transmitter to its receiver, and nothing goes out on the
    /// line. For a device without loopback do not call it; wrap the driver with
    /// `Uart16550Tty::from_inner` instead of constructing a terminal.
    ///
    /// Waits until the transmitter is empty, and then for each byte, at most `spin_limit` polls
    /// each time. Received bytes and error bits that are found in loopback are discarded; error
    /// bits that were saved before it stay saved. The FIFOs are reset and set up again, and
    /// `fifo_enabled` is read again. Afterwards MCR and IER are as before, also on a chip that was
    /// in loopback already.
    ///
    /// The modem lines before and after the test are compared, and their changes saved for the next
    /// `msr`; of RI only its trailing edge. A line that changed and changed back in between is not
    /// reported.
    ///
    /// Whole bytes are compared. With 5 or 6 data bits a chip that cuts characters fails the test.
    ///
    /// # Errors
    ///
    /// - `Stalled` after `spin_limit` unsuccessful polls in a row. If the first wait failed,
    ///   nothing was written, and what the polls cleared is saved. Later a test byte may still be
    ///   in the transmitter, and is then sent after the test.
    /// - `SendError` if the device does not accept the test byte. Its cause is always `NoCapacity`.
    /// - `UnexpectedLoopbackByte`, `UnexpectedLoopbackMsg` if other bytes return.
    ///
    /// Except for the first wait, MCR and IER are restored before the error is returned.
    ///
    /// # Examples
    ///
    /// ```
    /// uart.init(Config::DEFAULT)?;
    /// uart.test_loopback()?;
    /// ```
    pub fn test_loopback(&mut self) -> Result<(), LoopbackError>
        // promise: the loopback test access by access, and each refusal with what it leaves
        // shown by: the_first_wait_stalls, the_test_byte_is_refused, another_message_comes_back
        // refused: loopback_stays_on_after_a_refusal, loopback_reports_ri_on_its_rising_edge,
        //   loopback_leaves_another_ier
        ensures { Did B.step (TestsLoopback result) self.old self.new }
    {
        let mcr = self.mcr();
        let ier = self.ier();
        // A byte that is still to go out would come back among those of the test, and would never
        // reach the remote.
        if !self.wait_for(LSR::TRANSMITTER_EMPTY) {
            return Err(LoopbackError::Stalled);
        }
        let noted = self.saved_lsr;
        let before = self.enter_loopback(self.config.fifo_trigger_level);
        let outcome = self.exchange();
        self.leave_loopback(mcr, ier, before, noted);
        outcome
    }
}
