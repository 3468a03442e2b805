//! Sending.
ghost use Rattle.std.specs.Prelude.{◌≡◌, ◌<◌, ◌≤◌, [], ◌∷◌, length, take, IfErr, IfSome};
ghost use Rattle.uart_16550.specs.Grammar.{Only, Asks};
ghost use Rattle.uart_16550.specs.Transmit.{LinesAllow, ReadyToSend, data_writes, burst_size};
ghost use Rattle.uart_16550.specs.Transmit.{Sends, WaitsToSend, SendsSome, SendsExact};
ghost use Rattle.uart_16550.specs.Transmit.{WaitsFor, TrySends};
ghost use Rattle.uart_16550.specs.Patience.{MadeWhile, FlushesWhile};
ghost use Rattle.uart_16550.specs.Expansion.{SendsSingly};
ghost use Rattle.uart_16550.specs.Driver.{Made, settings};
ghost use Rattle.uart_spec.specs.declared.access.Access.TheVariants.{Write};
ghost use Rattle.uart_spec.specs.declared.registers.offsets.TheConstants as offsets;

use super::Uart16550;
use crate::backend::Backend;
use crate::patience::{Patience, WaitEnd, WaitError};
use bitflags::Flags;
use uart_spec::registers::{LSR, MCR, MSR, offsets};
use uart_spec::{ByteSendError, FIFO_SIZE, FifoSize, StalledError};

impl<B: Backend> Uart16550<B> {
    // Returns whether the modem lines allow sending. In loopback they do not matter: CTS is then
    // connected to RTS inside the chip, and says nothing about the remote.
    fn is_clear_to_send(&mut self) -> bool
        ensures { Made B.step (LinesAllow result) self.old self.new }
    {
        if MCR::from_bits_retain(self.read_register(offsets::MCR)).contains(MCR::LOOP_BACK) {
            return true;
        }
        self.read_msr().contains(MSR::CTS)
    }

    /// Checks whether a byte can be sent now: whether LSR shows `THR_EMPTY` and, if the
    /// configuration checks CTS, the remote is clear to send.
    ///
    /// Does not wait: reads LSR once. If the configuration checks CTS and THR is empty, it also
    /// reads MCR and, unless that shows loopback, MSR. The errors and changes that these reads
    /// clear are saved for the next `lsr` and `msr`.
    ///
    /// # Errors
    ///
    /// - `NoCapacity` if THR, or the transmitter FIFO, is not empty.
    /// - `RemoteNotClearToSend` if it is empty, but the remote does not assert CTS.
    ///
    /// # Examples
    ///
    /// ```
    /// assert_eq!(rt; uart.ready_to_send(), Ok(()));
    /// ```
    pub fn ready_to_send(&mut self) -> Result<(), ByteSendError>
        ensures { Made B.step (ReadyToSend result) self.old self.new }
    {
        if !self.read_lsr().contains(LSR::THR_EMPTY) {
            return Err(ByteSendError::NoCapacity);
        }
        // Many cables never assert CTS, so it counts only if the configuration says so.
        if !self.config.check_cts_before_sending {
            return Ok(());
        }
        if !self.is_clear_to_send() {
            return Err(ByteSendError::RemoteNotClearToSend);
        }
        Ok(())
    }

    // Writes a byte to DATA.
    pub(super) fn write_byte(&mut self, byte: u8)
        ensures { Made B.step (Only (Write offsets.DATA byte ∷ [])) self.old self.new }
    {
        self.backend.write(offsets::DATA as u8, byte);
    }

    // Writes the bytes to DATA in order.
    pub(super) fn write_data(&mut self, bytes: &[u8])
        ensures { Made B.step (Only (data_writes bytes.now)) self.old self.new }
    {
        for &byte in bytes {
            self.write_byte(byte);
        }
    }

    // Writes one burst from the front to DATA, and returns its length: as many bytes as certainly
    // fit. LSR shows whether the FIFO is empty, and no register shows how full it is. One byte more
    // could be lost, and nothing would tell.
    //
    // A whole burst of 16, the size of most chips, is apart, since its length is known to the
    // compiler: it then counts no bytes.
    pub(super) fn write_burst(&mut self, bytes: &[u8]) -> usize
        // there is a byte to write
        requires { 0 < length bytes.now }
        ensures made { Made B.step (Only (data_writes (take result bytes.now))) self.old self.new }
        ensures size { result ≡ burst_size (settings self.old) bytes.now }
    {
        if !self.fifo_enabled {
            self.write_byte(bytes[0]);
            return 1;
        }
        match (self.fifo_size, bytes.first_chunk::<FIFO_SIZE>()) {
            (FifoSize::Sixteen, Some(burst)) => {
                self.write_data(burst);
                FIFO_SIZE
            }
            (size, _) => self.write_up_to(size.characters(), bytes),
        }
    }

    /// Sends bytes from the front of the slice if there is room, and returns how many: up to as
    /// many as the FIFO holds (`fifo_size`) if it is on, else one; 0 if `ready_to_send` fails.
    ///
    /// Does not wait: makes one check as `ready_to_send`, and one burst of writes to THR. The chip
    /// reports only an empty FIFO, not how full it is, so nothing is sent until the last burst has
    /// left the FIFO. Call it again with the rest of the slice to send more. An empty slice makes
    /// no access.
    ///
    /// # Examples
    ///
    /// ```
    /// let sent = uart.send_bytes(bytes);
    /// let rest = &bytes[sent..];
    /// ```
    pub fn send_bytes(&mut self, buffer: &[u8]) -> usize
        // promise: bytes are written only after a look that showed room: with the FIFO on as many
        //   as it holds by the size that is set, else one
        // with: send_bytes.made
        // shown by: send_bytes_exact_that_checks_cts, waits-for-cts
        // refused: send_bytes_bursts_without_fifo, ready_to_send_reads_dsr_for_cts
        ensures made { Made B.step (Sends buffer.now result) self.old self.new }
        ensures count { result ≤ length buffer.now }
    {
        if buffer.is_empty() {
            return 0;
        }
        let Ok(()) = self.ready_to_send() else {
            return 0;
        };
        self.write_burst(buffer)
    }

    /// Sends one byte if there is room: makes one check as `ready_to_send`, and one write to THR.
    ///
    /// Does not wait.
    ///
    /// # Errors
    ///
    /// `NoCapacity` if the byte was not sent, whatever the cause: also if the remote is not clear
    /// to send.
    ///
    /// # Examples
    ///
    /// ```
    /// assert_eq!(rt; uart.try_send_byte(b'h'), Ok(()));
    /// ```
    pub fn try_send_byte(&mut self, byte: u8) -> Result<(), ByteSendError>
        // proved: Bytes are written to DATA only after a look that showed an empty holding register
        //   and, with CTS checking, the other end clear to send (or loopback): if the FIFO is on up
        //   to as many as it holds by the size that is set, which is 16 at first, else one.
        //   `send_bytes` of some bytes returns 0 only after a check that missed
        // on: `try_send_byte`, `send_bytes`, `send_bytes_exact`, `Write::write`
        ensures { Made B.step (TrySends byte result) self.old self.new }
    {
        match self.ready_to_send() {
            Ok(()) => {
                self.write_byte(byte);
                Ok(())
            }
            // The original driver has this one error for both causes.
            Err(_) => Err(ByteSendError::NoCapacity),
        }
    }

    // Waits until bytes may be written. The check stands once: where code is to be small, the
    // compiler then inlines it, and drops what a constant configuration does not ask for. Waiting
    // and writing are two functions, and this one is inlined, so that each loop that sends holds
    // one copy of the wait.
    #[inline(always)]
    fn wait_to_send(&mut self) -> bool
        ensures { Made B.step (WaitsToSend result) self.old self.new }
    {
        for _check in 0..self.spin_limit.get() {
            if let Ok(()) = self.ready_to_send() {
                return true;
            }
        }
        false
    }

    // Waits until a burst was sent, and returns its length.
    pub(crate) fn send_some(&mut self, bytes: &[u8]) -> Option<usize>
        requires { 0 < length bytes.now }
        ensures made { Made B.step (SendsSome bytes.now result) self.old self.new }
        ensures count { IfSome result (λ k. (0 < k) × (k ≤ length bytes.now)) }
    {
        if !self.wait_to_send() {
            return None;
        }
        Some(self.write_burst(bytes))
    }

    // Waits for room, and sends a byte.
    #[inline(always)]
    pub(crate) fn send_one(&mut self, byte: u8) -> Result<(), StalledError>
        ensures made { Made B.step (SendsSingly (byte ∷ []) result) self.old self.new }
        ensures done { IfErr result (λ e. e.done ≡ 0) }
    {
        if !self.wait_to_send() {
            return Err(StalledError { done: 0 });
        }
        self.write_byte(byte);
        Ok(())
    }

    // Sends the bytes one by one, and waits for room before each.
    #[inline(always)]
    pub(crate) fn send_singly(&mut self, bytes: &[u8]) -> Result<(), StalledError>
        ensures made { Made B.step (SendsSingly bytes.now result) self.old self.new }
        ensures done { IfErr result (λ e. e.done < length bytes.now) }
    {
        for (done, &byte) in bytes.iter().enumerate() {
            if !self.wait_to_send() {
                return Err(StalledError { done });
            }
            self.write_byte(byte);
        }
        Ok(())
    }

    /// Sends all of the bytes, and waits for room before each burst: of up to as many bytes as the
    /// FIFO holds (`fifo_size`) if it is on, else of one.
    ///
    /// Each wait makes at most `spin_limit` checks as `ready_to_send`. It returns when the last
    /// burst is in THR or the FIFO; `flush` of [`embedded_io`](crate::embedded_io) waits until all
    /// of it has left the chip. An empty slice makes no access.
    ///
    /// # Errors
    ///
    /// `StalledError` after `spin_limit` unsuccessful checks in a row: the chip is slower than the
    /// limit allows, or CTS is checked and the remote is not clear to send. The first `done` bytes
    /// were written to the chip.
    ///
    /// # Examples
    ///
    /// ```
    /// if let Err(stall) = uart.send_bytes_exact(question) {
    ///     return Err(PortError::NotSent { sent: stall.done });
    /// }
    /// ```
    pub fn send_bytes_exact(&mut self, bytes: &[u8]) -> Result<(), StalledError>
        // promise: each wait ends at the limit's number of unsuccessful polls in a row, and not
        //   before
        // with: send_bytes_exact.made, receive_bytes_exact.made
        // shown by: polls, waits_end, long_slices_stall_after_many_bytes
        // refused: send_bytes_exact_stalls_at_once, receive_bytes_exact_stalls_at_once,
        //   wait_to_send_ends_a_poll_early
        // promise: a stall tells how many bytes there were
        // with: send_bytes_exact.done, receive_bytes_exact.rest
        // shown by: stalls-after-a-byte, receive_bytes_exact
        // refused: receive_bytes_exact_always_has_done_0, send_bytes_exact_begins_again
        // proved: A wait ends at the spin limit's number of unsuccessful polls in a row, and not
        //   before; progress starts the count again. `done` is how many bytes there were before
        //   that (of `write_text` at most 2^64 - 1)
        // on: `send_bytes_exact`, `receive_bytes_exact`, `Read::read`, `Write::write`,
        //   `Write::flush`, `Uart16550Tty::write_text`; also the waits in `init`, `init_with`,
        //   `set_frame_when_idle`, `test_loopback`, `find_fifo_size` and `enable_64_byte_fifos`
        // each wait for room gives up after as many failed checks in a row as the spin limit, on
        // every device
        ensures made { Made B.step (SendsExact bytes.now result) self.old self.new }
        ensures done { IfErr result (λ e. e.done < length bytes.now) }
    {
        // Without FIFO each burst is one byte. A loop of its own for those would ask for less, and
        // would be the same code again.
        let mut done = 0;
        while done < bytes.len() {
            let Some(count) = self.send_some(&bytes[done..]) else {
                return Err(StalledError { done });
            };
            done += count;
        }
        Ok(())
    }

    // Polls LSR until it shows these bits, or until the limit. Each wait has a loop of its own over
    // the limit, so the polls that count are those in a row: progress begins a new count.
    pub(crate) fn wait_for(&mut self, bits: LSR) -> bool
        ensures { Made B.step (WaitsFor bits.0 result) self.old self.new }
    {
        for _turn in 0..self.spin_limit.get() {
            if self.read_lsr().contains(bits) {
                return true;
            }
        }
        false
    }

    /// Waits until LSR shows `TRANSMITTER_EMPTY`, as `flush` of [`embedded_io`](crate::embedded_io)
    /// does, and no longer than the caller wants: `patience` is asked after each poll that fails.
    ///
    /// So the wait can end at a time, by whatever clock the caller has. It ends after `spin_limit`
    /// unsuccessful polls in a row too. No poll follows the answer to wait no longer. Error bits
    /// are saved for the next `lsr`, and do not end the call.
    ///
    /// # Errors
    ///
    /// `WaitError`, with `done` 0, if `patience` answered to wait no longer, or after `spin_limit`
    /// unsuccessful polls in a row: `ended_by` tells which. What was sent goes on to leave the
    /// chip.
    ///
    /// # Examples
    ///
    /// ```
    /// uart.send_bytes_while(b"hello", &mut deadline)?;
    /// uart.flush_while(&mut deadline)?;
    /// ```
    pub fn flush_while<P: Patience>(&mut self, patience: &mut P) -> Result<(), WaitError>
        // promise: a wait for an empty transmitter ends when its caller says so, too
        // with: flush_while, endless_patience_is_exact.flushes
        // shown by: who_flushes_is_asked_after_each_poll_that_fails,
        //   errors_that_a_flush_clears_are_saved, waits_in_time_for_an_empty_transmitter
        // refused: flush_while_waits_for_the_holding_register, flush_while_polls_after_the_end,
        //   flush_while_never_asks_at_first, flush_while_takes_the_answer_for_the_limit,
        //   flush_while_takes_the_limit_for_an_answer
        // so does a wait for an empty transmitter; the error tells which ended it
        ensures { MadeWhile P.answers B.step (λ said. FlushesWhile said result)
            patience.old patience.new self.old self.new }
    {
        for _poll in 0..self.spin_limit.get() {
            if self.read_lsr().contains(LSR::TRANSMITTER_EMPTY) {
                return Ok(());
            }
            if !patience.keep_waiting() {
                return Err(WaitError {
                    done: 0,
                    ended_by: WaitEnd::Patience,
                });
            }
        }
        Err(WaitError {
            done: 0,
            ended_by: WaitEnd::SpinLimit,
        })
    }
}
