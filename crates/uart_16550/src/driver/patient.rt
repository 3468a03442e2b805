//! Sending and receiving with waits that end when their caller says so.
ghost use Rattle.std.specs.Prelude.{◌≡◌, ◌<◌, length, drop, IfErr};
ghost use Rattle.uart_16550.specs.Patience.{MadeWhile, SendsWhile, WaitsWhile};
ghost use Rattle.uart_16550.specs.Patience.{AwaitsWhile, ReceivesWhile, filled_while};

use super::Uart16550;
use crate::backend::Backend;
use crate::patience::{Patience, WaitEnd, WaitError};

impl<B: Backend> Uart16550<B> {
    // Waits until bytes may be written, and asks after each check that fails whether to go on.
    fn wait_to_send_while<P: Patience>(&mut self, patience: &mut P) -> Result<(), WaitEnd>
        ensures { MadeWhile P.answers B.step (λ said. WaitsWhile said result)
            patience.old patience.new self.old self.new }
    {
        // The limit bounds the wait even if the caller never has enough.
        for _turn in 0..self.spin_limit.get() {
            if let Ok(()) = self.ready_to_send() {
                return Ok(());
            }
            if !patience.keep_waiting() {
                return Err(WaitEnd::Patience);
            }
        }
        Err(WaitEnd::SpinLimit)
    }

    /// Sends all of the bytes as `send_bytes_exact` does, and waits no longer than the caller
    /// wants: `patience` is asked after each check that fails.
    ///
    /// So a wait can end at a time, by whatever clock the caller has. It ends after `spin_limit`
    /// unsuccessful checks in a row too: for a wait that the clock alone ends, set a limit that is
    /// not reached before. No check follows the answer to wait no longer.
    ///
    /// # Errors
    ///
    /// `WaitError` if `patience` answered to wait no longer, or after `spin_limit` unsuccessful
    /// checks in a row: `ended_by` tells which. The first `done` bytes were written to the chip,
    /// and the others were not: a further call sends them.
    ///
    /// # Examples
    ///
    /// ```
    /// // The patience ends at a time of a clock that this program has.
    /// uart.send_bytes_while(b"hello", &mut deadline)?;
    /// ```
    pub fn send_bytes_while<P: Patience>(
        &mut self,
        bytes: &[u8],
        patience: &mut P,
    ) -> Result<(), WaitError>
        // promise: a wait ends when its caller says so, who is asked once after each unsuccessful
        //   poll, and no poll follows; the error tells whether the caller or the limit ended it; it
        //   does as `send_bytes_exact` if the caller always keeps waiting
        // with: send_bytes_while.made, endless_patience_is_exact.sends
        // shown by: a_caller_is_asked_after_each_check_that_fails,
        //   no_check_follows_the_answer_to_wait_no_longer, the_spin_limit_ends_a_wait_too,
        //   waits_in_time
        // refused: send_bytes_while_checks_after_the_end, send_bytes_while_never_asks_at_first,
        //   send_bytes_while_asks_twice, send_bytes_while_takes_the_answer_for_the_limit,
        //   send_bytes_while_takes_the_limit_for_an_answer
        // a wait for room ends too when the caller says so, who is asked once after each failed
        // check; no check follows the answer to wait no longer, and the error tells whether that
        // answer or the limit ended the wait
        ensures made { MadeWhile P.answers B.step (λ said. SendsWhile bytes.now said result)
            patience.old patience.new self.old self.new }
        ensures done { IfErr result (λ e. e.done < length bytes.now) }
    {
        let mut done = 0;
        while done < bytes.len() {
            if let Err(ended_by) = self.wait_to_send_while(patience) {
                return Err(WaitError { done, ended_by });
            }
            done += self.write_burst(&bytes[done..]);
        }
        Ok(())
    }

    // Waits for one byte, and asks after each poll that fails whether to go on.
    fn receive_one_while<P: Patience>(&mut self, caller: &mut P) -> Result<u8, WaitEnd>
        ensures { MadeWhile P.answers B.step (λ said. AwaitsWhile said result)
            caller.old caller.new self.old self.new }
    {
        // The limit bounds the wait even if the caller never has enough.
        for _poll in 0..self.spin_limit.get() {
            if let Ok(byte) = self.try_receive_byte() {
                return Ok(byte);
            }
            if !caller.keep_waiting() {
                return Err(WaitEnd::Patience);
            }
        }
        Err(WaitEnd::SpinLimit)
    }

    /// Receives a byte into each slot as `receive_bytes_exact` does, and waits no longer than the
    /// caller wants: `patience` is asked after each poll that fails.
    ///
    /// So a wait can end at a time, by whatever clock the caller has. It ends after `spin_limit`
    /// unsuccessful polls in a row too: for a wait that the clock alone ends, set a limit that is
    /// not reached before. No poll follows the answer to wait no longer.
    ///
    /// Error bits are saved for the next `lsr`, and do not end the call. An empty slice makes no
    /// access, and does not ask.
    ///
    /// # Errors
    ///
    /// `WaitError` if `patience` answered to wait no longer, or after `spin_limit` unsuccessful
    /// polls in a row: `ended_by` tells which. The first `done` slots have the bytes that were
    /// received, and the other slots are unchanged: a further call fills them.
    ///
    /// # Examples
    ///
    /// ```
    /// // The patience ends at a time of a clock that this program has.
    /// uart.receive_bytes_while(&mut answer, &mut deadline)?;
    /// ```
    pub fn receive_bytes_while<P: Patience>(
        &mut self,
        buffer: &mut [u8],
        patience: &mut P,
    ) -> Result<(), WaitError>
        // promise: a wait for bytes ends when its caller says so, too: slots behind those that came
        //   stay, and what the polls clear is saved
        // with: receive_bytes_while.made, receive_bytes_while.rest,
        //   endless_patience_is_exact.receives
        // shown by: who_receives_is_asked_after_each_poll_that_fails,
        //   no_poll_follows_the_answer_to_wait_no_longer, errors_that_the_polls_clear_are_saved,
        //   waits_in_time_for_bytes
        // refused: receive_bytes_while_polls_after_the_end,
        //   receive_bytes_while_never_asks_at_first, receive_bytes_while_takes_what_came_for_all,
        //   receive_bytes_while_takes_the_answer_for_the_limit,
        //   receive_bytes_while_takes_the_limit_for_an_answer
        // so does a wait for a byte, and no poll follows; the error tells which ended it
        ensures made { MadeWhile P.answers B.step (λ said. ReceivesWhile (length buffer.old)
            (filled_while result buffer.new) said result)
            patience.old patience.new self.old self.new }
        ensures rest { IfErr result (λ e. drop e.done buffer.new ≡ drop e.done buffer.old) }
    {
        for (done, slot) in buffer.iter_mut().enumerate() {
            match self.receive_one_while(patience) {
                Ok(byte) => *slot = byte,
                Err(ended_by) => return Err(WaitError { done, ended_by }),
            }
        }
        Ok(())
    }
}
