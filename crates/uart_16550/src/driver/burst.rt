//! Bursts: how large one may be, and those of bytes that are no single slice.
ghost use Rattle.std.specs.Prelude.{◌≡◌, ◌≤◌, ◌++◌, length, min, option_to_list, take};
ghost use Rattle.uart_16550.specs.Bursts.{SendsBurst};
ghost use Rattle.uart_16550.specs.Driver.{Made, settings};
ghost use Rattle.uart_16550.specs.Grammar.{Only};
ghost use Rattle.uart_16550.specs.Transmit.{Sends, burst_limit, data_writes};

use super::Uart16550;
use crate::backend::Backend;
use uart_spec::FifoSize;

impl<B: Backend> Uart16550<B> {
    // Returns how many bytes certainly fit once LSR has shown `THR_EMPTY`.
    fn burst_limit(&self, size: FifoSize) -> usize
        ensures { result ≡ burst_limit (settings self.now).fifo size }
    {
        if self.fifo_enabled {
            size.characters()
        } else {
            1
        }
    }

    // Writes bytes from the front to DATA, at most so many, and returns how many.
    pub(super) fn write_up_to(&mut self, limit: usize, bytes: &[u8]) -> usize
        ensures made { Made B.step (Only (data_writes (take result bytes.now))) self.old self.new }
        ensures count { result ≡ min (length bytes.now) limit }
    {
        let count = bytes.len().min(limit);
        self.write_data(&bytes[..count]);
        count
    }

    /// Does the same as `send_bytes` for a chip whose transmitter FIFO has this size, whatever
    /// `fifo_size` says: sends as many bytes as it holds if the FIFO is on, else one.
    ///
    /// The size is taken on trust: on a chip with a smaller FIFO the bytes that do not fit are
    /// lost, and nothing tells. Some chips hold more than 16 only after they were told, as a 16750
    /// by `enable_64_byte_fifos`. `set_fifo_size` sets the size for all calls that send.
    ///
    /// # Examples
    ///
    /// ```
    /// let sent = uart.send_burst(bytes, FifoSize::SixtyFour);
    /// let rest = &bytes[sent..];
    /// ```
    pub fn send_burst(&mut self, buffer: &[u8], size: FifoSize) -> usize
        // promise: a burst is as large as the transmitter FIFO, if the caller names its size
        // with: send_burst.made, SendsBurst
        // shown by: a_burst_is_as_large_as_the_fifo
        // refused: send_burst_takes_each_chip_for_16
        ensures made { Made B.step (SendsBurst size buffer.now result) self.old self.new }
        ensures count { result ≤ length buffer.now }
    {
        if buffer.is_empty() {
            return 0;
        }
        let Ok(()) = self.ready_to_send() else {
            return 0;
        };
        let limit = self.burst_limit(size);
        self.write_up_to(limit, buffer)
    }

    // Writes the urgent byte to DATA, if there is one, and returns how many bytes that were.
    fn write_urgent(&mut self, urgent: Option<u8>) -> usize
        ensures made { Made B.step (Only (data_writes (option_to_list urgent)))
            self.old self.new }
        ensures count { result ≡ length (option_to_list urgent) }
        ensures few { result ≤ 1 }
    {
        match urgent {
            None => 0,
            Some(byte) => {
                self.write_byte(byte);
                1
            }
        }
    }

    // Writes one burst to DATA: the urgent byte, and then bytes from the front of both parts.
    // Returns its length.
    fn write_gathered(&mut self, urgent: Option<u8>, first: &[u8], second: &[u8]) -> usize
        ensures made { Made B.step (Only (data_writes (take result
            (option_to_list urgent ++ (first.now ++ second.now))))) self.old self.new }
        ensures count { result ≡ min (length (option_to_list urgent ++ (first.now ++ second.now)))
            (burst_limit (settings self.old).fifo (settings self.old).size) }
    {
        let limit = self.burst_limit(self.fifo_size);
        let urgents = self.write_urgent(urgent);
        let firsts = self.write_up_to(limit - urgents, first);
        let seconds = self.write_up_to(limit - urgents - firsts, second);
        urgents + firsts + seconds
    }

    /// Does the same as `send_bytes` for bytes that a queue holds: an urgent byte, if there is one,
    /// and then the bytes of both parts, as `VecDeque::as_slices` gives them. Returns how many of
    /// these bytes were sent, from the front.
    ///
    /// They are one burst, after one check as `ready_to_send`, wherever the parts meet. So the
    /// queue need not copy bytes into one slice, however large the FIFO is. If there are no bytes,
    /// it makes no access.
    ///
    /// # Examples
    ///
    /// ```
    /// let (first, second) = queue.as_slices();
    /// let sent = uart.send_gathered(None, first, second);
    /// queue.drain(..sent);
    /// ```
    pub fn send_gathered(&mut self, urgent: Option<u8>, first: &[u8], second: &[u8]) -> usize
        // promise: bytes in two parts, with an urgent one before them, are one burst
        // with: send_gathered.made
        // shown by: parts_are_one_burst
        // refused: send_gathered_stops_where_the_parts_meet,
        //   send_gathered_does_not_count_the_urgent_byte
        ensures made { Made B.step (Sends (option_to_list urgent ++ (first.now ++ second.now))
            result) self.old self.new }
        ensures count { result ≤ length (option_to_list urgent ++ (first.now ++ second.now)) }
    {
        // Mostly a burst is in one part, which `send_bytes` writes more quickly.
        if urgent.is_none() && (second.is_empty() || first.len() >= self.fifo_size.characters()) {
            return self.send_bytes(first);
        }
        let Ok(()) = self.ready_to_send() else {
            return 0;
        };
        self.write_gathered(urgent, first, second)
    }
}
