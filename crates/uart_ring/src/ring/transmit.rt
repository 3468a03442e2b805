//! From the transmit ring to the chip.
ghost use Rattle.std.specs.Prelude.{◌≡◌, ◌≤◌, ◌==◌, ◌||◌, not, length, min, drop};
ghost use Rattle.uart_16550.specs.Driver.{Did, Made};
ghost use Rattle.uart_16550.specs.Transmit.{Sends};
ghost use Rattle.uart_ring.specs.Queue.{queue};
ghost use Rattle.uart_ring.specs.Ring.{RingDid, driver_of, falls, free, ring_fields, sendable};
ghost use Rattle.uart_ring.specs.Ring.{without_sent_bytes};
ghost use Rattle.uart_ring.specs.Transmit.{ArmsIfLeft, Pumps, SendsOn, Queues, ResumesTransmit};
ghost use Rattle.uart_ring.specs.Transmit.{Holds, Releases, QueuesUrgent, ClearsTransmit};
ghost use Rattle.uart_ring.specs.Transmit.{SetsLowMark, TakesLow};

use super::Uart16550Ring;
use uart_16550::backend::Backend;
use uart_spec::registers::IER;

impl<B: Backend> Uart16550Ring<B> {
    // Sends one burst of the bytes that may be sent, if the chip has room, and returns how many.
    fn send_sendable(&mut self) -> usize
        ensures made { Made B.step (Sends (sendable (ring_fields self.old)) result)
            (driver_of self.old) (driver_of self.new) }
        ensures kept { self.new ≡ record self.old { uart = driver_of self.new } }
        ensures count { result ≤ length (sendable (ring_fields self.old)) }
    {
        if self.stuck.is_some() {
            return 0;
        }
        let count = if self.is_held { 0 } else { self.transmit.len() };
        // In the ring the bytes may be in two parts, and the urgent byte is in none of them. They
        // are one burst, after one look, all the same.
        let (first, second) = self.transmit.front_slices(count);
        self.uart.send_gathered(self.urgent, first, second)
    }

    // Returns whether a byte waits that may be sent.
    fn has_sendable(&self) -> bool
        ensures { result ≡ not (length (sendable (ring_fields self.now)) == 0) }
    {
        if self.stuck.is_some() {
            return false;
        }
        if self.urgent.is_some() {
            return true;
        }
        let is_empty = self.transmit.is_empty();
        !self.is_held && !is_empty
    }

    // Drops bytes from the front of the transmit ring, and notes it if the ring falls to the low
    // mark.
    fn drop_queued(&mut self, count: usize)
        requires { count ≤ length self.old.transmit.items }
        ensures { self.new ≡ record self.old {
          transmit = queue (drop count self.old.transmit.items) self.old.transmit.capacity;
          is_low = self.old.is_low || falls self.old.low_mark (length self.old.transmit.items)
              (length (drop count self.old.transmit.items));
        } }
    {
        let was_above = self.transmit.len() > self.low_mark;
        self.transmit.drop_front(count);
        let is_at_mark = self.transmit.len() <= self.low_mark;
        self.is_low = self.is_low || (was_above && is_at_mark);
    }

    // Drops bytes that were sent. The urgent byte is the first of them.
    fn drop_sent(&mut self, count: usize)
        requires { count ≤ length (sendable (ring_fields self.old)) }
        ensures { self.new ≡ without_sent_bytes count self.old }
    {
        if count == 0 {
            return;
        }
        match self.urgent.take() {
            Some(_) => self.drop_queued(count - 1),
            None => self.drop_queued(count),
        }
    }

    // Enables THR_EMPTY if bytes are left that may be sent, else disables it.
    //
    // IER is read and written each time, even if it need not change: only the chip knows what IER
    // holds, and a caller may have changed it.
    fn arm_if_left(&mut self)
        ensures made { Did B.step (ArmsIfLeft (sendable (ring_fields self.old)))
            (driver_of self.old) (driver_of self.new) }
        ensures kept { self.new ≡ record self.old { uart = driver_of self.new } }
    {
        if self.has_sendable() {
            self.uart.enable_interrupts(IER::THR_EMPTY);
        } else {
            self.uart.disable_interrupts(IER::THR_EMPTY);
        }
    }

    // Sends bytes that may be sent if the chip has room. Then enables THR_EMPTY if such bytes are
    // left, else disables it.
    //
    // The bytes are sent first, because not every chip interrupts when THR_EMPTY is enabled on an
    // empty transmitter. If bytes are left, the chip was found full or has just been filled, so it
    // still has to report that it is empty.
    pub(super) fn pump(&mut self)
        ensures { RingDid B.step Pumps self.old self.new }
    {
        let sent = self.send_sendable();
        self.drop_sent(sent);
        self.arm_if_left();
    }

    // Sends as a pump does, but leaves IER as it is if nothing is sent.
    //
    // why: if the chip has no room, or CTS is clear, nothing has changed for the bytes that wait;
    // and to enable THR_EMPTY on an empty transmitter would raise one more interrupt.
    pub(super) fn send_on(&mut self)
        ensures { RingDid B.step SendsOn self.old self.new }
    {
        let burst = self.send_sendable();
        if burst > 0 {
            self.drop_sent(burst);
            self.arm_if_left();
        }
    }

    /// Queues bytes from the front of the slice, as many as the transmit ring has room for, and
    /// returns how many.
    ///
    /// If it queues any, it sends one burst of the ring if the chip has room, as `send_bytes` of
    /// the driver: up to as many bytes as the FIFO holds if it is on, else one. Then it enables
    /// `THR_EMPTY` if bytes are left in the ring, else it disables it. The rest is sent when that
    /// interrupt is served. While the ring is held or the chip is stuck, it sends none, and
    /// disables `THR_EMPTY`.
    ///
    /// Does not wait. If it did not queue all bytes, call it again with the rest of the slice after
    /// interrupts were served.
    ///
    /// # Examples
    ///
    /// ```
    /// let count = ring.queue(message);
    /// &message[count..]
    /// ```
    pub fn queue(&mut self, bytes: &[u8]) -> usize
        // promise: `queue` and `take` move exactly as many bytes as there is room for, or as there
        //   are
        // with: queue.count, take.count, take.rest
        // shown by: a_queue_without_room
        // refused: queue_accepts_nothing
        // proved: Which accesses a ring call makes, by the lists of the driver's own calls, what it
        //   returns for them, and what is then in the rings: a byte leaves the transmit ring when
        //   it was written to the chip, and what was received is taken in order
        // on: `queue`, `resume_transmit`, `take`, `service`, `handle`, `retrigger`, `take_line`,
        //   `take_modem`
        ensures did { RingDid B.step (Queues bytes.now result) self.old self.new }
        ensures count { result ≡ min (length bytes.now) (free (ring_fields self.old).transmit) }
    {
        let count = self.transmit.fill_from_slice(bytes);
        if count > 0 {
            self.pump();
        }
        count
    }

    /// Starts sending again if bytes wait in the transmit ring with no interrupt to come.
    ///
    /// If bytes wait, it sends one burst of them if the chip has room, as `queue` does. Then it
    /// enables `THR_EMPTY` if bytes are left in the ring, else it disables it. The rest is sent
    /// when that interrupt is served. If none wait, it makes no access.
    ///
    /// Does not wait. Call it
    ///
    /// - after an `init` through `inner_mut`, which disables `THR_EMPTY` and may acknowledge its
    ///   interrupt;
    /// - with CTS checking, when `take_modem` reports that CTS came back. While CTS is clear, it
    ///   sends nothing.
    ///
    /// # Examples
    ///
    /// ```
    /// let modem = self.ring.take_modem();
    /// if modem.contains(MSR::DELTA_CTS.union(MSR::CTS)) {
    ///     self.ring.resume_transmit();
    /// }
    /// ```
    pub fn resume_transmit(&mut self)
        ensures { RingDid B.step ResumesTransmit self.old self.new }
    {
        // A pump, and not THR_EMPTY switched off and on: some devices raise no interrupt for that.
        if self.urgent.is_some() || !self.transmit.is_empty() {
            self.pump();
        }
    }

    /// Holds the transmit ring: none of its bytes is handed to the chip until `release_transmit`.
    ///
    /// What is in the chip goes out: a held ring stops with at most as many characters of delay as
    /// the FIFO holds. `queue` accepts bytes as before, and an urgent byte still goes out.
    ///
    /// Makes no access. If `THR_EMPTY` is enabled, it is disabled when its next interrupt is
    /// served.
    ///
    /// # Examples
    ///
    /// ```
    /// ring.hold_transmit();
    /// ```
    pub fn hold_transmit(&mut self)
        // promise: a held ring hands over the urgent byte alone, and a release leaves an interrupt
        //   to come
        // with: hold_transmit, release_transmit, ring_calls_leave_armed.release_transmit
        // shown by: a_held_ring
        // refused: a_held_ring_sends, release_transmit_holds_a_ring_with_bytes
        ensures { RingDid B.step Holds self.old self.new }
    {
        self.is_held = true;
    }

    /// Ends the hold of the transmit ring, and starts sending again as `resume_transmit` does, so
    /// that no interrupt is missed which came during the hold.
    ///
    /// Does not wait.
    ///
    /// # Examples
    ///
    /// ```
    /// ring.release_transmit();
    /// ```
    pub fn release_transmit(&mut self)
        ensures { RingDid B.step Releases self.old self.new }
    {
        self.is_held = false;
        self.resume_transmit();
    }

    /// Puts this byte before all bytes that wait to be sent, and sends if the chip has room.
    /// Returns the urgent byte that still waited, which this one replaces.
    ///
    /// This is for the flow control of a terminal: an XON or XOFF goes out after what is in the
    /// chip, even while the transmit ring is held. The newest one counts, so it replaces one that
    /// waits. With CTS checking it waits, as all bytes do, until the remote is clear to send.
    ///
    /// Does not wait.
    ///
    /// # Examples
    ///
    /// ```
    /// assert_eq!(rt; ring.queue_urgent(XOFF), None);
    /// ```
    pub fn queue_urgent(&mut self, byte: u8) -> Option<u8>
        ensures { RingDid B.step (QueuesUrgent byte result) self.old self.new }
    {
        let replaced = self.urgent.replace(byte);
        self.pump();
        replaced
    }

    /// Drops the bytes of the transmit ring, and returns how many.
    ///
    /// An urgent byte, and what is in the chip, still go out. Makes no access: if `THR_EMPTY` is
    /// enabled, it is disabled when its next interrupt is served.
    ///
    /// # Examples
    ///
    /// ```
    /// let dropped = ring.clear_transmit();
    /// ```
    pub fn clear_transmit(&mut self) -> usize
        ensures { RingDid B.step (ClearsTransmit result) self.old self.new }
    {
        let count = self.transmit.len();
        self.drop_queued(count);
        count
    }

    /// Sets the low mark, a number of bytes in the transmit ring. It is 0 at first. Makes no
    /// access.
    ///
    /// # Examples
    ///
    /// ```
    /// ring.set_low_mark(256);
    /// ```
    pub fn set_low_mark(&mut self, mark: usize)
        ensures { RingDid B.step (SetsLowMark mark) self.old self.new }
    {
        self.low_mark = mark;
    }

    /// Returns whether the transmit ring fell from above the low mark to the mark or below since
    /// the last `take_low`. Makes no access.
    ///
    /// Call it at the end of the interrupt handler, and wake who waits for room if it returns
    /// `true`. It tells once of each fall; of several falls between two calls it tells once.
    // A flag and not a callback: a callback would run inside the call that sends, with the rings
    // borrowed, and could not queue.
    ///
    /// # Examples
    ///
    /// ```
    /// if ring.take_low() {
    ///     writers.wake();
    /// }
    /// ```
    pub fn take_low(&mut self) -> bool
        // proved: `take_low` tells whether the transmit ring fell from above the low mark to the
        //   mark or below since it was last called
        // on: `take_low`, `set_low_mark`, and each call that sends or drops
        ensures { RingDid B.step (TakesLow result) self.old self.new }
    {
        let low = self.is_low;
        self.is_low = false;
        low
    }
}
