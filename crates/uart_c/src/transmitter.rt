//! The transmitter as plain data.
ghost use Rattle.std.specs.Prelude.{◌≡◌, ◌≤◌, ◌++◌, take, drop, min, length};
ghost use Rattle.uart_c.specs.declared.queue.TheConstants.{WIRE_ROOM};
ghost use Rattle.uart_c.specs.Canonical.{IsCanonicalTransmitter};
ghost use Rattle.uart_c.specs.Queue as queue_spec;
ghost use Rattle.uart_c.specs.State.{transmitter_of};
ghost use Rattle.uart_chip.specs.Transmitter as spec;

use crate::queue::{
    UartBytes, UartWire, WIRE_ROOM, count, fifo_size_of, is_on, places_of, pop_front, push, put_all,
};
use bitflags::Flags;
use uart_chip::transmitting::TransmitterParts;
use uart_chip::{Shifting, flag};
use uart_spec::FifoSize;
use uart_spec::registers::LSR;

/// What sends: bytes wait in the queue, one is shifted out, and then it is on the wire.
#[repr(C)]
#[derive(Clone, Copy)]
pub struct UartTransmitter {
    pub overflows: u64,
    pub char_ticks: u16,
    pub ticks_left: u16,
    pub is_shifting: u8,
    pub shift_byte: u8,
    pub is_thr_pending: u8,
    pub fifo_size: u8,
    pub queue: UartBytes,
    pub wire: UartWire,
}

impl UartTransmitter {
    /// Becomes a transmitter that has sent nothing yet, with a FIFO of this size.
    // What is in the queue's places means nothing. To clear so many would call `memset`.
    pub fn power_on(&mut self, fifo_size: u8, char_ticks: u16, capacity: u8)
        requires { capacity ≤ WIRE_ROOM }
        ensures fresh { transmitter_of self.new ≡
            spec.fresh (queue_spec.fifo_size_of fifo_size) char_ticks capacity }
        ensures canonical { IsCanonicalTransmitter self.new }
    {
        self.overflows = 0;
        self.char_ticks = char_ticks;
        self.ticks_left = 0;
        self.is_shifting = 0;
        self.shift_byte = 0;
        self.is_thr_pending = 0;
        self.fifo_size = places_of(fifo_size);
        self.queue.len = 0;
        self.wire = UartWire {
            len: 0,
            capacity,
            items: [0; WIRE_ROOM],
        };
    }

    /// Becomes a transmitter like this one.
    pub fn restore(&mut self, saved: &Self)
        ensures after { transmitter_of self.new ≡ transmitter_of saved.now }
        ensures canonical { IsCanonicalTransmitter self.new }
    {
        self.overflows = saved.overflows;
        self.char_ticks = saved.char_ticks;
        self.ticks_left = saved.ticks_left;
        self.is_shifting = is_on(saved.is_shifting) as u8;
        self.shift_byte = saved.shift_byte;
        self.is_thr_pending = is_on(saved.is_thr_pending) as u8;
        self.fifo_size = places_of(saved.fifo_size);
        self.wire.restore(&saved.wire);
        let queue = &saved.queue.items[..saved.queue_len()];
        put_all(&mut self.queue.len, &mut self.queue.items, queue);
    }

    /// Takes bytes from the front of the wire: as many as there are, and as `bytes` has room for.
    /// Returns how many.
    pub fn take_wire(&mut self, bytes: &mut [u8]) -> usize
        ensures after { transmitter_of self.new ≡
            spec.take_wire (length bytes.old) (transmitter_of self.old) }
        ensures count { result ≡ min (length bytes.old) (length (transmitter_of self.old).wire) }
        ensures taken { bytes.new ≡
            take result (transmitter_of self.old).wire ++ drop result bytes.old }
        ensures canonical { IsCanonicalTransmitter self.old → IsCanonicalTransmitter self.new }
    {
        self.wire.take(bytes)
    }

    /// Removes this number of bytes from the front of the wire, or all if there are fewer.
    pub fn remove_wire(&mut self, count: usize)
        ensures after { transmitter_of self.new ≡ spec.take_wire count (transmitter_of self.old) }
        ensures canonical { IsCanonicalTransmitter self.old → IsCanonicalTransmitter self.new }
    {
        self.wire.remove(count);
    }
}

impl TransmitterParts for UartTransmitter {
    ghost state = { λ t. transmitter_of t };

    ghost canonical = { λ t. IsCanonicalTransmitter t };

    fn size(&self) -> FifoSize {
        fifo_size_of(self.fifo_size)
    }

    fn queue_len(&self) -> usize {
        count(self.queue.len, self.fifo_size)
    }

    #[tactic(auto, using(crate::proofs::Queues::one_more))]
    fn put(&mut self, byte: u8) {
        push(&mut self.queue.len, &mut self.queue.items, byte);
    }

    fn pop(&mut self) -> Option<u8> {
        pop_front(&mut self.queue.len, &mut self.queue.items, self.fifo_size)
    }

    fn clear_queue(&mut self) {
        self.queue.len = 0;
    }

    fn count_overflow(&mut self) {
        self.overflows = self.overflows.saturating_add(1);
    }

    fn char_ticks(&self) -> u16 {
        self.char_ticks
    }

    fn shifting(&self) -> Option<Shifting> {
        if !is_on(self.is_shifting) {
            return None;
        }
        Some(Shifting {
            byte: self.shift_byte,
            ticks_left: self.ticks_left,
        })
    }

    fn set_shifting(&mut self, shifting: Option<Shifting>) {
        self.is_shifting = shifting.is_some() as u8;
        if let Some(Shifting { byte, ticks_left }) = shifting {
            self.shift_byte = byte;
            self.ticks_left = ticks_left;
        }
    }

    fn has_room(&self) -> bool {
        self.wire.len() < self.wire.capacity()
    }

    fn send(&mut self, byte: u8) {
        self.wire.push(byte);
    }

    fn status(&self) -> LSR {
        let is_thr_empty = self.queue_len() == 0;
        let is_empty = is_thr_empty && !is_on(self.is_shifting);
        flag(is_thr_empty, LSR::THR_EMPTY).union(flag(is_empty, LSR::TRANSMITTER_EMPTY))
    }

    fn is_thr_pending(&self) -> bool {
        is_on(self.is_thr_pending)
    }

    fn set_thr_pending(&mut self, on: bool) {
        self.is_thr_pending = on as u8;
    }
}
