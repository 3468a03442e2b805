//! What a live chip keeps in arrays, without other memory: its queues and its wire. It has no
//! schedule, so its journal records nothing.
ghost use Rattle.std.specs.Prelude.{◌≡◌, ◌<◌, ◌≤◌, false, [], length};
ghost use Rattle.uart_spec.specs.FifoSize.{characters};
ghost use Rattle.uart_live.specs.Size.{fifo_size, is_size};
ghost use Rattle.uart_live.specs.declared.fixed.TheConstants.{WIRE_ROOM};

use std::marker::Model;
use uart_chip::{Character, Fifo, Journal, Origin, Wire};
use uart_events::ArrivalMark;
use uart_spec::FifoSize;

/// The most bytes that the wire of a live chip has room for.
pub const WIRE_ROOM: usize = 64;

// The places of a `FixedWire`: each byte is in two of them.
const WIRE_PLACES: usize = 2 * WIRE_ROOM;

/// Returns the size of FIFOs that hold so many characters. A number that is no size counts as 16.
// Of a const parameter the answer is known when the program is compiled. So a chip has no field for
// its size, and tests none.
#[inline]
#[tactic(auto, unfolding(crate::specs::Size::fifo_size))]
pub fn fifo_size(characters: usize) -> FifoSize
    ensures { result ≡ fifo_size characters }
{
    match characters {
        32 => FifoSize::ThirtyTwo,
        64 => FifoSize::SixtyFour,
        128 => FifoSize::OneHundredTwentyEight,
        256 => FifoSize::TwoHundredFiftySix,
        _ => FifoSize::Sixteen,
    }
}

/// Returns whether FIFOs can hold so many characters: 16, 32, 64, 128 or 256.
#[inline]
pub fn is_size(characters: usize) -> bool
    ensures { result ≡ is_size characters }
{
    fifo_size(characters).characters() == characters
}

/// A queue of `FIFO` items in an array, without other memory. A push into a full one would
/// overwrite the oldest item, so the caller of `push` must show that there is room.
#[derive(Drop)]
pub struct FixedFifo<T, const FIFO: usize> {
    slots: [T; FIFO],
    start: usize,
    len: usize,
}

impl<T, const FIFO: usize> Model for FixedFifo<T, FIFO> {
    ghost use Rattle.std.specs.Prelude.{◌≡◌, ◌<◌, ◌≤◌, List, length};
    ghost use Rattle.uart_spec.specs.FifoSize.{characters};
    ghost use Rattle.uart_live.specs.Ring.{window};
    ghost use Rattle.uart_live.specs.Size.{fifo_size};

    ghost Value = { List T };

    ghost view = { λ q. window q.start q.len q.slots };

    ghost invariant = { λ q.
        (q.start < FIFO) × (q.len ≤ FIFO) × (length q.slots ≡ FIFO) ×
        (characters (fifo_size FIFO) ≡ FIFO) };
}

impl<T: Copy, const FIFO: usize> FixedFifo<T, FIFO> {
    /// Returns an empty queue, whose unused places hold `item`.
    pub fn new(item: T) -> Self
        // proved: Each call is one function of the chip's definitions, the same as under a
        //   schedule; what it shows is the chip's
        // on: `LiveChip::new`, clause `built`; `read`, clauses `answers` and `after`; `write`;
        //   `ticks`, clause `after`; `arrive`, `arrive_holding_timeout` and `set_lines`, clause
        //   `accepted`; `take_wire`, `wire`, `wire_room`, `receive_room`, `waiting_len`,
        //   `held_len`, `divisor`, `overflows`
        // proved: What is refused, FIFOs of another size among it, and that it then changes nothing
        // on: `LiveChip::new`, `arrive`, `arrive_holding_timeout` and `set_lines`, clause `refused`
        requires { characters (fifo_size FIFO) ≡ FIFO }
        ensures { result ≡ [] }
    {
        FixedFifo {
            slots: [item; FIFO],
            start: 0,
            len: 0,
        }
    }
}

impl<T: Copy + Drop, const FIFO: usize> Fifo<T> for FixedFifo<T, FIFO> {
    ghost items = { λ q. q };

    ghost size_of = { λ _. fifo_size FIFO };

    ghost is_resizable = { false };

    fn size(&self) -> FifoSize {
        fifo_size(FIFO)
    }

    fn can_resize() -> bool {
        false
    }

    fn len(&self) -> usize {
        self.len
    }

    fn get(&self, i: usize) -> Option<T> {
        if i < self.len {
            Some(self.slots[(self.start + i) % FIFO])
        } else {
            None
        }
    }

    fn push(&mut self, item: T) {
        self.slots[(self.start + self.len) % FIFO] = item;
        self.len += 1;
    }

    fn pop(&mut self) -> Option<T> {
        if self.len == 0 {
            return None;
        }
        let front = self.slots[self.start % FIFO];
        self.start = (self.start + 1) % FIFO;
        self.len -= 1;
        Some(front)
    }

    fn clear(&mut self) {
        self.len = 0;
    }

    fn resize(&mut self, _size: FifoSize) {}
}

/// A wire in an array, without other memory.
///
/// Each byte is in the array twice, [`WIRE_ROOM`] places apart. So the bytes are one slice wherever
/// the first of them is, and to send or to take a byte costs the same whatever waits.
#[derive(Drop)]
pub struct FixedWire {
    slots: [u8; WIRE_PLACES],
    start: usize,
    count: usize,
    limit: usize,
}

impl Model for FixedWire {
    ghost use Rattle.std.specs.Prelude.{◌≡◌, ◌<◌, ◌≤◌, length, take, drop};
    ghost use Rattle.uart_live.specs.Ring.{window};
    ghost use Rattle.uart_chip.specs.Wire.{WireState};
    ghost use Rattle.uart_live.specs.declared.fixed.TheConstants.{WIRE_PLACES, WIRE_ROOM};

    ghost Value = { WireState };

    ghost view = { λ w. record {
      bytes = window w.start w.count (take WIRE_ROOM w.slots);
      capacity = w.limit;
    } };

    ghost invariant = { λ w.
        (w.start < WIRE_ROOM) × (w.count ≤ w.limit) × (w.limit ≤ WIRE_ROOM) ×
        (length w.slots ≡ WIRE_PLACES) × (drop WIRE_ROOM w.slots ≡ take WIRE_ROOM w.slots) };
}

impl FixedWire {
    /// Returns an empty wire with room for `capacity` bytes.
    pub fn new(capacity: usize) -> Self
        requires { capacity ≤ WIRE_ROOM }
        ensures bytes { result.bytes ≡ [] }
        ensures capacity { result.capacity ≡ capacity }
    {
        FixedWire {
            slots: [0; WIRE_PLACES],
            start: 0,
            count: 0,
            limit: capacity,
        }
    }
}

impl Wire for FixedWire {
    ghost sent = { λ w. w.bytes };

    ghost most = { λ w. w.capacity };

    fn room(&self) -> usize {
        self.limit - self.count
    }

    fn capacity(&self) -> usize {
        self.limit
    }

    fn as_slice(&self) -> &[u8] {
        &self.slots[self.start..][..self.count]
    }

    fn push(&mut self, byte: u8) {
        let place = (self.start + self.count) % WIRE_ROOM;
        self.slots[place] = byte;
        self.slots[WIRE_ROOM + place] = byte;
        self.count += 1;
    }

    fn take(&mut self, count: usize) {
        let count = count.min(self.count);
        self.start = (self.start + count) % WIRE_ROOM;
        self.count -= count;
    }
}

/// The journal of a receiver without a schedule: it records nothing.
#[derive(Drop)]
pub struct NoMarks;

impl Journal for NoMarks {
    ghost recorded = { λ _. [] };

    fn len(&self) -> usize {
        0
    }

    fn set_mark(&mut self, _origin: Origin, _mark: ArrivalMark) {}

    fn discard<Q: Fifo<Character>>(&mut self, _characters: &Q) {}
}
