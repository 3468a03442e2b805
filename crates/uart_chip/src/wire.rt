//! The wire of a transmitter: the bytes that were sent and have not been taken.
ghost use Rattle.std.specs.Prelude.{◌≡◌, ◌<◌, ◌≤◌, ◌-◌, ℕ, List, [], ◌∷◌, ◌++◌, length, drop, IfOk};

use std::alloc::{AllocError, Global};
use std::marker::Model;

/// A wire with room for some number of bytes, wherever they are.
pub trait Wire {
    // The bytes, from the first that was sent.
    ghost sent: { Self → List ℕ };

    // The number of bytes that there is room for.
    ghost most: { Self → ℕ };

    /// Returns how many more bytes the wire has room for.
    fn room(&self) -> usize
        ensures { result ≡ most self.now - length (sent self.now) };

    /// Returns the number of bytes that the wire has room for.
    fn capacity(&self) -> usize
        ensures { result ≡ most self.now };

    /// Returns the bytes, from the first that was sent.
    fn as_slice(&self) -> &[u8]
        ensures { result.now ≡ sent self.now };

    /// Appends a byte. The caller must show that there is room.
    fn push(&mut self, byte: u8)
        requires { length (sent self.old) < most self.old }
        ensures bytes { sent self.new ≡ sent self.old ++ byte ∷ [] }
        ensures capacity { most self.new ≡ most self.old };

    /// Removes this number of bytes from the front, or all if there are fewer.
    fn take(&mut self, count: usize)
        ensures bytes { sent self.new ≡ drop count (sent self.old) }
        ensures capacity { most self.new ≡ most self.old };
}

/// Appends bytes to an empty wire.
pub fn send<W: Wire>(wire: &mut W, bytes: &[u8])
    requires empty { W.sent wire.old ≡ [] }
    requires room { length bytes.now ≤ W.most wire.old }
    ensures bytes { W.sent wire.new ≡ bytes.now }
    ensures capacity { W.most wire.new ≡ W.most wire.old }
{
    for byte in bytes {
        wire.push(*byte);
    }
}

/// A wire in memory that is allocated once.
#[derive(Drop)]
pub struct HeapWire {
    list: Vec<u8>,
    limit: usize,
}

impl Model for HeapWire {
    ghost use Rattle.std.specs.Prelude.{◌≤◌, vec_capacity};
    ghost use Rattle.uart_chip.specs.Wire.{WireState};

    ghost Value = { WireState };

    ghost view = { λ w. record { bytes = w.list.items; capacity = w.limit } };

    ghost invariant = { λ w. w.limit ≤ vec_capacity w.list };
}

impl HeapWire {
    /// Returns an empty wire with room for `capacity` bytes. Allocates its memory.
    ///
    /// # Errors
    ///
    /// `AllocError` if memory could not be allocated.
    pub fn new(alloc: Global, capacity: usize) -> Result<Self, AllocError>
        ensures { IfOk result (λ w. (w.bytes ≡ []) × (w.capacity ≡ capacity)) }
    {
        let list = Vec::with_capacity(alloc, capacity)?;
        Ok(HeapWire {
            list,
            limit: capacity,
        })
    }
}

impl Wire for HeapWire {
    ghost sent = { λ w. w.bytes };

    ghost most = { λ w. w.capacity };

    fn room(&self) -> usize {
        self.limit.saturating_sub(self.list.len())
    }

    fn capacity(&self) -> usize {
        self.limit
    }

    fn as_slice(&self) -> &[u8] {
        self.list.as_slice()
    }

    fn push(&mut self, byte: u8) {
        self.list.push(byte).unwrap();
    }

    fn take(&mut self, count: usize) {
        let len = self.list.len();
        let count = count.min(len);
        self.list.copy_within(count..len, 0);
        self.list.truncate(len - count);
    }
}
