//! The queues of the chip. A clause sees a queue as the list of its items, from the front.
ghost use Rattle.std.specs.Prelude.{◌≡◌, ◌==◌, ◌<◌, ◌≤◌, Bool, true, false, List, [], ◌∷◌, ◌++◌};
ghost use Rattle.std.specs.Prelude.{length, drop, slice_get, IfOk};
ghost use Rattle.uart_spec.specs.declared.baud.TheConstants.{FIFO_SIZE};
ghost use Rattle.uart_chip.specs.Transmitter.{room};
ghost use Rattle.uart_spec.specs.FifoSize.{characters};
ghost use Rattle.uart_spec.specs.declared.setup.FifoSize.{FifoSize};
ghost use Rattle.uart_spec.specs.declared.setup.FifoSize.TheVariants.{Sixteen, SixtyFour};

use arrayvec::ArrayVec;
use circular_buffer::HeapCircularBuffer;
use std::alloc::{AllocError, Global};
use std::marker::Model;
use uart_spec::{FIFO_SIZE, FifoSize};

/// Returns the number of characters that a queue has room for, with a FIFO of this size. Without
/// FIFO that is one, although it could hold more.
#[tactic(auto, using(crate::proofs::Sizes::room_within))]
pub fn room_of(fifo: bool, size: FifoSize) -> usize
    ensures room { result ≡ room fifo size }
    ensures within { result ≤ characters size }
{
    if fifo { size.characters() } else { 1 }
}

/// A queue that has room for each character of a FIFO, wherever its items are.
pub trait Fifo<T> {
    // The items, from the front.
    ghost items: { Self → List T };

    // The size of the FIFO. Only `resize` changes it.
    ghost size_of: { Self → FifoSize };

    // Whether such a queue can become that of a FIFO of another size.
    ghost is_resizable: { Bool };

    /// Returns the size of the FIFO: the queue has room for as many items.
    fn size(&self) -> FifoSize
        ensures { result ≡ size_of self.now };

    /// Returns whether such a queue can become that of a FIFO of another size, of up to 64.
    fn can_resize() -> bool
        ensures { result ≡ is_resizable };

    /// Returns the number of items.
    fn len(&self) -> usize
        ensures len { result ≡ length (items self.now) }
        ensures within { result ≤ characters (size_of self.now) };

    /// Returns whether there is no item.
    fn is_empty(&self) -> bool
        ensures { result ≡ (length (items self.now) == 0) }
    {
        self.len() == 0
    }

    /// Returns the item with this index, from the front.
    fn get(&self, i: usize) -> Option<T>
        ensures { result ≡ slice_get (items self.now) i };

    /// Appends an item. The caller must show that there is room.
    fn push(&mut self, item: T)
        requires { length (items self.old) < characters (size_of self.old) }
        ensures items { items self.new ≡ items self.old ++ item ∷ [] }
        ensures size { size_of self.new ≡ size_of self.old };

    /// Removes the front, and returns it.
    fn pop(&mut self) -> Option<T>
        ensures front { result ≡ slice_get (items self.old) 0 }
        ensures rest { items self.new ≡ drop 1 (items self.old) }
        ensures size { size_of self.new ≡ size_of self.old };

    /// Removes all items.
    fn clear(&mut self)
        ensures items { items self.new ≡ [] }
        ensures size { size_of self.new ≡ size_of self.old };

    /// Removes all items, and becomes the queue of a FIFO of this size, if such a queue can. Else
    /// it stays as it is. The caller must show that the size is at most 64.
    fn resize(&mut self, size: FifoSize)
        requires { characters size ≤ characters SixtyFour }
        ensures items { is_resizable ≡ true → items self.new ≡ [] }
        ensures size { is_resizable ≡ true → size_of self.new ≡ size }
        ensures stays { is_resizable ≡ false → self.new ≡ self.old };
}

/// Appends items to an empty queue.
// They fit: each FIFO has room for at least so many.
#[tactic(auto, using(crate::proofs::Sizes::at_least_16))]
pub fn fill<T: Copy + Drop, Q: Fifo<T>>(queue: &mut Q, items: &ArrayVec<T, FIFO_SIZE>)
    requires { Q.items queue.old ≡ [] }
    ensures items { Q.items queue.new ≡ items.now.items }
    ensures size { Q.size_of queue.new ≡ Q.size_of queue.old }
{
    for item in items.as_slice() {
        queue.push(*item);
    }
}

/// Returns the items of a queue of 16, from the front.
pub fn items_of<T: Copy + Default + Drop, Q: Fifo<T>>(queue: &Q) -> ArrayVec<T, FIFO_SIZE>
    requires { Q.size_of queue.now ≡ Sixteen }
    ensures { result.items ≡ Q.items queue.now }
{
    let mut items = ArrayVec::new();
    for i in 0..queue.len() {
        items.push(queue.get(i).unwrap());
    }
    items
}

/// A queue in memory that is allocated once.
// There is room for 64 items in each, so that a chip that switches its FIFOs to 64 allocates none.
#[derive(Drop)]
pub struct HeapFifo<T> {
    ring: HeapCircularBuffer<T>,
    size: FifoSize,
}

impl<T> Model for HeapFifo<T> {
    ghost use Rattle.std.specs.Prelude.{◌≤◌, length};
    ghost use Rattle.uart_chip.specs.Queue.{QueueState};
    ghost use Rattle.uart_spec.specs.FifoSize.{characters};
    ghost use Rattle.uart_spec.specs.declared.setup.FifoSize.TheVariants.{SixtyFour};

    ghost Value = { QueueState T };

    ghost view = { λ q. record { items = q.ring.items; size = q.size } };

    ghost invariant = { λ q.
        (length q.ring.items ≤ characters q.size) × (characters q.size ≤ q.ring.capacity) ×
        (characters SixtyFour ≤ q.ring.capacity) };
}

impl<T> HeapFifo<T> {
    /// Returns an empty queue, with room for as many items as a FIFO of this size. Allocates its
    /// memory.
    ///
    /// # Errors
    ///
    /// `AllocError` if memory could not be allocated.
    pub fn new(alloc: Global, size: FifoSize) -> Result<Self, AllocError>
        ensures { IfOk result (λ q. (q.items ≡ []) × (q.size ≡ size)) }
    {
        let places = size.characters().max(FifoSize::SixtyFour.characters());
        let ring = HeapCircularBuffer::with_capacity(alloc, places)?;
        Ok(HeapFifo { ring, size })
    }
}

impl<T: Copy + Drop> Fifo<T> for HeapFifo<T> {
    ghost items = { λ q. q.items };

    ghost size_of = { λ q. q.size };

    ghost is_resizable = { true };

    fn size(&self) -> FifoSize {
        self.size
    }

    fn can_resize() -> bool {
        true
    }

    fn len(&self) -> usize {
        self.ring.len()
    }

    fn get(&self, i: usize) -> Option<T> {
        self.ring.get(i).copied()
    }

    fn push(&mut self, item: T) {
        self.ring.push_back(item);
    }

    fn pop(&mut self) -> Option<T> {
        self.ring.pop_front()
    }

    fn clear(&mut self) {
        self.ring.clear();
    }

    fn resize(&mut self, size: FifoSize) {
        self.clear();
        self.size = size;
    }
}
