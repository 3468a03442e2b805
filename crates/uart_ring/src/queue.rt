//! The queues of the rings: bytes in order, in cells whose number is fixed.
ghost use Rattle.std.specs.Prelude.{◌≡◌, ◌<◌, ◌≤◌, ◌+◌, ◌-◌, ◌==◌, min, [], ◌++◌, length};
ghost use Rattle.std.specs.Prelude.{take, drop, slice_index_or, IfOk};
ghost use Rattle.uart_16550.specs.Driver.{Made};
ghost use Rattle.uart_16550.specs.Receive.{Receives};
ghost use Rattle.uart_ring.specs.Queue.{queue, with_latest, IsBehind};
ghost use Rattle.uart_ring.specs.Receive.{ReceivesToEnd};

use std::alloc::{AllocError, Global};
use std::marker::Model;
use uart_16550::Uart16550;
use uart_16550::backend::Backend;

/// Bytes in order, at most as many as there are cells.
#[derive(Drop)]
pub struct ByteQueue {
    // They are allocated once. Where there is no allocator, they are memory that the caller gives.
    cells: Vec<u8>,
    // The cell of the first byte. The other bytes are in the cells behind it, which go on at the
    // first cell after the last one.
    front: usize,
    len: usize,
}

impl Model for ByteQueue {
    ghost use Rattle.std.specs.Prelude.{◌≤◌, length};
    ghost use Rattle.uart_ring.specs.Queue.{Queue, queue, bytes_from};

    ghost Value = { Queue };

    ghost view = { λ q. queue (bytes_from q.front q.len q.cells.items) (length q.cells.items) };

    ghost invariant = { λ q. (q.front ≤ length q.cells.items) × (q.len ≤ length q.cells.items) };
}

// The functions are `inline` because the calls of the rings are compiled in the crate that uses
// them: they are generic over the backend.
impl ByteQueue {
    /// Returns an empty queue with room for this number of bytes.
    pub fn with_capacity(alloc: Global, capacity: usize) -> Result<Self, AllocError>
        // proved: The queue of a ring has its bytes in order, in cells whose number is fixed. As
        //   many are added as there is room for, at the end, and as many are taken as are asked
        //   for, from the front; slots past the count stay as they are
        // on: `ByteQueue`: `with_capacity`, `len`, `capacity`, `is_empty`, `is_full`,
        //   `fill_from_slice`, `copy_front`, `front_slices`, `drop_front`, `read_into`,
        //   `receive_from`
        ensures { IfOk result (λ made. made ≡ queue [] capacity) }
    {
        Ok(ByteQueue {
            cells: vec![in alloc; 0; capacity]?,
            front: 0,
            len: 0,
        })
    }

    /// Returns the number of bytes.
    #[inline]
    pub fn len(&self) -> usize
        ensures len { result ≡ length self.now.items }
        ensures within { result ≤ self.now.capacity }
    {
        self.len
    }

    /// Returns the largest number of bytes.
    #[inline]
    pub fn capacity(&self) -> usize
        ensures capacity { result ≡ self.now.capacity }
        ensures within { length self.now.items ≤ result }
    {
        self.cells.as_slice().len()
    }

    /// Returns whether there is no byte.
    #[inline]
    pub fn is_empty(&self) -> bool
        ensures { result ≡ (length self.now.items == 0) }
    {
        self.len() == 0
    }

    /// Returns whether there is no room for another byte.
    #[inline]
    pub fn is_full(&self) -> bool
        ensures { result ≡ (length self.now.items == self.now.capacity) }
    {
        self.len() == self.capacity()
    }

    /// Returns this number of bytes from the front, in order, as two slices.
    #[inline]
    pub(crate) fn front_slices(&self, count: usize) -> (&[u8], &[u8])
        requires { count ≤ length self.now.items }
        ensures { result.0.now ++ result.1.now ≡ take count self.now.items }
    {
        let cells = self.cells.as_slice();
        let end = &cells[self.front..];
        let first = count.min(end.len());
        (&end[..first], &cells[..count - first])
    }

    /// Returns the bytes in order, as two slices.
    #[inline]
    pub(crate) fn as_slices(&self) -> (&[u8], &[u8])
        ensures { result.0.now ++ result.1.now ≡ self.now.items }
    {
        self.front_slices(self.len())
    }

    /// Appends bytes from the front of the slice, as many as there is room for, and returns how
    /// many.
    #[inline]
    pub fn fill_from_slice(&mut self, bytes: &[u8]) -> usize
        // promise: the queue of a ring keeps its bytes in order, and takes no more than fit
        // with: fill_from_slice.items, copy_front.copied, read_into.items, drop_front,
        //   transmit_len.within, receive_len.within
        // shown by: bytes_are_queued_and_sent, receiving_is_paused_by_a_full_ring
        // refused: byte_queue_overwrites_its_front, byte_queue_drops_from_its_end,
        //   byte_queue_copies_the_first_half_alone, receive_len_is_that_of_the_fuller_ring
        ensures count { result ≡ min (length bytes.now)
            (self.old.capacity - length self.old.items) }
        ensures items { self.new ≡
            queue (self.old.items ++ take result bytes.now) self.old.capacity }
    {
        let bytes = &bytes[..bytes.len().min(self.capacity() - self.len)];
        let behind = cell_behind(self.front, self.len, self.capacity());
        let cells = self.cells.as_mut_slice();
        let before = copy(bytes, cells, behind);
        let count = before + copy(&bytes[before..], cells, 0);
        self.len += count;
        count
    }

    /// Appends bytes that the driver receives, as its `receive_bytes` does with so many slots, and
    /// returns how many.
    #[inline]
    pub(crate) fn receive_from<B: Backend>(
        &mut self,
        uart: &mut Uart16550<B>,
        slots: usize,
    ) -> usize
        // promise: a ring fills and empties the FIFO by the size that is set, also where it wraps,
        //   and the bounds of its accesses are those of the size
        // with: Pumps, FillsReceiveRing, receive_from.received, ReceivesToEnd,
        //   ring_calls_are_bounded
        // shown by: a_pump_fills_a_large_fifo, a_large_fifo_is_emptied_in_one_visit
        // refused: pump_stops_at_sixteen, pump_stops_where_the_ring_wraps,
        //   receive_stops_at_the_last_cell, service_receives_sixteen_whatever_the_size,
        //   a_pump_makes_one_access_less
        // there is room for as many bytes
        requires { length self.old.items + slots ≤ self.old.capacity }
        ensures received { ReceivesToEnd B.step slots result self.old self.new uart.old uart.new }
        ensures within { result ≤ slots }
    {
        // The driver writes the free cells themselves, however large the FIFO is: a copy would
        // need as large a buffer on the stack.
        let behind = cell_behind(self.front, self.len, self.capacity());
        let cells = self.cells.as_mut_slice();
        let to_end = slots.min(cells.len() - behind);
        let before = receive(uart, cells, behind, to_end);
        // The free cells go on at the first one, if all up to the last one were needed.
        let rest = if before == to_end { slots - to_end } else { 0 };
        let count = before + receive(uart, cells, 0, rest);
        self.len += count;
        count
    }

    /// Appends a byte. If there is no room for it, the first one makes way.
    #[inline]
    pub fn push_last(&mut self, byte: u8)
        ensures { self.new ≡ with_latest byte self.old }
    {
        let away = self.in_the_way();
        self.drop_front(away);
        self.fill_from_slice(&[byte]);
    }

    // Returns how many bytes make way for one more: the first one, if there is no room.
    #[inline]
    fn in_the_way(&self) -> usize
        ensures count { result ≡ min (length self.now.items)
            (length self.now.items + 1 - self.now.capacity) }
        ensures within { length self.now.items ≤ self.now.capacity }
    {
        if self.len() < self.capacity() {
            return 0;
        }
        self.len().min(1)
    }

    /// Returns the byte at this place, from the front on.
    #[inline]
    pub(crate) fn byte_at(&self, place: usize) -> u8
        requires { place < length self.now.items }
        ensures { result ≡ slice_index_or self.now.items place 0 }
    {
        let (first, second) = self.as_slices();
        if place < first.len() {
            first[place]
        } else {
            second[place - first.len()]
        }
    }

    /// Copies bytes from the front, as many as there are slots, and returns how many. Leaves the
    /// other slots unchanged.
    #[inline]
    pub fn copy_front(&self, slots: &mut [u8]) -> usize
        ensures count { result ≡ min (length slots.old) (length self.now.items) }
        ensures copied { slots.new ≡ take result self.now.items ++ drop result slots.old }
    {
        let (first, second) = self.as_slices();
        let before = copy(first, slots, 0);
        before + copy(second, &mut slots[before..], 0)
    }

    /// Drops this number of bytes from the front.
    #[inline]
    pub(crate) fn drop_front(&mut self, count: usize)
        // there are as many bytes
        requires { count ≤ length self.old.items }
        ensures { self.new ≡ queue (drop count self.old.items) self.old.capacity }
    {
        self.front = cell_behind(self.front, count, self.capacity());
        self.len -= count;
    }

    /// Takes bytes from the front, as many as there are slots, and returns how many. Leaves the
    /// other slots unchanged.
    #[inline]
    pub fn read_into(&mut self, slots: &mut [u8]) -> usize
        ensures count { result ≡ min (length slots.old) (length self.old.items) }
        ensures read { slots.new ≡ take result self.old.items ++ drop result slots.old }
        ensures items { self.new ≡ queue (drop result self.old.items) self.old.capacity }
    {
        let count = self.copy_front(slots);
        self.drop_front(count);
        count
    }
}

// Returns the cell that is `count` behind `cell`, of so many cells.
#[inline]
fn cell_behind(cell: usize, count: usize, cells: usize) -> usize
    requires cell { cell ≤ cells }
    requires count { count ≤ cells }
    ensures { IsBehind cell count cells result }
{
    // A `usize` need not hold the sum of both.
    let to_end = cells - cell;
    if count < to_end {
        cell + count
    } else {
        count - to_end
    }
}

// Copies bytes to the slots from `place` on, as many as both have, and returns how many.
#[inline]
fn copy(bytes: &[u8], slots: &mut [u8], place: usize) -> usize
    requires { place ≤ length slots.old }
    ensures count { result ≡ min (length bytes.now) (length slots.old - place) }
    ensures copied { slots.new ≡
        take place slots.old ++ (take result bytes.now ++ drop (place + result) slots.old) }
{
    let count = bytes.len().min(slots.len() - place);
    // Mostly all bytes are in one piece. The second copy would be a call for nothing.
    if count > 0 {
        slots[place..place + count].copy_from_slice(&bytes[..count]);
    }
    count
}

// Receives bytes into the cells from `place` on, as the driver's `receive_bytes` does with so many
// slots, and returns how many. The other cells stay as they are.
#[inline]
fn receive<B: Backend>(
    uart: &mut Uart16550<B>,
    cells: &mut [u8],
    place: usize,
    slots: usize,
) -> usize
    requires { place + slots ≤ length cells.old }
    ensures made { Made B.step (Receives slots (take result (drop place cells.new)))
        uart.old uart.new }
    ensures count { result ≤ slots }
    ensures others { cells.new ≡ take place cells.old
        ++ (take result (drop place cells.new) ++ drop (place + result) cells.old) }
{
    uart.receive_bytes(&mut cells[place..place + slots])
}
