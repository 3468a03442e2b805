//! The queue of a receiver, which counts the characters that have errors.
ghost use Rattle.std.specs.Prelude.{◌≡◌, ◌==◌, ◌<◌, ◌≤◌, [], ◌∷◌, ◌++◌, length, drop, slice_get};
ghost use Rattle.std.specs.List.{list_any};
ghost use Rattle.uart_chip.specs.Receiver.{unreported, has_errors};
ghost use Rattle.uart_chip.specs.Errors.{error_count, known_errors};

use crate::fifo::Fifo;
use crate::receiver::Character;
use arrayvec::ArrayVec;
use std::marker::Model;
use uart_spec::{FIFO_SIZE, FifoSize};

/// A queue of characters, and how many of them have errors.
#[derive(Drop)]
pub struct Characters<Q: Fifo<Character> + Drop> {
    queue: Q,
    errors: usize,
}

impl<Q: Fifo<Character> + Drop> Model for Characters<Q> {
    ghost use Rattle.std.specs.Prelude.{◌≡◌};
    ghost use Rattle.uart_chip.specs.declared.receiver.Character.{Character};
    ghost use Rattle.uart_chip.specs.Errors.{error_count};
    ghost use Rattle.uart_chip.specs.Queue.{QueueState};

    ghost Value = { QueueState Character };

    ghost view = { λ c. record { items = Q.items c.queue; size = Q.size_of c.queue } };

    ghost invariant = { λ c. c.errors ≡ error_count (Q.items c.queue) };
}

// Returns the number of characters whose errors were reported: 1 if the front has some and was
// reported, else 0.
fn known<Q: Fifo<Character>>(queue: &Q, is_front_reported: bool) -> usize
    ensures { result ≡ known_errors (Q.items queue.now) is_front_reported }
{
    match queue.get(0) {
        Some(front) if is_front_reported => front.error_weight(),
        _ => 0,
    }
}

impl<Q: Fifo<Character> + Drop> Characters<Q> {
    /// Returns no characters, over an empty queue.
    pub fn new(queue: Q) -> Self
        requires { Q.items queue ≡ [] }
        ensures { result ≡ record { items = []; size = Q.size_of queue } }
    {
        Characters { queue, errors: 0 }
    }

    /// Returns these characters, over an empty queue.
    // They fit: each FIFO has room for at least so many.
    #[tactic(auto, using(crate::proofs::Sizes::at_least_16))]
    pub fn filled(queue: Q, items: &ArrayVec<Character, FIFO_SIZE>) -> Self
        requires { Q.items queue ≡ [] }
        ensures { result ≡ record { items = items.now.items; size = Q.size_of queue } }
    {
        let mut characters = Characters::new(queue);
        for item in items.as_slice() {
            characters.push(*item);
        }
        characters
    }

    /// Returns whether a character has errors.
    pub fn has_errors(&self) -> bool
        ensures { result ≡ list_any has_errors self.now.items }
    {
        self.errors > 0
    }

    /// Returns whether a character has errors. Those of the front do not count if they were
    /// reported.
    pub fn has_unreported_errors(&self, is_front_reported: bool) -> bool
        ensures { result ≡ list_any has_errors (unreported self.now.items is_front_reported) }
    {
        self.errors > known(&self.queue, is_front_reported)
    }
}

impl<Q: Fifo<Character> + Drop> Fifo<Character> for Characters<Q> {
    ghost items = { λ c. c.items };

    ghost size_of = { λ c. c.size };

    ghost is_resizable = { Q.is_resizable };

    fn size(&self) -> FifoSize {
        self.queue.size()
    }

    fn can_resize() -> bool {
        Q::can_resize()
    }

    fn len(&self) -> usize {
        self.queue.len()
    }

    fn get(&self, i: usize) -> Option<Character> {
        self.queue.get(i)
    }

    fn push(&mut self, item: Character) {
        self.queue.push(item);
        self.errors += item.error_weight();
    }

    fn pop(&mut self) -> Option<Character> {
        let front = self.queue.pop()?;
        self.errors -= front.error_weight();
        Some(front)
    }

    fn clear(&mut self) {
        self.queue.clear();
        self.errors = 0;
    }

    fn resize(&mut self, size: FifoSize) {
        if Q::can_resize() {
            self.queue.resize(size);
            self.errors = 0;
        }
    }
}
