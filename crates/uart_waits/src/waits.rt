//! The places in which tasks wait.
ghost use Rattle.std.specs.Prelude.{◌≡◌, None};
ghost use Rattle.uart_waits.specs.Waits.{due_of, left_of, is_due};
ghost use Rattle.uart_waits.specs.Waits.{Registers, Takes, receive_of, transmit_of};

use crate::awaited::{Awaited, Seen};

/// A task that waits.
pub struct Waiter<W> {
    /// What wakes it.
    pub waker: W,
    /// What it waits for.
    pub awaited: Awaited,
}

/// The tasks whose turn it is.
pub struct Due<W> {
    /// The one that waited for received bytes.
    pub receive: Option<Waiter<W>>,
    /// The one that waited at the transmit ring.
    pub transmit: Option<Waiter<W>>,
}

/// The tasks that wait: one for received bytes, and one at the transmit ring.
pub struct Waits<W> {
    receive: Option<Waiter<W>>,
    transmit: Option<Waiter<W>>,
}

// Returns whether a task is to wait no longer. Without rings nothing comes.
fn is_due(seen: Option<Seen>, awaited: Awaited) -> bool
    ensures { result ≡ is_due seen awaited }
{
    match seen {
        Some(seen) => seen.ends_wait(awaited),
        None => true,
    }
}

// Takes a task out of its place if its turn is there.
fn take_if_due<W>(place: &mut Option<Waiter<W>>, seen: Option<Seen>) -> Option<Waiter<W>>
    ensures due { result ≡ due_of seen place.old }
    ensures left { place.new ≡ left_of seen place.old }
{
    match place {
        Some(waiter) if is_due(seen, waiter.awaited) => place.take(),
        _ => None,
    }
}

impl<W> Waits<W> {
    /// Returns places in which nobody waits.
    pub fn new() -> Self
        // proved: At first nobody waits
        // on: `Waits::new`
        ensures receive { receive_of result ≡ None }
        ensures transmit { transmit_of result ≡ None }
    {
        Waits {
            receive: None,
            transmit: None,
        }
    }

    /// Puts a task into the place for what it awaits, and returns the one that was there.
    pub fn register(&mut self, waiter: Waiter<W>) -> Option<Waiter<W>>
        // proved: A task that registers comes into the place for what it awaits, the one that was
        //   there is returned, and the other place is as it was
        // on: `Waits::register`
        ensures { Registers waiter result self.old self.new }
    {
        match waiter.awaited {
            Awaited::ReceivedByte => self.receive.replace(waiter),
            Awaited::TransmitRoom | Awaited::EmptyTransmitRing => self.transmit.replace(waiter),
        }
    }

    /// Takes those out whose turn it is: what they await is there, or does not come, since the chip
    /// is stuck or there are no rings.
    pub fn take_due(&mut self, seen: Option<Seen>) -> Due<W>
        // proved: Those are taken out whose wait ends, or all if there are no rings; the others
        //   stay
        // on: `Waits::take_due`
        ensures { Takes seen result self.old self.new }
    {
        let receive = take_if_due(&mut self.receive, seen);
        let transmit = take_if_due(&mut self.transmit, seen);
        Due { receive, transmit }
    }
}
