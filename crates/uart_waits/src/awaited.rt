//! What somebody waits for.
ghost use Rattle.std.specs.Prelude.{◌≡◌};
ghost use Rattle.uart_waits.specs.Awaited.{IsSeenOf, ends_wait, has};

use uart_16550::backend::Backend;
use uart_ring::Uart16550Ring;

/// What somebody waits for.
#[derive(Clone, Copy, Debug, PartialEq, Eq, Drop)]
pub enum Awaited {
    /// A received byte that can be taken.
    ReceivedByte,
    /// Room for a byte to be sent.
    TransmitRoom,
    /// That no byte waits to be sent.
    EmptyTransmitRing,
}

/// What is to be seen of the rings.
#[derive(Clone, Copy, Debug, PartialEq, Eq, Drop)]
pub struct Seen {
    /// How many received bytes can be taken.
    pub received: usize,
    /// How many bytes wait to be sent.
    pub queued: usize,
    /// For how many more there is room.
    pub room: usize,
    /// Whether the chip is stuck, and so nothing comes.
    pub is_stuck: bool,
}

impl Seen {
    /// Returns what is to be seen of these rings. Makes no access.
    pub fn of<B: Backend>(ring: &Uart16550Ring<B>) -> Self
        // proved: What is seen of rings is how many bytes they hold to be taken and to be sent, for
        //   how many more there is room, and whether the chip is stuck
        // on: `Seen::of`
        ensures { IsSeenOf ring.now result }
    {
        Seen {
            received: ring.receive_len(),
            queued: ring.transmit_len(),
            room: ring.transmit_room(),
            is_stuck: ring.stuck().is_some(),
        }
    }

    /// Returns whether this is there.
    pub fn has(&self, awaited: Awaited) -> bool
        // proved: A received byte is there if one can be taken, room if there is some for a byte,
        //   an empty ring if none waits
        // on: `Seen::has`
        ensures { result ≡ has self.now awaited }
    {
        match awaited {
            Awaited::ReceivedByte => self.received > 0,
            Awaited::TransmitRoom => self.room > 0,
            Awaited::EmptyTransmitRing => self.queued == 0,
        }
    }

    /// Returns whether to wait for this no longer: it is there, or does not come.
    pub fn ends_wait(&self, awaited: Awaited) -> bool
        // proved: A wait ends if what is awaited is there, or if the chip is stuck
        // on: `Seen::ends_wait`
        ensures { result ≡ ends_wait self.now awaited }
    {
        self.has(awaited) || self.is_stuck
    }
}
