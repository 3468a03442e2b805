//! What happens in a transmitter, over its parts.
ghost use Rattle.std.specs.Prelude.{◌≡◌, ◌==◌, ◌<◌, ◌≤◌, ◌+◌, ◌-◌, ◌^◌, [], ◌∷◌, ◌++◌};
ghost use Rattle.std.specs.Prelude.{drop, min, nat_lt, length, slice_get};
ghost use Rattle.uart_chip.specs.Jumps as jumps;
ghost use Rattle.uart_chip.specs.Status.{transmitter_status};
ghost use Rattle.uart_chip.specs.Transmitter as spec;
ghost use Rattle.uart_chip.specs.Transmitter.{TransmitterState, held, looped_byte};
ghost use Rattle.uart_spec.specs.FifoSize.{characters};

use crate::transmitter::Shifting;
use uart_spec::FifoSize;
use uart_spec::registers::LSR;

/// What a transmitter is made of: a queue, the shift register, a wire, and how each is read and
/// changed.
pub trait TransmitterParts {
    // The transmitter that the parts are.
    ghost state: { Self → TransmitterState };

    // Whether the parts have the one value for this transmitter. It stays so.
    ghost canonical: { Self → Type 0 };

    /// Returns the size of the FIFO.
    fn size(&self) -> FifoSize
        ensures { result ≡ (state self.now).size };

    /// Returns the number of bytes in the queue.
    fn queue_len(&self) -> usize
        ensures len { result ≡ length (state self.now).queue }
        ensures within { result ≤ characters (state self.now).size };

    /// Appends a byte to the queue. The caller must show that there is room.
    fn put(&mut self, byte: u8)
        requires { length (state self.old).queue < characters (state self.old).size }
        ensures after { state self.new ≡
            record (state self.old) { queue = (state self.old).queue ++ byte ∷ [] } }
        ensures canonical { canonical self.old → canonical self.new };

    /// Removes the front of the queue, and returns it.
    fn pop(&mut self) -> Option<u8>
        ensures front { result ≡ slice_get (state self.old).queue 0 }
        ensures after { state self.new ≡
            record (state self.old) { queue = drop 1 (state self.old).queue } }
        ensures canonical { canonical self.old → canonical self.new };

    /// Empties the queue.
    fn clear_queue(&mut self)
        ensures after { state self.new ≡ record (state self.old) { queue = [] } }
        ensures canonical { canonical self.old → canonical self.new };

    /// Counts a byte that was written while there was no room. The count saturates.
    fn count_overflow(&mut self)
        ensures after { state self.new ≡ record (state self.old)
            { overflows = min ((state self.old).overflows + 1) (2 ^ 64 - 1) } }
        ensures canonical { canonical self.old → canonical self.new };

    /// Returns the ticks that a character takes to be sent.
    fn char_ticks(&self) -> u16
        ensures { result ≡ (state self.now).char_ticks };

    /// Returns the character in the shift register.
    fn shifting(&self) -> Option<Shifting>
        ensures { result ≡ (state self.now).shift_register };

    /// Sets the character in the shift register.
    fn set_shifting(&mut self, shifting: Option<Shifting>)
        ensures after { state self.new ≡ record (state self.old) { shift_register = shifting } }
        ensures canonical { canonical self.old → canonical self.new };

    /// Returns whether the wire has room for a byte.
    fn has_room(&self) -> bool
        ensures { result ≡ nat_lt (length (state self.now).wire) (state self.now).capacity };

    /// Appends a byte to the wire. The caller must show that there is room.
    fn send(&mut self, byte: u8)
        requires { length (state self.old).wire < (state self.old).capacity }
        ensures after { state self.new ≡
            record (state self.old) { wire = (state self.old).wire ++ byte ∷ [] } }
        ensures canonical { canonical self.old → canonical self.new };

    /// Returns what LSR shows of the transmitter.
    fn status(&self) -> LSR
        ensures { result.0 ≡
            transmitter_status (state self.now).queue (state self.now).shift_register };

    /// Returns whether a `THR_EMPTY` interrupt is pending.
    fn is_thr_pending(&self) -> bool
        ensures { result ≡ (state self.now).is_thr_pending };

    /// Sets whether a `THR_EMPTY` interrupt is pending.
    fn set_thr_pending(&mut self, on: bool)
        ensures after { state self.new ≡ record (state self.old) { is_thr_pending = on } }
        ensures canonical { canonical self.old → canonical self.new };
}

// Lets one tick pass in the shift register, and returns the byte that loopback returns in it. If
// the wire is full, the byte waits in the shift register at its last tick, so none is lost.
fn shift<T: TransmitterParts>(parts: &mut T, loopback: bool) -> Option<u8>
    ensures after { T.state parts.new ≡
        spec.shift loopback (T.state parts.old).shift_register (T.state parts.old) }
    ensures looped { result ≡ looped_byte loopback (T.state parts.old).shift_register }
    ensures canonical { T.canonical parts.old → T.canonical parts.new }
{
    let Some(shifting) = parts.shifting() else {
        return None;
    };
    if shifting.ticks_left > 1 {
        parts.set_shifting(Some(Shifting {
            byte: shifting.byte,
            ticks_left: shifting.ticks_left - 1,
        }));
        return None;
    }
    if loopback {
        parts.set_shifting(None);
        return Some(shifting.byte);
    }
    if parts.has_room() {
        parts.send(shifting.byte);
        parts.set_shifting(None);
    }
    None
}

// Moves the front of the queue into an empty shift register.
fn refill<T: TransmitterParts>(parts: &mut T)
    ensures after { T.state parts.new ≡ spec.refill (T.state parts.old).shift_register
        (T.state parts.old).queue (T.state parts.old) }
    ensures canonical { T.canonical parts.old → T.canonical parts.new }
{
    if parts.shifting().is_some() {
        return;
    }
    if let Some(byte) = parts.pop() {
        let ticks_left = parts.char_ticks();
        parts.set_shifting(Some(Shifting { byte, ticks_left }));
        if parts.queue_len() == 0 {
            parts.set_thr_pending(true);
        }
    }
}

/// Lets one tick pass, and returns the byte that loopback returns in it. A transmitter that is held
/// off takes no next character from its queue; the one that it shifts out goes on.
pub fn tick<T: TransmitterParts>(parts: &mut T, loopback: bool, held_off: bool) -> Option<u8>
    ensures after { T.state parts.new ≡ spec.tick loopback held_off (T.state parts.old) }
    ensures looped { result ≡ looped_byte loopback (T.state parts.old).shift_register }
    ensures canonical { T.canonical parts.old → T.canonical parts.new }
{
    let looped = shift(parts, loopback);
    if !held_off {
        refill(parts);
    }
    looped
}

/// Returns the ticks until a character enters or leaves the shift register: `None` if none can, as
/// with a full wire.
pub fn next_move<T: TransmitterParts>(parts: &T, loopback: bool, held_off: bool) -> Option<u16>
    ensures { result ≡ jumps.next_move loopback held_off (T.state parts.now) }
{
    match parts.shifting() {
        None if held_off || parts.queue_len() == 0 => None,
        None => Some(1),
        Some(shifting) if loopback || parts.has_room() => Some(shifting.ticks_left.max(1)),
        Some(_) => None,
    }
}

/// Lets ticks pass in which no character enters or leaves the shift register.
pub fn count_down<T: TransmitterParts>(parts: &mut T, ticks: u16)
    ensures after { T.state parts.new ≡ jumps.count_down ticks (T.state parts.old) }
    ensures canonical { T.canonical parts.old → T.canonical parts.new }
{
    if let Some(shifting) = parts.shifting() {
        let ticks_left = if ticks < shifting.ticks_left {
            shifting.ticks_left - ticks
        } else {
            shifting.ticks_left.min(1)
        };
        parts.set_shifting(Some(Shifting {
            byte: shifting.byte,
            ticks_left,
        }));
    }
}

/// Takes a byte that is written to DATA. If there is no room, the FIFO loses it, and THR loses the
/// byte that it held.
// A write clears a pending THR_EMPTY interrupt even if there is no room.
#[tactic(auto, using(crate::proofs::Sizes::at_least_16))]
pub fn load<T: TransmitterParts>(parts: &mut T, fifo: bool, byte: u8)
    ensures after { T.state parts.new ≡ spec.load fifo byte (T.state parts.old) }
    ensures canonical { T.canonical parts.old → T.canonical parts.new }
{
    if fifo {
        if parts.queue_len() < parts.size().characters() {
            parts.put(byte);
        } else {
            parts.count_overflow();
        }
    } else {
        if parts.queue_len() > 0 {
            parts.clear_queue();
            parts.count_overflow();
        }
        parts.put(byte);
    }
    parts.set_thr_pending(false);
}

/// Returns the number of bytes that are still to be sent.
#[tactic(auto, using(crate::proofs::Sizes::at_most_256))]
pub fn held_len<T: TransmitterParts>(parts: &T) -> usize
    ensures { result ≡ length (held (T.state parts.now)) }
{
    match parts.shifting() {
        None => parts.queue_len(),
        Some(_) => parts.queue_len() + 1,
    }
}
