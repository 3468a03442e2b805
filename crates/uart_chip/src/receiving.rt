//! What happens in a receiver, over its parts.
ghost use Rattle.std.specs.Prelude.{◌≡◌, ◌<◌, ◌≤◌, ◌++◌, ◌-◌, [], ◌∷◌, Bool, true, false, not};
ghost use Rattle.std.specs.Prelude.{◌==◌, ◌||◌, drop, if◌then◌else◌, length, slice_get};
ghost use Rattle.std.specs.List.{list_any};
ghost use Rattle.uart_chip.specs.Jumps as jumps;
ghost use Rattle.uart_chip.specs.Receiver as spec;
ghost use Rattle.uart_chip.specs.Receiver.{ReceiverState, has_errors, is_unscheduled, unreported};
ghost use Rattle.uart_chip.specs.Status.{receiver_status};
ghost use Rattle.uart_chip.specs.Transmitter.{room};
ghost use Rattle.uart_spec.specs.FifoSize.{characters};
ghost use Rattle.uart_spec.specs.declared.setup.FifoSize.TheVariants.{Sixteen};

use crate::fifo::room_of;
use crate::receiver::{Character, Origin, Timeout};
use uart_events::ArrivalMark;
use uart_spec::FifoSize;
use uart_spec::registers::{FifoTriggerLevel, LSR};

/// What a receiver is made of: a queue of characters and what is known of them, and how each is
/// read and changed.
pub trait ReceiverParts {
    // The receiver that the parts are.
    ghost state: { Self → ReceiverState };

    // Whether the parts have the one value for this receiver. It stays so.
    ghost canonical: { Self → Type 0 };

    // Whether the parts have a place for arrivals of a schedule.
    ghost is_scheduled: { Bool };

    /// Returns the size of the FIFO.
    fn size(&self) -> FifoSize
        ensures { result ≡ (state self.now).size };

    /// Returns the number of characters in the queue.
    fn queue_len(&self) -> usize
        ensures len { result ≡ length (state self.now).queue }
        ensures within { result ≤ characters (state self.now).size };

    /// Appends a character to the queue. The errors of one that is at the front have not been
    /// reported. The caller must show that there is room, and that the character has a place.
    fn put(&mut self, new: Character)
        requires room { length (state self.old).queue < characters (state self.old).size }
        requires origin { (is_unscheduled new.origin || is_scheduled) ≡ true }
        ensures after { let r = state self.old in state self.new ≡ record r {
          queue = r.queue ++ new ∷ [];
          is_front_reported = if length r.queue == 0 then false else r.is_front_reported;
        } }
        ensures canonical { canonical self.old → canonical self.new };

    /// Removes the front of the queue, and returns it. The errors of the next one have not been
    /// reported.
    fn pop(&mut self) -> Option<Character>
        ensures front { result ≡ slice_get (state self.old).queue 0 }
        ensures after { let r = state self.old in state self.new ≡ record r {
          queue = drop 1 r.queue;
          is_front_reported = if length r.queue == 0 then r.is_front_reported else false;
        } }
        ensures canonical { canonical self.old → canonical self.new };

    /// Empties the queue.
    fn clear_queue(&mut self)
        ensures after { state self.new ≡ record (state self.old) { queue = [] } }
        ensures canonical { canonical self.old → canonical self.new };

    /// Sets the mark of an arrival. An unscheduled character has none.
    fn set_mark(&mut self, origin: Origin, mark: ArrivalMark)
        ensures after { state self.new ≡
            record (state self.old) { marks = spec.set_mark origin mark (state self.old).marks } }
        ensures canonical { canonical self.old → canonical self.new };

    /// Marks the characters of the queue as discarded.
    fn discard(&mut self)
        ensures after { state self.new ≡ record (state self.old)
            { marks = spec.discard (state self.old).queue (state self.old).marks } }
        ensures canonical { canonical self.old → canonical self.new };

    /// Sets whether an unscheduled character was lost since the last one. The caller must show that
    /// the parts can say so.
    fn set_unscheduled_lost(&mut self, on: bool)
        requires { (not on || is_scheduled) ≡ true }
        ensures after { state self.new ≡ record (state self.old) { is_unscheduled_lost = on } }
        ensures canonical { canonical self.old → canonical self.new };

    /// Sets whether a character was lost since the last read of LSR.
    fn set_overrun(&mut self, on: bool)
        ensures after { state self.new ≡ record (state self.old) { is_overrun = on } }
        ensures canonical { canonical self.old → canonical self.new };

    /// Sets whether a read of LSR has reported the errors of the front.
    fn set_front_reported(&mut self, on: bool)
        ensures after { state self.new ≡ record (state self.old) { is_front_reported = on } }
        ensures canonical { canonical self.old → canonical self.new };

    /// Returns what LSR shows of the receiver, but for the errors behind the front.
    fn status(&self) -> LSR
        ensures { result.0 ≡ receiver_status (state self.now).queue
            (state self.now).is_overrun (state self.now).is_front_reported };

    /// Returns whether a character has errors.
    fn has_errors(&self) -> bool
        ensures { result ≡ list_any has_errors (state self.now).queue };

    /// Returns whether a character has errors that were not reported.
    fn has_unreported_errors(&self) -> bool
        ensures { result ≡ list_any has_errors
            (unreported (state self.now).queue (state self.now).is_front_reported) };

    /// Returns the byte that was read last.
    fn last_byte(&self) -> u8
        ensures { result ≡ (state self.now).last_byte };

    /// Sets the byte that was read last.
    fn set_last_byte(&mut self, byte: u8)
        ensures after { state self.new ≡ record (state self.old) { last_byte = byte } }
        ensures canonical { canonical self.old → canonical self.new };

    /// Returns the ticks towards a reception timeout, and their limit.
    fn timeout(&self) -> Timeout
        ensures ticks { result.ticks ≡ (state self.now).timeout_ticks }
        ensures limit { result.limit ≡ (state self.now).timeout_limit };

    /// Sets the ticks since a character was received or read.
    fn set_timeout_ticks(&mut self, ticks: u16)
        ensures after { state self.new ≡ record (state self.old) { timeout_ticks = ticks } }
        ensures canonical { canonical self.old → canonical self.new };

    /// Returns the trigger level.
    fn trigger(&self) -> FifoTriggerLevel
        ensures { result ≡ (state self.now).trigger };

    /// Sets the trigger level.
    fn set_trigger(&mut self, trigger: FifoTriggerLevel)
        ensures after { state self.new ≡ record (state self.old) { trigger = trigger } }
        ensures canonical { canonical self.old → canonical self.new };
}

impl Origin {
    // Returns whether the character is not an arrival of the schedule.
    fn is_unscheduled(&self) -> bool
        ensures { result ≡ is_unscheduled self.now }
    {
        match self {
            Origin::Looped | Origin::Live => true,
            Origin::Arrived(_) => false,
        }
    }
}

// Returns one of four numbers, for the lowest trigger level to the highest.
fn by_level(first: u8, second: u8, third: u8, fourth: u8, level: FifoTriggerLevel) -> u8
    ensures { result ≡ spec.by_level first second third fourth level }
{
    match level {
        FifoTriggerLevel::One => first,
        FifoTriggerLevel::Four => second,
        FifoTriggerLevel::Eight => third,
        FifoTriggerLevel::Fourteen => fourth,
    }
}

// Returns the number of characters of a trigger level, for a FIFO of 16.
// Apart from `by_level`: of constants a compiler makes a table, and of numbers that are passed one
// test for each level, which in C takes five instructions more for each look at the interrupts.
fn characters_of_16(level: FifoTriggerLevel) -> u8
    ensures { result ≡ spec.characters_of Sixteen level }
{
    match level {
        FifoTriggerLevel::One => 1,
        FifoTriggerLevel::Four => 4,
        FifoTriggerLevel::Eight => 8,
        FifoTriggerLevel::Fourteen => 14,
    }
}

/// Returns the number of characters of a trigger level, for a FIFO of this size.
// The levels have the names of their numbers for a 16550.
pub fn characters_of(size: FifoSize, level: FifoTriggerLevel) -> u8
    ensures { result ≡ spec.characters_of size level }
{
    match size {
        FifoSize::Sixteen => characters_of_16(level),
        FifoSize::ThirtyTwo => by_level(8, 16, 24, 28, level),
        FifoSize::SixtyFour => by_level(1, 16, 32, 56, level),
        FifoSize::OneHundredTwentyEight => by_level(16, 32, 112, 120, level),
        FifoSize::TwoHundredFiftySix => by_level(1, 64, 128, 254, level),
    }
}

/// Puts a character into the queue. If there is no room, the FIFO loses it, and the single register
/// loses the one that it held.
#[inline(always)]
pub fn enter<R: ReceiverParts>(parts: &mut R, fifo: bool, new: Character)
    requires { (is_unscheduled new.origin || R.is_scheduled) ≡ true }
    ensures after { R.state parts.new ≡ spec.enter fifo new (R.state parts.old) }
    ensures canonical { R.canonical parts.old → R.canonical parts.new }
{
    if parts.queue_len() < room_of(fifo, parts.size()) {
        parts.put(new);
        parts.set_mark(new.origin, ArrivalMark::Waiting);
    } else if fifo {
        parts.set_overrun(true);
        parts.set_mark(new.origin, ArrivalMark::Dropped);
    } else {
        replace(parts, new);
        return;
    }
    parts.set_timeout_ticks(0);
    if new.origin.is_unscheduled() {
        parts.set_unscheduled_lost(false);
    }
}

// Replaces the character in the receiver, which is dropped.
#[inline(never)]
#[tactic(auto, using(crate::proofs::Sizes::at_least_16))]
fn replace<R: ReceiverParts>(parts: &mut R, new: Character)
    requires { (is_unscheduled new.origin || R.is_scheduled) ≡ true }
    ensures after { R.state parts.new ≡
        spec.replace (R.state parts.old).queue new (R.state parts.old) }
    ensures canonical { R.canonical parts.old → R.canonical parts.new }
{
    let Some(old) = parts.pop() else {
        return;
    };
    parts.clear_queue();
    parts.put(new);
    parts.set_overrun(true);
    parts.set_timeout_ticks(0);
    parts.set_mark(old.origin, ArrivalMark::Dropped);
    parts.set_mark(new.origin, ArrivalMark::Waiting);
    if new.origin.is_unscheduled() {
        parts.set_unscheduled_lost(false);
    } else if old.origin.is_unscheduled() {
        parts.set_unscheduled_lost(true);
    }
}

/// Lets one tick pass, with the byte that loopback returned in it.
pub fn tick<R: ReceiverParts>(parts: &mut R, fifo: bool, looped: Option<u8>)
    ensures after { R.state parts.new ≡ spec.tick fifo looped (R.state parts.old) }
    ensures canonical { R.canonical parts.old → R.canonical parts.new }
{
    if let Some(byte) = looped {
        enter(
            parts,
            fifo,
            Character {
                byte,
                errors: 0,
                origin: Origin::Looped,
            },
        );
    }
    count_up(parts, 1);
}

/// Lets ticks pass in which no character is received or read.
pub fn count_up<R: ReceiverParts>(parts: &mut R, ticks: u16)
    ensures after { R.state parts.new ≡ jumps.count_up ticks (R.state parts.old) }
    ensures canonical { R.canonical parts.old → R.canonical parts.new }
{
    if ticks > 0 {
        let timeout = parts.timeout();
        let counted = timeout.ticks.saturating_add(ticks);
        parts.set_timeout_ticks(counted.min(timeout.limit));
    }
}

/// Receives a character without a schedule. In loopback it is lost.
pub fn arrive_live<R: ReceiverParts>(
    parts: &mut R,
    loopback: bool,
    fifo: bool,
    byte: u8,
    errors: u8,
)
    ensures after { R.state parts.new ≡
        spec.arrive_live loopback fifo byte errors (R.state parts.old) }
    ensures canonical { R.canonical parts.old → R.canonical parts.new }
{
    if !loopback {
        enter(
            parts,
            fifo,
            Character {
                byte,
                errors,
                origin: Origin::Live,
            },
        );
    }
}

/// Takes the front if there is one, and returns the byte that was taken last.
// A read of an empty receiver changes nothing, and not the ticks towards a timeout either.
pub fn take_front<R: ReceiverParts>(parts: &mut R) -> u8
    ensures after { R.state parts.new ≡
        spec.take_front (R.state parts.old).queue (R.state parts.old) }
    ensures byte { result ≡ (R.state parts.new).last_byte }
    ensures canonical { R.canonical parts.old → R.canonical parts.new }
{
    if let Some(front) = parts.pop() {
        parts.set_timeout_ticks(0);
        parts.set_last_byte(front.byte);
        parts.set_mark(front.origin, ArrivalMark::Read);
    }
    parts.last_byte()
}

/// Does what a read of LSR does: clears the overrun and the errors of the front.
pub fn report<R: ReceiverParts>(parts: &mut R)
    ensures after { R.state parts.new ≡ spec.report (R.state parts.old) }
    ensures canonical { R.canonical parts.old → R.canonical parts.new }
{
    parts.set_overrun(false);
    if parts.queue_len() > 0 {
        parts.set_front_reported(true);
    }
}

/// Empties the queue. Its characters are discarded.
pub fn clear<R: ReceiverParts>(parts: &mut R)
    ensures after { R.state parts.new ≡ spec.clear (R.state parts.old) }
    ensures canonical { R.canonical parts.old → R.canonical parts.new }
{
    parts.discard();
    parts.clear_queue();
}

/// Makes a reception timeout due if the FIFO is on and has a character: counts the ticks towards it
/// to their end.
pub fn expire_timeout<R: ReceiverParts>(parts: &mut R)
    ensures after { R.state parts.new ≡
        record (R.state parts.old) { timeout_ticks = (R.state parts.old).timeout_limit } }
    ensures canonical { R.canonical parts.old → R.canonical parts.new }
{
    let limit = parts.timeout().limit;
    parts.set_timeout_ticks(limit);
}

/// Returns whether there are as many characters as the trigger level, or without FIFO any.
#[tactic(auto, using(crate::proofs::Sizes::some_characters))]
pub fn is_data_pending<R: ReceiverParts>(parts: &R, fifo: bool) -> bool
    ensures { result ≡ spec.is_data_pending fifo (R.state parts.now) }
{
    let waiting = parts.queue_len();
    // Mostly none wait, and each level is at least one character.
    if !fifo || waiting == 0 {
        return waiting > 0;
    }
    // The level first: then a compiler goes straight from the size to its numbers.
    let level = parts.trigger();
    let trigger = characters_of(parts.size(), level) as usize;
    trigger <= waiting
}

/// Returns whether there are characters in the FIFO, and none was received or read for four
/// character times.
pub fn is_timed_out<R: ReceiverParts>(parts: &R, fifo: bool) -> bool
    ensures { result ≡ spec.is_timed_out fifo (R.state parts.now) }
{
    fifo && parts.queue_len() > 0 && parts.timeout().is_due()
}

/// Returns how many characters can be received before one is lost.
pub fn receive_room<R: ReceiverParts>(parts: &R, fifo: bool) -> usize
    ensures { result ≡ room fifo (R.state parts.now).size - length (R.state parts.now).queue }
{
    room_of(fifo, parts.size()).saturating_sub(parts.queue_len())
}
