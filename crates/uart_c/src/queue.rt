//! Queues: the first items of an array are in the queue. The functions are over its length and its
//! array, whatever the items are. How many of the places count is for the size of the FIFO to say.
ghost use Rattle.std.specs.Prelude.{◌≡◌, ◌==◌, ◌+◌, ◌-◌, ◌<◌, ◌≤◌, [], ◌∷◌, ◌++◌};
ghost use Rattle.std.specs.Prelude.{take, drop, min, length, slice_get, Some, true};
ghost use Rattle.uart_c.specs.Queue.{fifo_size_of, waiting};
ghost use Rattle.uart_c.specs.Status.{is_fifo_size};
ghost use Rattle.uart_spec.specs.FifoSize.{characters};
ghost use Rattle.uart_c.specs.Canonical.{IsCanonicalQueue, IsCanonicalWire, IsFlag};
ghost use Rattle.uart_c.specs.Queue as spec;
ghost use Rattle.uart_chip.specs.Receiver.{is_unscheduled};
ghost use Rattle.uart_c.specs.declared.queue.TheConstants.{FIFO_ROOM, WIRE_ROOM};
ghost use Rattle.uart_spec.specs.declared.baud.TheConstants.{FIFO_SIZE};

use uart_chip::{Character, Origin};
use uart_spec::{FIFO_SIZE, FifoSize};

/// How many bytes a wire has room for, at most.
// The layout of a struct of C rests on it, so this is not the number of `uart_live`, which may
// change.
pub const WIRE_ROOM: usize = 64;

/// How many characters the array of a FIFO has places for. A FIFO uses the first, as many as it
/// holds.
// A length is a byte, which cannot say that a FIFO of 256 is full.
pub const FIFO_ROOM: usize = 128;

// The places of a block of items that moves down, with the place before it.
const MOVED_PLACES: usize = FIFO_SIZE + 1;

/// A flag of C: any number but 0 is true.
pub fn is_on(flag: u8) -> bool
    ensures { result ≡ spec.is_on flag }
{
    flag != 0
}

/// A FIFO of so many characters; any other number than 32, 64 and 128 counts as 16.
pub fn fifo_size_of(characters: u8) -> FifoSize
    ensures { result ≡ fifo_size_of characters }
{
    // Most FIFOs hold 16, and one test finds these.
    if characters < 32 {
        return FifoSize::Sixteen;
    }
    match characters {
        32 => FifoSize::ThirtyTwo,
        64 => FifoSize::SixtyFour,
        128 => FifoSize::OneHundredTwentyEight,
        _ => FifoSize::Sixteen,
    }
}

/// A chip can be made with FIFOs of so many characters.
pub fn is_fifo_size(characters: u8) -> bool
    ensures { result ≡ is_fifo_size characters }
{
    matches!(characters, 16 | 32 | 64 | 128)
}

/// How many characters a FIFO with this number holds: as many as it says, or 16.
pub fn places_of(fifo_size: u8) -> u8
    ensures { result ≡ characters (fifo_size_of fifo_size) }
{
    if fifo_size < 32 {
        return FIFO_SIZE as u8;
    }
    match fifo_size {
        32 | 64 | 128 => fifo_size,
        _ => FIFO_SIZE as u8,
    }
}

/// The bytes that have gone out, and how many there is room for.
#[repr(C)]
#[derive(Clone, Copy)]
pub struct UartWire {
    pub len: u8,
    pub capacity: u8,
    pub items: [u8; WIRE_ROOM],
}

/// A queue of bytes.
#[repr(C)]
#[derive(Clone, Copy)]
pub struct UartBytes {
    pub len: u8,
    pub items: [u8; FIFO_ROOM],
}

/// A character that waits to be read, with its errors where the line status register has them.
#[repr(C)]
#[derive(Clone, Copy)]
pub struct UartCharacter {
    pub byte: u8,
    pub errors: u8,
    pub is_looped: u8,
}

impl UartCharacter {
    // Returns the character with its flag as 0 or 1.
    fn restored(self) -> Self
        ensures character { spec.character_of result ≡ spec.character_of self }
        ensures flag { IsFlag result.is_looped }
    {
        UartCharacter {
            is_looped: is_on(self.is_looped) as u8,
            ..self
        }
    }

    /// Returns a character as C has it. It is no arrival of a schedule.
    pub fn of(character: Character) -> Self
        requires { is_unscheduled character.origin ≡ true }
        ensures character { spec.character_of result ≡ character }
        ensures flag { IsFlag result.is_looped }
    {
        UartCharacter {
            byte: character.byte,
            errors: character.errors,
            is_looped: matches!(character.origin, Origin::Looped) as u8,
        }
    }

    /// Returns the character as a receiver has it.
    pub fn shown(&self) -> Character
        ensures { result ≡ spec.character_of self.now }
    {
        Character {
            byte: self.byte,
            errors: self.errors,
            origin: if is_on(self.is_looped) {
                Origin::Looped
            } else {
                Origin::Live
            },
        }
    }
}

/// A queue of characters.
#[repr(C)]
#[derive(Clone, Copy)]
pub struct UartCharacters {
    pub len: u8,
    pub items: [UartCharacter; FIFO_ROOM],
}

/// How many items are in the queue of a FIFO.
pub fn count(len: u8, fifo_size: u8) -> usize
    ensures { result ≡ min len (characters (fifo_size_of fifo_size)) }
{
    // Each FIFO has at least 16 places, so few lengths need a look at its size.
    if len as usize <= FIFO_SIZE {
        len as usize
    } else {
        len.min(places_of(fifo_size)) as usize
    }
}

/// Puts an item last.
pub fn push<T: Copy>(len: &mut u8, items: &mut [T], item: T)
    requires room { len.old < length items.old }
    requires fits { length items.old ≤ u8.MAX }
    ensures size { length items.new ≡ length items.old }
    ensures len { len.new ≡ len.old + 1 }
    ensures items { take len.new items.new ≡ take len.old items.old ++ item ∷ [] }
{
    let last = *len as usize;
    items[last] = item;
    *len = last as u8 + 1;
}

/// Puts these items in the place of those that are there.
pub fn put_all<T: Copy>(len: &mut u8, items: &mut [T], all: &[T])
    requires room { length all.now ≤ length items.old }
    requires fits { length items.old ≤ u8.MAX }
    ensures size { length items.new ≡ length items.old }
    ensures len { len.new ≡ length all.now }
    ensures items { take len.new items.new ≡ all.now }
{
    *len = 0;
    for item in all {
        push(len, items, *item);
    }
}

/// Takes the front of the queue of a FIFO.
#[tactic(auto, using(crate::proofs::Queues::alone))]
pub fn pop_front<T: Copy>(len: &mut u8, items: &mut [T], fifo_size: u8) -> Option<T>
    requires places { length items.old ≡ FIFO_ROOM }
    ensures size { length items.new ≡ length items.old }
    ensures len { len.new ≤ characters (fifo_size_of fifo_size) }
    ensures front { result ≡ slice_get (waiting (fifo_size_of fifo_size) len.old items.old) 0 }
    ensures after { waiting (fifo_size_of fifo_size) len.new items.new ≡
        drop 1 (waiting (fifo_size_of fifo_size) len.old items.old) }
{
    if *len == 0 {
        return None;
    }
    let front = items[0];
    if *len == 1 {
        *len = 0;
        return Some(front);
    }
    let count = count(*len, fifo_size);
    drop_front(items, count);
    *len = count as u8 - 1;
    Some(front)
}

// The items behind the front move down by one place, as many as wait.
// In blocks of a constant size: a move of any number of items would call `memmove`.
fn drop_front<T: Copy>(items: &mut [T], count: usize)
    requires within { count ≤ FIFO_ROOM }
    requires places { length items.old ≡ FIFO_ROOM }
    ensures size { length items.new ≡ length items.old }
    ensures items { take (count - 1) items.new ≡ drop 1 (take count items.old) }
{
    items.copy_within(1..FIFO_SIZE, 0);
    if count > FIFO_SIZE {
        drop_others(items, count);
    }
}

// The items behind those of a FIFO of 16 move down by one place, as many as wait.
#[inline(never)]
fn drop_others<T: Copy>(items: &mut [T], count: usize)
    requires within { count ≤ FIFO_ROOM }
    requires places { length items.old ≡ FIFO_ROOM }
    ensures size { length items.new ≡ length items.old }
    ensures items { take (count - 1) items.new ≡
        take (count - 1) (take (FIFO_SIZE - 1) items.old ++ drop FIFO_SIZE items.old) }
{
    for block in 1..count.div_ceil(FIFO_SIZE) {
        let start = FIFO_SIZE * block;
        let places = &mut items[start - 1..start + FIFO_SIZE];
        places.copy_within(1..MOVED_PLACES, 0);
    }
}

impl UartCharacters {
    /// Becomes a queue like this one, of a FIFO of the same size.
    pub fn restore(&mut self, saved: &Self, fifo_size: u8)
        ensures characters { spec.characters_of (fifo_size_of fifo_size) self.new ≡
            spec.characters_of (fifo_size_of fifo_size) saved.now }
        ensures canonical { IsCanonicalQueue (fifo_size_of fifo_size) self.new }
    {
        let waiting = &saved.items[..count(saved.len, fifo_size)];
        self.len = 0;
        for character in waiting {
            push(&mut self.len, &mut self.items, character.restored());
        }
    }
}

impl UartWire {
    /// How many bytes have gone out and were not taken yet.
    pub fn len(&self) -> usize
        ensures { result ≡ length (spec.wire_of self.now) }
    {
        (self.len as usize).min(WIRE_ROOM)
    }

    /// How many bytes there is room for.
    pub fn capacity(&self) -> usize
        ensures { result ≡ spec.capacity_of self.now }
    {
        (self.capacity as usize).min(WIRE_ROOM)
    }

    /// Becomes a wire like this one.
    pub fn restore(&mut self, saved: &Self)
        ensures items { spec.wire_of self.new ≡ spec.wire_of saved.now }
        ensures capacity { spec.capacity_of self.new ≡ spec.capacity_of saved.now }
        ensures canonical { IsCanonicalWire self.new }
    {
        self.capacity = saved.capacity() as u8;
        put_all(&mut self.len, &mut self.items, &saved.items[..saved.len()]);
    }

    /// A byte goes out.
    pub fn push(&mut self, byte: u8)
        requires { length (spec.wire_of self.old) < WIRE_ROOM }
        ensures items { spec.wire_of self.new ≡ spec.wire_of self.old ++ byte ∷ [] }
        ensures capacity { self.new.capacity ≡ self.old.capacity }
        ensures len { self.new.len ≤ WIRE_ROOM }
    {
        push(&mut self.len, &mut self.items, byte);
    }

    // Takes the front.
    fn pop_front(&mut self) -> u8
        requires { 0 < length (spec.wire_of self.old) }
        ensures front { Some result ≡ slice_get (spec.wire_of self.old) 0 }
        ensures after { spec.wire_of self.new ≡ drop 1 (spec.wire_of self.old) }
        ensures capacity { self.new.capacity ≡ self.old.capacity }
        ensures len { self.new.len ≤ WIRE_ROOM }
    {
        let front = self.items[0];
        let count = self.len();
        self.items.copy_within(1..WIRE_ROOM, 0);
        self.len = count as u8 - 1;
        front
    }

    /// Takes bytes from the front: as many as there are, and as `bytes` has room for. Returns how
    /// many.
    pub fn take(&mut self, bytes: &mut [u8]) -> usize
        ensures count { result ≡ min (length bytes.old) (length (spec.wire_of self.old)) }
        ensures taken { bytes.new ≡ take result (spec.wire_of self.old) ++ drop result bytes.old }
        ensures items { spec.wire_of self.new ≡ drop (length bytes.old) (spec.wire_of self.old) }
        ensures capacity { self.new.capacity ≡ self.old.capacity }
        ensures len { self.old.len ≤ WIRE_ROOM → self.new.len ≤ WIRE_ROOM }
    {
        let count = bytes.len().min(self.len());
        // One by one: a copy of so many bytes would call memmove.
        for i in 0..count {
            bytes[i] = self.pop_front();
        }
        count
    }

    /// Removes this number of bytes from the front, or all if there are fewer.
    pub fn remove(&mut self, count: usize)
        ensures items { spec.wire_of self.new ≡ drop count (spec.wire_of self.old) }
        ensures capacity { self.new.capacity ≡ self.old.capacity }
        ensures len { self.old.len ≤ WIRE_ROOM → self.new.len ≤ WIRE_ROOM }
    {
        if count >= self.len() {
            self.len = 0;
            return;
        }
        // One by one: a copy of so many bytes would call memmove.
        for _ in 0..count {
            self.pop_front();
        }
    }
}
