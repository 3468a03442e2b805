//! The receiver as plain data.
ghost use Rattle.std.specs.Prelude.{◌≡◌, ◌≤◌, false, length, nat_lt};
ghost use Rattle.std.specs.List.{list_any};
ghost use Rattle.uart_c.specs.Canonical.{IsCanonicalReceiver};
ghost use Rattle.uart_c.specs.Queue as queue_spec;
ghost use Rattle.uart_c.specs.Queue.{character_of};
ghost use Rattle.uart_c.specs.State.{number_of, receiver_of, trigger_of};
ghost use Rattle.uart_chip.specs.Receiver as spec;
ghost use Rattle.uart_chip.specs.Receiver.{front_errors, has_errors};
ghost use Rattle.uart_events.specs.declared.event.TheConstants.{MAX_CHAR_TICKS};
ghost use Rattle.uart_spec.specs.FifoSize.{characters};

use crate::queue::{
    UartCharacter, UartCharacters, count, fifo_size_of, is_on, places_of, pop_front, push,
};
use bitflags::Flags;
use uart_chip::receiving::ReceiverParts;
use uart_chip::{ArrivalMark, Character, Origin, Timeout, flag};
use uart_live::sound::TIMEOUT_CHARACTERS;
use uart_spec::registers::{FifoTriggerLevel, LSR};
use uart_spec::{FIFO_SIZE, FifoSize};

/// What receives: characters wait in the queue for a read of the data register.
#[repr(C)]
#[derive(Clone, Copy)]
pub struct UartReceiver {
    pub timeout_ticks: u16,
    pub timeout_limit: u16,
    pub is_overrun: u8,
    pub is_front_reported: u8,
    pub last_byte: u8,
    pub trigger: u8,
    pub fifo_size: u8,
    pub queue: UartCharacters,
}

// Some character has errors.
fn some_has_errors(characters: &[UartCharacter]) -> bool
    ensures { result ≡ list_any (λ character. has_errors (character_of character)) characters.now }
{
    characters
        .iter()
        .any(|character| character.shown().has_errors())
}

/// The trigger level for so many characters.
pub fn trigger_of(characters: u8) -> FifoTriggerLevel
    ensures { result ≡ trigger_of characters }
{
    match characters {
        1 => FifoTriggerLevel::One,
        4 => FifoTriggerLevel::Four,
        8 => FifoTriggerLevel::Eight,
        _ => FifoTriggerLevel::Fourteen,
    }
}

/// The number of characters by which C names a trigger level: as many as it is for with a FIFO of
/// 16.
pub fn number_of(trigger: FifoTriggerLevel) -> u8
    ensures { result ≡ number_of trigger }
{
    match trigger {
        FifoTriggerLevel::One => 1,
        FifoTriggerLevel::Four => 4,
        FifoTriggerLevel::Eight => 8,
        FifoTriggerLevel::Fourteen => 14,
    }
}

impl UartReceiver {
    /// Becomes a receiver to which nothing has come yet, with a FIFO of this size.
    // What is in the queue's places means nothing. To clear so many would call `memset`.
    pub fn power_on(&mut self, fifo_size: u8, char_ticks: u16)
        requires { char_ticks ≤ MAX_CHAR_TICKS }
        ensures fresh { receiver_of self.new ≡
            spec.fresh (queue_spec.fifo_size_of fifo_size) char_ticks 0 }
        ensures canonical { IsCanonicalReceiver self.new }
    {
        self.timeout_ticks = 0;
        self.timeout_limit = TIMEOUT_CHARACTERS * char_ticks;
        self.is_overrun = 0;
        self.is_front_reported = 0;
        self.last_byte = 0;
        self.trigger = 1;
        self.fifo_size = places_of(fifo_size);
        self.queue.len = 0;
    }

    /// Becomes a receiver like this one.
    #[tactic(auto, using(crate::proofs::Levels::same_level))]
    pub fn restore(&mut self, saved: &Self)
        ensures after { receiver_of self.new ≡ receiver_of saved.now }
        ensures canonical { IsCanonicalReceiver self.new }
    {
        self.timeout_ticks = saved.timeout_ticks;
        self.timeout_limit = saved.timeout_limit;
        self.is_overrun = is_on(saved.is_overrun) as u8;
        self.is_front_reported = is_on(saved.is_front_reported) as u8;
        self.last_byte = saved.last_byte;
        self.trigger = number_of(trigger_of(saved.trigger));
        self.fifo_size = places_of(saved.fifo_size);
        self.queue.restore(&saved.queue, saved.fifo_size);
    }

    /// Returns whether the FIFO has room for one more character.
    // Each has room for 16, so mostly there is no need to look at its size.
    pub fn has_place(&self) -> bool
        ensures { result ≡ nat_lt (length (receiver_of self.now).queue)
            (characters (receiver_of self.now).size) }
    {
        (self.queue.len as usize) < FIFO_SIZE || self.queue.len < places_of(self.fifo_size)
    }

    // The errors of the front, unless they were reported.
    fn front_errors(&self) -> LSR
        ensures { result.0 ≡
            front_errors (receiver_of self.now).queue (receiver_of self.now).is_front_reported }
    {
        if self.queue.len == 0 || is_on(self.is_front_reported) {
            return LSR::empty();
        }
        LSR::from_bits_retain(self.queue.items[0].errors).intersection(LSR::CHARACTER_ERRORS)
    }
}

impl ReceiverParts for UartReceiver {
    ghost state = { λ r. receiver_of r };

    ghost canonical = { λ r. IsCanonicalReceiver r };

    ghost is_scheduled = { false };

    fn size(&self) -> FifoSize {
        fifo_size_of(self.fifo_size)
    }

    fn queue_len(&self) -> usize {
        count(self.queue.len, self.fifo_size)
    }

    #[tactic(auto, using(crate::proofs::Marks::only_unscheduled))]
    fn put(&mut self, new: Character) {
        if self.queue_len() == 0 {
            self.is_front_reported = 0;
        }
        push(
            &mut self.queue.len,
            &mut self.queue.items,
            UartCharacter::of(new),
        );
    }

    fn pop(&mut self) -> Option<Character> {
        let front = pop_front(&mut self.queue.len, &mut self.queue.items, self.fifo_size)?;
        self.is_front_reported = 0;
        Some(front.shown())
    }

    fn clear_queue(&mut self) {
        self.queue.len = 0;
    }

    #[tactic(auto, using(crate::proofs::Marks::none_set))]
    fn set_mark(&mut self, _origin: Origin, _mark: ArrivalMark) {}

    #[tactic(auto, using(crate::proofs::Marks::none_marked))]
    fn discard(&mut self) {}

    #[tactic(auto, using(crate::proofs::Marks::none_lost))]
    fn set_unscheduled_lost(&mut self, _on: bool) {}

    fn set_overrun(&mut self, on: bool) {
        self.is_overrun = on as u8;
    }

    fn set_front_reported(&mut self, on: bool) {
        self.is_front_reported = on as u8;
    }

    fn status(&self) -> LSR {
        let data_ready = flag(self.queue_len() > 0, LSR::DATA_READY);
        let overrun = flag(is_on(self.is_overrun), LSR::OVERRUN_ERROR);
        data_ready.union(overrun).union(self.front_errors())
    }

    fn has_errors(&self) -> bool {
        let len = self.queue_len();
        some_has_errors(&self.queue.items[..len])
    }

    #[tactic(auto, using(crate::proofs::Errors::none_of_none))]
    fn has_unreported_errors(&self) -> bool {
        let len = self.queue_len();
        if len == 0 {
            return false;
        }
        if !is_on(self.is_front_reported) {
            return some_has_errors(&self.queue.items[..len]);
        }
        some_has_errors(&self.queue.items[1..len])
    }

    fn last_byte(&self) -> u8 {
        self.last_byte
    }

    fn set_last_byte(&mut self, byte: u8) {
        self.last_byte = byte;
    }

    fn timeout(&self) -> Timeout {
        Timeout {
            ticks: self.timeout_ticks,
            limit: self.timeout_limit,
        }
    }

    fn set_timeout_ticks(&mut self, ticks: u16) {
        self.timeout_ticks = ticks;
    }

    fn trigger(&self) -> FifoTriggerLevel {
        trigger_of(self.trigger)
    }

    #[tactic(auto, using(crate::proofs::Levels::same_level))]
    fn set_trigger(&mut self, trigger: FifoTriggerLevel) {
        self.trigger = number_of(trigger);
    }
}
