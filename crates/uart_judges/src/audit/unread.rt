//! The characters that arrived and were not read, as far as the recording says so.
ghost use Rattle.std.specs.Prelude.{◌≡◌, ◌==◌, if◌then◌else◌};
ghost use Rattle.uart_judges.specs.declared.audit.unread.TheConstants.{MOST_UNREAD};
ghost use Rattle.uart_judges.specs.Steps.{loops_back};
ghost use Rattle.uart_judges.specs.Unread as spec;

use crate::audit::action::Action;
use crate::audit::setup::Setup;
use crate::audit::step::Step;
use bitflags::Flags;
use uart_spec::registers::{FCR, LSR};

/// A character that arrived.
#[derive(Clone, Copy, Debug, PartialEq, Eq)]
pub struct Arrived {
    /// The byte.
    pub byte: u8,
    /// Its errors.
    pub errors: LSR,
}

/// The most characters that wait in a receiver.
pub const MOST_UNREAD: usize = 16;

/// The characters that arrived and were not read.
#[derive(Clone, Copy, Debug, PartialEq, Eq)]
pub struct Unread {
    /// Whether they are known. They are, once the receiver was seen empty, up to a character that
    /// the recording does not have.
    pub is_known: bool,
    /// The characters, the oldest first, and free places behind them.
    pub characters: [Option<Arrived>; MOST_UNREAD],
    /// How many characters these are.
    pub count: usize,
    /// Whether LSR was read while the oldest one was at the front.
    pub is_front_seen: bool,
}

impl Unread {
    // Returns that nothing is known.
    pub(crate) fn unknown() -> Self
        ensures { result ≡ spec.unknown }
    {
        Unread {
            is_known: false,
            characters: [None; MOST_UNREAD],
            count: 0,
            is_front_seen: false,
        }
    }

    // Returns that no character waits.
    fn none() -> Self
        ensures { result ≡ spec.nothing }
    {
        Unread {
            is_known: true,
            characters: [None; MOST_UNREAD],
            count: 0,
            is_front_seen: false,
        }
    }

    // Returns the oldest character, if it is known.
    pub(crate) fn front(&self) -> Option<Arrived>
        ensures { result ≡ spec.front self.now }
    {
        self.characters[0]
    }

    // Returns the character behind the oldest one, if there is one.
    pub(crate) fn second(&self) -> Option<Arrived>
        ensures { result ≡ spec.second self.now }
    {
        self.characters[1]
    }

    // Returns whether each place is taken.
    pub(crate) fn is_full(&self) -> bool
        ensures { result ≡ (self.now.count == MOST_UNREAD) }
    {
        self.count == MOST_UNREAD
    }

    // Returns what is left behind the oldest character.
    fn behind(&self) -> Self
        ensures { result ≡ spec.behind self.now }
    {
        let mut characters = self.characters;
        characters.copy_within(1..MOST_UNREAD, 0);
        characters[MOST_UNREAD - 1] = None;
        Unread {
            is_known: self.is_known,
            characters,
            count: self.count.saturating_sub(1),
            is_front_seen: false,
        }
    }

    // Returns these and one more. If there is no room it is lost.
    fn and(&self, arrived: Arrived) -> Self
        ensures { result ≡ spec.and self.now arrived }
    {
        let mut after = *self;
        if self.count < MOST_UNREAD {
            after.characters[self.count] = Some(arrived);
            after.count = self.count + 1;
        }
        after
    }

    // Returns that this one waits alone: without FIFO it replaces the one before.
    fn alone(arrived: Arrived) -> Self
        ensures { result ≡ spec.and spec.nothing arrived }
    {
        Unread::none().and(arrived)
    }

    // Returns what waits after a character that arrived.
    fn after_arrival(self, has_fifo: Option<bool>, arrived: Arrived) -> Self
        ensures { result ≡ spec.after_arrival self has_fifo arrived }
    {
        if !self.is_known {
            return self;
        }
        match has_fifo {
            Some(true) => self.and(arrived),
            Some(false) => Unread::alone(arrived),
            None => match self.front() {
                None => self.and(arrived),
                Some(_) => Unread::unknown(),
            },
        }
    }

    // Goes on by a read of LSR. A character that waits and did not arrive by the recording shows
    // that it does not have all of them.
    pub(crate) fn look(&mut self, lsr: LSR)
        ensures { self.new ≡ spec.after_look self.old lsr }
    {
        if !lsr.contains(LSR::DATA_READY) {
            *self = Unread::none();
            return;
        }
        match self.front() {
            None => *self = Unread::unknown(),
            Some(_) => self.is_front_seen = true,
        }
    }

    // Returns what waits after LSR was read.
    fn after_look(self, lsr: LSR) -> Self
        ensures { result ≡ spec.after_look self lsr }
    {
        let mut after = self;
        after.look(lsr);
        after
    }

    // Returns what waits after DATA was read. If the byte is another than the one that arrived,
    // nothing is known of those behind it.
    pub(crate) fn after_read(self, byte: u8) -> Self
        ensures { result ≡ spec.after_read self byte }
    {
        match self.front() {
            None => self,
            Some(arrived) => {
                if arrived.byte == byte {
                    self.behind()
                } else {
                    Unread::unknown()
                }
            }
        }
    }

    // Returns what waits after a read of offset 0 that may have taken the oldest character.
    fn after_maybe_read(self) -> Self
        ensures { result ≡ spec.maybe_taken self (spec.front self) }
    {
        match self.front() {
            None => self,
            Some(_) => Unread::unknown(),
        }
    }

    // Returns what waits after FCR was written.
    fn after_control(self, step: Step) -> Self
        ensures { result ≡ spec.after_control self step }
    {
        if step.empties(FCR::RX_FIFO_RESET) {
            return Unread::none();
        }
        if step.may_empty(FCR::RX_FIFO_RESET) {
            return Unread::unknown();
        }
        self
    }

    // Goes on by a write of DATA. What comes back in loopback is not followed.
    pub(crate) fn send(&mut self, setup: Setup)
        ensures { self.new ≡ if loops_back setup.modem then spec.unknown else self.old }
    {
        if setup.loops_back() {
            *self = Unread::unknown();
        }
    }

    // Returns what waits after a step. What comes back in loopback is not followed.
    pub(crate) fn after(self, step: Step) -> Self
        ensures { result ≡ spec.next_unread self step }
    {
        match step.action {
            Action::LooksAtLine(lsr) => self.after_look(lsr),
            Action::Receives(byte) => self.after_read(byte),
            Action::ControlsFifo(_) => self.after_control(step),
            Action::MayReceive => self.after_maybe_read(),
            Action::Sends(_) | Action::MaySend if step.setup.loops_back() => Unread::unknown(),
            Action::Arrives(_, _) if step.setup.loops_back() => Unread::unknown(),
            Action::Arrives(byte, errors) => {
                self.after_arrival(step.setup.has_fifo, Arrived { byte, errors })
            }
            _ => self,
        }
    }
}
