//! The receiver: a queue of characters, and what became of each arrival.
ghost use Rattle.std.specs.Prelude.{◌≡◌, ◌==◌, ◌<◌, ◌≤◌, ℕ, [], true, bit_and, length, slice_get};
ghost use Rattle.uart_chip.specs.Data.{receiver_of, without_schedule};
ghost use Rattle.uart_chip.specs.Receiver as spec;
ghost use Rattle.uart_chip.specs.Receiver.{waiting};
ghost use Rattle.uart_chip.specs.Status.{receiver_status};
ghost use Rattle.uart_spec.specs.FifoSize.{characters};
ghost use Rattle.uart_spec.specs.declared.setup.FifoSize.TheVariants.{Sixteen, SixtyFour};
ghost use Rattle.uart_events.specs.declared.event.TheConstants.{MAX_CHAR_TICKS};

use crate::characters::Characters;
use crate::fifo::{Fifo, items_of};
use crate::flag;
use crate::journal::{Journal, Marks};
use crate::receiving::{ReceiverParts, enter};
use arrayvec::ArrayVec;
use bitflags::Flags;
use std::marker::Model;
use uart_events::ArrivalMark;
use uart_spec::registers::{FifoTriggerLevel, LSR};
use uart_spec::{FIFO_SIZE, FifoSize};

/// Where a character is from.
#[derive(Clone, Copy, Default)]
pub enum Origin {
    /// The arrival of the schedule with this number.
    Arrived(usize),
    /// Sent by the chip itself, in loopback.
    #[default]
    Looped,
    /// Received without a schedule. It has neither a number nor a mark, so the proofs about
    /// characters that come back in loopback serve for it too.
    Live,
}

/// A received character that has not been read.
#[derive(Clone, Copy, Default)]
pub struct Character {
    /// The byte.
    pub byte: u8,
    /// Its errors, as bits of LSR.
    pub errors: u8,
    /// Where it is from.
    pub origin: Origin,
}

/// The ticks towards a reception timeout.
#[derive(Clone, Copy)]
pub struct Timeout {
    /// The ticks since a character was received or read, counted up to the limit.
    pub ticks: u16,
    /// The number of ticks after which the timeout is due.
    pub limit: u16,
}

/// The receiver: received characters are in its queue until DATA is read.
#[derive(Drop)]
// It has a model of its own, and so has the transmitter: each body is proved over its own record.
pub struct Receiver<Q: Fifo<Character> + Drop, J: Journal + Drop> {
    queue: Characters<Q>,
    status: LSR,
    is_overrun: bool,
    is_front_reported: bool,
    last_byte: u8,
    timeout: Timeout,
    trigger: FifoTriggerLevel,
    arrived: usize,
    journal: J,
    is_unscheduled_lost: bool,
}

impl<Q: Fifo<Character> + Drop, J: Journal + Drop> Model for Receiver<Q, J> {
    ghost use Rattle.uart_chip.specs.Receiver.{ReceiverState};

    ghost Value = { ReceiverState };

    ghost view = { λ r. record {
      size = r.queue.size;
      queue = r.queue.items;
      is_overrun = r.is_overrun;
      is_front_reported = r.is_front_reported;
      last_byte = r.last_byte;
      timeout_ticks = r.timeout.ticks;
      timeout_limit = r.timeout.limit;
      trigger = r.trigger;
      arrived = r.arrived;
      marks = J.recorded r.journal;
      is_unscheduled_lost = r.is_unscheduled_lost;
    } };

    ghost use Rattle.std.specs.Prelude.{◌≡◌};
    ghost use Rattle.uart_chip.specs.Status.{receiver_status};

    // What LSR shows of the receiver is kept, but for the errors behind the front, which the queue
    // counts. So a read costs the same whatever waits.
    ghost invariant = { λ r.
        r.status.0 ≡ receiver_status r.queue.items r.is_overrun r.is_front_reported };
}

impl Timeout {
    /// Returns whether the timeout is due.
    pub fn is_due(self) -> bool
        ensures { result ≡ (self.ticks == self.limit) }
    {
        self.ticks == self.limit
    }
}

impl Character {
    ghost use Rattle.uart_chip.specs.Errors.{error_weight};
    ghost use Rattle.uart_chip.specs.Receiver.{has_errors};
    ghost use Rattle.uart_spec.specs.declared.registers.line_status.TheConstants.LSR;

    // Returns the errors that LSR shows of the character at the front.
    fn shown_errors(&self) -> LSR
        ensures { result.0 ≡ bit_and self.now.errors LSR.CHARACTER_ERRORS.0 }
    {
        LSR::from_bits_retain(self.errors).intersection(LSR::CHARACTER_ERRORS)
    }

    /// Returns whether the character has a parity error or a framing error, or is a break.
    pub fn has_errors(&self) -> bool
        ensures { result ≡ has_errors self.now }
    {
        LSR::from_bits_retain(self.errors).intersects(LSR::CHARACTER_ERRORS)
    }

    /// Returns 1 if the character has errors, else 0.
    pub fn error_weight(&self) -> usize
        ensures { result ≡ error_weight self.now }
    {
        if self.has_errors() { 1 } else { 0 }
    }
}

// Returns what LSR shows of a receiver, but for the errors behind the front.
fn status_of<Q: Fifo<Character>>(queue: &Q, is_overrun: bool, is_front_reported: bool) -> LSR
    ensures { result.0 ≡ receiver_status (Q.items queue.now) is_overrun is_front_reported }
{
    let data_ready = flag(!queue.is_empty(), LSR::DATA_READY);
    let overrun = flag(is_overrun, LSR::OVERRUN_ERROR);
    let errors = match queue.get(0) {
        Some(front) if !is_front_reported => front.shown_errors(),
        _ => LSR::empty(),
    };
    data_ready.union(overrun).union(errors)
}

/// A receiver without a schedule, as plain data.
#[derive(Drop)]
pub struct ReceiverData {
    /// The characters that have not been read, from the front.
    pub queue: ArrayVec<Character, FIFO_SIZE>,
    /// Whether a character was lost since the last read of LSR.
    pub is_overrun: bool,
    /// Whether a read of LSR has reported the errors of the front.
    pub is_front_reported: bool,
    /// The byte that was read last, which a read of an empty receiver returns.
    pub last_byte: u8,
    /// The ticks since a character was received or read, counted up to the timeout.
    pub timeout_ticks: u16,
    /// The trigger level of the FIFO.
    pub trigger: FifoTriggerLevel,
}

impl<Q: Fifo<Character> + Drop, J: Journal + Drop> Receiver<Q, J> {
    /// Returns a receiver that has received nothing, over an empty queue, with this journal.
    pub fn new(queue: Q, journal: J, char_ticks: u16) -> Self
        requires char_ticks { char_ticks ≤ MAX_CHAR_TICKS }
        requires empty { Q.items queue ≡ [] }
        ensures { result ≡
            record (spec.fresh (Q.size_of queue) char_ticks 0) { marks = J.recorded journal } }
    {
        Self {
            queue: Characters::new(queue),
            is_overrun: false,
            is_front_reported: false,
            last_byte: 0,
            timeout: Timeout {
                ticks: 0,
                limit: 4 * char_ticks,
            },
            trigger: FifoTriggerLevel::One,
            arrived: 0,
            journal,
            is_unscheduled_lost: false,
            status: LSR::empty(),
        }
    }

    /// Returns the receiver with these data, over an empty queue of 16, with this journal. None of
    /// its arrivals has arrived.
    pub fn from_data(queue: Q, journal: J, char_ticks: u16, saved: &ReceiverData) -> Self
        requires char_ticks { char_ticks ≤ MAX_CHAR_TICKS }
        requires empty { Q.items queue ≡ [] }
        requires size { Q.size_of queue ≡ Sixteen }
        ensures { result ≡
            record (receiver_of char_ticks saved.now) { marks = J.recorded journal } }
    {
        let queue = Characters::filled(queue, &saved.queue);
        let status = status_of(&queue, saved.is_overrun, saved.is_front_reported);
        Self {
            queue,
            is_overrun: saved.is_overrun,
            is_front_reported: saved.is_front_reported,
            last_byte: saved.last_byte,
            timeout: Timeout {
                ticks: saved.timeout_ticks,
                limit: 4 * char_ticks,
            },
            trigger: saved.trigger,
            arrived: 0,
            journal,
            is_unscheduled_lost: false,
            status,
        }
    }

    /// Returns the receiver as plain data, without its marks. The data are those of one with a FIFO
    /// of 16.
    pub fn data(&self) -> ReceiverData
        requires { self.now.size ≡ Sixteen }
        ensures { (char_ticks : ℕ) →
            receiver_of char_ticks result ≡ without_schedule char_ticks self.now }
    {
        ReceiverData {
            queue: items_of(&self.queue),
            is_overrun: self.is_overrun,
            is_front_reported: self.is_front_reported,
            last_byte: self.last_byte,
            timeout_ticks: self.timeout.ticks,
            trigger: self.trigger,
        }
    }

    /// Receives the next arrival of the schedule. In loopback it is discarded.
    pub fn arrive(&mut self, loopback: bool, fifo: bool, byte: u8, errors: u8)
        requires { self.old.arrived < length self.old.marks }
        ensures { self.new ≡ spec.arrive loopback fifo byte errors self.old }
    {
        let origin = Origin::Arrived(self.arrived);
        if self.arrived < self.journal.len() {
            self.arrived += 1;
        }
        if loopback {
            self.journal.set_mark(origin, ArrivalMark::Discarded);
        } else {
            enter(
                self,
                fifo,
                Character {
                    byte,
                    errors,
                    origin,
                },
            );
        }
    }

    /// Empties the queue, and makes it that of a FIFO of this size. The caller must show that it
    /// can be, and that the size is at most 64.
    #[tactic(auto, using(crate::proofs::Status::cleared))]
    pub fn resize(&mut self, size: FifoSize)
        requires resizable { Q.is_resizable ≡ true }
        requires most { characters size ≤ characters SixtyFour }
        ensures { self.new ≡ record self.old { size = size; queue = [] } }
    {
        self.queue.resize(size);
        self.status = flag(self.is_overrun, LSR::OVERRUN_ERROR);
    }

    /// Returns the number of received bytes that have not been read.
    pub fn waiting_len(&self) -> usize
        ensures { result ≡ length (waiting self.now) }
    {
        self.queue.len()
    }

    /// Returns the received byte with this index, from the front.
    pub fn waiting_at(&self, i: usize) -> Option<u8>
        ensures { result ≡ slice_get (waiting self.now) i }
    {
        self.queue.get(i).map(|character| character.byte)
    }

    /// Returns the number of arrivals of the schedule, past and future.
    pub fn arrivals(&self) -> usize
        ensures { result ≡ length self.now.marks }
    {
        self.journal.len()
    }
}

impl<Q: Fifo<Character> + Drop> Receiver<Q, Marks> {
    /// Returns what became of the arrival with this number.
    pub fn mark(&self, i: usize) -> Option<ArrivalMark>
        ensures { result ≡ slice_get self.now.marks i }
    {
        self.journal.get(i)
    }
}

impl<Q: Fifo<Character> + Drop, J: Journal + Drop> ReceiverParts for Receiver<Q, J> {
    ghost state = { λ r. r };

    ghost canonical = { λ r. Unit {0} };

    ghost is_scheduled = { true };

    fn size(&self) -> FifoSize {
        self.queue.size()
    }

    fn queue_len(&self) -> usize {
        self.queue.len()
    }

    #[tactic(auto, using(crate::proofs::Status::same_front, crate::proofs::Status::alone))]
    fn put(&mut self, new: Character) {
        if self.queue.is_empty() {
            self.is_front_reported = false;
            self.status = self.status.union(LSR::DATA_READY).union(new.shown_errors());
        }
        self.queue.push(new);
    }

    fn pop(&mut self) -> Option<Character> {
        let front = self.queue.pop()?;
        self.is_front_reported = false;
        self.status = status_of(&self.queue, self.is_overrun, false);
        Some(front)
    }

    #[tactic(auto, using(crate::proofs::Status::cleared))]
    fn clear_queue(&mut self) {
        self.queue.clear();
        self.status = flag(self.is_overrun, LSR::OVERRUN_ERROR);
    }

    fn set_mark(&mut self, origin: Origin, mark: ArrivalMark) {
        self.journal.set_mark(origin, mark);
    }

    fn discard(&mut self) {
        self.journal.discard(&self.queue);
    }

    fn set_unscheduled_lost(&mut self, on: bool) {
        self.is_unscheduled_lost = on;
    }

    fn set_overrun(&mut self, on: bool) {
        self.is_overrun = on;
        self.status = status_of(&self.queue, on, self.is_front_reported);
    }

    fn set_front_reported(&mut self, on: bool) {
        self.is_front_reported = on;
        self.status = status_of(&self.queue, self.is_overrun, on);
    }

    fn status(&self) -> LSR {
        self.status
    }

    fn has_errors(&self) -> bool {
        self.queue.has_errors()
    }

    fn has_unreported_errors(&self) -> bool {
        self.queue.has_unreported_errors(self.is_front_reported)
    }

    fn last_byte(&self) -> u8 {
        self.last_byte
    }

    fn set_last_byte(&mut self, byte: u8) {
        self.last_byte = byte;
    }

    fn timeout(&self) -> Timeout {
        self.timeout
    }

    fn set_timeout_ticks(&mut self, ticks: u16) {
        self.timeout.ticks = ticks;
    }

    fn trigger(&self) -> FifoTriggerLevel {
        self.trigger
    }

    fn set_trigger(&mut self, trigger: FifoTriggerLevel) {
        self.trigger = trigger;
    }
}
