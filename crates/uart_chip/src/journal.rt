//! The journal of a receiver: what became of each arrival of a schedule.
ghost use Rattle.std.specs.Prelude.{◌≡◌, List, [], length, replicate, slice_get, IfOk};
ghost use Rattle.uart_chip.specs.Receiver as spec;
ghost use Rattle.uart_events.specs.declared.event.ArrivalMark.{ArrivalMark};
ghost use Rattle.uart_events.specs.declared.event.ArrivalMark.TheVariants.{Pending};

use crate::fifo::Fifo;
use crate::receiver::{Character, Origin};
use std::alloc::{AllocError, Global};
use std::marker::Model;
use uart_events::ArrivalMark;

/// Where a receiver records what becomes of each arrival.
pub trait Journal {
    // A mark for each arrival of the schedule.
    ghost recorded: { Self → List ArrivalMark };

    /// Returns the number of arrivals of the schedule, past and future.
    fn len(&self) -> usize
        ensures { result ≡ length (recorded self.now) };

    /// Sets the mark of an arrival. An unscheduled character has none.
    fn set_mark(&mut self, origin: Origin, mark: ArrivalMark)
        ensures { recorded self.new ≡ spec.set_mark origin mark (recorded self.old) };

    /// Marks the characters of a queue as discarded.
    fn discard<Q: Fifo<Character>>(&mut self, characters: &Q)
        ensures { recorded self.new ≡ spec.discard (Q.items characters.now) (recorded self.old) };
}

/// A journal with a mark for each arrival of a schedule, in memory that is allocated once.
#[derive(Drop)]
pub struct Marks {
    list: Vec<ArrivalMark>,
}

impl Model for Marks {
    ghost use Rattle.std.specs.Prelude.{List};
    ghost use Rattle.uart_events.specs.declared.event.ArrivalMark.{ArrivalMark};

    ghost Value = { List ArrivalMark };

    ghost view = { λ m. m.list.items };
}

impl Marks {
    /// Returns the journal of a schedule with this number of arrivals, none of which has arrived
    /// yet. Allocates its memory.
    ///
    /// # Errors
    ///
    /// `AllocError` if memory could not be allocated.
    pub fn new(alloc: Global, arrivals: usize) -> Result<Self, AllocError>
        ensures { IfOk result (λ m. m ≡ replicate arrivals Pending) }
    {
        let mut list = Vec::with_capacity(alloc, arrivals)?;
        for _ in 0..arrivals {
            list.push(ArrivalMark::Pending)?;
        }
        Ok(Marks { list })
    }

    /// Returns what became of the arrival with this number.
    pub fn get(&self, i: usize) -> Option<ArrivalMark>
        ensures { result ≡ slice_get self.now i }
    {
        self.list.get(i).copied()
    }
}

impl Journal for Marks {
    ghost recorded = { λ m. m };

    fn len(&self) -> usize {
        self.list.len()
    }

    fn set_mark(&mut self, origin: Origin, mark: ArrivalMark) {
        if let Origin::Arrived(number) = origin {
            if number < self.list.len() {
                self.list[number] = mark;
            }
        }
    }

    fn discard<Q: Fifo<Character>>(&mut self, characters: &Q) {
        for i in 0..characters.len() {
            let origin = characters.get(i).unwrap().origin;
            self.set_mark(origin, ArrivalMark::Discarded);
        }
    }
}
