//! Whether a chip answers as the chip that is defined could, read for read.
ghost use Rattle.std.specs.Prelude.{◌≡◌, List, IsSome, is_some};
ghost use Rattle.uart_events.specs.declared.event.Chip.{Chip};
ghost use Rattle.uart_judges.specs.declared.replay.known.Start.{Start};
ghost use Rattle.uart_judges.specs.Known as spec;
ghost use Rattle.uart_judges.specs.Replays.{AreSound, NoneReturns, Seen, difference, differences, each_of, known_after};
ghost use Rattle.uart_judges.specs.Replays.{known_from, known_reads, seen_read};
ghost use Rattle.uart_spec.specs.declared.access.Access.TheVariants.{Write};
ghost use Rattle.uart_judges.specs.Replays.{Did};

use crate::replay::difference::{Difference, Reported};
use crate::replay::known::{Known, Start};
use crate::replay::rule::broken;
use uart_chip::Chip;

/// Follows the accesses to a chip, and finds the reads whose value the chip could not have
/// returned.
///
/// Its size is constant. It knows nothing of time, of what arrives and of the modem lines: it
/// reports a difference only if there is one under every schedule.
#[derive(Clone, Copy, Debug, PartialEq, Eq)]
pub struct Replayer {
    known: Known,
}

impl Replayer {
    /// Returns a replayer at the start of a recording of a chip of this model.
    pub fn new(model: Chip, start: Start) -> Self
        ensures { result.known ≡ spec.first_known model start }
    {
        Self {
            known: Known::new(model, start),
        }
    }

    /// Follows a read of the register at this offset, which returned this value. Returns a
    /// difference if the chip could not have returned it.
    ///
    /// The value of a read that was reported is then left out: what follows is compared as if it
    /// were not known.
    pub fn read(&mut self, offset: usize, value: u8) -> Option<Difference>
        // promise: a read of a chip that is reported has no explanation under any schedule
        // with: read.sound
        // shown by: line_status, latches
        // refused: reported_read_is_believed
        // proved: Which rule is reported, and what is known after each access
        // on: `Replayer::read`, clauses `exact` and `after`; `Replayer::write`
        ensures exact { result ≡ difference offset value self.old.known }
        ensures after { self.new.known ≡
            known_after self.old.known (seen_read (is_some result) offset value) }
        // if: what is known is what these accesses say of such a chip
        ensures sound { IsSome result → (model : Chip) → (start : Start) → (seen : List Seen) →
            self.old.known ≡ known_from (spec.first_known model start) seen →
            NoneReturns model start seen offset value }
    {
        match broken(&self.known, offset, value) {
            None => {
                self.known = self.known.after_read(offset, value);
                None
            }
            Some(rule) => {
                // If the value were kept, no machine would explain the recording from here on, and
                // any further report would be right.
                self.known = self.known.after_asking(offset);
                Some(Difference {
                    offset,
                    recorded: value,
                    rule,
                })
            }
        }
    }

    /// Follows so many reads in turn of the register at this offset, which all returned this value.
    /// Returns what [`read`] returns at each of them, in the time of two.
    ///
    /// [`read`]: Replayer::read
    pub fn reads(&mut self, offset: usize, value: u8, times: u64) -> Reported
        // proved: Of equal reads in turn, the same of each
        // on: `Replayer::reads`
        ensures exact { each_of times result ≡ differences times offset value self.old.known }
        ensures after { self.new.known ≡ known_reads times offset value self.old.known }
        ensures sound { (model : Chip) → (start : Start) → (seen : List Seen) →
            self.old.known ≡ known_from (spec.first_known model start) seen →
            AreSound model start seen offset value (each_of times result) }
    {
        if times == 0 {
            return Reported {
                first: None,
                others: None,
            };
        }
        let first = self.read(offset, value);
        if times == 1 {
            return Reported {
                first,
                others: None,
            };
        }
        let others = self.read(offset, value);
        Reported { first, others }
    }

    /// Follows a write of this value to the register at this offset.
    pub fn write(&mut self, offset: usize, value: u8)
        ensures { self.new.known ≡ known_after self.old.known (Did (Write offset value)) }
    {
        self.known = self.known.after_write(offset, value);
    }
}
