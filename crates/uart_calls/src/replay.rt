//! A backend that plays back what reads returned, and keeps the accesses that are made.
//!
//! The accesses of a call are determined by the driver's fields and by what its reads return. So a
//! driver over a `Replay` is a function from these to the one list of accesses that the call may
//! make: over any other backend, a call with the same fields whose reads return the same bytes
//! makes the same accesses ([`replays_repeat_calls`](crate::laws::replays_repeat_calls)). So no
//! second program is needed that computes a call's list.
ghost use Rattle.std.specs.Prelude.{◌≡◌, true, false, ◌&&◌, [], ◌∷◌, ◌++◌};
ghost use Rattle.std.specs.Prelude.{nat_lt, length, IfSome, IsNone};
ghost use Rattle.uart_calls.specs.Replay.{ReplayStep, ReplaysShow};

use arrayvec::ArrayVec;
use std::marker::Model;
use uart_16550::backend::Backend;
use uart_spec::access::Access;

/// The number of accesses that a `Replay` keeps. No access may allocate, so there is a limit, and a
/// replay tells if there were more.
pub const REPLAY_ROOM: usize = 512;

/// A backend whose reads return the bytes of a list in turn, and then 0, whatever the register. It
/// keeps the accesses until there is no more room.
#[derive(Drop)]
pub struct Replay<'a> {
    answers: &'a [u8],
    accesses: ArrayVec<Access, REPLAY_ROOM>,
    is_whole: bool,
}

impl<'a> Model for Replay<'a> {
    ghost use Rattle.uart_calls.specs.Replay.{Replay};

    ghost Value = { Replay };

    ghost view = { λ r. record {
      answers = r.answers.now;
      made = r.accesses.items;
      whole = r.is_whole;
    } };
}

impl<'a> Replay<'a> {
    /// Returns a replay of these bytes, over which no access was made.
    ///
    /// # Examples
    ///
    /// ```
    /// let mut uart = Uart16550::new_with_backend(Replay::new(&[0x1e, 0x60, 0x0f]));
    /// ```
    pub fn new(answers: &'a [u8]) -> Self
        // proved: A `Replay` returns its answers in turn and keeps the accesses. What it shows
        //   after a call is a list of that call, whose reads returned these answers. If a `Replay`
        //   is given what the reads of a call over some backend returned, the call over the
        //   `Replay` has the same result, leaves the same fields, and makes the same accesses
        // on: `Backend` of `Replay`, `Replay::new`, `accesses`,
        //   `replay::replays_show_their_accesses`, `laws::replays_repeat_calls`,
        //   `laws::replay_room_is_this`; for each call a function of the test module `replays`
        ensures { result ≡ record { answers = answers.now; made = []; whole = true } }
    {
        Replay {
            answers,
            accesses: ArrayVec::new(),
            is_whole: true,
        }
    }

    /// Returns the accesses that were made, or `None` if there were more than `REPLAY_ROOM`.
    pub fn accesses(&self) -> Option<&[Access]>
        ensures some { IfSome result (λ accesses. (self.now.whole ≡ true)
            × (self.now.made ≡ accesses.now)) }
        ensures none { IsNone result → self.now.whole ≡ false }
    {
        if self.is_whole {
            Some(self.accesses.as_slice())
        } else {
            None
        }
    }

    // Keeps an access.
    fn keep(&mut self, access: Access)
        ensures answers { self.new.answers ≡ self.old.answers }
        ensures whole { self.new.whole ≡
            (self.old.whole && nat_lt (length self.old.made) REPLAY_ROOM) }
        ensures made { self.new.whole ≡ true →
            self.new.made ≡ self.old.made ++ access ∷ [] }
    {
        if self.accesses.try_push(access).is_err() {
            self.is_whole = false;
        }
    }
}

impl Backend for Replay<'_> {
    ghost step = { ReplayStep };

    fn read(&mut self, register_offset: u8) -> u8 {
        let answer = match self.answers {
            [first, rest @ ..] => {
                self.answers = rest;
                *first
            }
            [] => 0,
        };
        self.keep(Access::Read(register_offset as usize, answer));
        answer
    }

    fn write(&mut self, register_offset: u8, value: u8) {
        self.keep(Access::Write(register_offset as usize, value));
    }
}

/// If a replay kept all of its accesses, it shows those that led to it, and its reads returned its
/// bytes in turn.
///
/// This is a law that callers can cite. The function does nothing.
#[tactic(auto, using(crate::proofs::Replays::replays_show))]
pub fn replays_show_their_accesses()
    ensures { ReplaysShow }
{}
