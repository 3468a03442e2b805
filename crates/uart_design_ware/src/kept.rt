//! Received characters that are kept until the driver reads them.
ghost use Rattle.std.specs.Prelude.{◌≡◌, ◌<◌, ◌≤◌, ◌==◌, [], ◌∷◌, ◌++◌, length, MatchOption};
ghost use Rattle.uart_design_ware.specs.Kept.{ShowsFirst};

use bitflags::Flags;
use std::marker::Model;
use uart_spec::registers::LSR;

// How many received characters are kept while LCR is written.
pub(crate) const KEPT: usize = 64;

// A received character that is kept, with the errors that LSR showed for it.
#[derive(Clone, Copy, Debug, Drop)]
pub(crate) struct KeptCharacter {
    // The byte that was received.
    pub(crate) byte: u8,
    // Its errors, which LSR has not yet shown to the driver.
    pub(crate) errors: LSR,
}

// Characters in the order in which they were received.
// The first one is in the first cell. Taking it moves the others up, which costs 64 cells. Only a
// character that came in the course of a write of LCR is ever kept.
#[derive(Debug, Drop)]
pub(crate) struct KeptCharacters {
    cells: [KeptCharacter; KEPT],
    count: usize,
}

impl Model for KeptCharacters {
    ghost use Rattle.std.specs.Prelude.{List, take, length, ◌≤◌, ◌≡◌};
    ghost use Rattle.uart_design_ware.specs.declared.kept.KeptCharacter.{KeptCharacter};

    ghost Value = { List KeptCharacter };

    ghost view = { λ k. take k.count k.cells };

    ghost invariant = { λ k. (k.count ≤ 64) × (length k.cells ≡ 64) };
}

impl KeptCharacters {
    // Returns none.
    pub(crate) fn new() -> Self
        ensures { result ≡ [] }
    {
        KeptCharacters {
            cells: [KeptCharacter {
                byte: 0,
                errors: LSR::from_bits_retain(0),
            }; KEPT],
            count: 0,
        }
    }

    // Returns whether there is room for no more.
    pub(crate) fn is_full(&self) -> bool
        ensures full { result ≡ (length self.now == KEPT) }
        ensures bound { length self.now ≤ KEPT }
    {
        self.count == KEPT
    }

    // Returns whether there are none.
    pub(crate) fn is_empty(&self) -> bool
        ensures { result ≡ (length self.now == 0) }
    {
        self.count == 0
    }

    // Adds a character behind the others.
    pub(crate) fn keep(&mut self, character: KeptCharacter)
        // proved: The kept characters are a list of at most 64, and are taken in the order in which
        //   they came
        // on: `KeptCharacters`: `keep`, `pop`, `take_errors`, `is_full`, `is_empty`, `clear`
        requires { length self.old < KEPT }
        ensures { self.new ≡ self.old ++ character ∷ [] }
    {
        self.cells[self.count] = character;
        self.count += 1;
    }

    // Takes the first one.
    pub(crate) fn pop(&mut self) -> Option<KeptCharacter>
        ensures { MatchOption result ((self.old ≡ []) × (self.new ≡ []))
            (λ first. self.old ≡ first ∷ self.new) }
    {
        if self.count == 0 {
            return None;
        }
        let first = self.cells[0];
        self.cells.rotate_left(1);
        self.count -= 1;
        Some(first)
    }

    // Takes the errors of the first one, which stays without them.
    pub(crate) fn take_errors(&mut self) -> Option<LSR>
        ensures { MatchOption result ((self.old ≡ []) × (self.new ≡ []))
            (λ errors. ShowsFirst errors self.old self.new) }
    {
        if self.count == 0 {
            return None;
        }
        let errors = self.cells[0].errors;
        self.cells[0].errors = LSR::from_bits_retain(0);
        Some(errors)
    }

    // Takes all.
    pub(crate) fn clear(&mut self)
        ensures { self.new ≡ [] }
    {
        self.count = 0;
    }
}
