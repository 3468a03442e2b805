//! Whether shared rings are in use, and whether a handler came meanwhile.
ghost use Rattle.std.specs.Prelude.{◌≡◌};
ghost use Rattle.uart_waits.specs.Occupancy.{abandoned, entered, left};

/// Whether shared rings are in use, and whether a handler came meanwhile.
///
/// A handler cannot wait for who uses the rings, and an edge that it came for does not come again.
/// So it leaves a mark, and who uses the rings serves it before leaving.
#[derive(Clone, Copy, Debug, PartialEq, Eq, Drop)]
pub struct Occupancy {
    /// Whether somebody uses the rings.
    pub is_taken: bool,
    /// Whether a handler came that was refused, and nobody has begun to serve since.
    pub is_owed: bool,
}

impl Occupancy {
    /// Returns what it is once somebody came, a handler or another caller: who comes while the
    /// rings are taken is refused, and a handler leaves its mark. A handler that is let in serves
    /// what is owed.
    pub fn entered(self, is_handler: bool) -> Self
        // proved: A handler that is refused leaves a mark, and one that is let in takes it
        // on: `Occupancy::entered`
        ensures { result ≡ entered is_handler self }
    {
        let is_owed = if self.is_taken {
            self.is_owed || is_handler
        } else {
            self.is_owed && !is_handler
        };
        Occupancy {
            is_taken: true,
            is_owed,
        }
    }

    /// Returns what it is once who uses the rings is done. If a handler is owed something, the
    /// mark goes, and the rings stay taken: serve it, and be done again.
    pub fn left(self) -> Self
        // proved: Who is done leaves if no handler is owed anything; else the mark goes, and the
        //   rings stay taken
        // on: `Occupancy::left`
        ensures { result ≡ left self }
    {
        Occupancy {
            is_taken: self.is_owed,
            is_owed: false,
        }
    }

    /// Returns what it is once who uses the rings went in the middle, by a panic: a mark stays, for
    /// who comes next.
    pub fn abandoned(self) -> Self
        // proved: Who goes in the middle leaves the mark
        // on: `Occupancy::abandoned`
        ensures { result ≡ abandoned self }
    {
        Occupancy {
            is_taken: false,
            is_owed: self.is_owed,
        }
    }
}
