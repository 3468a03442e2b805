//! What was written in loopback and can still come back.
ghost use Rattle.std.specs.Prelude.{◌≡◌, ◌<◌, IfSome};
ghost use Rattle.uart_judges.specs.declared.replay.looped.TheConstants.{MOST_LOOPED};
ghost use Rattle.uart_judges.specs.Looped as spec;

/// The most bytes that are followed.
pub const MOST_LOOPED: usize = 16;

/// The bytes that were written in loopback and can still come back.
#[derive(Clone, Copy, Debug, PartialEq, Eq)]
pub struct Looped {
    /// Whether nothing can come back but these bytes, in this order.
    pub is_known: bool,
    /// The bytes, the oldest first, and other places behind them.
    pub bytes: [u8; MOST_LOOPED],
    /// How many bytes these are.
    pub count: usize,
}

impl Looped {
    /// Returns that anything can come back.
    pub fn unknown() -> Self
        ensures { result ≡ spec.unknown }
    {
        Self {
            is_known: false,
            bytes: [0; MOST_LOOPED],
            count: 0,
        }
    }

    /// Returns that nothing can come back.
    pub fn nothing() -> Self
        ensures { result ≡ spec.nothing }
    {
        Self {
            is_known: true,
            bytes: [0; MOST_LOOPED],
            count: 0,
        }
    }

    /// Returns what can come back after LSR was read, which shows whether nothing can: from there
    /// on it is known. What is known already stays: a chip may show an empty transmitter while a
    /// byte is still on its way.
    pub fn begun(self, is_empty: bool) -> Self
        ensures { result ≡ spec.begun is_empty self }
    {
        if is_empty && !self.is_known {
            Self::nothing()
        } else {
            self
        }
    }

    /// Returns these and one more. Of more than there are places for nothing is known.
    pub fn and(self, byte: u8) -> Self
        ensures { result ≡ spec.and self byte }
    {
        if !self.is_known || self.count >= MOST_LOOPED {
            return Self::unknown();
        }
        let mut bytes = self.bytes;
        bytes[self.count] = byte;
        Self {
            bytes,
            count: self.count + 1,
            ..self
        }
    }

    // Returns where the oldest one is that has this value, if there is one.
    fn place_of(&self, byte: u8) -> Option<usize>
        ensures value { result ≡ spec.place_of self.now byte }
        ensures within { IfSome result (λ place. place < self.now.count × place < MOST_LOOPED) }
    {
        self.bytes
            .iter()
            .take(self.count)
            .position(|looped| *looped == byte)
    }

    /// Returns whether this byte cannot come back.
    pub fn excludes(&self, byte: u8) -> bool
        ensures { result ≡ spec.excludes self.now byte }
    {
        self.is_known && self.place_of(byte).is_none()
    }

    /// Returns what can come back after this byte: those before it were lost.
    pub fn after(self, byte: u8) -> Self
        ensures { result ≡ spec.after self byte }
    {
        match self.place_of(byte) {
            None => self,
            Some(place) => {
                let mut bytes = self.bytes;
                bytes.copy_within(place + 1..MOST_LOOPED, 0);
                Self {
                    bytes,
                    count: self.count - (place + 1),
                    ..self
                }
            }
        }
    }
}
