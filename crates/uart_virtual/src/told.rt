//! What a monitor has to do after a call, and what a port keeps of what it told.

/// What a monitor has to do after a call.
///
/// A monitor whose interrupt controller takes edges obeys `signal`, and one whose controller takes
/// levels obeys `level`. Each obeys `has_room`.
#[derive(Clone, Copy, Debug, PartialEq, Eq)]
pub struct Todo {
    /// Signal the guest's interrupt once: the line rose, or has to be taken as risen.
    pub signal: bool,
    /// Set the interrupt line to this level.
    pub level: bool,
    /// The level is another one than after the call before.
    pub has_moved: bool,
    /// Offer input again: there was no room, and now nothing waits, or the guest made room by
    /// another call than a read of DATA. It is told once.
    pub has_room: bool,
    /// How many bytes of output are ready. `output` returns them.
    pub ready: usize,
}

/// What a monitor was told, as far as the next call depends on it.
#[derive(Clone, Copy, Debug, PartialEq, Eq)]
pub struct Told {
    /// The level of the line.
    pub line: bool,
    /// Whether the monitor may take it that there is room for input: it was told so, and since then
    /// there was always room.
    pub has_room: bool,
    /// The guest has read ISR since the last signal.
    pub has_looked: bool,
    /// How many more falls of the line the last signal covers.
    pub spare: u8,
}

/// What a call is, as far as signals are concerned.
#[derive(Clone, Copy, Debug, PartialEq, Eq)]
pub struct Kind {
    /// The host brings something.
    pub brings: bool,
    /// The guest reads ISR.
    pub looks: bool,
    /// The guest reads or writes DATA.
    pub moves_data: bool,
    /// The guest writes FCR, which can empty the FIFO, or MCR, which can end loopback, or the port
    /// is a new one: room that there is now is told at once.
    pub may_make_room: bool,
}

/// What is seen of a chip when a call ends, as far as its monitor is told of it.
#[derive(Clone, Copy, Debug, PartialEq, Eq)]
pub struct Seen {
    /// The level of the interrupt line.
    pub level: bool,
    /// There is room for input.
    pub has_room: bool,
    /// No character waits.
    pub is_empty: bool,
    /// How many more characters than one a FIFO holds: 15 with FIFOs of 16. It is 0 if the guest
    /// has the FIFOs off.
    pub rest: u8,
    /// How many bytes of output are ready.
    pub ready: usize,
}
