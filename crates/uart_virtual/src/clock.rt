//! What a monitor with a clock puts off, and what it owes its guest.
ghost use Rattle.std.specs.Prelude.{◌≡◌, ℕ, false};
ghost use Rattle.uart_virtual.specs.Clock.{can_wait, owed_after, todo_now};
ghost use Rattle.uart_virtual.specs.Port.{Read, Write};

use crate::port::{kind_of_read, kind_of_write};
use crate::told::Todo;

/// What a monitor with a clock owes its guest.
///
/// Each call lets time pass that a real line would still take. So a guest's access of DATA can take
/// the interrupt line up before a real one would rise: a reception timeout is due at once for what
/// is left in the FIFO, and a transmitter is empty again. Most guests go on with their handler,
/// have done by then what they would be called for, and find nothing. A monitor that has a clock
/// puts such a signal off for the time of four characters.
///
/// After each call of the port it passes what the call asks for through [`Clock::after_read`],
/// [`Clock::after_write`] or [`Clock::after_host`], and then does what is left in it. When the time
/// has passed, it calls [`Clock::pass_time`].
#[derive(Clone, Copy, Debug, PartialEq, Eq)]
pub struct Clock {
    /// A signal is put off, and the line is up since.
    pub is_owed: bool,
}

impl Clock {
    /// Returns the clock of a port that is new, or restored: nothing is put off.
    pub fn new() -> Self
        // proved: A new port is a chip after power-on, with FIFOs of its size, and the time of a
        //   call, of which nothing was told; it is refused exactly if no FIFO holds so many
        //   characters, and one of 16 never
        // on: `VirtualPort::new`; `VirtualPortWith::try_new`, clauses `made`, `refused` and
        //   `accepted`
        ensures { result.is_owed ≡ false }
    {
        Clock { is_owed: false }
    }

    // Takes the signal from `todo`, if it waits. What was put off before is no longer owed if a
    // signal is given, or if the line is down.
    fn put_off(&mut self, waits: bool, todo: &mut Todo)
        ensures todo { todo.new ≡ todo_now waits todo.old }
        ensures owed { self.new.is_owed ≡ owed_after self.old.is_owed waits todo.old }
    {
        let was_owed = self.is_owed;
        self.is_owed = todo.level && if todo.signal { waits } else { was_owed };
        todo.signal = todo.signal && !waits;
    }

    /// The guest read this register, and the port asked for this. Takes the signal from `todo` if
    /// it can wait: the register is DATA, and the line was up before. Returns whether that is so:
    /// then the time begins, after which the monitor calls [`Clock::pass_time`].
    pub fn after_read(&mut self, offset: u8, todo: &mut Todo) -> bool
        // proved: Which signals can wait, what is left to be done, and what is owed
        // on: `after_read`, `after_write`, `after_host` and `pass_time` of `Clock`
        ensures waits { result ≡ can_wait (Read offset) todo.old }
        ensures todo { todo.new ≡ todo_now result todo.old }
        ensures owed { self.new.is_owed ≡ owed_after self.old.is_owed result todo.old }
    {
        let moves_data = kind_of_read(offset).moves_data;
        let waits = moves_data && (todo.signal && !todo.has_moved);
        self.put_off(waits, todo);
        waits
    }

    /// The guest wrote this register, and the port asked for this. Takes the signal from `todo` if
    /// it can wait: the register is DATA. Returns whether that is so: then the time begins, after
    /// which the monitor calls [`Clock::pass_time`].
    pub fn after_write(&mut self, offset: u8, todo: &mut Todo) -> bool
        ensures waits { (value : ℕ) → result ≡ can_wait (Write offset value) todo.old }
        ensures todo { todo.new ≡ todo_now result todo.old }
        ensures owed { self.new.is_owed ≡ owed_after self.old.is_owed result todo.old }
    {
        let moves_data = kind_of_write(offset).moves_data;
        let waits = moves_data && todo.signal;
        self.put_off(waits, todo);
        waits
    }

    /// The host brought something, or took output, and the port asked for this. All of it is to be
    /// done now.
    pub fn after_host(&mut self, todo: Todo)
        ensures { self.new.is_owed ≡ owed_after self.old.is_owed false todo }
    {
        let was_owed = self.is_owed;
        self.is_owed = todo.level && (!todo.signal && was_owed);
    }

    /// The time has passed. Returns whether the guest's interrupt is to be signalled now: it was
    /// put off, and is still owed. A call that comes early, late, or for nothing, does no harm.
    pub fn pass_time(&mut self) -> bool
        ensures given { result ≡ self.old.is_owed }
        ensures left { self.new.is_owed ≡ false }
    {
        let is_owed = self.is_owed;
        self.is_owed = false;
        is_owed
    }
}
