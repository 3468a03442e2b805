//! What a monitor with a clock puts off, and what it owes its guest. The header says what each
//! function does.
ghost use Rattle.std.specs.Prelude.{◌≡◌, ℕ, ◌%◌, false};
ghost use Rattle.uart_c.specs.Port as port_spec;
ghost use Rattle.uart_c.specs.Port.{asked};
ghost use Rattle.uart_c.specs.Queue as queue_spec;
ghost use Rattle.uart_spec.specs.Bits.{flag};
ghost use Rattle.uart_spec.specs.declared.baud.TheConstants.{NUM_REGISTERS};
ghost use Rattle.uart_virtual.specs.Clock.{can_wait, owed_after, todo_now};
ghost use Rattle.uart_virtual.specs.Port.{Read, Write};

use crate::port::{UartTodo, asked, shown};
use crate::queue::is_on;
use uart_spec::NUM_REGISTERS;
use uart_virtual::Clock;

/// What a monitor with a clock owes its guest.
#[repr(C)]
#[derive(Clone, Copy)]
pub struct UartClock {
    pub is_owed: u8,
}

impl UartClock {
    // Returns what is owed as a clock of `uart_virtual` has it.
    fn known(self) -> Clock
        ensures { result.is_owed ≡ queue_spec.is_on self.is_owed }
    {
        Clock {
            is_owed: is_on(self.is_owed),
        }
    }
}

/// The guest read a register. Takes the signal from what the port asked for, if it can wait.
#[unsafe(no_mangle)]
pub extern "C" fn uart_clock_after_read(
    clock: &mut UartClock,
    offset: u8,
    todo: &mut UartTodo,
) -> u8
    // promise: a clock of C is one of the port
    // with: uart_clock_after_read.todo, uart_clock_after_write.owed, uart_clock_pass_time.given
    // shown by: tools/c/compare
    // refused: clock_never_gives, clock_reads_another_register
    // proved: What a monitor with a clock puts off, has left to do and owes is that of a `Clock` of
    //   `uart_virtual`, whatever bytes its structs hold
    // on: `uart_clock_after_read`, `uart_clock_after_write`, `uart_clock_after_host` and
    //   `uart_clock_pass_time`
    ensures waits { result ≡ flag (can_wait (Read (offset % NUM_REGISTERS)) (asked todo.old)) 1 }
    ensures todo { todo.new ≡ port_spec.shown
        (todo_now (can_wait (Read (offset % NUM_REGISTERS)) (asked todo.old)) (asked todo.old)) }
    ensures owed { clock.new.is_owed ≡ flag (owed_after (queue_spec.is_on clock.old.is_owed)
        (can_wait (Read (offset % NUM_REGISTERS)) (asked todo.old)) (asked todo.old)) 1 }
{
    let mut owed = clock.known();
    let mut left = asked(*todo);
    let waits = owed.after_read(offset % NUM_REGISTERS as u8, &mut left);
    *todo = shown(left);
    clock.is_owed = owed.is_owed as u8;
    waits as u8
}

/// The guest wrote a register. Takes the signal from what the port asked for, if it can wait.
#[unsafe(no_mangle)]
pub extern "C" fn uart_clock_after_write(
    clock: &mut UartClock,
    offset: u8,
    todo: &mut UartTodo,
) -> u8
    ensures waits { (value : ℕ) →
        result ≡ flag (can_wait (Write (offset % NUM_REGISTERS) value) (asked todo.old)) 1 }
    ensures todo { (value : ℕ) → todo.new ≡ port_spec.shown (todo_now
        (can_wait (Write (offset % NUM_REGISTERS) value) (asked todo.old)) (asked todo.old)) }
    ensures owed { (value : ℕ) →
        clock.new.is_owed ≡ flag (owed_after (queue_spec.is_on clock.old.is_owed)
        (can_wait (Write (offset % NUM_REGISTERS) value) (asked todo.old)) (asked todo.old)) 1 }
{
    let mut owed = clock.known();
    let mut left = asked(*todo);
    let waits = owed.after_write(offset % NUM_REGISTERS as u8, &mut left);
    *todo = shown(left);
    clock.is_owed = owed.is_owed as u8;
    waits as u8
}

/// The host made a call, and the port asked for this.
#[unsafe(no_mangle)]
pub extern "C" fn uart_clock_after_host(clock: &mut UartClock, todo: &UartTodo)
    ensures { clock.new.is_owed ≡
        flag (owed_after (queue_spec.is_on clock.old.is_owed) false (asked todo.now)) 1 }
{
    let mut owed = clock.known();
    owed.after_host(asked(*todo));
    clock.is_owed = owed.is_owed as u8;
}

/// The time has passed. 1 if the guest is to be signalled now, else 0.
#[unsafe(no_mangle)]
pub extern "C" fn uart_clock_pass_time(clock: &mut UartClock) -> u8
    ensures given { result ≡ flag (queue_spec.is_on clock.old.is_owed) 1 }
    ensures left { clock.new.is_owed ≡ 0 }
{
    let mut owed = clock.known();
    let is_given = owed.pass_time();
    clock.is_owed = owed.is_owed as u8;
    is_given as u8
}
