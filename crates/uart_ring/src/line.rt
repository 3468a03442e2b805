//! Several ports on one interrupt line.
//!
//! A controller that detects edges sees none while another port keeps the common line high. So all
//! ports are handled under one lock, and all their lines are low at one time before any of them may
//! rise again: [`handle_ports`] for ports in a slice, [`handle_line`] wherever they are.
ghost use Rattle.std.specs.Prelude.{◌≡◌, ◌<◌, ℕ, Bool, length};
ghost use Rattle.uart_ring.specs.Line.{LowersPort, RaisesPort};
ghost use Rattle.uart_ring.specs.Line.{HandlesLine, HandlesPorts};
ghost use Rattle.uart_ring.specs.Line.{InTurn, LowersAt, RaisesAt, ServesInTurn};

use crate::ring::{HandleEnd, Handled, Lowered, StuckError, Uart16550Ring};
use bitflags::Flags;
use uart_16550::backend::Backend;
use uart_spec::registers::IER;

/// The ports of one interrupt line, by their numbers from 0 on.
///
/// For ports in a slice there is [`handle_ports`]. Implement this for ports that are elsewhere:
/// behind pointers, or in places of which some are empty.
pub trait LinePorts {
    // How many there are.
    ghost number: { Self → ℕ };

    // The line of a port is lowered, with this limit and number of rounds, and an interrupt was
    // served there or not.
    ghost lowers: { ℕ → ℕ → ℕ → Bool → Self → Self → Type 0 };

    // The line of a port is raised.
    ghost raises: { ℕ → Self → Self → Type 0 };

    /// Returns how many ports there are.
    fn number(&self) -> usize
        ensures { result ≡ number self.now };

    /// Makes a `lower_line` at this port. Returns whether an interrupt was served.
    fn lower(&mut self, port: usize, limit: usize, rounds: u32) -> bool
        requires { port < number self.old }
        ensures did { lowers limit rounds port result self.old self.new }
        ensures number { number self.new ≡ number self.old };

    /// Makes a `raise_line` at this port, as `lower` has left it.
    fn raise(&mut self, port: usize)
        requires { port < number self.old }
        ensures did { raises port self.old self.new }
        ensures number { number self.new ≡ number self.old };
}

/// Handles the interrupt of a line that several ports share, whether the controller detects levels
/// or edges. Returns whether an interrupt was served at one of them.
///
/// Call it once each time the controller calls the handler, under the lock that all calls at these
/// ports take: one lock for the line. With a lock for each port another processor could let the
/// line of one rise, before that of the next has fallen.
///
/// At each port, in turn, it handles what is pending and disables the chip's interrupts. Then the
/// common line is low, whatever happens to the chips. After that it enables the interrupts again,
/// at each port in turn. So if the line is high afterwards, it has risen since the call began, and
/// a controller that detects edges calls the handler again.
///
/// A chip that is stuck has its interrupts disabled, as after a `try_handle`, and the others are
/// served.
///
/// # Examples
///
/// ```
/// let has_served = handle_line(&mut ports, 4 * MAX_INTERRUPTS, MAX_UNFINISHED_ROUNDS);
/// ```
pub fn handle_line<P: LinePorts>(ports: &mut P, limit: usize, rounds: u32) -> bool
    // proved: `handle_line` lowers the line of each port, in the order of their numbers, and then
    //   raises that of each. In between is a moment at which all were lowered and none raised. It
    //   returns whether an interrupt was served at one of them. The ports have one state, so the
    //   order of all steps is fixed
    ensures { HandlesLine (P.lowers limit rounds) P.raises (P.number ports.old) result
        ports.old ports.new }
{
    let number = ports.number();
    let mut has_served = false;
    for port in 0..number {
        has_served |= ports.lower(port, limit, rounds);
    }
    // All lines are low here, at one time. It is not enough that each was low at some time: another
    // one may have risen before, and the common line has then not fallen.
    for port in 0..number {
        ports.raise(port);
    }
    has_served
}

/// A port of a line: its rings, and what was last handled there.
#[derive(Drop)]
pub struct LinePort<B> {
    /// The rings. Make no call of them while the line is handled.
    pub ring: Uart16550Ring<B>,
    lowered: Lowered,
}

impl<B: Backend> LinePort<B> {
    /// Returns a port with these rings, at which nothing was handled yet. Makes no access.
    ///
    /// # Examples
    ///
    /// ```
    /// let mut ports = [LinePort::new(console), LinePort::new(modem)];
    /// ```
    pub fn new(ring: Uart16550Ring<B>) -> Self
        ensures ring { result.ring ≡ ring }
        ensures handled { result.lowered.handled ≡
            Ok (record { served = 0; end = HandleEnd.Idle }) }
        ensures enabled { result.lowered.enabled.0 ≡ 0 }
    {
        let handled = Handled {
            served: 0,
            end: HandleEnd::Idle,
        };
        LinePort {
            ring,
            lowered: Lowered {
                handled: Ok(handled),
                enabled: IER::from_bits_retain(0),
            },
        }
    }

    /// Returns what the last [`handle_ports`] handled here, or why the chip is stuck. Makes no
    /// access.
    ///
    /// # Examples
    ///
    /// ```
    /// let handled = ports[0].handled()?;
    /// ```
    pub fn handled(&self) -> Result<Handled, StuckError>
        ensures { result ≡ self.now.lowered.handled }
    {
        self.lowered.handled
    }

    /// Makes a `lower_line` of the rings, and notes what it did. Returns whether an interrupt was
    /// served.
    ///
    /// # Examples
    ///
    /// ```
    /// let has_served = port.lower(4 * MAX_INTERRUPTS, MAX_UNFINISHED_ROUNDS);
    /// ```
    pub fn lower(&mut self, limit: usize, rounds: u32) -> bool
        ensures { LowersPort B.step limit rounds result self.old self.new }
    {
        self.lowered = self.ring.lower_line(limit, rounds);
        match self.lowered.handled {
            Ok(handled) => handled.served > 0,
            Err(_) => false,
        }
    }

    /// Makes a `raise_line` of the rings, as the last `lower` says.
    ///
    /// # Examples
    ///
    /// ```
    /// port.raise();
    /// ```
    pub fn raise(&mut self)
        ensures { RaisesPort B.step self.old self.new }
    {
        self.ring.raise_line(self.lowered.enabled);
    }
}

// Makes a `lower` at each port, in turn. Returns whether an interrupt was served at one of them.
fn lower_each<B: Backend>(ports: &mut [LinePort<B>], limit: usize, rounds: u32) -> bool
    ensures { ServesInTurn (LowersAt B.step limit rounds) (length ports.old) result
        ports.old ports.new }
{
    let mut has_served = false;
    for port in ports.iter_mut() {
        has_served |= port.lower(limit, rounds);
    }
    has_served
}

// Makes a `raise` at each port, in turn.
fn raise_each<B: Backend>(ports: &mut [LinePort<B>])
    ensures { InTurn (RaisesAt B.step) (length ports.old) ports.old ports.new }
{
    for port in ports.iter_mut() {
        port.raise();
    }
}

/// Handles the interrupt of a line that the ports of this slice share, as [`handle_line`] does.
/// Returns whether an interrupt was served at one of them; [`LinePort::handled`] tells what was
/// handled at each, and which chip is stuck.
///
/// Does not wait: makes at most 35 accesses for each interrupt of the limit, which is 6 if it is
/// lower, and 11 more, at each port. With a larger `fifo_size` of the driver it is twice that size
/// and 3 in place of the 35.
///
/// # Examples
///
/// ```
/// let has_served = handle_ports(&mut ports, 4 * MAX_INTERRUPTS, MAX_UNFINISHED_ROUNDS);
/// ```
pub fn handle_ports<B: Backend>(ports: &mut [LinePort<B>], limit: usize, rounds: u32) -> bool
    // proved: `handle_ports` does so at the ports of a slice: which accesses each makes, what is
    //   noted there, and that the others stay as they are meanwhile. A chip that is stuck is off
    //   alone
    // on: `handle_ports`, `LinePort::lower`, `LinePort::raise`, `LinePort::new`,
    //   `LinePort::handled`
    ensures { HandlesPorts B.step limit rounds (length ports.old) result ports.old ports.new }
{
    let has_served = lower_each(ports, limit, rounds);
    // All lines are low here, as in `handle_line`.
    raise_each(ports);
    has_served
}
