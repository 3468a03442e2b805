//! Who is told of a run.
ghost use Rattle.uart_spec.specs.declared.access.Access.{Access};

use uart_spec::access::Access;

/// Is told of the calls of a run, one after the other, while the run goes on.
///
/// No list of the accesses is kept for a listener. A wait may make millions of them, so a listener
/// keeps what it needs and no more.
///
/// In Rattle an implementation also defines three relations between the listener before and after
/// it is told something. The contract of [`tell`](crate::tell) is a statement on them.
pub trait Listener {
    // A call begins.
    ghost begins: { Self → Self → Type 0 };

    // The call makes this access.
    ghost hears: { Self → Access → Self → Type 0 };

    // The call has returned.
    ghost ends: { Self → Self → Type 0 };

    /// Is told that the next call of the script begins.
    fn begin(&mut self)
        ensures { begins self.old self.new };

    /// Is told of an access that the call has made.
    fn hear(&mut self, access: Access)
        ensures { hears self.old access self.new };

    /// Is told that the call has returned.
    fn end(&mut self)
        ensures { ends self.old self.new };
}
