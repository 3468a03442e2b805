//! What a trace says beside the accesses.

use std::alloc::AllocError;
use uart_spec::access::Access;

/// The remarks of a trace: what happened to the chip, and when.
///
/// A trace is told one call after the other, and the remarks follow. No contract says what they
/// are: whatever a remark has, the trace says nothing by it.
pub trait Remarks {
    /// Is told that the next call begins.
    ///
    /// # Errors
    ///
    /// `AllocError` if memory could not be allocated. So it is for the others.
    fn call(&mut self) -> Result<(), AllocError>;

    /// Is told of an access that was made. Appends to `before` what happened before the access, a
    /// line for each event, and to `beside` what stands on the line of the access.
    fn access(
        &mut self,
        access: Access,
        before: &mut Vec<u8>,
        beside: &mut Vec<u8>,
    ) -> Result<(), AllocError>;

    /// Is told that the call has returned. Appends what happened after its last access, a line for
    /// each event.
    fn returned(&mut self, after: &mut Vec<u8>) -> Result<(), AllocError>;
}
