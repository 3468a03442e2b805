//! What a constructor refuses.

/// What a constructor was given and refused, with why. The driver or backend may hold a device that
/// cannot be obtained again, so it is given back.
///
/// In Rust this is an error, whose text and source are those of the cause. So `?` returns it, and
/// it becomes its cause where a function returns that.
///
/// # Examples
///
/// ```
/// let uart = match Uart16550Ring::new(alloc, uart, 1024, 256) {
///     Ok(ring) => ring.into_inner(),
///     Err(refused) => refused.given,
/// };
/// ```
#[derive(Drop)]
pub struct Refused<T, E> {
    /// What the constructor was given, unchanged.
    pub given: T,
    /// Why it was refused.
    pub cause: E,
}
