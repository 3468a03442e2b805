//! Calls that return an error for a configuration at which the call they are a form of panics.
//!
//! In Rattle a caller is proved to give a computable configuration. In Rust nobody does that, so
//! the call tests it and panics; these calls test it before, and require nothing.
ghost use Rattle.std.specs.Prelude.{Err};
ghost use Rattle.uart_spec.specs.declared.errors.FrameError.TheVariants as frame_error;
ghost use Rattle.uart_spec.specs.declared.errors.InitError.TheVariants as init_error;
ghost use Rattle.uart_16550.specs.Checked.{IfComputable};
ghost use Rattle.uart_16550.specs.Driver.{Did};
ghost use Rattle.uart_16550.specs.Frame.{SetsFrame};
ghost use Rattle.uart_16550.specs.Init.{Inits};
ghost use Rattle.uart_16550.specs.Setup.{InitsWith, SetsFrameWhenIdle};

use super::Uart16550;
use crate::backend::Backend;
use uart_spec::{
    Config, FrameError, InitError, InvalidDivisorError, Setup, accepted, checked_divisor,
};

impl<B: Backend> Uart16550<B> {
    /// Does the same as `init`, but returns `InvalidBaudRate` if that would panic: if the
    /// configuration is not computable.
    ///
    /// # Errors
    ///
    /// Those of `init`. The cause of a refused baud rate is that of `checked_divisor`. No access
    /// was made then, and nothing changed.
    ///
    /// # Examples
    ///
    /// ```
    /// let clock = 0;
    /// let refused = uart.checked_init(Config {
    ///     frequency: clock,
    ///     ..Config::DEFAULT
    /// });
    /// assert!(rt; matches!(refused, Err(InitError::InvalidBaudRate(_))));
    /// ```
    pub fn checked_init(&mut self, config: Config) -> Result<(), InitError>
        // proved: A form for callers in Rust, whom nobody proves to have a computable
        //   configuration: what the other does if it is one, and otherwise no access and no change,
        //   with an error that says why there is no divisor
        // on: `checked_init`, `checked_init_with`, `checked_set_frame`,
        //   `checked_set_frame_when_idle`
        ensures { Did B.step (IfComputable config (λ cause. Err (init_error.InvalidBaudRate cause))
            result (Inits config result)) self.old self.new }
    {
        // The rest of `init` takes the divisor, so that the configuration is not tested twice.
        let baud_rate = config.baud_rate.to_integer();
        let prescaler = config.prescaler_division_factor;
        match checked_divisor(config.frequency, baud_rate, prescaler) {
            Ok(divisor) => self.set_up(config, divisor),
            Err(cause) => Err(InitError::InvalidBaudRate(cause)),
        }
    }

    /// Does the same as `init_with`, but returns `InvalidBaudRate` if that would panic: if the
    /// configuration is not computable.
    ///
    /// # Errors
    ///
    /// Those of `init_with`. The cause of a refused baud rate is that of `checked_divisor`. No
    /// access was made then, and nothing changed.
    ///
    /// # Examples
    ///
    /// ```
    /// // A clock of 0 is not computable.
    /// let config = Config {
    ///     frequency: 0,
    ///     ..Config::DEFAULT
    /// };
    /// let refused = uart.checked_init_with(config, &Setup::DEFAULT);
    /// assert!(rt; matches!(refused, Err(InitError::InvalidBaudRate(_))));
    /// ```
    pub fn checked_init_with(&mut self, config: Config, setup: &Setup) -> Result<(), InitError>
        ensures { Did B.step (IfComputable config (λ cause. Err (init_error.InvalidBaudRate cause))
            result (InitsWith setup.now config result)) self.old self.new }
    {
        let baud_rate = config.baud_rate.to_integer();
        let prescaler = config.prescaler_division_factor;
        match checked_divisor(config.frequency, baud_rate, prescaler) {
            Ok(divisor) => self.set_up_with(config, setup, divisor),
            Err(cause) => Err(InitError::InvalidBaudRate(cause)),
        }
    }

    /// Does the same as `set_frame`, but also returns an error if that would panic: if the
    /// configuration is not computable.
    ///
    /// # Errors
    ///
    /// Those of `checked_divisor`. No access was made then, and nothing changed.
    ///
    /// # Examples
    ///
    /// ```
    /// // A clock of 0 is not computable.
    /// let config = Config {
    ///     frequency: 0,
    ///     ..Config::DEFAULT
    /// };
    /// assert!(rt; uart.checked_set_frame(&config).is_err());
    /// ```
    pub fn checked_set_frame(&mut self, config: &Config) -> Result<(), InvalidDivisorError>
        ensures { Did B.step (IfComputable config.now (λ cause. Err cause) result
            (SetsFrame config.now result)) self.old self.new }
    {
        let baud_rate = config.baud_rate.to_integer();
        match accepted(
            config.frequency,
            baud_rate,
            config.prescaler_division_factor,
        ) {
            Ok(_) => self.set_frame(config),
            Err(cause) => Err(cause),
        }
    }

    /// Does the same as `set_frame_when_idle`, but also returns `InvalidBaudRate` if that would
    /// panic: if the configuration is not computable.
    ///
    /// # Errors
    ///
    /// Those of `set_frame_when_idle`. The cause of a refused baud rate is that of
    /// `checked_divisor`. No access was made then, and nothing changed.
    ///
    /// # Examples
    ///
    /// ```
    /// // A clock of 0 is not computable.
    /// let config = Config {
    ///     frequency: 0,
    ///     ..Config::DEFAULT
    /// };
    /// let refused = uart.checked_set_frame_when_idle(&config);
    /// assert!(rt; matches!(refused, Err(FrameError::InvalidBaudRate(_))));
    /// ```
    pub fn checked_set_frame_when_idle(&mut self, config: &Config) -> Result<(), FrameError>
        ensures { Did B.step (IfComputable config.now
            (λ cause. Err (frame_error.InvalidBaudRate cause)) result
            (SetsFrameWhenIdle config.now result)) self.old self.new }
    {
        let baud_rate = config.baud_rate.to_integer();
        match accepted(
            config.frequency,
            baud_rate,
            config.prescaler_division_factor,
        ) {
            Ok(_) => self.set_frame_when_idle(config),
            Err(cause) => Err(FrameError::InvalidBaudRate(cause)),
        }
    }
}
