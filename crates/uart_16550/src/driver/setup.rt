//! Initialisation otherwise than by `init`, and changes of the trigger level and of the frame that
//! lose nothing.
ghost use Rattle.std.specs.Prelude.{◌≡◌, Ok, unwrap_or};
ghost use Rattle.uart_spec.specs.declared.registers.fifo_trigger_level.FifoTriggerLevel.TheVariants.{One};
ghost use Rattle.uart_spec.specs.Config.{IsComputable};
ghost use Rattle.uart_16550.specs.Init.{DivisorOf};
ghost use Rattle.uart_16550.specs.Setup.{ChecksIf, WaitsIf, is_first, is_last, level_bits};
ghost use Rattle.uart_16550.specs.Setup.{SetsTrigger, SetsFrameWhenIdle, InitsWith};
ghost use Rattle.uart_16550.specs.Setup.{level_of, fifo_writes, stays_on, Quiesces, Restores};
ghost use Rattle.uart_16550.specs.Grammar.{Only};
ghost use Rattle.uart_16550.specs.Driver.{Made, Did};

use super::Uart16550;
use super::init::{fifo_control_of, frame_of};
use crate::backend::Backend;
use bitflags::Flags;
use uart_spec::registers::{FCR, FifoTriggerLevel, IER, LCR, LSR, MCR, offsets};
use uart_spec::{
    Config, ConfigRegisterDump, FifoAction, FifosOffError, FrameError, InitError, Setup,
    TransmitterWait, calc_divisor,
};

// Returns FCR for FIFOs that are on and stay on. Without the reset bits the bytes in them stay.
pub(super) fn level_control_of(level: FifoTriggerLevel) -> FCR
    ensures { result.0 ≡ level_bits level }
{
    FCR::FIFO_ENABLE.set_fifo_trigger_level(level)
}

fn is_first(wait: TransmitterWait) -> bool
    ensures { result ≡ is_first wait }
{
    matches!(wait, TransmitterWait::First)
}

fn is_last(wait: TransmitterWait) -> bool
    ensures { result ≡ is_last wait }
{
    matches!(wait, TransmitterWait::Last)
}

impl<B: Backend> Uart16550<B> {
    /// Sets the trigger level of the receiver FIFO, and stores it in the driver's configuration.
    ///
    /// Writes FCR once, without a reset: the bytes in both FIFOs stay. Does not wait.
    ///
    /// # Errors
    ///
    /// `FifosOffError` if the FIFOs are off (`fifo_enabled`). No access was made, and nothing
    /// changed: a write that turns the FIFOs on empties them, which `init` does.
    ///
    /// # Examples
    ///
    /// ```
    /// uart.set_trigger_level(FifoTriggerLevel::One)?;
    /// ```
    pub fn set_trigger_level(&mut self, level: FifoTriggerLevel) -> Result<(), FifosOffError>
        // promise: the trigger level is changed without emptying a FIFO, and refused if the FIFOs
        //   are off
        // with: set_trigger_level, Levels.leaves
        // shown by: the_trigger_level_alone_is_changed, trigger-level
        // refused: uart_calls/perform_sets_the_lowest_level, set_trigger_level_resets_the_receiver,
        //   set_trigger_level_says_nothing_of_fifos_that_are_off
        ensures { Did B.step (SetsTrigger level result) self.old self.new }
    {
        if !self.fifo_enabled {
            return Err(FifosOffError);
        }
        self.config.fifo_trigger_level = Some(level);
        // On a chip whose FIFOs are off this write would turn them on, and so empty them.
        self.write_register(offsets::FCR, level_control_of(level).bits());
        Ok(())
    }

    /// Waits until all that was sent is on the line, and then changes the baud rate and the frame,
    /// as `set_frame` does. The configuration must be computable (`Config::is_computable`).
    ///
    /// Polls LSR at most `spin_limit` times; error bits are saved for the next `lsr`. So no
    /// character is broken that goes out. One that comes in meanwhile is: agree with the remote
    /// when to change.
    ///
    /// # Errors
    ///
    /// - `InvalidBaudRate` if the divisor is not a whole number, or does not fit into the divisor
    ///   latch. No access was made, and nothing changed.
    /// - `Stalled` if the transmitter was not empty after `spin_limit` polls. Nothing was written,
    ///   and the driver's configuration is as it was.
    ///
    /// # Examples
    ///
    /// ```
    /// uart.set_frame_when_idle(&Config {
    ///     baud_rate: BaudRate::Baud38400,
    ///     ..Config::DEFAULT
    /// })?;
    /// ```
    pub fn set_frame_when_idle(&mut self, config: &Config) -> Result<(), FrameError>
        // promise: a frame is changed only once the transmitter is empty, if the caller wants that
        // with: set_frame_when_idle, FramesWhenIdle.leaves
        // shown by: a_frame_waits_for_an_empty_transmitter, frame-when-idle, frame-stalls
        // refused: uart_calls/perform_does_not_wait_for_the_frame,
        //   set_frame_when_idle_waits_for_room_alone, set_frame_when_idle_goes_on_after_a_stall
        requires { IsComputable config.now }
        ensures { Did B.step (SetsFrameWhenIdle config.now result) self.old self.new }
    {
        let baud_rate = config.baud_rate.to_integer();
        let prescaler = config.prescaler_division_factor;
        // The divisor comes before the wait, so that a refusal makes no access.
        let divisor = match calc_divisor(config.frequency, baud_rate, prescaler) {
            Ok(divisor) => divisor,
            Err(cause) => return Err(FrameError::InvalidBaudRate(cause)),
        };
        if !self.wait_for(LSR::TRANSMITTER_EMPTY) {
            return Err(FrameError::Stalled);
        }
        self.store_frame(config);
        self.write_frame(divisor, frame_of(config));
        Ok(())
    }

    // Checks that a device is present, if that is asked for.
    fn is_present(&mut self, asked: bool) -> bool
        ensures { Made B.step (ChecksIf asked result) self.old self.new }
    {
        !asked || self.check_present()
    }

    // Waits until the transmitter is empty, if that is asked for.
    fn is_emptied(&mut self, asked: bool) -> bool
        ensures { Made B.step (WaitsIf asked result) self.old self.new }
    {
        !asked || self.wait_for(LSR::TRANSMITTER_EMPTY)
    }

    /// Initialises the device with this configuration, which must be computable
    /// (`Config::is_computable`), otherwise than `init` does: without the check of the scratch
    /// register, with the wait for the transmitter first or not at all, or with other outputs.
    ///
    /// What it does is in the order of `init`, except for the wait if it comes first: it comes then
    /// between the check and the first write. With `Setup::DEFAULT` it makes the accesses of
    /// `init`.
    ///
    /// # Errors
    ///
    /// - `InvalidBaudRate` as for `init`. No access was made, and nothing changed.
    /// - `DeviceNotPresent` as for `init`, if the check is asked for.
    /// - `Stalled` if the transmitter was not empty after `spin_limit` polls, if a wait is asked
    ///   for. The driver has the new configuration, and the status bits that the polls cleared are
    ///   saved. If the wait came first, nothing was written except the scratch register, and the
    ///   interrupts of the device are as they were; else they are disabled.
    ///
    /// # Examples
    ///
    /// ```
    /// // A chip without a scratch register, at the clock of its board.
    /// let setup = Setup {
    ///     checks_presence: false,
    ///     ..Setup::DEFAULT
    /// };
    /// uart.init_with(Config::DEFAULT, &setup)?;
    /// ```
    pub fn init_with(&mut self, config: Config, setup: &Setup) -> Result<(), InitError>
        // promise: `init_with` access by access, as a caller asks for it: check, wait and outputs
        // with: init_with, InitsWith, is_first
        // shown by: an_initialisation_does_what_it_is_asked_for, init_with_other_waits,
        //   waits-before-the-setup
        // refused: init_with_turns_the_check_around, init_with_waits_last_and_never_first,
        //   init_with_raises_all_outputs, uart_calls/perform_sets_up_by_default
        requires { IsComputable config }
        ensures { Did B.step (InitsWith setup.now config result) self.old self.new }
    {
        let baud_rate = config.baud_rate.to_integer();
        let prescaler = config.prescaler_division_factor;
        match calc_divisor(config.frequency, baud_rate, prescaler) {
            Ok(divisor) => self.set_up_with(config, setup, divisor),
            Err(cause) => Err(InitError::InvalidBaudRate(cause)),
        }
    }

    // Initialises the device with this configuration, whose divisor this is, as `setup` asks.
    pub(crate) fn set_up_with(
        &mut self,
        config: Config,
        setup: &Setup,
        divisor: u16,
    ) -> Result<(), InitError>
        requires { DivisorOf config (Ok divisor) }
        ensures { Did B.step (InitsWith setup.now config result) self.old self.new }
    {
        self.config = config;
        let frame = frame_of(&self.config);
        let level = self.config.fifo_trigger_level;
        if !self.is_present(setup.checks_presence) {
            return Err(InitError::DeviceNotPresent);
        }
        if !self.is_emptied(is_first(setup.wait)) {
            return Err(InitError::Stalled);
        }
        self.set_line(divisor, frame);
        self.fifo_enabled = self.set_fifo(level);
        self.drain();
        self.set_modem_control(setup.outputs);
        if !self.is_emptied(is_last(setup.wait)) {
            return Err(InitError::Stalled);
        }
        self.finish_init();
        Ok(())
    }

    // Returns the trigger level for FIFOs that are on: the configured one, or one byte if none is
    // configured, as on a port that was taken by `attach`.
    pub(super) fn fifo_level(&self) -> FifoTriggerLevel
        ensures { result ≡ unwrap_or self.now.config.fifo_trigger_level One }
    {
        self.config
            .fifo_trigger_level
            .unwrap_or(FifoTriggerLevel::One)
    }

    // Returns the trigger level for FIFOs that are on, and none for FIFOs that are off.
    pub(super) fn level_of(&self, on: bool) -> Option<FifoTriggerLevel>
        ensures { result ≡ level_of on self.now.config.fifo_trigger_level }
    {
        if on { Some(self.fifo_level()) } else { None }
    }

    // Writes FCR as is asked for, and returns whether the FIFOs are on then.
    fn change_fifos(&mut self, action: FifoAction) -> bool
        ensures made { Made B.step (Only (fifo_writes action self.old.fifo_enabled
            self.old.config.fifo_trigger_level)) self.old self.new }
        ensures on { result ≡ stays_on action self.old.fifo_enabled }
    {
        let on = self.fifo_enabled;
        match action {
            FifoAction::Keep => on,
            FifoAction::Reset => {
                let control = fifo_control_of(self.level_of(on));
                self.write_register(offsets::FCR, control.bits());
                on
            }
            FifoAction::Disable => {
                self.write_register(offsets::FCR, fifo_control_of(None).bits());
                false
            }
        }
    }

    /// Leaves the port, so that the chip interrupts nobody: disables all interrupts, writes the
    /// outputs to the modem, and does with the FIFOs what is asked for.
    ///
    /// Does not wait: what is still in the transmitter goes out, if the FIFOs are kept. `LOOP_BACK`
    /// is left out of the outputs. Afterwards the driver's configuration has no interrupts. `init`,
    /// or `restore` with a dump that was made before, takes the port up again.
    ///
    /// Reads no received byte. Some chips show `DATA_READY` behind a reset of the FIFOs, or after
    /// they were turned off: a receive behind this call may return a byte from before, or one that
    /// never arrived. `init` discards it.
    ///
    /// # Examples
    ///
    /// ```
    /// uart.flush()?;
    /// uart.quiesce(MCR::from_bits_retain(0), FifoAction::Disable);
    /// ```
    pub fn quiesce(&mut self, outputs: MCR, fifos: FifoAction)
        // promise: a port is left without interrupts, and put back as a dump of it shows
        // with: quiesce, restore, Quiesces, Restores, IsRestored.ready
        // shown by: a_port_is_left_and_taken_up_again, ports_are_put_back, leaves-and-puts-back
        // refused: uart_calls/perform_restores_nothing, quiesce_keeps_an_interrupt,
        //   restore_clears_the_scratch_register, restore_turns_the_fifos_around
        ensures { Did B.step (Quiesces outputs.0 fifos) self.old self.new }
    {
        self.config.interrupts = IER::from_bits_retain(0);
        // The interrupts come first, so that none is raised by what the outputs change.
        self.write_register(offsets::IER, 0);
        self.set_modem_control(outputs);
        self.fifo_enabled = self.change_fifos(fifos);
    }

    /// Writes to the chip what a dump of its registers shows, for example after it was without
    /// power: the divisor, the frame, the FIFOs, the outputs, the scratch register, and in the end
    /// the interrupts, which are stored in the driver's configuration.
    ///
    /// Both FIFOs are emptied. If they were on, they get the level of the configuration, since a
    /// chip does not show its own, and ISR tells whether they are on now (`fifo_enabled`). `DLAB`
    /// and `LOOP_BACK` are left out. Does not wait, and discards nothing that is saved for the next
    /// `lsr` or `msr`. The other fields of the configuration stay as they are.
    ///
    /// Reads no received byte. On a chip that shows `DATA_READY` behind the reset of its FIFOs the
    /// next receive may return a byte from before, or one that never arrived: receive what waits,
    /// and discard it.
    ///
    /// # Examples
    ///
    /// ```
    /// let before = uart.config_register_dump();
    /// uart.restore(&before);
    /// ```
    pub fn restore(&mut self, dump: &ConfigRegisterDump)
        ensures { Did B.step (Restores dump.now) self.old self.new }
    {
        self.config.interrupts = dump.ier;
        self.set_line(dump.divisor(), dump.lcr.difference(LCR::DLAB));
        let level = self.level_of(dump.isr.fifo_enabled());
        let on = self.set_fifo(level);
        self.set_modem_control(dump.mcr);
        self.write_register(offsets::SPR, dump.spr);
        // `set_line` has disabled all interrupts. They come back last, when a handler finds all
        // else as it was.
        self.write_register(offsets::IER, dump.ier.bits());
        self.fifo_enabled = on;
    }
}
