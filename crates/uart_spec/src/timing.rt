//! How long a character takes on the line, and how late a handler may be.
//!
//! Times are in clocks of the chip's input, of which a second has `Config::frequency`. So nothing
//! is rounded.
ghost use Rattle.std.specs.Prelude.{◌≡◌, ◌<◌, ◌≤◌, ◌^◌, ◌+◌, ◌*◌, ◌⊎◌, IfNone, IfOk};
ghost use Rattle.std.specs.Prelude.{IfSome};
ghost use Rattle.uart_spec.specs.FifoSize.{characters};
ghost use Rattle.uart_spec.specs.Timing.{IsCharacterAnswer, IsCharactersAnswer, IsCovering};
ghost use Rattle.uart_spec.specs.Timing.{IsHandlerAnswer, IsHandlerBudget, IsSpinLimit, IsTimeOf};
ghost use Rattle.uart_spec.specs.Timing.{IsWithin, character_halves, characters_at, spare_at};

use crate::checked::checked_divisor;
use crate::config::Config;
use crate::errors::InvalidDivisorError;
use crate::registers::{FifoTriggerLevel, Parity, WordLength};
use crate::setup::FifoSize;

const NANOSECONDS_PER_SECOND: u32 = 1_000_000_000;

impl FifoTriggerLevel {
    /// Returns how many characters wait in a FIFO of this size when the level is reached: the
    /// number of its name in one of 16, and other numbers in larger ones.
    ///
    /// They are those of a 16550, a 16650, a 16750 and a 16950, and those of DesignWare for 256:
    /// one, a quarter, a half, and two less than full.
    ///
    /// # Examples
    ///
    /// ```
    /// assert_eq!(rt; FifoTriggerLevel::Fourteen.characters(FifoSize::SixtyFour), 56);
    /// ```
    pub fn characters(self, size: FifoSize) -> usize
        ensures number { result ≡ characters_at size self }
        ensures some { 1 ≤ result }
        ensures fits { result ≤ characters size }
    {
        let levels = match size {
            FifoSize::Sixteen => [1, 4, 8, 14],
            FifoSize::ThirtyTwo => [8, 16, 24, 28],
            FifoSize::SixtyFour => [1, 16, 32, 56],
            FifoSize::OneHundredTwentyEight => [16, 32, 112, 120],
            FifoSize::TwoHundredFiftySix => [1, 64, 128, 254],
        };
        match self {
            FifoTriggerLevel::One => levels[0],
            FifoTriggerLevel::Four => levels[1],
            FifoTriggerLevel::Eight => levels[2],
            FifoTriggerLevel::Fourteen => levels[3],
        }
    }
}

// Returns how many halves of bits a character has, with its start bit and its stop bits.
fn halves(config: &Config) -> u64
    ensures value { result ≡ character_halves config.now }
    ensures some { 14 ≤ result }
    ensures few { result ≤ 24 }
{
    let parity = match config.parity {
        Parity::Disabled => 0,
        _ => 2,
    };
    let stop = match config.data_bits {
        _ if !config.extra_stop_bits => 2,
        WordLength::FiveBits => 3,
        _ => 4,
    };
    2 + 2 * config.data_bits.to_integer() as u64 + parity + stop
}

// Returns how many characters more the receiver takes, once as many wait as the trigger level.
fn spare(config: &Config, size: FifoSize) -> u32
    ensures value { result ≡ spare_at size config.now.fifo_trigger_level }
    ensures few { result < 256 }
{
    match config.fifo_trigger_level {
        None => 0,
        Some(level) => (size.characters() - level.characters(size)) as u32,
    }
}

// Returns `(value * times + more) / per`, if there is one and it fits. No step of it overflows:
// what `value` has above a multiple of `per` is below it.
fn scaled(value: u64, times: u32, per: u32, more: u32) -> Option<u64>
    ensures some { IfSome result (λ whole. whole * per ≤ value * times + more) }
    ensures most { IfSome result (λ whole. value * times + more < (whole + 1) * per) }
    ensures none { IfNone result ((per ≡ 0) ⊎ (2 ^ 64 * per ≤ value * times + more)) }
{
    if per == 0 {
        return None;
    }
    let whole = (value / per as u64).checked_mul(times as u64)?;
    let rest = (value % per as u64) * times as u64 + more as u64;
    whole.checked_add(rest / per as u64)
}

impl Config {
    /// Returns how many clocks of the chip's input a character takes on the line: its start bit,
    /// data bits, parity bit and stop bits, with one and a half stop bits exact.
    ///
    /// # Errors
    ///
    /// Those of `checked_divisor`, if there is no divisor for the baud rate.
    ///
    /// # Examples
    ///
    /// ```
    /// // 9,600 baud: ten bits of 12 times 16 clocks.
    /// assert_eq!(rt; Config::DEFAULT.character_clocks(), Ok(1_920));
    /// ```
    pub fn character_clocks(&self) -> Result<u64, InvalidDivisorError>
        // promise: how long a character takes in clocks of the chip's input, with one and a half
        //   stop bits exact; and the most that a handler may be late
        // with: character_clocks, handler_clocks, characters
        // shown by: how_long_a_character_takes
        // refused: five_bits_have_two_stop_bits, a_handler_may_be_a_clock_later
        ensures answer { IsCharacterAnswer self.now result }
        ensures some { IfOk result (λ clocks. 1 ≤ clocks) }
        ensures least { IfOk result (λ clocks. 112 ≤ clocks) }
        ensures few { IfOk result (λ clocks. clocks < 2 ^ 32) }
    {
        let factor = self.prescaler_division_factor;
        let rate = self.baud_rate.to_integer();
        let divisor = checked_divisor(self.frequency, rate, factor)?;
        Ok(8 * (factor.unwrap_or(0) as u64 + 1) * divisor as u64 * halves(self))
    }

    /// Returns the most clocks of the chip's input that a handler may be late, so that no character
    /// is dropped without flow control, in a FIFO of this size.
    ///
    /// They pass from the moment at which as many characters wait as the trigger level, to the
    /// first read of DATA. One clock more, and a character that comes as soon as it can finds the
    /// receiver full. With the FIFOs off, and of a chip without FIFOs, it is one clock less than a
    /// character takes.
    ///
    /// # Errors
    ///
    /// Those of `checked_divisor`, if there is no divisor for the baud rate.
    ///
    /// # Examples
    ///
    /// ```
    /// // Level 8 of 16, at 115,200 baud: nine characters of 160 clocks, or 781 microseconds.
    /// let config = Config {
    ///     baud_rate: BaudRate::Baud115200,
    ///     fifo_trigger_level: Some(FifoTriggerLevel::Eight),
    ///     ..Config::DEFAULT
    /// };
    /// assert_eq!(rt; config.handler_clocks(FifoSize::Sixteen), Ok(1_439));
    /// ```
    pub fn handler_clocks(&self, size: FifoSize) -> Result<u64, InvalidDivisorError>
        ensures { IsHandlerAnswer self.now size result }
    {
        let character = self.character_clocks()?;
        Ok((spare(self, size) as u64 + 1) * character - 1)
    }

    /// Returns the most clocks that may pass from the receiver's interrupt to the handler's read of
    /// ISR, so that no character is dropped without flow control; or `None` if nothing is left.
    ///
    /// An access takes at most `access_clocks`. At a line that several ports share those before
    /// this one are served first, for at most `before_clocks`: the result is then what is left for
    /// the first read of ISR of the whole handler. At a line of its own this is 0. If a line error
    /// is told first, the first byte is read four accesses after ISR. Nothing is left either if two
    /// accesses, as each byte needs, take longer than a character.
    ///
    /// A character takes as long as this configuration says. The other end must be no faster, also
    /// by its stop bits: an end that sends one takes less time than two, and this end sees no
    /// difference.
    ///
    /// The result counts no other accesses of a visit of the handler. If one takes a quarter of a
    /// character or more, a visit may meet each character that comes meanwhile as an interrupt of
    /// its own, and end by its limit and not with `Idle`. Then characters are lost in spite of the
    /// result, and at half a character even if the handler comes at once.
    ///
    /// # Errors
    ///
    /// Those of `checked_divisor`, if there is no divisor for the baud rate.
    ///
    /// # Examples
    ///
    /// ```
    /// // Level 8 of 16, at 115,200 baud, with a microsecond for each access: 776 whole
    /// // microseconds.
    /// let config = Config {
    ///     baud_rate: BaudRate::Baud115200,
    ///     fifo_trigger_level: Some(FifoTriggerLevel::Eight),
    ///     ..Config::DEFAULT
    /// };
    /// assert_eq!(rt; config.clocks_covering(1_000), Some(2));
    /// assert_eq!(rt; config.handler_budget(FifoSize::Sixteen, 2, 0), Ok(Some(1_431)));
    /// assert_eq!(rt; config.nanoseconds_within(1_431), Some(776_367));
    /// ```
    pub fn handler_budget(
        &self,
        size: FifoSize,
        access_clocks: u64,
        before_clocks: u64,
    ) -> Result<Option<u64>, InvalidDivisorError>
        // promise: how late a handler may be where accesses take time and other ports are served
        //   first, how many characters come in a time, how long a full transmitter, the chip's
        //   timeout and a spin limit last: exact in clocks, and as nanoseconds rounded to the side
        //   that the call is named by
        // with: handler_budget, characters_in, drain_clocks, timeout_clocks, spin_limit_for,
        //   nanoseconds_within, nanoseconds_covering, clocks_within, clocks_covering
        // shown by: what_is_left_for_a_handler, what_characters_take,
        //   nanoseconds_are_rounded_to_the_safe_side, nanoseconds_are_quotients,
        //   a_handler_at_its_budget_loses_nothing_and_a_clock_later_it_does
        // refused: the_first_byte_is_read_at_once, two_accesses_may_take_longer_than_a_character,
        //   no_character_ends_at_once, a_transmitter_is_its_fifo, a_timeout_of_three_characters,
        //   a_look_less_is_enough, a_budget_is_rounded_up, a_wait_is_rounded_down,
        //   a_look_is_rounded_up, an_access_is_rounded_down
        ensures { IsHandlerBudget self.now size access_clocks before_clocks result }
    {
        let character = self.character_clocks()?;
        if access_clocks > character / 2 {
            return Ok(None);
        }
        let most = (spare(self, size) as u64 + 1) * character - 1;
        let taken = before_clocks.saturating_add(4 * access_clocks);
        Ok(most.checked_sub(taken))
    }

    /// Returns the most characters that can arrive within so many clocks.
    ///
    /// That is what a mark of flow control has to leave room for: what is under way on a cable with
    /// such a delay, or comes until a handler runs that is so late.
    ///
    /// # Errors
    ///
    /// Those of `checked_divisor`, if there is no divisor for the baud rate.
    ///
    /// # Examples
    ///
    /// ```
    /// // A character takes 1,920 clocks. One may end at once.
    /// assert_eq!(rt; Config::DEFAULT.characters_in(0), Ok(1));
    /// assert_eq!(rt; Config::DEFAULT.characters_in(1_919), Ok(1));
    /// assert_eq!(rt; Config::DEFAULT.characters_in(1_920), Ok(2));
    /// ```
    pub fn characters_in(&self, clocks: u64) -> Result<u64, InvalidDivisorError>
        ensures { IsCharactersAnswer self.now clocks result }
    {
        Ok(clocks / self.character_clocks()? + 1)
    }

    /// Returns the clocks after which a full transmitter has sent all that it holds: the FIFO, of
    /// this size, and the shift register.
    ///
    /// So long at most does a `flush` take, if the other end does not hold the chip off.
    ///
    /// # Errors
    ///
    /// Those of `checked_divisor`, if there is no divisor for the baud rate.
    ///
    /// # Examples
    ///
    /// ```
    /// assert_eq!(rt; Config::DEFAULT.drain_clocks(FifoSize::Sixteen), Ok(17 * 1_920));
    /// ```
    pub fn drain_clocks(&self, size: FifoSize) -> Result<u64, InvalidDivisorError>
        ensures { IsTimeOf self.now (characters size + 1) result }
    {
        Ok((size.characters() as u64 + 1) * self.character_clocks()?)
    }

    /// Returns the clocks after which the chip's reception timeout interrupts, if fewer characters
    /// wait than the trigger level: the time of four characters, in which none came and none was
    /// read.
    ///
    /// # Errors
    ///
    /// Those of `checked_divisor`, if there is no divisor for the baud rate.
    ///
    /// # Examples
    ///
    /// ```
    /// assert_eq!(rt; Config::DEFAULT.timeout_clocks(), Ok(4 * 1_920));
    /// ```
    pub fn timeout_clocks(&self) -> Result<u64, InvalidDivisorError>
        ensures { IsTimeOf self.now 4 result }
    {
        Ok(4 * self.character_clocks()?)
    }

    /// Returns the spin limit with which no wait for a working transmitter gives up, of a FIFO of
    /// this size: if each look takes at least so many clocks, and the other end does not hold the
    /// chip off. `None` if a look takes none.
    ///
    /// A wait gives up after at most as many looks in a row as the limit, so after the limit times
    /// the clocks of a look.
    ///
    /// # Errors
    ///
    /// Those of `checked_divisor`, if there is no divisor for the baud rate.
    ///
    /// # Examples
    ///
    /// ```
    /// // A character takes 960 looks of two clocks, and 17 of them may be in the transmitter.
    /// let limit = Config::DEFAULT.spin_limit_for(FifoSize::Sixteen, 2);
    /// assert_eq!(rt; limit, Ok(Some(17 * 961)));
    /// ```
    pub fn spin_limit_for(
        &self,
        size: FifoSize,
        access_clocks: u64,
    ) -> Result<Option<u64>, InvalidDivisorError>
        ensures { IsSpinLimit self.now size access_clocks result }
    {
        let character = self.character_clocks()?;
        if access_clocks == 0 {
            return Ok(None);
        }
        let looks = (character - 1) / access_clocks + 1;
        Ok(Some((size.characters() as u64 + 1) * (looks + 1)))
    }

    /// Returns the whole nanoseconds within so many clocks: rounded down, as a time that may be
    /// used up. `None` if they do not fit, or the frequency is 0.
    ///
    /// # Examples
    ///
    /// ```
    /// // A character at 115,200 baud.
    /// assert_eq!(rt; Config::DEFAULT.nanoseconds_within(160), Some(86_805));
    /// ```
    #[must_use]
    pub fn nanoseconds_within(&self, clocks: u64) -> Option<u64>
        ensures { IsWithin clocks 1_000_000_000 self.now.frequency result }
    {
        scaled(clocks, NANOSECONDS_PER_SECOND, self.frequency, 0)
    }

    /// Returns the fewest whole nanoseconds that cover so many clocks: rounded up, as a time to
    /// wait. `None` if they do not fit, or the frequency is 0.
    ///
    /// # Examples
    ///
    /// ```
    /// assert_eq!(rt; Config::DEFAULT.nanoseconds_covering(160), Some(86_806));
    /// ```
    #[must_use]
    pub fn nanoseconds_covering(&self, clocks: u64) -> Option<u64>
        ensures { IsCovering clocks 1_000_000_000 self.now.frequency result }
    {
        let more = self.frequency.saturating_sub(1);
        scaled(clocks, NANOSECONDS_PER_SECOND, self.frequency, more)
    }

    /// Returns the whole clocks within so many nanoseconds: rounded down, as the least that a look
    /// takes. `None` if they do not fit.
    ///
    /// # Examples
    ///
    /// ```
    /// assert_eq!(rt; Config::DEFAULT.clocks_within(1_000), Some(1));
    /// ```
    #[must_use]
    pub fn clocks_within(&self, nanoseconds: u64) -> Option<u64>
        ensures { IsWithin nanoseconds self.now.frequency 1_000_000_000 result }
    {
        scaled(nanoseconds, self.frequency, NANOSECONDS_PER_SECOND, 0)
    }

    /// Returns the fewest clocks that cover so many nanoseconds: rounded up, as the most that an
    /// access takes, or a handler is late. `None` if they do not fit.
    ///
    /// # Examples
    ///
    /// ```
    /// assert_eq!(rt; Config::DEFAULT.clocks_covering(1_000), Some(2));
    /// ```
    #[must_use]
    pub fn clocks_covering(&self, nanoseconds: u64) -> Option<u64>
        ensures { IsCovering nanoseconds self.now.frequency 1_000_000_000 result }
    {
        scaled(
            nanoseconds,
            self.frequency,
            NANOSECONDS_PER_SECOND,
            NANOSECONDS_PER_SECOND - 1,
        )
    }
}
