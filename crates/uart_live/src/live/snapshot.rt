//! A live chip as plain data, and back.
ghost use Rattle.std.specs.Prelude.{◌≡◌, ◌<◌, ◌≤◌, Err, IfOk, IsOk};
ghost use Rattle.uart_chip.specs.Snapshot.{chip_of};
ghost use Rattle.uart_live.specs.declared.fixed.TheConstants.{WIRE_ROOM};
ghost use Rattle.uart_live.specs.declared.errors.RestoreError.{RestoreError};
ghost use Rattle.uart_live.specs.Live.{IsLive};
ghost use Rattle.uart_spec.specs.declared.setup.FifoSize.TheVariants.{Sixteen};

use super::LiveChipWith;
use crate::errors::RestoreError;
use crate::fixed::{FixedFifo, FixedWire, NoMarks, WIRE_ROOM};
use crate::sound::is_live;
use uart_chip::{Character, ChipData, Uart, send};
use uart_spec::{FIFO_SIZE, FifoSize};

// The arrays of the data hold 16 characters.
impl LiveChipWith<FIFO_SIZE> {
    /// Returns the chip as plain data. The bytes on its wire are [`LiveChipWith::wire`].
    ///
    /// # Examples
    ///
    /// ```
    /// let saved = chip.data();
    /// let restored = LiveChip::from_data(&saved, chip.wire())?;
    /// ```
    #[tactic(auto, unfolding(crate::specs::Size::fifo_size))]
    pub fn data(&self) -> ChipData
        // proved: A chip that is restored from its data equals the one that was saved; data are
        //   refused exactly if they are not those of a live chip, or of a wire with room for more
        //   than 64 bytes
        // on: `LiveChip::data`; `from_data`, clauses `restored`, `refused`, `large` and `accepted`;
        //   `sound::is_live`
        ensures data { chip_of result self.now.transmitter.wire ≡ self.now }
        ensures live { IsLive Sixteen self.now }
    {
        self.uart.data()
    }

    /// Returns the chip with these data, and with these bytes on its wire. It continues as the chip
    /// that was saved.
    ///
    /// # Errors
    ///
    /// The first of these:
    ///
    /// - `BadData` if the data are not those of a live chip.
    /// - `BadWire` if its wire has room for more than 64 bytes.
    ///
    /// # Examples
    ///
    /// ```
    /// let restored = LiveChip::from_data(&saved, chip.wire())?;
    /// ```
    #[tactic(auto, unfolding(crate::specs::Size::fifo_size))]
    pub fn from_data(saved: &ChipData, wire: &[u8]) -> Result<Self, RestoreError>
        // promise: a restored chip equals the saved one, and other data are refused
        // with: from_data.restored, from_data.refused
        // shown by: a_restored_chip_behaves_as_the_saved_one, only_data_of_a_live_chip_are_restored
        // refused: any_data_is_restored, restored_with_an_empty_wire
        ensures restored { IfOk result (λ live. live ≡ chip_of saved.now wire.now) }
        // if: the saved chip is not sound as a live chip is, or has something of a schedule, or
        //   FIFOs of another size than 16
        ensures refused { (IsLive Sixteen (chip_of saved.now wire.now) → ⊥) →
            result ≡ Err RestoreError.BadData }
        ensures large { IsLive Sixteen (chip_of saved.now wire.now) →
            WIRE_ROOM < saved.now.transmitter.wire_capacity → result ≡ Err RestoreError.BadWire }
        ensures accepted { IsLive Sixteen (chip_of saved.now wire.now) →
            saved.now.transmitter.wire_capacity ≤ WIRE_ROOM → IsOk result }
    {
        if !is_live(FifoSize::Sixteen, saved, wire) {
            return Err(RestoreError::BadData);
        }
        if saved.transmitter.wire_capacity > WIRE_ROOM {
            return Err(RestoreError::BadWire);
        }
        let mut sent = FixedWire::new(saved.transmitter.wire_capacity);
        send(&mut sent, wire);
        let uart = Uart::from_parts(
            FixedFifo::new(0),
            sent,
            FixedFifo::new(Character::default()),
            NoMarks,
            saved,
        );
        Ok(Self { uart })
    }
}
