//! From the receive ring to the caller, each byte with the errors that are noted of it.
ghost use Rattle.std.specs.Prelude.{◌≡◌, ◌<◌, ◌≤◌, ◌-◌, true, length, take, drop, min};
ghost use Rattle.std.specs.Prelude.{IfErr, IfOk, is_ok};
ghost use Rattle.uart_ring.specs.Notes.{NotesErrors, bytes_of, errors_in, errors_of, unnoted_in};
ghost use Rattle.uart_ring.specs.Notes.{errors_among, unnoted_among};
ghost use Rattle.uart_ring.specs.Queue.{latest};
ghost use Rattle.uart_ring.specs.Receive.{EndsPause, TakesBytes};
ghost use Rattle.uart_ring.specs.Ring.{IfAny, RingDid, ring_fields, without_taken};

use super::Uart16550Ring;
use crate::notes::{ErrorNotes, UnnotedError};
use crate::queue::ByteQueue;
use bitflags::Flags;
use uart_16550::backend::Backend;
use uart_spec::Received;
use uart_spec::registers::LSR;

// Copies the first bytes with the errors that are noted of them to the slots, as many as both have,
// and returns how many. More may be noted before the first byte.
fn copy_with_errors(bytes: &ByteQueue, noted: &ByteQueue, slots: &mut [Received]) -> usize
    requires { length bytes.now.items ≤ length noted.now.items }
    ensures count { result ≡ min (length slots.old) (length bytes.now.items) }
    ensures bytes { bytes_of (take result slots.new) ≡ take result bytes.now.items }
    ensures errors { errors_of (take result slots.new) ≡
        take result (latest (length bytes.now.items) noted.now.items) }
    ensures rest { drop result slots.new ≡ drop result slots.old }
{
    let before = noted.len() - bytes.len();
    for (place, slot) in slots.iter_mut().enumerate() {
        if place == bytes.len() {
            return place;
        }
        let byte = bytes.byte_at(place);
        let errors = LSR::from_bits_retain(noted.byte_at(before + place));
        *slot = Received { byte, errors };
    }
    slots.len()
}

// Copies the first bytes with the errors that are noted of them, as many as there are slots, and
// returns how many, unless fewer errors are noted than there are bytes.
fn copy_noted(
    bytes: &ByteQueue,
    noted: &ByteQueue,
    slots: &mut [Received],
) -> Result<usize, UnnotedError>
    ensures count { IfOk result (λ count.
        count ≡ min (length slots.old) (length bytes.now.items)) }
    ensures bytes { IfOk result (λ count.
        bytes_of (take count slots.new) ≡ take count bytes.now.items) }
    ensures errors { IfOk result (λ count. errors_of (take count slots.new) ≡
        take count (latest (length bytes.now.items) noted.now.items)) }
    ensures rest { IfOk result (λ count. drop count slots.new ≡ drop count slots.old) }
    ensures noted { length bytes.now.items - length noted.now.items ≡ 0 → is_ok result ≡ true }
    ensures all_noted { IfOk result (λ count.
        length bytes.now.items - length noted.now.items ≡ 0) }
    ensures refused { IfErr result (λ error.
        (0 < error.bytes) × (error.bytes ≡ length bytes.now.items - length noted.now.items)
        × (slots.new ≡ slots.old)) }
{
    // Without this, errors would stand at other bytes, and nobody could tell.
    if noted.len() < bytes.len() {
        return Err(UnnotedError {
            bytes: bytes.len() - noted.len(),
        });
    }
    Ok(copy_with_errors(bytes, noted, slots))
}

impl<B: Backend> Uart16550Ring<B> {
    /// Copies received bytes from the front of the receive ring, each with the errors that these
    /// notes have of it, as many as there are slots, and returns how many. Takes none of them, and
    /// leaves the other slots unchanged.
    ///
    /// It is for a backend that reaches the notes somewhere else, as through a pointer. What
    /// [`take_with_errors`](Self::take_with_errors) does, this and a `take` of so many bytes do.
    /// The notes are those that each access of the driver goes through; others tell of other bytes.
    ///
    /// # Errors
    ///
    /// `UnnotedError` if fewer errors are noted than bytes are in the receive ring. Then nothing is
    /// copied.
    ///
    /// # Examples
    ///
    /// ```
    /// let count = ring.copy_with_notes(notes, &mut slots)?;
    /// ```
    pub fn copy_with_notes<N>(
        &self,
        notes: &ErrorNotes<N>,
        slots: &mut [Received],
    ) -> Result<usize, UnnotedError>
        // promise: bytes that are copied with notes beside the rings have the same errors, and stay
        // shown by: bytes_are_copied_with_their_errors_and_stay
        // refused: copy_with_notes_has_bytes_as_errors
        ensures count { IfOk result (λ count. count ≡ min (length slots.old)
            (length (ring_fields self.now).receive.items)) }
        ensures bytes { IfOk result (λ count. bytes_of (take count slots.new) ≡
            take count (ring_fields self.now).receive.items) }
        ensures errors { IfOk result (λ count. errors_of (take count slots.new) ≡
            take count (errors_among notes.now.noted.items self.now)) }
        ensures rest { IfOk result (λ count. drop count slots.new ≡ drop count slots.old) }
        // if: the errors of all bytes in the ring are noted
        ensures noted { unnoted_among notes.now.noted.items self.now ≡ 0 → is_ok result ≡ true }
        ensures all_noted { IfOk result (λ count.
            unnoted_among notes.now.noted.items self.now ≡ 0) }
        ensures refused { IfErr result (λ error.
            (0 < error.bytes) × (error.bytes ≡ unnoted_among notes.now.noted.items self.now)
            × (slots.new ≡ slots.old)) }
    {
        copy_noted(&self.receive, &notes.noted, slots)
    }

    // Drops so many bytes that were taken from the front of the receive ring.
    pub(crate) fn drop_taken(&mut self, count: usize)
        requires { count ≤ length (ring_fields self.old).receive.items }
        ensures { RingDid B.step
            (λ f l after. IfAny count EndsPause (without_taken count f) l after)
            self.old self.new }
    {
        self.receive.drop_front(count);
        self.end_pause(count);
    }
}

impl<B: Backend> Uart16550Ring<ErrorNotes<B>> {
    /// Takes received bytes from the front of the receive ring, each with its errors, as many as
    /// there are slots, and returns how many. Leaves the other slots unchanged.
    ///
    /// It is a `take`, and makes the accesses of one. `take` and `clear_receive` may be called in
    /// between.
    ///
    /// With the FIFO on, the parity error, the framing error and the break of a byte are exactly
    /// those of its character. An overrun tells that a character was lost, and on which side of the
    /// byte: right behind as many characters from this byte on as the FIFO holds, or one fewer, so
    /// with a FIFO of 16 behind the 15th or the 16th. They are counted through the bytes of the
    /// receive ring and then those in the chip. Without a FIFO, a character that comes between the
    /// look and the read of its byte replaces the one that was shown.
    ///
    /// Over the software chip with its FIFO on this is proved, after any calls of the rings
    /// themselves. It begins with the first look at LSR since the notes were made or the receiver
    /// was reset, as an `init` makes it: an overrun of before is at no byte, and `take_line` alone
    /// tells of it.
    ///
    /// A call of the driver that receives, through `inner_mut`, passes the receive ring by, and its
    /// bytes are the last that were read. So make it only while the receive ring is empty; else
    /// errors stand at the wrong bytes until all bytes of the ring are taken.
    ///
    /// # Errors
    ///
    /// `UnnotedError` if fewer errors are noted than bytes are in the receive ring: the notes have
    /// room for fewer, or were made later. Then nothing is done.
    ///
    /// # Examples
    ///
    /// ```
    /// let count = ring.take_with_errors(&mut slots)?;
    /// for received in &slots[..count] {
    ///     if received.errors.contains(LSR::BREAK_INTERRUPT) {
    ///         breaks += 1;
    ///     }
    /// }
    /// ```
    pub fn take_with_errors(&mut self, slots: &mut [Received]) -> Result<usize, UnnotedError>
        // promise: a byte that is taken from the rings with its errors has what LSR has shown since
        //   the byte before it was read, whoever looked; over the chip with the FIFO on these are
        //   exactly those of its character, and an overrun tells behind which character one was
        //   lost, after any calls of the rings themselves
        // with: take_with_errors, NotesErrors.noted, noted_errors_are_exact,
        //   init_leaves_notes_in_step, AreTheirs, IsLostBehind.older
        // shown by: each_byte_has_the_errors_of_its_character, a_break_stands_at_its_byte,
        //   an_overrun_stands_where_a_character_was_lost,
        //   an_overrun_before_an_init_stands_at_no_byte_after_it
        // refused: take_with_errors_takes_the_oldest_notes, a_note_is_of_the_last_look_alone,
        //   a_note_has_an_overrun_of_before_a_reset
        ensures did { IfOk result (λ count. RingDid (NotesErrors B.step)
            (TakesBytes (length slots.old) (bytes_of (take count slots.new)))
            self.old self.new) }
        ensures count { IfOk result (λ count. count ≡ min (length slots.old)
            (length (ring_fields self.old).receive.items)) }
        ensures errors { IfOk result (λ count.
            errors_of (take count slots.new) ≡ take count (errors_in self.old)) }
        ensures rest { IfOk result (λ count. drop count slots.new ≡ drop count slots.old) }
        // if: the errors of all bytes in the ring are noted
        ensures noted { unnoted_in self.old ≡ 0 → is_ok result ≡ true }
        ensures all_noted { IfOk result (λ count. unnoted_in self.old ≡ 0) }
        ensures refused { IfErr result (λ error.
            (0 < error.bytes) × (error.bytes ≡ unnoted_in self.old)
            × (self.new ≡ self.old) × (slots.new ≡ slots.old)) }
    {
        let noted = &self.uart.backend().noted;
        let count = copy_noted(&self.receive, noted, slots)?;
        self.drop_taken(count);
        Ok(count)
    }
}
