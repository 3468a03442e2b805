//! From the chip to the receive ring, and from there to the caller.
ghost use Rattle.std.specs.Prelude.{◌≡◌, length, take, drop, min, Some, None};
ghost use Rattle.uart_ring.specs.Ring.{IfAny, RingDid, ring_fields};
ghost use Rattle.uart_ring.specs.Receive.{PausesIfFull, FillsReceiveRing, EndsPause};
ghost use Rattle.uart_ring.specs.Receive.{TakesBytes, ClearsReceive};
ghost use Rattle.uart_ring.specs.Receive.{AdjustsRts, MakesRtsIfAny};
ghost use Rattle.uart_ring.specs.Receive.{AdjustsXoff, TellsIfAny, rts_at, to_tell};
ghost use Rattle.uart_ring.specs.Receive.{ObeysXoff, last_told};
ghost use Rattle.uart_ring.specs.Queue.{latest};
ghost use Rattle.uart_ring.specs.Ring.{free};
ghost use Rattle.uart_16550.specs.Frame.{switched};

use super::Uart16550Ring;
use bitflags::Flags;
use uart_16550::backend::Backend;
use uart_spec::registers::{IER, MCR};

// What tells the other end to go on, and to stop.
const XON: u8 = 0x11;

const XOFF: u8 = 0x13;

/// How much room in the receive ring turns RTS off, and how much turns it on again. With XOFF and
/// XON it is the same.
///
/// Between the two RTS stays as it is, so it does not change with each byte. If `release` is less
/// than `hold`, RTS is off below `hold` and on from there.
#[derive(Clone, Copy, Debug, PartialEq, Eq)]
pub struct ReceiveMarks {
    /// The other end is held back while there is room for fewer bytes than this.
    pub hold: usize,
    /// It may go on once there is room for this number of bytes.
    pub release: usize,
}

// Returns MCR with RTS asserted or clear.
fn with_rts(mcr: MCR, on: bool) -> MCR
    ensures { result.0 ≡ switched on MCR.RTS.0 mcr.0 }
{
    if on {
        mcr.union(MCR::RTS)
    } else {
        mcr.difference(MCR::RTS)
    }
}

impl<B: Backend> Uart16550Ring<B> {
    // Pauses receiving if the receive ring is full. The data interrupt does not end until the data
    // are read, so the handler would be called without end.
    fn pause_if_full(&mut self)
        ensures { RingDid B.step PausesIfFull self.old self.new }
    {
        if self.receive.is_full() {
            self.uart.disable_interrupts(IER::DATA_READY);
            self.is_paused = true;
        }
    }

    // Receives bytes into the receive ring: as many as a FIFO of the size that is set holds, and as
    // there is room for.
    pub(super) fn fill_receive_ring(&mut self)
        ensures { RingDid B.step FillsReceiveRing self.old self.new }
    {
        let len = self.receive.len();
        let most = self.uart.fifo_size().characters();
        let slots = most.min(self.receive.capacity() - len);
        let count = self.receive.receive_from(&mut self.uart, slots);
        self.unlooked = self.unlooked.min(len) + count;
        self.pause_if_full();
    }

    // Ends a pause if so many bytes have left the receive ring.
    pub(super) fn end_pause(&mut self, count: usize)
        ensures { RingDid B.step (IfAny count EndsPause) self.old self.new }
    {
        if count > 0 && self.is_paused {
            self.uart.enable_interrupts(IER::DATA_READY);
            self.is_paused = false;
        }
    }

    /// Takes received bytes from the front of the receive ring, as many as there are slots, and
    /// returns how many. Leaves the other slots unchanged.
    ///
    /// Does not wait. If it takes at least one byte and receiving is paused, it enables
    /// `DATA_READY` again and ends the pause: one read and one write of IER. Otherwise it makes no
    /// access.
    ///
    /// # Examples
    ///
    /// ```
    /// assert_eq!(rt; ring.take(&mut slots), 2);
    /// ```
    pub fn take(&mut self, slots: &mut [u8]) -> usize
        ensures did { RingDid B.step (TakesBytes (length slots.old) (take result slots.new))
            self.old self.new }
        ensures count { result ≡ min (length slots.old)
            (length (ring_fields self.old).receive.items) }
        ensures rest { drop result slots.new ≡ drop result slots.old }
    {
        let count = self.receive.read_into(slots);
        self.end_pause(count);
        count
    }

    /// Drops the bytes of the receive ring, and returns how many. What is in the chip stays there.
    ///
    /// Does not wait. If it drops at least one byte and receiving is paused, it enables
    /// `DATA_READY` again and ends the pause, as `take` does. Otherwise it makes no access.
    ///
    /// # Examples
    ///
    /// ```
    /// let dropped = ring.clear_receive();
    /// ```
    pub fn clear_receive(&mut self) -> usize
        ensures { RingDid B.step (ClearsReceive result) self.old self.new }
    {
        let count = self.receive.len();
        self.receive.drop_front(count);
        self.end_pause(count);
        count
    }

    // Returns whether the other end may send, or `None` if that is to stay as it is.
    fn may_send(&self, marks: ReceiveMarks) -> Option<bool>
        ensures { result ≡ rts_at marks (free (ring_fields self.now).receive) }
    {
        let room = self.receive.capacity() - self.receive.len();
        // The first test comes first, so that marks the wrong way round do not let bytes come for
        // which there is no room.
        if room < marks.hold {
            Some(false)
        } else if room >= marks.release {
            Some(true)
        } else {
            None
        }
    }

    // Asserts or clears RTS, unless it is so already.
    fn make_rts(&mut self, on: bool)
        ensures { RingDid B.step (MakesRtsIfAny (Some on)) self.old self.new }
    {
        // A handler adjusts RTS each time that it runs, and RTS changes seldom. So one read shows
        // most times that there is nothing to write, where `set_rts` would also write.
        let mcr = self.uart.mcr();
        if mcr.contains(MCR::RTS) != on {
            self.uart.set_modem_control(with_rts(mcr, on));
        }
    }

    /// Holds the other end back, or lets it go on, by RTS: clears RTS if the receive ring has room
    /// for fewer than `marks.hold` bytes, and asserts it if there is room for at least
    /// `marks.release`. Between the two RTS stays as it is.
    ///
    /// The other end has to check CTS before it sends, as `check_cts_before_sending` says. It may
    /// still send what is in its transmitter. So choose `hold` with room for that, and `release`
    /// not above the capacity of the receive ring, or RTS would never be asserted again.
    ///
    /// Call it at the end of the interrupt handler, and after each `take` and `clear_receive`. A
    /// handler alone is not enough: while the other end is held back no byte arrives, so nothing
    /// calls the handler.
    ///
    /// Does not wait. Between the marks it makes no access. Otherwise it reads MCR, and if RTS is
    /// not as it is to be, writes MCR: the other outputs as they were, and loopback off.
    ///
    /// # Examples
    ///
    /// ```
    /// ring.take(&mut slots);
    /// ring.adjust_rts(MARKS);
    /// ```
    pub fn adjust_rts(&mut self, marks: ReceiveMarks)
        // promise: RTS goes off below the one mark and on from the other, and nothing else changes
        // with: adjust_rts, ring_calls_lose_nothing.adjust_rts, ring_calls_leave_armed.adjust_rts,
        //   RingConserves.wired
        // shown by: rts_follows_the_room, marks_the_wrong_way_round
        // refused: adjust_rts_holds_back_one_late, adjust_rts_holds_back_a_full_ring_alone,
        //   adjust_rts_lets_a_full_ring_go_on, adjust_rts_never_lets_go_on
        ensures { RingDid B.step (AdjustsRts marks) self.old self.new }
    {
        if let Some(on) = self.may_send(marks) {
            self.make_rts(on);
        }
    }

    // Tells the other end to go on, or to stop, unless it was told so last. Returns what was told.
    fn tell(&mut self, on: bool) -> Option<u8>
        ensures { RingDid B.step (TellsIfAny (to_tell (Some on) (ring_fields self.old).urgent
            (ring_fields self.old).has_told_xoff) result) self.old self.new }
    {
        // An urgent byte that waits is not replaced: it may be the caller's, who would not be told.
        // Its interrupt is to come, and then the handler adjusts again.
        if self.urgent.is_some() || self.has_told_xoff != on {
            return None;
        }
        self.has_told_xoff = !on;
        let byte = if on { XON } else { XOFF };
        self.queue_urgent(byte);
        Some(byte)
    }

    /// Holds the other end back, or lets it go on, by XOFF and XON, where RTS is not wired: tells
    /// it XOFF if the receive ring has room for fewer than `marks.hold` bytes, and XON if it has
    /// room for at least `marks.release`. Returns the character, or `None` if none was to be told.
    ///
    /// The character goes out before all bytes that wait, also while the transmit ring is held, as
    /// that of a `queue_urgent`. What was told last is not told again. While another urgent byte
    /// waits, nothing is told; the next call does it. Once XOFF was told, marks of 0 let the other
    /// end go on in any case.
    ///
    /// The other end sends on until it has read the XOFF, which comes after what is in the chip.
    /// So choose `hold` with room for that, and `release` not above the capacity of the receive
    /// ring, or the other end would stop for ever. The other end takes each byte of the value of an
    /// XON or XOFF for one: this is for text.
    ///
    /// Call it at the end of the interrupt handler, and after each `take` and `clear_receive`, as
    /// [`adjust_rts`](Uart16550Ring::adjust_rts).
    ///
    /// Does not wait. If it tells something, it makes the accesses of a `queue_urgent`. Otherwise
    /// it makes none.
    ///
    /// # Examples
    ///
    /// ```
    /// ring.take(&mut slots);
    /// ring.adjust_xoff(MARKS);
    /// ```
    pub fn adjust_xoff(&mut self, marks: ReceiveMarks) -> Option<u8>
        // promise: XOFF is told once below the one mark, and XON once from the other on, before all
        //   that waits, and no urgent byte is lost for it
        // with: adjust_xoff, adjust_xoff_is_a_ring_call.loses_only,
        //   adjust_xoff_is_a_ring_call.leaves_armed, RingConserves.in_line
        // shown by: xoff_follows_the_room, xoff_waits_for_an_urgent_byte
        // refused: adjust_xoff_replaces_an_urgent_byte, adjust_xoff_tells_nothing_but_xoff,
        //   adjust_xoff_tells_the_same_again
        ensures { RingDid B.step (AdjustsXoff marks result) self.old self.new }
    {
        let on = self.may_send(marks)?;
        self.tell(on)
    }

    // Returns the last XON or XOFF of the bytes at which `obey_xoff` has not looked yet.
    fn last_told(&self) -> Option<u8>
        ensures { result ≡ last_told None (latest self.now.unlooked self.now.receive.items) }
    {
        let mut told = None;
        let len = self.receive.len();
        for place in len - self.unlooked.min(len)..len {
            let byte = self.receive.byte_at(place);
            if byte == XON || byte == XOFF {
                told = Some(byte);
            }
        }
        told
    }

    /// Obeys the other end, which holds this end back by XOFF and lets it go on by XON: holds the
    /// transmit ring if it told XOFF last, and releases it if it told XON last. Returns that
    /// character, or `None` if none came.
    ///
    /// It looks at the bytes that came into the receive ring since it looked last, and were not
    /// taken meanwhile. So it sees each character once, and of several the last one counts. All
    /// bytes stay in the receive ring, in their order and with their errors: a program whose
    /// readers are to see neither character leaves both out of what it takes. Bytes of these values
    /// are taken for the characters, so this is for text.
    ///
    /// The hold is that of `hold_transmit`. A program that holds the ring for a reason of its own
    /// does not call this meanwhile: the characters wait, and the next call obeys the last one.
    /// What is in the chip goes out after an XOFF, and an urgent byte still does.
    ///
    /// Call it at the end of the interrupt handler, before the program takes what came. While
    /// receiving is paused the characters stay in the chip: so choose a receive ring with room, or
    /// an XON behind a full one is seen only after a `take`.
    ///
    /// Does not wait. At an XON it makes the accesses of a `release_transmit`. Otherwise it makes
    /// none.
    ///
    /// # Examples
    ///
    /// ```
    /// ring.handle(32);
    /// ring.obey_xoff();
    /// ```
    pub fn obey_xoff(&mut self) -> Option<u8>
        // promise: the last XOFF or XON that came holds the transmit ring or releases it, each is
        //   obeyed once, and no received byte is lost or moved for it
        // with: obey_xoff, obey_xoff_is_a_ring_call.holds, obey_xoff_is_a_ring_call.loses_nothing,
        //   obey_xoff_is_a_ring_call.leaves_armed
        // shown by: an_xoff_of_the_other_end_is_obeyed,
        //   a_character_is_obeyed_once_and_not_if_it_was_taken,
        //   an_end_that_obeys_xoff_sends_nothing_meanwhile
        // refused: obey_xoff_goes_on_at_xoff, obey_xoff_obeys_the_same_again,
        //   obey_xoff_passes_over_what_came_before_the_last_burst
        ensures { RingDid B.step (ObeysXoff result) self.old self.new }
    {
        let told = self.last_told();
        self.unlooked = 0;
        let byte = told?;
        if byte == XON {
            self.release_transmit();
        } else {
            self.hold_transmit();
        }
        told
    }
}
