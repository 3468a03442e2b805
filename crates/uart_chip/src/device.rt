//! The chip under a schedule.
ghost use Rattle.std.specs.Prelude.{◌≡◌, ◌≤◌, true, length, slice_get, IfOk, IsOkUnless};
ghost use Rattle.uart_chip.specs.Machine as spec;
ghost use Rattle.uart_events.specs.Build.{refusal};
ghost use Rattle.uart_chip.specs.Sound.{IsWhole};
ghost use Rattle.uart_chip.specs.Transmitter.{held};
ghost use Rattle.uart_chip.specs.Conserved.{waiting};
ghost use Rattle.uart_chip.specs.Chip.{divisor, ticks};
ghost use Rattle.uart_chip.specs.Jumps.{most_jumps, jumps_in};
ghost use Rattle.uart_events.specs.declared.event.BuildError.{BuildError};
ghost use Rattle.uart_events.specs.declared.event.Chip.TheVariants.{Uart16550A};

use crate::{ArrivalMark, BuildError, Chip, Event, Uart, arrivals, refusal};
use std::alloc::Global;
use std::marker::Model;
use uart_spec::FifoSize;
use uart_spec::backend::Backend;

/// A serial chip in software under a schedule: a [`Uart`], and the events that happen to it. It is
/// a backend of the driver.
///
/// Time passes in ticks. A register access first performs the events up to the next
/// [`Event::Access`], and removes that. If an [`Event::Mark`] or the end of the schedule is before
/// it, the access stops there instead, and one tick passes. Then the access has its effect on the
/// register. The other calls that read the state change nothing, and no tick passes.
///
/// # Examples
///
/// ```
/// let mut uart = Uart16550::new_with_backend(device::chip_that_receives(rt.alloc(), 0x41)?);
/// uart.init(Config::DEFAULT)?;
/// ```
// All memory is reserved by `new`, so no access, no `next` and no run is refused for memory. That
// `new` succeeds cannot be a clause, since no contract says that there is memory. Tests show it.
#[derive(Drop)]
pub struct Device16550 {
    uart: Uart,
    schedule: Vec<Event>,
    cursor: usize,
}

impl Model for Device16550 {
    ghost use Rattle.std.specs.Prelude.{◌≤◌, drop, vec_len};
    ghost use Rattle.uart_chip.specs.Machine.{MachineState};
    ghost use Rattle.uart_chip.specs.Sound.{IsWhole};

    ghost Value = { MachineState };

    // Clauses see the events that are still to come, and not the place in the schedule.
    ghost view = { λ m. record { chip = m.uart; ahead = drop m.cursor m.schedule.items } };

    // Soundness is the invariant of the machine alone, and not of its parts: one lemma for each
    // kind of move says that it is preserved. The contracts of `wire` and `fifo_enabled` pass it
    // on.
    ghost invariant = { λ m. (m.cursor ≤ vec_len m.schedule)
        × IsWhole (record { chip = m.uart; ahead = drop m.cursor m.schedule.items }) };
}

impl Device16550 {
    /// Returns a machine after power-on, with the whole schedule ahead.
    ///
    /// A character takes `char_ticks` ticks in the shift register. The wire has room for
    /// `wire_capacity` bytes; if it is full, the transmitter keeps what it holds. Bytes are sent
    /// and received whole, whatever the word length is. All memory is allocated here; no later call
    /// allocates.
    ///
    /// # Errors
    ///
    /// The first of these. Each error drops the schedule.
    ///
    /// - `BadTicks` if `char_ticks` is 0 or more than 1000.
    /// - `BadWire` if `wire_capacity` is more than 65,536.
    /// - `BadErrors`, with the index of the event, for the first arrival with error bits outside of
    ///   0x1c.
    /// - `BadLines`, with the index of the event, for the first change of lines with bits outside
    ///   of 0xf0.
    /// - `OutOfMemory` if memory could not be allocated.
    ///
    /// # Examples
    ///
    /// ```
    /// let events = [Event::Ticks(10), Event::Arrive { byte, errors: 0 }];
    /// let Ok(schedule) = events.to_vec(alloc) else {
    ///     return Err(BuildError::OutOfMemory);
    /// };
    /// Device16550::new(alloc, Chip::Uart16550A, 4, 64, schedule)
    /// ```
    pub fn new(
        alloc: Global,
        chip: Chip,
        char_ticks: u16,
        wire_capacity: usize,
        schedule: Vec<Event>,
    ) -> Result<Self, BuildError>
        // promise: a machine is made, or the first refusal is told; no later call allocates
        // with: new.built, new.refused, new.accepted
        // shown by: each_request_for_memory
        // refused: new_makes_another_chip
        // proved: A machine under a schedule after power on, or the first refusal in a fixed order;
        //   else only `OutOfMemory`. All memory is allocated here
        // on: `Device16550::new`, `new_cut`, `new_sized`, `new_16750`
        ensures built { IfOk result (λ machine.
            machine ≡ spec.fresh chip char_ticks wire_capacity schedule.items) }
        // if: this is the first thing that is wrong with what is asked for
        ensures refused { (reason : BuildError) →
            refusal char_ticks wire_capacity schedule.items ≡ Some reason → result ≡ Err reason }
        // if: nothing is wrong with what is asked for
        ensures accepted { refusal char_ticks wire_capacity schedule.items ≡ None →
            IsOkUnless result BuildError.OutOfMemory }
    {
        Self::new_sized(
            alloc,
            chip,
            FifoSize::Sixteen,
            char_ticks,
            wire_capacity,
            schedule,
            false,
        )
    }

    /// Returns a machine as [`Device16550::new`] does, whose chip cuts each character to the word
    /// length of LCR.
    ///
    /// With 5, 6 or 7 data bits the higher bits of a byte are lost when it is written to the
    /// transmitter, and when it arrives. A byte that returns in loopback is not cut again. The
    /// divisor latch is never cut.
    ///
    /// # Errors
    ///
    /// Those of [`Device16550::new`], in the same order.
    ///
    /// # Examples
    ///
    /// ```
    /// Ok(Device16550::new_cut(rt.alloc(), Chip::Uart16550A, 4, 64, schedule)?)
    /// ```
    pub fn new_cut(
        alloc: Global,
        chip: Chip,
        char_ticks: u16,
        wire_capacity: usize,
        schedule: Vec<Event>,
    ) -> Result<Self, BuildError>
        ensures built { IfOk result (λ machine.
            machine ≡ spec.cutting true (spec.fresh chip char_ticks wire_capacity schedule.items)) }
        ensures refused { (reason : BuildError) →
            refusal char_ticks wire_capacity schedule.items ≡ Some reason → result ≡ Err reason }
        ensures accepted { refusal char_ticks wire_capacity schedule.items ≡ None →
            IsOkUnless result BuildError.OutOfMemory }
    {
        Self::new_sized(
            alloc,
            chip,
            FifoSize::Sixteen,
            char_ticks,
            wire_capacity,
            schedule,
            true,
        )
    }

    /// Returns a machine as [`Device16550::new`] does, whose FIFOs have this size, and whose chip
    /// cuts each character to the word length of LCR if `cuts` is set, as that of
    /// [`Device16550::new_cut`] does.
    ///
    /// Both FIFOs have room for as many characters, and the four trigger levels are those of a chip
    /// with FIFOs of this size. A 16450 has no FIFO, so the size changes nothing that it does.
    ///
    /// The size is that from the start, and no access changes it. A chip of
    /// [`Device16550::new_16750`] begins with 16, and a program can switch it to 64.
    ///
    /// # Errors
    ///
    /// Those of [`Device16550::new`], in the same order.
    ///
    /// # Examples
    ///
    /// ```
    /// Ok(Device16550::new_sized(
    ///     rt.alloc(),
    ///     Chip::Uart16550A,
    ///     FifoSize::SixtyFour,
    ///     4,
    ///     256,
    ///     schedule,
    ///     false,
    /// )?)
    /// ```
    pub fn new_sized(
        alloc: Global,
        chip: Chip,
        size: FifoSize,
        char_ticks: u16,
        wire_capacity: usize,
        schedule: Vec<Event>,
        cuts: bool,
    ) -> Result<Self, BuildError>
        ensures built { IfOk result (λ machine. machine ≡ spec.sized size
            (spec.cutting cuts (spec.fresh chip char_ticks wire_capacity schedule.items))) }
        ensures refused { (reason : BuildError) →
            refusal char_ticks wire_capacity schedule.items ≡ Some reason → result ≡ Err reason }
        ensures accepted { refusal char_ticks wire_capacity schedule.items ≡ None →
            IsOkUnless result BuildError.OutOfMemory }
    {
        if let Some(reason) = refusal(char_ticks, wire_capacity, &schedule) {
            return Err(reason);
        }
        let arrivals = arrivals(&schedule);
        let Ok(uart) = Uart::new_sized(alloc, chip, size, char_ticks, wire_capacity, arrivals, cuts)
        else {
            return Err(BuildError::OutOfMemory);
        };
        Ok(Self {
            uart,
            schedule,
            cursor: 0,
        })
    }

    /// Returns a machine as [`Device16550::new`] does, whose chip is a 16750 after power-on, and
    /// cuts each character to the word length of LCR if `cuts` is set, as that of
    /// [`Device16550::new_cut`] does.
    ///
    /// A 16750 is a 16550A with automatic flow control, as [`Device16550::with_auto_flow`] gives
    /// it, and with a switch for the size of its FIFOs. It begins with FIFOs of 16. A write of FCR
    /// that leaves them on, while DLAB is set, makes both 64 with bit 5, and 16 without: that
    /// empties both if their size changes. Without DLAB a write of FCR leaves their size as it is.
    /// While the FIFOs are on, bit 5 of ISR shows whether they hold 64.
    ///
    /// # Errors
    ///
    /// Those of [`Device16550::new`], in the same order.
    ///
    /// # Examples
    ///
    /// ```
    /// Ok(Device16550::new_16750(rt.alloc(), 4, 256, schedule, false)?)
    /// ```
    // The data sheet of TI's TL16C750 protects bit 5 of FCR by DLAB. That a change of the size
    // empties both FIFOs is assumed, as a change of bit 0 does: a program cannot count on what was
    // in them.
    pub fn new_16750(
        alloc: Global,
        char_ticks: u16,
        wire_capacity: usize,
        schedule: Vec<Event>,
        cuts: bool,
    ) -> Result<Self, BuildError>
        // promise: a 16750 begins with FIFOs of 16. A write of FCR with bit 0, while DLAB is set,
        //   makes both 64 or 16 by its bit 5, and empties both if their size changes. ISR shows 64
        //   while they are on
        // with: new_16750.built, is_switching, switch_size, fifo_flags
        // shown by: a_16750_begins_with_16, fcr_switches_the_size_under_dlab_alone,
        //   bit_5_counts_only_with_bit_0, a_switch_empties_both_fifos,
        //   the_trigger_level_is_that_of_the_size
        // refused: new_16750_begins_with_64, size_switch_ignores_bit_0,
        //   heap_queue_keeps_its_items_when_resized, size_switch_leaves_marks
        ensures built { IfOk result (λ machine. machine ≡ spec.switchable (spec.flowing true
            (spec.cutting cuts (spec.fresh Uart16550A char_ticks wire_capacity schedule.items)))) }
        ensures refused { (reason : BuildError) →
            refusal char_ticks wire_capacity schedule.items ≡ Some reason → result ≡ Err reason }
        ensures accepted { refusal char_ticks wire_capacity schedule.items ≡ None →
            IsOkUnless result BuildError.OutOfMemory }
    {
        let size = FifoSize::Sixteen;
        let machine = Self::new_sized(
            alloc,
            Chip::Uart16550A,
            size,
            char_ticks,
            wire_capacity,
            schedule,
            cuts,
        )?;
        Ok(Self {
            uart: machine.uart.into_16750(),
            ..machine
        })
    }

    /// Returns the same machine, whose chip has automatic flow control, as a 16750 and a 16950 have
    /// it.
    ///
    /// MCR then keeps bit 5. While it is set, the transmitter takes no next character while CTS is
    /// off; the one that it shifts out goes on. And with the FIFO on the RTS output is off while as
    /// many characters wait as the trigger level, although MCR has RTS set. No access is needed for
    /// either.
    ///
    /// # Examples
    ///
    /// ```
    /// let machine = Device16550::new_sized(
    ///     rt.alloc(),
    ///     Chip::Uart16550A,
    ///     FifoSize::SixtyFour,
    ///     4,
    ///     256,
    ///     schedule,
    ///     false,
    /// )?;
    /// Ok(machine.with_auto_flow())
    /// ```
    // A real 16750 sets RTS again only once its FIFO is empty. This chip sets it as soon as fewer
    // characters wait than the trigger level, so that the output needs no memory.
    pub fn with_auto_flow(self) -> Self
        ensures { result ≡ spec.flowing true self }
    {
        Self {
            uart: self.uart.with_auto_flow(),
            ..self
        }
    }

    /// Returns the bytes that have been sent, in order.
    ///
    /// # Examples
    ///
    /// ```
    /// assert_eq!(rt; uart.backend().wire(), b"AT\r".as_slice());
    /// ```
    // The contract of this observer, which says that the machine is sound, spares callers a
    // premise.
    pub fn wire(&self) -> &[u8]
        // proved: What the machine holds
        // on: `wire`, `held_len`, `held_at`, `waiting_len`, `waiting_at`, `arrivals`, `mark`,
        //   `fifo_enabled`, `divisor`, `overflows`
        // proved: What holds of every machine, whatever was done with it: marks agree with what
        //   waits, each arrival is there at most once, queues and wire keep within their room, both
        //   FIFOs have one size, only a 16550A has the FIFO on
        // on: `Device16550::wire`, `Device16550::fifo_enabled`
        ensures bytes { result.now ≡ self.now.chip.transmitter.wire }
        ensures whole { IsWhole self.now }
    {
        self.uart.transmitter().wire()
    }

    /// Returns the number of bytes in the transmitter, which are still to be sent.
    ///
    /// # Examples
    ///
    /// ```
    /// assert_eq!(rt; machine.held_len(), 3);
    /// ```
    pub fn held_len(&self) -> usize
        ensures { result ≡ length (held self.now.chip.transmitter) }
    {
        self.uart.transmitter().held_len()
    }

    /// Returns the byte with this index among those that are still to be sent: first the one in the
    /// shift register, then those in the FIFO or THR. `None` if there are fewer.
    ///
    /// # Examples
    ///
    /// ```
    /// assert_eq!(rt; machine.held_at(0), Some(3));
    /// ```
    pub fn held_at(&self, i: usize) -> Option<u8>
        ensures { result ≡ slice_get (held self.now.chip.transmitter) i }
    {
        self.uart.transmitter().held_at(i)
    }

    /// Returns the number of received bytes that have not been read.
    ///
    /// # Examples
    ///
    /// ```
    /// assert_eq!(rt; uart.backend().waiting_len(), 0);
    /// ```
    pub fn waiting_len(&self) -> usize
        ensures { result ≡ length (waiting self.now) }
    {
        self.uart.receiver().waiting_len()
    }

    /// Returns the received byte with this index, from the front. `None` if there are fewer.
    ///
    /// # Examples
    ///
    /// ```
    /// assert_eq!(rt; uart.backend().waiting_at(0), Some(0x55));
    /// ```
    pub fn waiting_at(&self, i: usize) -> Option<u8>
        ensures { result ≡ slice_get (waiting self.now) i }
    {
        self.uart.receiver().waiting_at(i)
    }

    /// Returns the number of `Arrive` events in the whole schedule.
    ///
    /// # Examples
    ///
    /// ```
    /// for i in 0..machine.arrivals() {
    ///     match machine.mark(i) {
    ///         Some(mark) => marks.push(mark)?,
    ///         None => unreachable!(),
    ///     }
    /// }
    /// ```
    pub fn arrivals(&self) -> usize
        ensures { result ≡ length self.now.chip.receiver.marks }
    {
        self.uart.receiver().arrivals()
    }

    /// Returns what became of an arrival. The arrivals of the whole schedule are counted from 0.
    /// `None` if there are fewer.
    ///
    /// # Examples
    ///
    /// ```
    /// assert_eq!(rt; uart.backend().mark(0), Some(ArrivalMark::Read));
    /// ```
    pub fn mark(&self, i: usize) -> Option<ArrivalMark>
        ensures { result ≡ slice_get self.now.chip.receiver.marks i }
    {
        self.uart.receiver().mark(i)
    }

    /// Returns whether the FIFOs are on. On a 16450 they never are.
    ///
    /// # Examples
    ///
    /// ```
    /// assert!(rt; machine.fifo_enabled());
    /// ```
    pub fn fifo_enabled(&self) -> bool
        ensures fifo { result ≡ self.now.chip.fifo }
        ensures whole { IsWhole self.now }
    {
        self.uart.fifo()
    }

    /// Returns the divisor in the divisor latch.
    ///
    /// # Examples
    ///
    /// ```
    /// assert_eq!(rt; uart.backend().divisor(), 12);
    /// ```
    pub fn divisor(&self) -> u16
        ensures { result ≡ divisor self.now.chip.latches }
    {
        self.uart.divisor()
    }

    /// Returns how many writes to THR found no room, up to `u64::MAX`. The calls of an initialised
    /// driver do not add to it.
    ///
    /// # Examples
    ///
    /// ```
    /// assert_eq!(rt; uart.backend().overflows(), 0);
    /// ```
    pub fn overflows(&self) -> u64
        ensures { result ≡ self.now.chip.transmitter.overflows }
    {
        self.uart.transmitter().overflows()
    }

    /// Lets `n` ticks pass outside of the schedule, whose position does not change. Returns the
    /// number of jumps that this took.
    ///
    /// A jump ends at the tick in which a character enters or leaves the shift register, or takes
    /// all ticks that are left. There are at most 18 with FIFOs of 16 characters, whatever `n` is:
    /// none if `n` is 0, and one if `n` is 1.
    ///
    /// # Examples
    ///
    /// ```
    /// uart.backend_mut().idle(100);
    /// assert_eq!(rt; uart.backend().wire(), b"AT\r".as_slice());
    /// ```
    pub fn idle(&mut self, n: u16) -> usize
        // promise: time passes in at most two jumps more than a FIFO holds characters, 18 with one
        //   of 16, whatever the number of ticks
        // with: idle.after, idle.jumps, idle.most
        // shown by: holds-the-last-character, jumps_pass_the_ticks
        // refused: jump_ends_a_character_on_a_full_wire, idle_forgets_the_rest
        ensures after { self.new ≡ record self.old { chip = ticks n self.old.chip } }
        ensures jumps { result ≡ jumps_in n self.old.chip }
        ensures most { result ≤ most_jumps self.old.chip.transmitter.size }
    {
        self.uart.ticks(n)
    }

    // Performs the events before an access.
    fn reach_access(&mut self)
        ensures { self.new ≡ spec.at_access self.old }
    {
        while self.cursor < self.schedule.len() {
            match self.schedule[self.cursor] {
                Event::Mark => break,
                Event::Access => {
                    self.cursor += 1;
                    return;
                }
                event => {
                    self.uart.perform(event);
                    self.cursor += 1;
                }
            }
        }
        self.uart.tick();
    }

    /// Performs the events up to the next [`Event::Mark`], and removes that. If there is none,
    /// performs all events that are left. An [`Event::Access`] on the way is skipped.
    ///
    /// # Examples
    ///
    /// ```
    /// chip.next();
    /// assert_eq!(rt; chip.mark(0), Some(ArrivalMark::Waiting));
    /// ```
    pub fn next(&mut self)
        // proved: Exactly the events up to the next mark
        // on: `Device16550::next`
        ensures { self.new ≡ spec.at_mark self.old }
    {
        while self.cursor < self.schedule.len() {
            match self.schedule[self.cursor] {
                Event::Mark => {
                    self.cursor += 1;
                    return;
                }
                event => {
                    self.uart.perform(event);
                    self.cursor += 1;
                }
            }
        }
    }
}

impl Backend for Device16550 {
    ghost use Rattle.uart_chip.specs.Machine.{MachineStep};

    ghost step = { MachineStep };

    fn read(&mut self, register_offset: u8) -> u8 {
        self.reach_access();
        self.uart.read(register_offset)
    }

    fn write(&mut self, register_offset: u8, value: u8) {
        self.reach_access();
        self.uart.write(register_offset, value);
    }
}
