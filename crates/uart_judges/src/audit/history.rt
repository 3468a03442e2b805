//! How the judge goes on by one step.
ghost use Rattle.std.specs.Prelude.{◌≡◌, ◌≤◌};
ghost use Rattle.uart_judges.specs.History as spec;

use crate::audit::action::Action;
use crate::audit::auditor::{Auditor, Identified, Latch, Mark};
use crate::audit::setup::Setup;
use crate::audit::shows::identified;
use crate::audit::step::Step;
use crate::audit::unread::Unread;
use bitflags::Flags;
use uart_chip::receiving::characters_of;
use uart_spec::FifoSize;
use uart_spec::registers::{FCR, IER, ISR, InterruptType, LCR, LSR, MSR};

// Returns whether something happened, and since then nothing that resets it.
pub(crate) fn since(before: bool, resets: bool, happens: bool) -> bool
    ensures { result ≡ spec.next_since before resets happens }
{
    if happens {
        return true;
    }
    before && !resets
}

// Returns how often something happened since something that resets the count.
pub(crate) fn count(before: u64, resets: bool, happens: bool) -> u64
    ensures { result ≡ spec.next_count before resets happens }
{
    let left = if resets { 0 } else { before };
    if happens {
        return left.saturating_add(1);
    }
    left
}

// Returns whether a step enables the interrupt of an empty transmitter, which was off.
fn enables_thr_empty(setup: Setup, ier: IER) -> bool
    ensures { result ≡ spec.enables_thr_empty setup ier }
{
    if !ier.contains(IER::THR_EMPTY) {
        return false;
    }
    match setup.interrupts {
        Some(old) => !old.contains(IER::THR_EMPTY),
        None => false,
    }
}

// Returns whether ISR shows no interrupt, or that of an empty transmitter.
fn settles_thr_empty(isr: ISR) -> bool
    ensures { result ≡ spec.settles_thr_empty isr }
{
    if isr.contains(ISR::INTERRUPT_STATUS) {
        return true;
    }
    matches!(
        identified(isr),
        Some(InterruptType::TransmitterHoldingRegisterEmpty)
    )
}

// Returns whether ISR is still to show that the transmitter is empty.
fn is_thr_due_after(is_due: bool, is_thr_empty: bool, step: Step) -> bool
    ensures { result ≡ spec.next_thr_due is_due is_thr_empty step }
{
    match step.action {
        Action::EnablesInterrupts(ier) => {
            if enables_thr_empty(step.setup, ier) {
                return is_thr_empty;
            }
            ier.contains(IER::THR_EMPTY) && is_due
        }
        Action::IdentifiesInterrupt(isr) => is_due && !settles_thr_empty(isr),
        Action::Sends(_) | Action::ControlsFifo(_) => false,
        _ => is_due,
    }
}

// Returns the number of bytes at which a data interrupt comes from a FIFO of 16.
fn level(setup: Setup) -> u8
    ensures { result ≡ spec.level setup.has_fifo setup.trigger }
{
    match (setup.has_fifo, setup.trigger) {
        (Some(true), Some(trigger)) => characters_of(FifoSize::Sixteen, trigger),
        _ => 1,
    }
}

// Returns how many bytes an interrupt shows to wait.
fn shown_by(interrupt: Option<InterruptType>, level: u8) -> u8
    ensures { result ≡ spec.shown_by interrupt level }
{
    match interrupt {
        Some(InterruptType::ReceivedDataReady) => level,
        Some(InterruptType::ReceptionTimeout) => 1,
        _ => 0,
    }
}

// Returns how many bytes wait after one more arrived, at least. In loopback it is not received, and
// without FIFO it may have taken the place of another.
fn waiting_after_arrival(waiting: u8, setup: Setup) -> u8
    ensures { result ≡ spec.waiting_after_arrival waiting setup }
{
    if !setup.is_on_line() {
        return waiting;
    }
    waiting.saturating_add(1).min(setup.least_depth())
}

// Returns how many received bytes wait, at least.
pub(crate) fn waiting_after(waiting: u8, step: Step) -> u8
    ensures { result ≡ spec.next_waiting waiting step }
{
    match step.action {
        Action::LooksAtLine(lsr) => {
            if lsr.contains(LSR::DATA_READY) {
                waiting.max(1)
            } else {
                0
            }
        }
        Action::IdentifiesInterrupt(isr) => {
            waiting.max(shown_by(identified(isr), level(step.setup)))
        }
        Action::Receives(_) | Action::MayReceive => waiting.saturating_sub(1),
        Action::Arrives(_, _) => waiting_after_arrival(waiting, step.setup),
        Action::ControlsFifo(_) if step.may_empty(FCR::RX_FIFO_RESET) => 0,
        _ => waiting,
    }
}

// Returns whether a received byte was seen.
fn ready_after(ready: Option<bool>, step: Step) -> Option<bool>
    ensures { result ≡ spec.next_ready ready step }
{
    match step.action {
        Action::LooksAtLine(lsr) => Some(lsr.contains(LSR::DATA_READY)),
        Action::Arrives(_, _) => Some(true),
        _ => ready,
    }
}

// Returns whether the driver has begun to send or to receive.
pub(crate) fn is_at_work_after(is_at_work: bool, waiting: u8, step: Step) -> bool
    ensures { result ≡ spec.next_at_work is_at_work waiting step }
{
    let takes = step.action.receives() && waiting > 0;
    since(
        is_at_work,
        step.action.configures(),
        step.action.sends() || takes,
    )
}

// Returns whether there is no room for one more character, as far as is known.
fn has_no_room(unread: &Unread, setup: Setup) -> bool
    ensures { result ≡ spec.has_no_room unread.now setup }
{
    match setup.has_fifo {
        Some(true) => unread.is_full(),
        Some(false) => unread.front().is_some(),
        None => false,
    }
}

// Returns whether an overrun is to be shown.
fn is_overrun_after(a: &Auditor, step: Step) -> bool
    ensures { result ≡ spec.next_overrun a.now.is_overrun a.now.unread step }
{
    match step.action {
        Action::LooksAtLine(_) => false,
        Action::ControlsFifo(_) => a.is_overrun && !step.may_empty(FCR::RX_FIFO_RESET),
        Action::Arrives(_, _) if !step.setup.loops_back() => {
            a.is_overrun || has_no_room(&a.unread, step.setup)
        }
        _ => a.is_overrun,
    }
}

// Returns the interrupt of received data that nothing served.
fn data_interrupt_after(before: Option<InterruptType>, step: Step) -> Option<InterruptType>
    ensures { result ≡ spec.next_data_interrupt before step }
{
    match step.action {
        Action::IdentifiesInterrupt(isr) => match identified(isr) {
            Some(InterruptType::ReceivedDataReady) => Some(InterruptType::ReceivedDataReady),
            Some(InterruptType::ReceptionTimeout) => Some(InterruptType::ReceptionTimeout),
            _ => None,
        },
        Action::Receives(_)
        | Action::MayReceive
        | Action::LooksAtLine(_)
        | Action::ControlsFifo(_)
        | Action::EnablesInterrupts(_) => None,
        _ => before,
    }
}

pub(crate) fn latch_after(latch: Latch, action: Action) -> Latch
    ensures { result ≡ spec.next_latch latch action }
{
    let (opens, begins) = (action.opens(), action.begins_divisor());
    Latch {
        was_opened: since(latch.was_opened, false, opens),
        has_looked: since(latch.has_looked, opens, action.looks_at_line()),
        has_low: since(latch.has_low, opens, action.sets_low()),
        has_high: since(latch.has_high, opens, action.sets_high()),
        is_low_new: since(latch.is_low_new, begins, action.sets_low()),
        is_high_new: since(latch.is_high_new, begins, action.sets_high()),
    }
}

// Returns the value of LCR that was written while bytes were going out, and not read back.
fn busy_line_after(before: Option<LCR>, going_out: u64, step: Step) -> Option<LCR>
    ensures { result ≡ spec.next_busy_line before going_out step }
{
    match step.action {
        Action::SetsLine(lcr) => {
            if going_out > 0 && !step.has_rested {
                Some(lcr)
            } else {
                None
            }
        }
        Action::ReadsLine(_) => None,
        _ => before,
    }
}

// Returns an interrupt that asks for something, if there is one.
fn asks(interrupt: Option<InterruptType>, line: u64) -> Option<Identified>
    ensures { result ≡ spec.asks interrupt line }
{
    match interrupt {
        Some(InterruptType::TransmitterHoldingRegisterEmpty) => None,
        Some(interrupt) => Some(Identified { interrupt, line }),
        None => None,
    }
}

// Returns the interrupt that was identified, and not served.
pub(crate) fn unserved_after(unserved: Option<Identified>, step: Step) -> Option<Identified>
    ensures { result ≡ spec.next_unserved unserved step }
{
    if let Action::IdentifiesInterrupt(isr) = step.action {
        return asks(identified(isr), step.line);
    }
    match unserved {
        Some(identified) => {
            if step.serves(identified.interrupt) {
                None
            } else {
                Some(identified)
            }
        }
        None => None,
    }
}

// Returns the latest access after which the line was up.
pub(crate) fn up_after(before: Option<Mark>, step: Step) -> Option<Mark>
    ensures { result ≡ spec.next_up before step }
{
    let Some(is_up) = step.level else {
        return before;
    };
    if !is_up {
        return None;
    }
    // What arrives raises the line too, and that is no fault of a handler.
    if !step.is_access {
        return before;
    }
    match step.time {
        Some(time) => Some(Mark {
            line: step.line,
            time,
        }),
        None => None,
    }
}

// Returns what MSR showed of CTS since the latest byte was sent.
fn cts_after(before: Option<bool>, step: Step) -> Option<bool>
    ensures { result ≡ spec.next_cts before step }
{
    match step.action {
        Action::LooksAtModem(msr) => Some(msr.contains(MSR::CTS)),
        Action::Sends(_) | Action::MaySend => None,
        _ => before,
    }
}

fn lines_after(before: Option<MSR>, action: Action) -> Option<MSR>
    ensures { result ≡ spec.next_lines before action }
{
    match action {
        Action::ChangesLines(inputs) => Some(inputs),
        _ => before,
    }
}

// Returns the set-up at the latest transfer of a byte: there it matters, and it is not told while
// it is being written.
fn told_after(told: Option<Setup>, step: Step) -> Option<Setup>
    ensures { result ≡ spec.next_told told step }
{
    if step.action.sends() || step.action.receives() {
        return Some(step.setup);
    }
    told
}

// Returns when the latest byte was sent.
fn sent_at_after(before: Option<u64>, step: Step) -> Option<u64>
    ensures { result ≡ spec.next_sent_at before step }
{
    if step.action.sends() {
        return step.time;
    }
    before
}

impl Auditor {
    // Returns what is known after one more step. It is a part of both judges that call it: else all
    // that is known would be copied once more.
    #[inline(always)]
    pub(crate) fn after(&self, step: &Step) -> Auditor
        ensures { result ≡ spec.next self.now step.now }
    {
        let step = *step;
        let action = step.action;
        let (sends, may_send) = (action.sends(), action.may_send());
        Auditor {
            setup: self.setup.after(action),
            sent_at: sent_at_after(self.sent_at, step),
            sent: count(self.sent, step.shows_room(), sends),
            going_out: count(self.going_out, step.shows_idle(), sends),
            is_thr_empty: since(self.is_thr_empty, may_send, action.shows_thr_empty()),
            is_acknowledged: since(
                self.is_acknowledged,
                may_send,
                action.identifies_thr_empty(),
            ),
            is_thr_due: is_thr_due_after(self.is_thr_due, self.is_thr_empty, step),
            waiting: waiting_after(self.waiting, step),
            ready: ready_after(self.ready, step),
            has_taken: since(self.has_taken, step.looks_for_errors(), action.receives()),
            is_at_work: is_at_work_after(self.is_at_work, self.waiting, step),
            unread: self.unread.after(step),
            is_overrun: is_overrun_after(self, step),
            is_controlled: since(
                self.is_controlled,
                action.looks_at_line(),
                action.controls_fifo(),
            ),
            data_interrupt: data_interrupt_after(self.data_interrupt, step),
            latch: latch_after(self.latch, action),
            busy_line: busy_line_after(self.busy_line, self.going_out, step),
            unserved: unserved_after(self.unserved, step),
            is_handling: since(
                self.is_handling,
                action.shows_none(),
                action.identified().is_some(),
            ),
            has_signalled: since(self.has_signalled, action.sets_modem(), step.signals()),
            up: up_after(self.up, step),
            has_looped: since(
                self.has_looped,
                action.sets_modem() || action.receives(),
                step.loops(),
            ),
            cts: cts_after(self.cts, step),
            was_cts_set: since(self.was_cts_set, false, step.shows_cts()),
            lines: lines_after(self.lines, action),
            told: told_after(self.told, step),
        }
    }
}
