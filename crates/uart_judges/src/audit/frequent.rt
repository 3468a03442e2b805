//! How the judge goes on by the accesses that drivers make most, and what it finds there: a read of
//! LSR, and an access to DATA.
//!
//! The same is said of any step elsewhere. Here is only what such an access can change and show, so
//! that the judge takes less than half the instructions at it.
ghost use Rattle.std.specs.Prelude.{◌≡◌, ℕ};
ghost use Rattle.uart_judges.specs.Findings.{all_found};
ghost use Rattle.uart_judges.specs.History as spec;
ghost use Rattle.uart_judges.specs.declared.audit.action.Action.TheVariants.{LooksAtLine, Receives, Sends};
ghost use Rattle.uart_spec.specs.declared.registers.line_status.LSR.{LSR};

use crate::audit::action::Action;
use crate::audit::auditor::{Auditor, Findings};
use crate::audit::findings::{arrival, empty, flow, gate, note, output, overrun, room, taken};
use crate::audit::history::{
    count, is_at_work_after, latch_after, since, unserved_after, up_after, waiting_after,
};
use crate::audit::step::Step;
use bitflags::Flags;
use uart_spec::registers::LSR;

impl Auditor {
    // Goes on by a step that reads LSR.
    fn look_at_line(&mut self, step: &Step, lsr: LSR)
        ensures { step.now.action ≡ LooksAtLine lsr → self.new ≡ spec.next self.old step.now }
    {
        let action = Action::LooksAtLine(lsr);
        self.setup = self.setup.after(action);
        self.sent = count(self.sent, step.shows_room(), false);
        self.going_out = count(self.going_out, step.shows_idle(), false);
        self.is_thr_empty = since(self.is_thr_empty, false, action.shows_thr_empty());
        self.is_acknowledged = since(self.is_acknowledged, false, false);
        self.waiting = waiting_after(self.waiting, *step);
        self.ready = Some(lsr.contains(LSR::DATA_READY));
        self.has_taken = since(self.has_taken, true, false);
        self.is_at_work = since(self.is_at_work, false, false);
        self.unread.look(lsr);
        self.is_overrun = false;
        self.is_controlled = since(self.is_controlled, true, false);
        self.data_interrupt = None;
        self.latch = latch_after(self.latch, action);
        self.unserved = unserved_after(self.unserved, *step);
        self.is_handling = since(self.is_handling, false, false);
        self.has_signalled = since(self.has_signalled, false, step.is_line_up());
        self.up = up_after(self.up, *step);
        self.has_looped = since(self.has_looped, false, false);
        self.was_cts_set = since(self.was_cts_set, false, false);
    }

    // Goes on by a step that sends a byte.
    fn send(&mut self, step: &Step, byte: u8)
        ensures { step.now.action ≡ Sends byte → self.new ≡ spec.next self.old step.now }
    {
        let action = Action::Sends(byte);
        self.setup = self.setup.after(action);
        self.sent_at = step.time;
        self.sent = count(self.sent, step.shows_room(), true);
        self.going_out = count(self.going_out, step.shows_idle(), true);
        self.is_thr_empty = since(self.is_thr_empty, true, false);
        self.is_acknowledged = since(self.is_acknowledged, true, false);
        self.is_thr_due = false;
        self.has_taken = since(self.has_taken, false, false);
        self.is_at_work = since(self.is_at_work, false, true);
        self.unread.send(step.setup);
        self.is_controlled = since(self.is_controlled, false, false);
        self.latch = latch_after(self.latch, action);
        self.unserved = unserved_after(self.unserved, *step);
        self.is_handling = since(self.is_handling, false, false);
        self.has_signalled = since(self.has_signalled, false, step.is_line_up());
        self.up = up_after(self.up, *step);
        self.has_looped = since(self.has_looped, false, step.loops());
        self.cts = None;
        self.was_cts_set = since(self.was_cts_set, false, false);
        self.told = Some(step.setup);
    }

    // Goes on by a step that takes a byte.
    fn receive(&mut self, step: &Step, byte: u8)
        ensures { step.now.action ≡ Receives byte → self.new ≡ spec.next self.old step.now }
    {
        let action = Action::Receives(byte);
        self.setup = self.setup.after(action);
        self.sent = count(self.sent, step.shows_room(), false);
        self.going_out = count(self.going_out, step.shows_idle(), false);
        self.is_thr_empty = since(self.is_thr_empty, false, false);
        self.is_acknowledged = since(self.is_acknowledged, false, false);
        self.has_taken = since(self.has_taken, false, true);
        self.is_at_work = is_at_work_after(self.is_at_work, self.waiting, *step);
        self.waiting = self.waiting.saturating_sub(1);
        self.unread = self.unread.after_read(byte);
        self.is_controlled = since(self.is_controlled, false, false);
        self.data_interrupt = None;
        self.latch = latch_after(self.latch, action);
        self.unserved = unserved_after(self.unserved, *step);
        self.is_handling = since(self.is_handling, false, false);
        self.has_signalled = since(self.has_signalled, false, step.is_line_up());
        self.up = up_after(self.up, *step);
        self.has_looped = since(self.has_looped, true, false);
        self.was_cts_set = since(self.was_cts_set, false, false);
        self.told = Some(step.setup);
    }

    // Goes on by a step.
    pub(crate) fn go_on(&mut self, step: &Step)
        ensures { self.new ≡ spec.next self.old step.now }
    {
        match step.action {
            Action::LooksAtLine(lsr) => self.look_at_line(step, lsr),
            Action::Sends(byte) => self.send(step, byte),
            Action::Receives(byte) => self.receive(step, byte),
            _ => *self = self.after(step),
        }
    }

    // Returns the findings at a step that reads LSR.
    pub(crate) fn found_at_look(&self, step: &Step) -> Findings
        ensures { (lsr : LSR) → step.now.action ≡ LooksAtLine lsr →
            result ≡ all_found self.now step.now }
    {
        [
            note(self, step),
            None,
            None,
            None,
            None,
            None,
            arrival(self, step),
            overrun(self, step),
            empty(self, step),
            None,
            None,
            None,
            None,
            None,
            None,
            None,
        ]
    }

    // Returns the findings at a step that sends a byte.
    pub(crate) fn found_at_send(&self, step: &Step) -> Findings
        ensures { (byte : ℕ) → step.now.action ≡ Sends byte →
            result ≡ all_found self.now step.now }
    {
        [
            note(self, step),
            room(self, step),
            output(self, step),
            flow(self, step),
            gate(self, step),
            None,
            None,
            None,
            None,
            None,
            None,
            None,
            None,
            None,
            None,
            None,
        ]
    }

    // Returns the findings at a step that takes a byte.
    pub(crate) fn found_at_receipt(&self, step: &Step) -> Findings
        ensures { (byte : ℕ) → step.now.action ≡ Receives byte →
            result ≡ all_found self.now step.now }
    {
        [
            note(self, step),
            None,
            None,
            None,
            gate(self, step),
            taken(self, step),
            arrival(self, step),
            None,
            None,
            None,
            None,
            None,
            None,
            None,
            None,
            None,
        ]
    }
}
