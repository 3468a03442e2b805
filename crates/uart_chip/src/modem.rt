//! The modem lines, and which of them changed.
ghost use Rattle.std.specs.Prelude.{◌≡◌, ◌==◌, not, bit_or};
ghost use Rattle.uart_chip.specs.Modem as spec;
ghost use Rattle.uart_chip.specs.Data.{modem_of};
ghost use Rattle.uart_spec.specs.Bits.{has_any};
ghost use Rattle.uart_spec.specs.declared.registers.modem_status.TheConstants.MSR;

use bitflags::Flags;
use std::marker::Model;
use uart_spec::registers::{MCR, MSR, flag};

/// The modem's inputs, the lines that MSR shows, and their changes since its last read.
#[derive(Drop)]
pub struct Modem {
    inputs: MSR,
    lines: MSR,
    deltas: MSR,
}

impl Model for Modem {
    ghost use Rattle.uart_chip.specs.Modem.{ModemState};

    ghost Value = { ModemState };

    ghost view = { λ m. record { inputs = m.inputs.0; lines = m.lines.0; deltas = m.deltas.0 } };
}

/// The modem lines as plain data.
#[derive(Clone, Copy)]
pub struct ModemData {
    /// The inputs from the remote: CTS, DSR, RI and CD.
    pub inputs: MSR,
    /// The lines that MSR shows: the inputs, or in loopback the outputs of MCR.
    pub lines: MSR,
    /// The changes since the last read of MSR.
    pub deltas: MSR,
}

// Returns the lines in loopback, where the outputs replace the inputs.
fn looped_lines(mcr: MCR) -> MSR
    ensures { result.0 ≡ spec.looped_lines mcr.0 }
{
    let cts = flag(mcr.intersects(MCR::RTS), MSR::CTS);
    let dsr = flag(mcr.intersects(MCR::DTR), MSR::DSR);
    let ri = flag(mcr.intersects(MCR::OUT_1), MSR::RI);
    let cd = flag(mcr.intersects(MCR::OUT_2_INT_ENABLE), MSR::CD);
    cts.union(dsr).union(ri.union(cd))
}

// Returns the lines under this value of MCR.
fn lines_under(mcr: MCR, inputs: MSR) -> MSR
    ensures { result.0 ≡ spec.lines_under mcr.0 inputs.0 }
{
    if mcr.intersects(MCR::LOOP_BACK) {
        looped_lines(mcr)
    } else {
        inputs
    }
}

impl Modem {
    /// Returns modem lines that are all clear and have not changed.
    pub fn new() -> Self
        ensures { result ≡ spec.fresh }
    {
        Self {
            inputs: MSR::empty(),
            lines: MSR::empty(),
            deltas: MSR::empty(),
        }
    }

    /// Returns the modem lines with these data.
    pub fn from_data(saved: ModemData) -> Self
        ensures { result ≡ modem_of saved }
    {
        Self {
            inputs: saved.inputs,
            lines: saved.lines,
            deltas: saved.deltas,
        }
    }

    /// Returns the modem lines as plain data.
    pub fn data(&self) -> ModemData
        ensures { modem_of result ≡ self.now }
    {
        ModemData {
            inputs: self.inputs,
            lines: self.lines,
            deltas: self.deltas,
        }
    }

    /// Computes the lines anew under this value of MCR, and adds their changes.
    pub fn renew(&mut self, mcr: MCR)
        ensures { self.new ≡ spec.renew mcr.0 self.old }
    {
        let lines = lines_under(mcr, self.inputs);
        self.deltas = self.deltas.union(lines.changes_since(self.lines));
        self.lines = lines;
    }

    /// Sets the inputs, and computes the lines anew.
    pub fn change_inputs(&mut self, mcr: MCR, inputs: MSR)
        ensures { self.new ≡ spec.renew mcr.0 (record self.old { inputs = inputs.0 }) }
    {
        self.inputs = inputs;
        self.renew(mcr);
    }

    /// Returns what a read of MSR returns, and clears the changes, as the read does.
    pub fn read(&mut self) -> MSR
        ensures answers { result.0 ≡ bit_or self.old.lines self.old.deltas }
        ensures after { self.new ≡ record self.old { deltas = 0 } }
    {
        let status = self.lines.union(self.deltas);
        self.deltas = MSR::empty();
        status
    }

    /// Returns whether MSR shows CTS: the other end is ready to receive.
    pub fn is_clear_to_send(&self) -> bool
        ensures { result ≡ has_any self.now.lines MSR.CTS.0 }
    {
        self.lines.intersects(MSR::CTS)
    }

    /// Returns whether a line has changed since the last read of MSR.
    pub fn has_changes(&self) -> bool
        ensures { result ≡ not (self.now.deltas == 0) }
    {
        !self.deltas.is_empty()
    }
}
