//! The modem lines as plain data.
ghost use Rattle.std.specs.Prelude.{◌≡◌, ◌==◌, not, bit_or};
ghost use Rattle.uart_c.specs.State.{modem_data, modem_of};
ghost use Rattle.uart_chip.specs.Modem.{renew};
ghost use Rattle.uart_spec.specs.Bits.{has_any};
ghost use Rattle.uart_spec.specs.declared.registers.modem_status.TheConstants.MSR;

use bitflags::Flags;
use uart_chip::{Modem, ModemData};
use uart_spec::registers::{MCR, MSR};

/// The modem's inputs, the lines that the status register shows, and their changes since its last
/// read.
#[repr(C)]
#[derive(Clone, Copy)]
pub struct UartModem {
    pub inputs: u8,
    pub lines: u8,
    pub deltas: u8,
}

// The lines as the chip keeps them.
fn restored(saved: UartModem) -> Modem
    ensures { result ≡ modem_of saved }
{
    Modem::from_data(saved.data())
}

// The lines as C keeps them.
fn saved(modem: &Modem) -> UartModem
    ensures { modem_of result ≡ modem.now }
{
    let data = modem.data();
    UartModem {
        inputs: data.inputs.bits(),
        lines: data.lines.bits(),
        deltas: data.deltas.bits(),
    }
}

impl UartModem {
    /// The lines as a live chip saves them.
    pub fn data(self) -> ModemData
        ensures { result ≡ modem_data self }
    {
        ModemData {
            inputs: MSR::from_bits_retain(self.inputs),
            lines: MSR::from_bits_retain(self.lines),
            deltas: MSR::from_bits_retain(self.deltas),
        }
    }

    /// Renews the lines under this modem control register.
    pub fn renew(&mut self, mcr: MCR)
        ensures { modem_of self.new ≡ renew mcr.0 (modem_of self.old) }
    {
        let mut modem = restored(*self);
        modem.renew(mcr);
        *self = saved(&modem);
    }

    /// The inputs become these.
    pub fn change_inputs(&mut self, mcr: MCR, inputs: u8)
        ensures { modem_of self.new ≡ renew mcr.0 (record (modem_of self.old) { inputs = inputs }) }
    {
        let mut modem = restored(*self);
        modem.change_inputs(mcr, MSR::from_bits_retain(inputs));
        *self = saved(&modem);
    }

    /// A read of the modem status register, which clears the changes.
    pub fn read(&mut self) -> u8
        ensures answers { result ≡ bit_or (modem_of self.old).lines (modem_of self.old).deltas }
        ensures after { modem_of self.new ≡ record (modem_of self.old) { deltas = 0 } }
    {
        let mut modem = restored(*self);
        let status = modem.read();
        *self = saved(&modem);
        status.bits()
    }

    /// Returns whether MSR shows CTS: the other end is ready to receive.
    pub fn is_clear_to_send(&self) -> bool
        ensures { result ≡ has_any (modem_of self.now).lines MSR.CTS.0 }
    {
        restored(*self).is_clear_to_send()
    }

    pub fn has_changes(&self) -> bool
        ensures { result ≡ not ((modem_of self.now).deltas == 0) }
    {
        restored(*self).has_changes()
    }
}
