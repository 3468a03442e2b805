//! The chip as plain data.
ghost use Rattle.std.specs.Prelude.{◌≡◌, ◌≤◌};
ghost use Rattle.uart_c.specs.Canonical.{IsCanonical};
ghost use Rattle.uart_c.specs.Queue as queue_spec;
ghost use Rattle.uart_c.specs.State.{chip_of, model_of};
ghost use Rattle.uart_c.specs.declared.queue.TheConstants.{WIRE_ROOM};
ghost use Rattle.uart_chip.specs.Chip as spec;
ghost use Rattle.uart_events.specs.declared.event.TheConstants.{MAX_CHAR_TICKS};

use crate::modem::UartModem;
use crate::queue::is_on;
use crate::receiver::UartReceiver;
use crate::transmitter::UartTransmitter;
use bitflags::Flags;
use uart_chip::controlling::ChipParts;
use uart_chip::{Chip, Latches};
use uart_spec::FifoSize;
use uart_spec::registers::{IER, LCR, MCR};

/// The registers that keep what is written.
#[repr(C)]
#[derive(Clone, Copy)]
pub struct UartLatches {
    pub ier: u8,
    pub lcr: u8,
    pub mcr: u8,
    pub scr: u8,
    pub dll: u8,
    pub dlm: u8,
}

/// A 16550A or 16450 chip.
#[repr(C)]
#[derive(Clone, Copy)]
pub struct UartChip {
    pub transmitter: UartTransmitter,
    pub receiver: UartReceiver,
    pub latches: UartLatches,
    pub modem: UartModem,
    pub model: u8,
    pub fifo: u8,
    pub cuts: u8,
}

impl UartChip {
    /// Becomes a chip after power on, with FIFOs of this size.
    pub fn power_on(&mut self, model: u8, fifo_size: u8, char_ticks: u16, capacity: u8, cuts: u8)
        requires char_ticks { char_ticks ≤ MAX_CHAR_TICKS }
        requires capacity { capacity ≤ WIRE_ROOM }
        ensures chip { chip_of self.new ≡
            record (spec.with_size (queue_spec.fifo_size_of fifo_size)
            (spec.fresh (model_of model) char_ticks capacity 0)) { cuts = queue_spec.is_on cuts } }
        ensures canonical { IsCanonical self.new }
    {
        self.transmitter.power_on(fifo_size, char_ticks, capacity);
        self.receiver.power_on(fifo_size, char_ticks);
        self.latches = UartLatches {
            ier: 0,
            lcr: 0,
            mcr: 0,
            scr: 0,
            dll: 0,
            dlm: 0,
        };
        self.modem = UartModem {
            inputs: 0,
            lines: 0,
            deltas: 0,
        };
        self.model = is_on(model) as u8;
        self.fifo = 0;
        self.cuts = is_on(cuts) as u8;
    }

    /// Becomes a chip like this one.
    pub fn restore(&mut self, saved: &Self)
        ensures after { chip_of self.new ≡ chip_of saved.now }
        ensures canonical { IsCanonical self.new }
    {
        self.transmitter.restore(&saved.transmitter);
        self.receiver.restore(&saved.receiver);
        self.latches = saved.latches;
        self.modem = saved.modem;
        self.model = is_on(saved.model) as u8;
        self.fifo = is_on(saved.fifo) as u8;
        self.cuts = is_on(saved.cuts) as u8;
    }
}

impl ChipParts for UartChip {
    type Transmitter = UartTransmitter;

    type Receiver = UartReceiver;

    ghost state = { λ c. chip_of c };

    ghost canonical = { λ c. IsCanonical c };

    ghost with_transmitter = { λ c t. record c { transmitter = t } };

    ghost with_receiver = { λ c r. record c { receiver = r } };

    fn model(&self) -> Chip {
        if is_on(self.model) {
            Chip::Uart16550A
        } else {
            Chip::Uart16450
        }
    }

    fn cuts(&self) -> bool {
        is_on(self.cuts)
    }

    // A 16550A and a 16450 have none.
    fn has_auto_flow(&self) -> bool {
        false
    }

    // Nor do they have a switch of the size of their FIFOs.
    fn has_size_switch(&self) -> bool {
        false
    }

    fn transmitter(&self) -> &UartTransmitter {
        &self.transmitter
    }

    fn transmitter_mut(&mut self) -> &mut UartTransmitter {
        &mut self.transmitter
    }

    fn receiver(&self) -> &UartReceiver {
        &self.receiver
    }

    fn receiver_mut(&mut self) -> &mut UartReceiver {
        &mut self.receiver
    }

    fn fifo(&self) -> bool {
        is_on(self.fifo)
    }

    fn turn_fifo(&mut self, on: bool) {
        self.fifo = on as u8;
    }

    fn resize(&mut self, _size: FifoSize) {}

    fn renew_modem(&mut self, mcr: MCR) {
        self.modem.renew(mcr);
    }

    fn change_inputs(&mut self, mcr: MCR, inputs: u8) {
        self.modem.change_inputs(mcr, inputs);
    }

    fn read_modem(&mut self) -> u8 {
        self.modem.read()
    }

    fn has_modem_changes(&self) -> bool {
        self.modem.has_changes()
    }

    fn is_clear_to_send(&self) -> bool {
        self.modem.is_clear_to_send()
    }

    fn ier(&self) -> IER {
        IER::from_bits_retain(self.latches.ier)
    }

    fn lcr(&self) -> LCR {
        LCR::from_bits_retain(self.latches.lcr)
    }

    fn mcr(&self) -> MCR {
        MCR::from_bits_retain(self.latches.mcr)
    }

    fn latches(&self) -> Latches {
        Latches {
            ier: self.ier(),
            lcr: self.lcr(),
            mcr: self.mcr(),
            scr: self.latches.scr,
            dll: self.latches.dll,
            dlm: self.latches.dlm,
        }
    }

    fn set_latches(&mut self, latches: Latches) {
        self.latches = UartLatches {
            ier: latches.ier.bits(),
            lcr: latches.lcr.bits(),
            mcr: latches.mcr.bits(),
            scr: latches.scr,
            dll: latches.dll,
            dlm: latches.dlm,
        };
    }
}
