//! The values of registers as the original has them.
ghost use Rattle.std.specs.Prelude.{◌≡◌, Ok};
ghost use Rattle.uart_original.specs.Original.{HasBaudRate, driver_dump};
ghost use Rattle.uart_spec.specs.Checked.{IsCheckedDumpRate};
ghost use Rattle.uart_spec.specs.Dump.{divisor_of};

use uart_spec::registers::{DLL, DLM, IER, ISR, LCR, LSR, MCR, MSR, SPR};
use uart_spec::{BaudRate, Config, checked_baud_rate};

/// The values of the registers of a device, read one after another by
/// `Uart16550::config_register_dump`.
#[derive(Clone, Debug, Default, PartialEq, Eq, PartialOrd, Ord, Hash, Drop)]
pub struct ConfigRegisterDump {
    /// The interrupt enable register.
    pub ier: IER,
    /// The interrupt status register.
    pub isr: ISR,
    /// The line control register.
    pub lcr: LCR,
    /// The modem control register.
    pub mcr: MCR,
    /// The line status register.
    pub lsr: LSR,
    /// The modem status register.
    pub msr: MSR,
    /// The scratch register.
    pub spr: SPR,
    /// The low byte of the divisor latch.
    pub dll: DLL,
    /// The high byte of the divisor latch.
    pub dlm: DLM,
}

impl From<uart_spec::ConfigRegisterDump> for ConfigRegisterDump {
    ghost from_gives = { λ dump own. driver_dump own ≡ dump };

    #[inline]
    fn from(dump: uart_spec::ConfigRegisterDump) -> Self {
        ConfigRegisterDump {
            ier: dump.ier,
            isr: dump.isr,
            lcr: dump.lcr,
            mcr: dump.mcr,
            lsr: dump.lsr,
            msr: dump.msr,
            spr: dump.spr,
            dll: dump.dll,
            dlm: dump.dlm,
        }
    }
}

impl ConfigRegisterDump {
    /// Returns the divisor in the divisor latch.
    #[must_use]
    pub fn divisor(&self) -> u16
        ensures { result ≡ divisor_of (driver_dump self.now) }
    {
        256 * self.dlm as u16 + self.dll as u16
    }

    /// Returns the baud rate that the divisor gives at the frequency and the prescaler division
    /// factor of the configuration. It has to be a whole number.
    #[must_use]
    pub fn baud_rate(&self, config: &Config) -> BaudRate
        requires { HasBaudRate config.now (driver_dump self.now) }
        ensures { IsCheckedDumpRate config.now (driver_dump self.now) (Ok result) }
    {
        let divisor = self.divisor() as u32;
        match checked_baud_rate(config.frequency, divisor, config.prescaler_division_factor) {
            Ok(rate) => BaudRate::from_integer(rate),
            Err(_) => unreachable!(),
        }
    }
}
