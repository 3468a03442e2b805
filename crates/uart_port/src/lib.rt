//! The calls of a script over I/O ports that may fail, as those of Linux's file of ports.
#![tactic(auto)]

pub mod laws;
mod noted;
mod playing;
mod ports;
mod report_error;
mod trace;

pub use noted::NotedPorts;
pub use playing::{Report, Terminal, play, terminal_at};
pub use ports::{FLOATING, GuardedPorts, PortFault, PortFile};
pub use report_error::ReportError;
pub use trace::Trace;
