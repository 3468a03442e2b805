//! Tables of ACPI.

pub mod address;
pub mod dbg2;
pub mod spcr;
pub mod table;
