//! Device trees, in the form of a blob.

pub mod address;
pub mod blob;
pub mod console;
pub mod interrupt;
pub mod node;
pub mod path;
pub mod ports;
