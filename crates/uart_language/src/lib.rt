//! The script language: the meaning of the bytes of a script, what is printed for a script that was
//! run, and where both are read from and written to.
//!
//! [`parse`] reads a [`Script`]: a chip, the events of its schedule, and the calls to be made on
//! it. Bytes that are not a script are refused with the first faulty line and its [`Cause`]. The
//! language is defined in `specs/Script`. Nothing is run here; to play a script, use
//! `uart_machine::script::play`.
#![tactic(auto)]

mod cause;
pub mod fields;
mod items;
pub mod limits;
mod numbers;
mod parsing;
mod play_error;
mod rendering;
mod streams;
mod text;
mod words;

pub use cause::{Cause, ScriptError};
pub use fields::byte_in;
pub use items::{Item, item_at};
pub use numbers::number_of;
pub use parsing::{Script, parse};
pub use play_error::PlayError;
pub use rendering::{hex_digit, push_answer, render};
pub use streams::{Input, Output, Std, StreamFault, read_all, write_all};
pub use text::{first_line, has_bad_byte, word_at, word_count};
pub use words::Place;
