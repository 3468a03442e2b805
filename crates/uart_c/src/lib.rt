//! The live chip and the port for monitors, for C: `tools/c` makes `c/uart_port.c` of it.
//!
//! Each struct that crosses is plain data, of which any bytes are legal. A function allocates
//! nothing and keeps nothing. It calls nothing either, so the library links into a program that has
//! no C library. That is why bytes are copied one by one: the compiler would call `memcpy`.
#![tactic(auto)]

mod chip;
mod clock;
mod codes;
mod exports;
mod laws;
mod modem;
mod port;
mod queue;
mod receiver;
mod sound;
mod transmitter;
