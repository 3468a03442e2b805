//! Laws about calls, runs, scripts and the live chip. They follow from the contracts.

pub use uart_calls::laws::meanings_leave_no_choice;
pub use uart_live::laws::{
    bytes_leave_in_order, characters_are_read_in_order, held_timeouts_stay,
    only_interrupts_show_holding, plain_reads_change_nothing, wire_room_is_this,
};
pub use uart_play::laws::{runs_have_one_outcome, scripts_have_one_output};
pub use uart_run::laws::idle_keeps_ready;
