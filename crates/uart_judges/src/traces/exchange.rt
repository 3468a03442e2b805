//! A call of a trace.
ghost use Rattle.uart_call.specs.Calls.{IsRunnable};
ghost use Rattle.uart_judges.specs.Runnable.{runnable_is_one};

use uart_calls::Call;
use uart_spec::access::Access;

/// One call of a trace: the call, its accesses, and what it returned.
#[derive(Debug, Drop)]
pub struct Exchange {
    /// The call.
    pub call: Call,
    /// Its accesses.
    pub accesses: Vec<Access>,
    /// The line of each access, counted from 1.
    pub access_lines: Vec<usize>,
    /// What it returned, as it is printed.
    pub answer: Vec<u8>,
    /// The line of the answer.
    pub answer_line: usize,
    /// Whether the call is the first of a new driver.
    pub is_first: bool,
    ghost runnable: { IsRunnable call } by { runnable_is_one call },
}
