//! Plays calls on a real chip.

ghost use Rattle.std.specs.Prelude.{◌≡◌, All, OnOk};
ghost use Rattle.std.specs.Io.KnownBytes.{Appends};
ghost use Rattle.uart_call.specs.Calls.{IsRunnable};
ghost use Rattle.uart_language.specs.Output.{answer_text, line};
ghost use Rattle.std.specs.Int.NonZero.{non_zero_u64_get};
ghost use Rattle.uart_16550.specs.Pio.{IsPortBase};
ghost use Rattle.uart_port.specs.Playing.{IsPlayed, IsTerminalAt, writer_of, traced_by};
ghost use Rattle.uart_port.specs.Trace.{answer_line, if_driven, is_driven, traced};

use crate::ports::{GuardedPorts, PortFile};
use crate::report_error::ReportError;
use crate::trace::Trace;
use std::alloc::Global;
use std::io::Write;
use std::num::NonZeroU64;
use uart_16550::backend::PioBackend;
use uart_16550::{Uart16550, Uart16550Tty};
use uart_calls::{Answer, Call, perform};
use uart_language::push_answer;
use uart_spec::FifoSize;

/// A driver under its terminal, at the ports of a file.
pub type Terminal<F> = Uart16550Tty<PioBackend<GuardedPorts<F>>>;

/// Returns a new driver at the ports of a file, from this one on, with this spin limit and this
/// size of FIFOs. If the chip's are smaller, bytes are lost.
pub fn terminal_at<F: PortFile + Drop>(
    port: u16,
    limit: NonZeroU64,
    fifo_size: FifoSize,
    file: F,
) -> Terminal<F>
    // promise: at I/O ports that may fail no access is made after the first fault
    // with: GuardedStep, terminal_at
    // shown by: integration/port
    // refused: writes_on_after_a_fault, hides_the_fault
    requires { IsPortBase port }
    ensures { IsTerminalAt port (non_zero_u64_get limit) fifo_size file result }
{
    let Ok(mut uart) = Uart16550::new_port(port, GuardedPorts::new(file)) else {
        unreachable!()
    };
    uart.set_spin_limit(limit);
    uart.set_fifo_size(fifo_size);
    Uart16550Tty::from_inner(uart)
}

/// Where answers are printed and, if there is one, the trace of the run.
#[derive(Drop)]
pub struct Report<W, T> {
    alloc: Global,
    writer: W,
    trace: Option<Trace<T>>,
}

// Returns whether a call is one of the driver.
fn is_driven(call: &Call) -> bool
    ensures { result ≡ is_driven call.now }
{
    !matches!(call, Call::Next)
}

impl<W: Write, T: Write> Report<W, T> {
    /// Returns a report that prints to this writer, and writes this trace.
    pub fn new(alloc: Global, writer: W, trace: Option<Trace<T>>) -> Self
    where
        W: Drop,
        T: Drop,
        ensures writer { writer_of result ≡ writer }
        ensures trace { traced_by T.contents result ≡ traced T.contents trace }
    {
        Report {
            alloc,
            writer,
            trace,
        }
    }

    // Writes that this call is made, as its line of the script.
    fn call(&mut self, call: &Call, text: &[u8]) -> Result<(), ReportError>
        ensures writer { writer_of self.new ≡ writer_of self.old }
        ensures trace { OnOk result
            (Appends (traced_by T.contents self.old) (traced_by T.contents self.new)
            (if_driven call.now (line text.now))) }
    {
        match &mut self.trace {
            Some(trace) if is_driven(call) => trace.call(text).map_err(ReportError::Trace),
            _ => Ok(()),
        }
    }

    // Prints the answer of this call, which has returned.
    fn answer(&mut self, call: &Call, answer: &Answer) -> Result<(), ReportError>
        // proved: Each access that was made is one that the ports made, and adds its line to the
        //   trace, and so do each call and its answer
        // on: `PortFile` of `NotedPorts`, `Trace::answer`
        ensures printed { OnOk result
            (Appends (W.contents (writer_of self.old)) (W.contents (writer_of self.new))
            (line (answer_text answer.now))) }
        ensures trace { OnOk result
            (Appends (traced_by T.contents self.old) (traced_by T.contents self.new)
            (if_driven call.now (answer_line (answer_text answer.now)))) }
    {
        let mut text = Vec::new(self.alloc);
        push_answer(self.alloc, &mut text, answer)?;
        match &mut self.trace {
            Some(trace) if is_driven(call) => trace.answer(&text).map_err(ReportError::Trace)?,
            _ => {}
        }
        text.extend_from_slice(b"\n")?;
        self.writer.write_all(&text).map_err(ReportError::Output)
    }
}

/// Makes the calls in turn and prints each answer when the call has returned, up to the first
/// fault.
///
/// The call with the fault has no answer, and no call after it is made; the access object has the
/// fault. The line of each call is for the trace.
///
/// # Errors
///
/// If an answer cannot be printed, or the trace cannot be written. No call is made after that.
pub fn play<F: PortFile, W: Write, T: Write>(
    uart: &mut Terminal<F>,
    calls: &[Call],
    lines: &[&[u8]],
    report: &mut Report<W, T>,
) -> Result<(), ReportError>
    // proved: What is printed are the answers of calls that `perform` made, in order, up to the
    //   first fault
    requires { All IsRunnable calls.now }
    ensures { OnOk result
        (IsPlayed F.step uart.old calls.now (W.contents (writer_of report.old))
        (W.contents (writer_of report.new)) uart.new) }
{
    for i in 0..calls.len() {
        let call = &calls[i];
        report.call(call, lines.get(i).copied().unwrap_or(&[]))?;
        let answer = perform(uart, call);
        if uart.inner().backend().access().fault().is_some() {
            return Ok(());
        }
        report.answer(call, &answer)?;
    }
    Ok(())
}
