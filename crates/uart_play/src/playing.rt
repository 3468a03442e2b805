//! Plays a script from a reader to a writer.

ghost use Rattle.std.specs.Prelude.{◌≡◌, ◌||◌, length, IfOk, IfSome, OnOk};
ghost use Rattle.std.specs.Io.KnownBytes.{IsAtEnd};
ghost use Rattle.uart_language.specs.Script.{plan_of, IsPlayable};
ghost use Rattle.uart_chip.specs.Transmitter.{held};
ghost use Rattle.uart_chip.specs.Conserved.{waiting};
ghost use Rattle.uart_play.specs.ScriptOutput.{first_machine, output_of, IsFirst, IsOutput};
ghost use Rattle.uart_language.specs.Streams.{ConsumesAtMost, is_read_fault, is_write_fault};
ghost use Rattle.uart_play.specs.Play.{Outcome, WritesNothing};

use std::alloc::{AllocError, Global};
use uart_16550::{Uart16550, Uart16550Tty};
use uart_calls::Answer;
use uart_chip::{ArrivalMark, Device16550};
use uart_language::limits::MOST_READ;
use uart_language::{Input, Output, PlayError, Script, parse, read_all, render, write_all};
use uart_run::run;

/// Returns the machine of a script, with FIFOs of the size that it names, and with automatic flow
/// control if that chip has it, under its schedule.
///
/// # Errors
///
/// If memory for the schedule or the machine could not be allocated.
pub fn machine_for(alloc: Global, script: &Script) -> Result<Device16550, AllocError>
    // proved: The machine of a script, with FIFOs of the size that the script names, under its
    //   schedule
    requires { IsPlayable (plan_of script.now) }
    ensures { IfOk result (λ machine. machine ≡ first_machine (plan_of script.now)) }
{
    let schedule = script.events().to_vec(alloc)?;
    let machine = Device16550::new_sized(
        alloc,
        script.chip(),
        script.fifo_size(),
        script.ticks(),
        script.wire_capacity(),
        schedule,
        script.cut(),
    );
    match machine {
        Ok(machine) if script.has_auto_flow() => Ok(machine.with_auto_flow()),
        Ok(machine) => Ok(machine),
        Err(_) => Err(AllocError),
    }
}

// Returns the machine of the script under a new driver, with the limit and the size of FIFOs that
// the script sets.
fn terminal_for(alloc: Global, script: &Script) -> Result<Uart16550Tty<Device16550>, AllocError>
    requires { IsPlayable (plan_of script.now) }
    ensures { IfOk result (λ terminal. IsFirst (plan_of script.now) terminal) }
{
    let mut uart = Uart16550::new_with_backend(machine_for(alloc, script)?);
    uart.set_spin_limit(script.limit());
    uart.set_fifo_size(script.driver_fifo_size());
    Ok(Uart16550Tty::from_inner(uart))
}

// Returns as many answers as there are calls, for `run` to overwrite.
fn empty_answers(alloc: Global, count: usize) -> Result<Vec<Answer>, AllocError>
    ensures { IfOk result (λ answers. length answers.items ≡ count) }
{
    let mut answers = Vec::new(alloc);
    for _i in 0..count {
        answers.push(Answer::Done)?;
    }
    Ok(answers)
}

// Returns the bytes that are still to be sent, first the one in the shift register.
fn held_of(alloc: Global, machine: &Device16550) -> Result<Vec<u8>, AllocError>
    ensures { IfOk result (λ bytes. bytes.items ≡ held machine.now.chip.transmitter) }
{
    (0..machine.held_len())
        .filter_map(|i| machine.held_at(i))
        .collect(alloc)
}

// Returns the received bytes that have not been read.
fn waiting_of(alloc: Global, machine: &Device16550) -> Result<Vec<u8>, AllocError>
    ensures { IfOk result (λ bytes. bytes.items ≡ waiting machine.now) }
{
    (0..machine.waiting_len())
        .filter_map(|i| machine.waiting_at(i))
        .collect(alloc)
}

// Returns what became of each arrival.
fn marks_of(alloc: Global, machine: &Device16550) -> Result<Vec<ArrivalMark>, AllocError>
    ensures { IfOk result (λ marks. marks.items ≡ machine.now.chip.receiver.marks) }
{
    (0..machine.arrivals())
        .filter_map(|i| machine.mark(i))
        .collect(alloc)
}

// Returns what is printed for answers and the last state of the machine.
fn printed_for(
    alloc: Global,
    answers: &[Answer],
    machine: &Device16550,
) -> Result<Vec<u8>, AllocError>
    ensures { IfOk result (λ output. output.items ≡ output_of answers.now machine.now) }
{
    let held = held_of(alloc, machine)?;
    let waiting = waiting_of(alloc, machine)?;
    let marks = marks_of(alloc, machine)?;
    render(alloc, answers, machine.wire(), &held, &waiting, &marks)
}

// Runs a script, and returns what is printed for it.
fn output_for(alloc: Global, script: &Script) -> Result<Vec<u8>, AllocError>
    requires { IsPlayable (plan_of script.now) }
    ensures { IfOk result (λ output. IsOutput (plan_of script.now) output.items) }
{
    let mut terminal = terminal_for(alloc, script)?;
    let calls = script.calls();
    let mut answers = empty_answers(alloc, calls.len())?;
    run(&mut terminal, calls, &mut answers);
    let output = printed_for(alloc, &answers, terminal.inner().backend())?;
    Ok(output)
}

/// Reads a script, plays it, and writes its output.
///
/// The whole output is built before any of it is written. So a refusal has written nothing, and
/// after a write fault what was written is a beginning of the output. What is written for a script
/// is a function of the script ([`scripts_have_one_output`](crate::laws::scripts_have_one_output)).
///
/// # Errors
///
/// - `Refused`, with the first faulty line and what is wrong with it, if the input is not a script.
/// - `ReadFault` if the reader failed, `WriteFault` if the writer failed or accepted no byte.
/// - `OutOfMemory` if memory could not be allocated.
pub fn play<R: Input, W: Output>(
    alloc: Global,
    reader: &mut R,
    writer: &mut W,
) -> Result<(), PlayError>
    // promise: what is written for a script is the output of its run, and one output
    // with: play.outcome, scripts_have_one_output
    // shown by: plays_from_a_reader_to_a_writer
    // refused: play_writes_the_input_back, play_reads_a_part, play_reads_nothing
    // promise: a fault comes exactly if that side failed; a refusal has written nothing
    // with: play.reader_fault, play.writer_fault, play.nothing
    // shown by: a_reader_fails_at_each_read, a_writer_fails_at_each_write, a_script_is_cut_off
    // refused: play_always_returns_read_fault, play_always_returns_write_fault
    // promise: a refused request for memory is reported, and nothing was written
    // with: play.nothing, parse
    // shown by: each_request_for_memory
    // refused: uart_language/parse_wants_memory_before_faults
    // The outcome of an input, if its bytes are known.
    ensures outcome { IfSome (R.remaining reader.old)
        (λ input. Outcome input result (W.contents writer.old) (W.contents writer.new)) }
    ensures whole { OnOk result (IsAtEnd (R.remaining reader.new)) }
    ensures most { ConsumesAtMost MOST_READ (R.remaining reader.old) (R.remaining reader.new) }

    ensures nothing { WritesNothing result (W.contents writer.old) (W.contents writer.new) }

    // A read fault is reported exactly if the reader failed, a write fault exactly if the writer
    // did.
    ensures reader_fault { R.has_failed reader.new ≡
        (R.has_failed reader.old || is_read_fault result) }
    ensures writer_fault { W.has_failed writer.new ≡
        (W.has_failed writer.old || is_write_fault result) }
{
    let text = read_all(alloc, reader)?;
    let script = parse(alloc, &text)?;
    let output = output_for(alloc, &script)?;
    match write_all(writer, &output) {
        Ok(()) => Ok(()),
        Err(_) => Err(PlayError::WriteFault),
    }
}
