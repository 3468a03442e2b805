//! A port to something that answers questions.
ghost use Rattle.std.specs.Prelude.{IfOk};
ghost use Rattle.uart_uses.specs.Asked.{Asked};

use thiserror::Error;
use uart_16550::backend::Backend;
use uart_16550::{Config, InitError, LoopbackError, RemoteReadyToReceiveError, Uart16550};

/// Why a port cannot be used.
#[derive(Debug, PartialEq, Drop, Error)]
pub enum PortError {
    #[error("no usable port: {0}")]
    Init(#[from] InitError),
    #[error("the chip is broken: {0}")]
    Loopback(#[from] LoopbackError),
    #[error("nobody listens: {0}")]
    NotConnected(#[from] RemoteReadyToReceiveError),
    #[error("only {sent} bytes could be sent")]
    NotSent { sent: usize },
    #[error("only {received} bytes of the answer came")]
    NoAnswer { received: usize },
}

/// Sets a port up: 9600 baud, 8 data bits, FIFOs on. Then tests the chip, and the cable.
pub fn open<B: Backend>(uart: &mut Uart16550<B>) -> Result<(), PortError> {
    uart.init(Config::DEFAULT)?;
    uart.test_loopback()?;
    uart.check_connected()?;
    Ok(())
}

/// Sends a question and fills `answer`. Each byte may take `spin_limit` polls, and no more.
pub fn ask<B: Backend>(
    uart: &mut Uart16550<B>,
    question: &[u8],
    answer: &mut [u8],
) -> Result<(), PortError>
    ensures { IfOk result (λ done. Asked B.step question.now answer.new done uart.old uart.new) }
{
    if let Err(stall) = uart.send_bytes_exact(question) {
        return Err(PortError::NotSent { sent: stall.done });
    }
    if let Err(stall) = uart.receive_bytes_exact(answer) {
        return Err(PortError::NoAnswer {
            received: stall.done,
        });
    }
    Ok(())
}
