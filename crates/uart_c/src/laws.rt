//! Laws about the numbers that the header has too, and about sound chips and ports.
//!
//! The contract of each function is a law that callers can cite. The functions do nothing.
ghost use Rattle.std.specs.Prelude.{◌≡◌, [], ◌∷◌};
ghost use Rattle.uart_c.specs.Port.{MadePortsAreSound, RestoredPortsAreSound};
ghost use Rattle.uart_c.specs.Port.{SoundPortsStaySound};
ghost use Rattle.uart_c.specs.Saved.{MadeChipsAreSound, SoundChipsStaySound};
ghost use Rattle.uart_c.specs.declared.codes.TheConstants as code;
ghost use Rattle.uart_c.specs.declared.queue.TheConstants.{FIFO_ROOM, WIRE_ROOM};
ghost use Rattle.uart_events.specs.declared.event.TheConstants.{MAX_CHAR_TICKS};
ghost use Rattle.uart_spec.specs.declared.baud.TheConstants.{FIFO_SIZE};

/// The numbers of each enum of the header, in its order.
pub fn codes_are_these()
    // proved: Each number of the header's enums, and how many bytes a wire, a FIFO and a call have
    //   room for
    // on: `laws::codes_are_these`, `laws::limits_are_these`
    ensures status { (code.UART_OK ∷ code.UART_BAD_TICKS ∷ code.UART_BAD_WIRE ∷ code.UART_BAD_ERRORS
        ∷ code.UART_BAD_LINES ∷ code.UART_BAD_CHIP ∷ code.UART_BAD_PORT ∷ code.UART_BAD_FIFO ∷ [])
        ≡ (0 ∷ 1 ∷ 2 ∷ 3 ∷ 4 ∷ 5 ∷ 6 ∷ 8 ∷ []) }
{}

/// The limits: the bytes of a wire, of the smallest FIFO and of the array of a FIFO, and the ticks
/// of a character.
pub fn limits_are_these()
    ensures wire { WIRE_ROOM ≡ 64 }
    ensures fifo { FIFO_SIZE ≡ 16 }
    ensures room { FIFO_ROOM ≡ 128 }
    ensures ticks { MAX_CHAR_TICKS ≡ 1000 }
{}

/// A chip that is made is sound, and stays so whatever is done with it. So `uart_chip_load` refuses
/// no chip that was saved.
pub fn sound_chips_stay_sound()
    ensures made { MadeChipsAreSound }
    ensures stay { SoundChipsStaySound }
{}

/// A port that is made or restored is sound, and stays so whatever is done with it: its chip is
/// sound, its monitor was told what is so, and nothing is left to happen. So the laws of
/// `uart_virtual` are about it, and `uart_port_load` refuses no port that was saved.
pub fn sound_ports_stay_sound()
    ensures made { MadePortsAreSound }
    ensures restored { RestoredPortsAreSound }
    ensures stay { SoundPortsStaySound }
{}
