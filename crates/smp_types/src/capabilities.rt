ghost use Rattle.std.specs.Prelude.{◌≡◌};
ghost use Rattle.smp_types.specs.Capabilities.{io_answer, io_code, io_of};

use crate::error::InvalidValue;

// Device I/O capabilities ([Vol 3] Part H, Section 2.3.2).
#[derive(Clone, Copy, PartialEq, Eq)]
pub enum IoCapabilities {
    // Display only
    DisplayOnly = 0x00,
    // Yes/no display
    DisplayYesNo = 0x01,
    // Keyboard only
    KeyboardOnly = 0x02,
    // No input and no output
    NoInputNoOutput = 0x03,
    // Both keyboard and display
    KeyboardDisplay = 0x04,
}

impl TryFrom<u8> for IoCapabilities {
    type Error = InvalidValue;

    ghost try_from_gives = { λ val r. io_answer r ≡ io_of val };

    fn try_from(val: u8) -> Result<Self, InvalidValue> {
        Ok(match val {
            0x00 => IoCapabilities::DisplayOnly,
            0x01 => IoCapabilities::DisplayYesNo,
            0x02 => IoCapabilities::KeyboardOnly,
            0x03 => IoCapabilities::NoInputNoOutput,
            0x04 => IoCapabilities::KeyboardDisplay,
            _ => return Err(InvalidValue),
        })
    }
}

impl From<IoCapabilities> for u8 {
    ghost from_gives = { λ io code. code ≡ io_code io };

    fn from(io: IoCapabilities) -> u8 {
        io as u8
    }
}
