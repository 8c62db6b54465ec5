// The interface that a control application talks over.
ghost use Rattle.std.specs.Prelude.{◌≡◌};
ghost use Rattle.ids.specs.Interface.{interface_of, interface_byte, interface_at};
ghost use Rattle.ids.specs.Laws.{interface_same_byte};

use refusal::{OfByte, Refusal};

// The three MIDI ports of the synthesizer.
#[derive(Clone, Copy, Debug, PartialEq, Eq)]
pub enum Interface {
    Midi,
    Usb,
    WiFi,
}

impl Interface {
    // The interface of a byte that was tested before.
    pub fn from_tested(byte: u8) -> Interface
        ensures { result ≡ interface_at byte }
    {
        match byte {
            0 => Interface::Midi,
            1 => Interface::Usb,
            _ => Interface::WiFi,
        }
    }
}

impl OfByte for Interface {
    ghost of_byte = { interface_of };

    ghost byte_of = { interface_byte };

    // Refuses 12 with the byte.
    fn from_byte(byte: u8) -> Result<Interface, Refusal> {
        if byte < 3 {
            Ok(Interface::from_tested(byte))
        } else {
            Err(Refusal::InvalidInterface(byte))
        }
    }

    fn to_byte(self) -> u8 {
        match self {
            Interface::Midi => 0,
            Interface::Usb => 1,
            Interface::WiFi => 2,
        }
    }

    ghost same_byte = { interface_same_byte };
}
