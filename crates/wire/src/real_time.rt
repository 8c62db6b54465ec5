// Real-time messages: single bytes that may stand anywhere.
ghost use Rattle.std.specs.Prelude.{◌≡◌, length};
ghost use Rattle.refusal.specs.Outcome.{Writes};
ghost use Rattle.wire.specs.RealTime.{realtime_byte, realtime_of, realtime_write};

use refusal::Refusal;

// The real-time messages that a record names. They are told by their status byte as CommonStatus is; no call asks for either, so a trait would serve
// none.
#[derive(Clone, Copy, Debug, PartialEq, Eq)]
pub enum Realtime {
    Clock,
    Start,
    Continue,
    Stop,
    ActiveSensing,
    SystemReset,
}

impl Realtime {
    pub fn from_status(status: u8) -> Option<Realtime>
        ensures { result ≡ realtime_of status }
    {
        match status {
            0xF8 => Some(Realtime::Clock),
            0xFA => Some(Realtime::Start),
            0xFB => Some(Realtime::Continue),
            0xFC => Some(Realtime::Stop),
            0xFE => Some(Realtime::ActiveSensing),
            0xFF => Some(Realtime::SystemReset),
            _ => None,
        }
    }

    pub fn to_status(self) -> u8
        ensures { result ≡ realtime_byte self }
    {
        match self {
            Realtime::Clock => 0xF8,
            Realtime::Start => 0xFA,
            Realtime::Continue => 0xFB,
            Realtime::Stop => 0xFC,
            Realtime::ActiveSensing => 0xFE,
            Realtime::SystemReset => 0xFF,
        }
    }

    // Writes the byte. Refuses 14.
    pub fn encode_into(self, out: &mut [u8]) -> Result<usize, Refusal>
        ensures { Writes (realtime_write self (length out.old)) result out.old out.new }
    {
        crate::put_short([self.to_status(), 0, 0], 1, out)
    }
}
