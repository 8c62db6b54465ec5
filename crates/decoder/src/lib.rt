// The stream decoder: bytes in any pieces become whole MIDI messages.
// Three things are awkward about a MIDI cable. A status byte may be left out where it is that of the message before (running status), so what a data
// byte means hangs on bytes long gone. A real-time byte may stand between any two bytes, inside a message or a frame, and must disturb neither. And
// a read may end anywhere, so whatever is half read has to be kept until the next call; here the caller keeps it.
#![tactic(auto)]

ghost use Rattle.std.specs.Prelude.{◌≡◌, ◌≤◌, ◌<◌, length};
ghost use Rattle.decoder.specs.State.{limit, no_status, waits_soundly, sound, cleared, fresh, reset};
ghost use Rattle.decoder.specs.Step.{step, stored, opened, holding, longer, waiting, completed, collect};
ghost use Rattle.decoder.specs.Call.{walk, Walks, call, Feeds};

mod byte;

use refusal::Refusal;
use wire::{Channel, ChannelMessage, Realtime, SystemCommon};

// The frame limit: the longest frame that is kept, F0 and F7 counted. It is the length of the longest dump that the manual prints, the names of a
// bank: seven bytes of header, version and bank, a run of 2,344, and F7.
pub const MAX_SYSEX_LEN: usize = 2354;

// What the decoder keeps between two bytes. The bytes of an open frame lie in the lent store. The flag stands beside the length, and the count beside
// the data bytes, since a call takes any such numbers and refuses those that are not sound; a narrower type would ask more of callers.
#[derive(Clone, Copy, Debug, PartialEq, Eq)]
pub struct Decoder {
    // bytes of the open frame so far
    pub len: usize,
    // between F0 and the byte that ends the frame
    pub in_sysex: bool,
    // the status byte in force, where there is one
    pub status: Option<u8>,
    // data bytes that wait for the rest of their message
    pub have: u8,
    pub data0: u8,
    pub data1: u8,
}

// What a byte means to the decoder.
#[derive(Clone, Copy, Debug, PartialEq, Eq)]
pub enum Class {
    // 00 to 7F
    Data,
    // a status byte that waits for data: 80 to EF, F1 to F3
    Held,
    // F0
    Start,
    // F4 and F5
    Undefined,
    // F6
    Tune,
    // F7
    End,
    // F8 to FF
    Realtime,
}

#[derive(Clone, Copy, Debug, PartialEq, Eq)]
pub enum Report {
    Channel {
        channel: Channel,
        message: ChannelMessage,
    },
    // the frame is so many bytes at the front of the store
    SysEx(usize),
    Common(SystemCommon),
    Realtime(Realtime),
    SysExInterrupted,
    // the number is the frame limit
    SysExTooLong(usize),
}

// What one byte does to the state, and what it reports: SysExInterrupted first, where it broke off a frame, then its own effect. The flag stands beside
// the report, since a struct of the two would put each definition that names them one field further away.
#[derive(Clone, Copy, Debug, PartialEq, Eq)]
pub struct Stepped {
    pub state: Decoder,
    pub interrupted: bool,
    pub report: Option<Report>,
}

// What a call did: the bytes that it used, the state after them, and the reports of the last of them. The flag stands beside the report, since a
// struct of the two would put each definition that names them one field further away.
#[derive(Clone, Copy, Debug, PartialEq, Eq)]
pub struct Fed {
    pub used: usize,
    pub state: Decoder,
    pub interrupted: bool,
    pub report: Option<Report>,
}

impl Decoder {
    pub fn new() -> Decoder
        ensures { result ≡ fresh }
    {
        Decoder {
            in_sysex: false,
            len: 0,
            status: None,
            have: 0,
            data0: 0,
            data1: 0,
        }
    }

    // The frame limit.
    pub fn capacity(self) -> usize
        ensures { result ≡ limit }
    {
        MAX_SYSEX_LEN
    }

    // Is a frame open?
    pub fn in_sysex(self) -> bool
        ensures { result ≡ self.in_sysex }
    {
        self.in_sysex
    }

    // Forgets the open frame, the status and pending data. Takes any state.
    pub fn reset(self) -> Decoder
        ensures { result ≡ reset self }
    {
        self.cleared()
    }

    // Takes bytes until the first that reports. The store is lent at every call, as the last one left it. Refuses 20.
    pub fn feed(self, store: &mut [u8], bytes: &[u8]) -> Result<Fed, Refusal>
        ensures { Feeds (call self store.old bytes.now) result store.old store.new }
    {
        if !self.is_sound() {
            return Err(Refusal::BadStore);
        }
        let Some(front) = store.first_chunk_mut() else {
            return Err(Refusal::BadStore);
        };
        Ok(self.walk(front, bytes))
    }

    // Document 01's "sound": what a call takes.
    pub fn is_sound(self) -> bool
        ensures { result ≡ sound self }
    {
        if self.in_sysex {
            1 <= self.len && self.len <= MAX_SYSEX_LEN && self.status.is_none() && self.have == 0
        } else {
            self.len == 0 && self.waits_soundly()
        }
    }

    // Are the status and the data bytes that wait for it those of a sound state with no open frame?
    fn waits_soundly(self) -> bool
        ensures { result ≡ waits_soundly self.status self.have self.data0 }
    {
        match self.status {
            None => self.have == 0,
            Some(status) => {
                let takes = wire::data_len(status);
                0 < takes && (self.have == 0 || self.have == 1 && self.data0 <= 127 && takes == 2)
            }
        }
    }

    fn cleared(self) -> Decoder
        ensures { result ≡ cleared self }
    {
        Decoder {
            in_sysex: false,
            len: 0,
            status: None,
            have: 0,
            ..self
        }
    }

    // F0 came.
    fn opened(self) -> Decoder
        ensures { result ≡ opened self }
    {
        Decoder {
            in_sysex: true,
            len: 1,
            ..self.cleared()
        }
    }

    // The open frame has one byte more.
    fn longer(self) -> Decoder
        requires { self.len < limit }
        ensures { result ≡ longer self }
    {
        Decoder {
            in_sysex: true,
            len: self.len + 1,
            ..self.cleared()
        }
    }

    // A status byte that waits for data came.
    fn holding(self, status: u8) -> Decoder
        ensures { result ≡ holding self status }
    {
        Decoder {
            status: Some(status),
            ..self.cleared()
        }
    }

    // The first of two data bytes came.
    fn waiting(self, status: u8, byte: u8) -> Decoder
        ensures { result ≡ waiting self status byte }
    {
        Decoder {
            have: 1,
            data0: byte,
            ..self.holding(status)
        }
    }

    // A message is whole, with these data bytes. The three bytes stay three: a struct would be made of them and taken apart again.
    fn completed(status: u8, first: u8, second: u8) -> Decoder
        ensures { result ≡ completed status first second }
    {
        Decoder {
            status: byte::kept(status),
            data0: first,
            data1: second,
            ..Decoder::new()
        }
    }

    // A data byte outside a frame.
    fn collect(self, byte: u8) -> Stepped
        ensures { result ≡ collect self.status self byte }
    {
        match self.status {
            None => byte::silent(self),
            Some(status) => {
                if self.have != 0 {
                    return byte::uninterrupted(
                        Decoder::completed(status, self.data0, byte),
                        byte::message_report(status, self.data0, byte),
                    );
                }
                if wire::data_len(status) <= 1 {
                    return byte::uninterrupted(
                        Decoder::completed(status, byte, self.data1),
                        byte::message_report(status, byte, 0),
                    );
                }
                byte::silent(self.waiting(status, byte))
            }
        }
    }

    // One byte, by its class.
    #[tactic(auto, using(crate::proofs::Limit::limit_is))]
    fn step(self, store: &mut [u8; MAX_SYSEX_LEN], byte: u8) -> Stepped
        ensures { (result ≡ step self byte) × (store.new ≡ stored self store.old byte) }
    {
        let at = self.len;
        let class = byte::class_of(byte);
        match class {
            Class::Data => {
                if !self.in_sysex {
                    return self.collect(byte);
                }
                if MAX_SYSEX_LEN <= at {
                    return byte::too_long(self);
                }
                store[at] = byte;
                byte::silent(self.longer())
            }
            Class::Held => byte::interrupting(self, self.holding(byte), None),
            Class::Start => {
                store[0] = byte;
                byte::interrupting(self, self.opened(), None)
            }
            Class::Undefined => byte::interrupting(self, self.cleared(), None),
            Class::Tune => {
                let report = Some(Report::Common(SystemCommon::TuneRequest));
                byte::interrupting(self, self.cleared(), report)
            }
            Class::End => {
                let next = self.cleared();
                if !self.in_sysex {
                    return byte::silent(next);
                }
                if at < MAX_SYSEX_LEN {
                    store[at] = byte;
                    return byte::reporting(next, Report::SysEx(at + 1));
                }
                byte::too_long(self)
            }
            Class::Realtime => byte::uninterrupted(self, byte::realtime(byte)),
        }
    }

    // Takes bytes until the first that reports, one by one.
    #[tactic(auto, using(crate::proofs::Limit::limit_is))]
    fn walk(self, store: &mut [u8; MAX_SYSEX_LEN], bytes: &[u8]) -> Fed
        ensures { Walks (walk self store.old bytes.now) result store.new }
    {
        let mut state = self;
        for (i, byte) in bytes.iter().enumerate() {
            let done = state.step(store, *byte);
            if byte::reports(done) {
                return Fed {
                    used: i + 1,
                    state: done.state,
                    interrupted: done.interrupted,
                    report: done.report,
                };
            }
            state = done.state;
        }
        Fed {
            used: bytes.len(),
            state,
            interrupted: false,
            report: None,
        }
    }
}
