// Every field of the 22 messages as plain numbers.
ghost use Rattle.std.specs.Prelude.{◌≡◌};
ghost use Rattle.message.specs.Fields.{free_fields, request_fields, dump_fields, pattern_fields, notify_fields};

// Every field that a message can have, as plain numbers; what a message lacks is 0. A flag says whether a pattern's number is there, as the C
// interface has it.
#[derive(Clone, Copy, Debug, PartialEq, Eq)]
pub struct Fields {
    pub free: u8,
    pub version: u8,
    pub bank: u8,
    pub program: u8,
    pub last: u8,
    pub pattern: u8,
    pub has_pattern: bool,
    pub interface: u8,
    pub rx: u8,
    pub tx: u8,
}

impl Fields {
    // No field.
    pub const BLANK: Fields = Fields {
        free: 0,
        version: 0,
        bank: 0,
        program: 0,
        last: 0,
        pattern: 0,
        has_pattern: false,
        interface: 0,
        rx: 0,
        tx: 0,
    };
}

// The fields of a control application's call.
pub fn free_fields(free: u8) -> Fields
    ensures { result ≡ free_fields free }
{
    Fields {
        free,
        ..Fields::BLANK
    }
}

// The fields of the other requests.
pub fn request_fields(bank: u8, program: u8, last: u8, pattern: u8) -> Fields
    ensures { result ≡ request_fields bank program last pattern }
{
    Fields {
        bank,
        program,
        last,
        pattern,
        ..Fields::BLANK
    }
}

// The fields of a dump other than a pattern's.
pub fn dump_fields(version: u8, bank: u8, program: u8) -> Fields
    ensures { result ≡ dump_fields version bank program }
{
    Fields {
        version,
        bank,
        program,
        ..Fields::BLANK
    }
}

// The fields of a pattern dump, with its number or without.
pub fn pattern_fields(version: u8, number: u8, has: bool) -> Fields
    ensures { result ≡ pattern_fields version number has }
{
    Fields {
        version,
        pattern: if has { number } else { 0 },
        has_pattern: has,
        ..Fields::BLANK
    }
}

// The fields of the answer to a control application.
pub fn notify_fields(rx: u8, tx: u8, interface: u8, bank: u8, program: u8) -> Fields
    ensures { result ≡ notify_fields rx tx interface bank program }
{
    Fields {
        bank,
        program,
        interface,
        rx,
        tx,
        ..Fields::BLANK
    }
}
