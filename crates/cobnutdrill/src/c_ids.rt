// Exports dm_bank, dm_program, dm_pattern, dm_version, dm_program_data_len, dm_device and dm_interface, the entry points of the small numbers.
ghost use Rattle.std.specs.Prelude.{◌≡◌};
ghost use Rattle.ids.specs.Interface.{interface_of, interface_byte};
ghost use Rattle.ids.specs.Device.{device_of, device_byte};
ghost use Rattle.refusal.specs.Outcome.{gives, and_then};
ghost use Rattle.ids.specs.Numbers.{bank_of, program_of, pattern_of};
ghost use Rattle.ids.specs.Version.{version_of, program_data_length};
ghost use Rattle.host_answer.specs.Answer.{answer_of};

use host_answer::Answer;

// 0 to 7. Refuses 9.
#[unsafe(no_mangle)]
pub extern "C" fn dm_bank(byte: u8) -> Answer
    ensures { result ≡ answer_of (and_then (bank_of byte) (λ x. gives x.0)) }
{
    host_ids::dm_bank(byte)
}

// 0 to 127. Refuses 10.
#[unsafe(no_mangle)]
pub extern "C" fn dm_program(byte: u8) -> Answer
    ensures { result ≡ answer_of (and_then (program_of byte) (λ x. gives x.0)) }
{
    host_ids::dm_program(byte)
}

// 0 to 31. Refuses 11.
#[unsafe(no_mangle)]
pub extern "C" fn dm_pattern(byte: u8) -> Answer
    ensures { result ≡ answer_of (and_then (pattern_of byte) (λ x. gives x.0)) }
{
    host_ids::dm_pattern(byte)
}

// 6 or 7. Refuses 8.
#[unsafe(no_mangle)]
pub extern "C" fn dm_version(byte: u8) -> Answer
    ensures { result ≡ answer_of (and_then (version_of byte) (λ x. gives x.0)) }
{
    host_ids::dm_version(byte)
}

// How many raw bytes a program dump of this version holds. Refuses 8.
#[unsafe(no_mangle)]
pub extern "C" fn dm_program_data_len(byte: u8) -> Answer
    ensures { result ≡ answer_of (and_then (version_of byte) (λ x. gives (program_data_length x.0))) }
{
    host_ids::dm_program_data_len(byte)
}

// 0 to 15, or 7F for everyone. Refuses 5.
#[unsafe(no_mangle)]
pub extern "C" fn dm_device(byte: u8) -> Answer
    ensures { result ≡ answer_of (and_then (device_of byte) (λ x. gives (device_byte x))) }
{
    host_ids::dm_device(byte)
}

// 0 to 2. Refuses 12.
#[unsafe(no_mangle)]
pub extern "C" fn dm_interface(byte: u8) -> Answer
    ensures { result ≡ answer_of (and_then (interface_of byte) (λ x. gives (interface_byte x))) }
{
    host_ids::dm_interface(byte)
}
