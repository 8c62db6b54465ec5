// The writer's state as RUNNING_LEN bytes that a host keeps: 00 00 for none, else 01 and the status byte.
ghost use Rattle.std.specs.Prelude.{◌≡◌, None, Some, length};
ghost use Rattle.laws.specs.Choice.{pick};
ghost use Rattle.running_status.specs.StateBytes.{running_bytes, says_running, running_of};

pub const RUNNING_LEN: usize = 2;

// The state that the bytes say, where they are a state's; bytes of another length are none.
pub fn read_running(bytes: &[u8]) -> Option<Option<u8>>
    ensures { result ≡ pick (says_running bytes.now) (Some (running_of bytes.now)) None }
{
    match bytes.as_array::<RUNNING_LEN>() {
        Some([0, 0]) => Some(None),
        Some([1, status]) if crate::is_running(Some(*status)) => Some(Some(*status)),
        _ => None,
    }
}

// Writes a state's bytes.
pub fn put_running(state: Option<u8>, bytes: &mut [u8])
    requires { length bytes.old ≡ 2 }
    ensures { bytes.new ≡ running_bytes state }
{
    bytes.copy_from_slice(&match state {
        None => [0, 0],
        Some(status) => [1, status],
    });
}
