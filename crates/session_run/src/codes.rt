ghost use Rattle.std.specs.Prelude.{◌≡◌};
ghost use Rattle.session_run.specs.Codes.{code_of};

use session_streams::Status;

/// The exit code of the program, by how the run ended.
pub fn exit_code(status: Status) -> u8
    ensures { result ≡ code_of status }
{
    match status {
        Status::Done => 0,
        Status::Usage => 2,
        Status::ReadFault => 3,
        Status::WriteFault => 4,
        Status::NoMemory => 5,
        Status::Script => 6,
        Status::Limit => 7,
    }
}
