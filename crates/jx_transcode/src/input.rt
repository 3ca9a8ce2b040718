//! The input of a command, from its name to its bytes.

ghost use Rattle.std.specs.Prelude.{◌≡◌, ◌+◌, take, IfOk, IfSome, OnOk};
ghost use Rattle.jx_io.specs.Causes.{HasCause};
ghost use Rattle.jx_io.specs.Device.{Allows, IsThere, joined};
ghost use Rattle.jx_transcode.specs.Filed.{unread_as};
ghost use Rattle.jx_rounds.specs.Files.{IsUntouched};
ghost use Rattle.jx_transcode.specs.Progress.{HasRead};

use crate::Status;
use crate::device::read_all;
use jx_io::{Files, Refused};
use std::alloc::Global;

/// Reads the file of a name to its end, or its first `limit` bytes and one more.
pub fn read_input<F: Files>(
    alloc: Global,
    files: &mut F,
    name: &str,
    limit: u32,
) -> Result<Vec<u8>, Refused>
    requires { F.can_open files.old name.now }
    ensures bytes { IfOk result (λ v. IfSome (joined ((F.meaning files.old).holds name.now))
        (λ b. v.items ≡ take (limit + 1) b)) }
    ensures left { IfOk result (λ v. HasRead (joined ((F.meaning files.old).holds name.now))
        (F.meaning files.new).left v.items) }
    ensures there { OnOk result (IsThere (F.meaning files.old) name.now) }
    ensures same { IsUntouched (F.meaning files.old) (F.meaning files.new) }
    ensures opens { Allows (F.can_open files.old) (F.can_open files.new) }
    ensures creates { Allows (F.can_create files.old) (F.can_create files.new) }
    ensures cause { HasCause (F.read_faults files.old) (F.read_faults files.new) result }
    ensures other { F.write_faults files.new ≡ F.write_faults files.old }
{
    files.open(name)?;
    read_all(alloc, files, limit)
}

/// The status of an input that couldn't be opened or read.
pub fn unread_as(refused: Refused) -> Status
    ensures { result ≡ unread_as refused }
{
    match refused {
        Refused::Failed => Status::ReadFault,
        Refused::NoMemory => Status::NoMemory,
    }
}
