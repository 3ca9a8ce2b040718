//! The input, read to its end.

ghost use Rattle.std.specs.Prelude.{◌≡◌, ◌+◌, ◌<◌, ◌≤◌, ℕ, List, [], Option, Err, length, take, vec_len, IfOk, OnErr, OnOk, IfSome, IsTrue};
ghost use Rattle.jx_io.specs.Causes.{HasCause};
ghost use Rattle.jx_io.specs.Device.{Allows};
ghost use Rattle.jx_transcode.specs.Progress.{HasRead, SameButLeft};

use jx_io::{Files, Refused};
use std::alloc::Global;

/// How many bytes a buffer grows by where nothing is known of the file's length.
const PIECE: usize = 65_536;

/// A buffer of zeros with room for a file that may have so many bytes, but for `limit` at most, and one byte more by which its end is found;
/// or an empty one where nothing is known, or memory for so many is refused.
fn first_room(alloc: Global, hint: Option<u64>, limit: u32) -> Vec<u8>
    ensures { vec_len result ≤ limit + 1 }
{
    let mut bytes = Vec::new(alloc);
    if let Some(length) = hint {
        let room = length.min(u64::from(limit)) as usize + 1;
        if bytes.resize(room, 0).is_err() {
            return Vec::new(alloc);
        }
    }
    bytes
}

/// Makes a buffer longer by zeros where all of it is filled, up to `limit` bytes and one more.
fn more_room(bytes: &mut Vec<u8>, filled: usize, limit: u32) -> Result<(), Refused>
    requires most { filled ≤ limit }
    requires within { filled ≤ vec_len bytes.old }
    requires few { vec_len bytes.old ≤ limit + 1 }
    ensures room { OnOk result (filled < vec_len bytes.new) }
    ensures few { vec_len bytes.new ≤ limit + 1 }
    ensures front { take filled bytes.new.items ≡ take filled bytes.old.items }
    ensures cause { OnErr result (result ≡ Err Refused.NoMemory) }
{
    if filled < bytes.len() {
        return Ok(());
    }
    let room = PIECE.min(limit as usize + 1 - filled);
    bytes.resize(filled + room, 0)?;
    Ok(())
}

/// Reads behind the filled bytes of a buffer, which has room there: how many more it has then.
fn read_on<F: Files>(files: &mut F, bytes: &mut [u8], filled: usize) -> Result<usize, Refused>
    requires reading { IsTrue (F.meaning files.old).reading }
    requires room { filled < length bytes.old }
    ensures long { length bytes.new ≡ length bytes.old }
    ensures within { IfOk result (λ n. filled + n ≤ length bytes.new) }
    ensures read { IfOk result (λ n. (old : Option (List ℕ))
        → HasRead old (F.meaning files.old).left (take filled bytes.old)
        → HasRead old (F.meaning files.new).left (take (filled + n) bytes.new)) }
    ensures end { IfOk result (λ n. n ≡ 0 → IfSome (F.meaning files.new).left (λ rest. rest ≡ [])) }
    ensures same { SameButLeft (F.meaning files.old) (F.meaning files.new) }
    ensures reading { IsTrue (F.meaning files.new).reading }
    ensures opens { Allows (F.can_open files.old) (F.can_open files.new) }
    ensures creates { Allows (F.can_create files.old) (F.can_create files.new) }
    ensures cause { HasCause (F.read_faults files.old) (F.read_faults files.new) result }
    ensures other { F.write_faults files.new ≡ F.write_faults files.old }
{
    files.read(&mut bytes[filled..])
}

/// The same with room for more where there is none.
fn read_more<F: Files>(
    files: &mut F,
    bytes: &mut Vec<u8>,
    filled: usize,
    limit: u32,
) -> Result<usize, Refused>
    requires reading { IsTrue (F.meaning files.old).reading }
    requires most { filled ≤ limit }
    requires within { filled ≤ vec_len bytes.old }
    requires few { vec_len bytes.old ≤ limit + 1 }
    ensures few { vec_len bytes.new ≤ limit + 1 }
    ensures within { IfOk result (λ n. filled + n ≤ vec_len bytes.new) }
    ensures read { IfOk result (λ n. (old : Option (List ℕ))
        → HasRead old (F.meaning files.old).left (take filled bytes.old.items)
        → HasRead old (F.meaning files.new).left (take (filled + n) bytes.new.items)) }
    ensures end { IfOk result (λ n. n ≡ 0 → IfSome (F.meaning files.new).left (λ rest. rest ≡ [])) }
    ensures same { SameButLeft (F.meaning files.old) (F.meaning files.new) }
    ensures reading { IsTrue (F.meaning files.new).reading }
    ensures opens { Allows (F.can_open files.old) (F.can_open files.new) }
    ensures creates { Allows (F.can_create files.old) (F.can_create files.new) }
    ensures cause { HasCause (F.read_faults files.old) (F.read_faults files.new) result }
    ensures other { F.write_faults files.new ≡ F.write_faults files.old }
{
    more_room(bytes, filled, limit)?;
    read_on(files, bytes, filled)
}

/// Fills a buffer with the bytes of the opened file, to its end or up to `limit` and one more: how many there are.
fn fill<F: Files>(files: &mut F, bytes: &mut Vec<u8>, limit: u32) -> Result<usize, Refused>
    requires reading { IsTrue (F.meaning files.old).reading }
    requires few { vec_len bytes.old ≤ limit + 1 }
    ensures within { IfOk result (λ n. n ≤ vec_len bytes.new) }
    ensures bytes { IfOk result (λ n. IfSome (F.meaning files.old).left
        (λ left. take n bytes.new.items ≡ take (limit + 1) left)) }
    ensures left { IfOk result (λ n. HasRead (F.meaning files.old).left (F.meaning files.new).left
        (take n bytes.new.items)) }
    ensures same { SameButLeft (F.meaning files.old) (F.meaning files.new) }
    ensures opens { Allows (F.can_open files.old) (F.can_open files.new) }
    ensures creates { Allows (F.can_create files.old) (F.can_create files.new) }
    ensures cause { HasCause (F.read_faults files.old) (F.read_faults files.new) result }
    ensures other { F.write_faults files.new ≡ F.write_faults files.old }
{
    let mut filled = 0;
    while filled <= limit as usize {
        let count = read_more(files, bytes, filled, limit)?;
        filled += count;
        if count == 0 {
            return Ok(filled);
        }
    }
    Ok(filled)
}

/// Reads the opened file to its end, or its first `limit` bytes and one more, by which a longer file is told apart.
///
/// Where the device tells how long the file may be, the room is taken at once, and bytes are read to where they stay. What it tells is
/// not relied on: a file may have fewer bytes, or more.
pub fn read_all<F: Files>(alloc: Global, files: &mut F, limit: u32) -> Result<Vec<u8>, Refused>
    requires { IsTrue (F.meaning files.old).reading }
    ensures bytes { IfOk result (λ v. IfSome (F.meaning files.old).left (λ left. v.items ≡ take (limit + 1) left)) }
    ensures left { IfOk result (λ v. HasRead (F.meaning files.old).left (F.meaning files.new).left v.items) }
    ensures same { SameButLeft (F.meaning files.old) (F.meaning files.new) }
    ensures opens { Allows (F.can_open files.old) (F.can_open files.new) }
    ensures creates { Allows (F.can_create files.old) (F.can_create files.new) }
    ensures cause { HasCause (F.read_faults files.old) (F.read_faults files.new) result }
    ensures other { F.write_faults files.new ≡ F.write_faults files.old }
{
    let mut bytes = first_room(alloc, files.length_hint(), limit);
    let filled = fill(files, &mut bytes, limit)?;
    bytes.truncate(filled);
    bytes.shrink_to_fit();
    Ok(bytes)
}
