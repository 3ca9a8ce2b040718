//! What a name stands for: where its links lead, one of the process's descriptors, standard output.

ghost use Rattle.std.specs.Prelude.{IfOk};
ghost use Rattle.std.specs.Path.{path_buf_bytes};
ghost use Rattle.jx_io.specs.Drafts.{IsLed};

use std::alloc::AllocError;
use std::fs::Metadata;
use std::os::unix::fs::MetadataExt;
use std::path::PathBuf;
use std::rt::Files as Disk;
use std::{fs, io};

// as many links as the system follows
const MOST_LINKS: u32 = 40;

// the system's number for a chain of links that is longer (ELOOP)
const MANY_LINKS: i32 = 40;

static STANDARD_OUTPUT: &str = "/proc/self/fd/1";

/// Whether a path is the name of a descriptor, as `/dev/fd/3`. What it names is an open file, which need have no other name.
pub(crate) fn is_descriptor(path: &PathBuf) -> bool {
    let Some((folder, number)) = path.as_str().rsplit_once('/') else {
        return false;
    };
    if number.is_empty() || !number.as_bytes().iter().all(|byte| byte.is_ascii_digit()) {
        return false;
    }
    folder == "/dev/fd" || (folder.starts_with("/proc/") && folder.ends_with("/fd"))
}

/// Where the links end that stand under a name, or at the name of a descriptor. Nothing need be there.
pub(crate) fn followed<R: Disk + AllocGlobal>(rt: &R, name: &str) -> io::Result<PathBuf>
    ensures { IfOk result (λ path. IsLed name.now (path_buf_bytes path)) }
{
    let mut path = PathBuf::from_str(rt.alloc(), name)?;
    for _ in 0..MOST_LINKS {
        if is_descriptor(&path) {
            return Ok(path);
        }
        match fs::read_link(rt, path.as_path()) {
            Ok(link) => path = path.with_file_name(rt.alloc(), link.as_str())?,
            Err(error) => {
                return match error.kind() {
                    // it is no link, or nothing is there
                    io::ErrorKind::InvalidInput | io::ErrorKind::NotFound => Ok(path),
                    _ => Err(error),
                };
            }
        }
    }
    Err(io::Error::from_raw_os_error(MANY_LINKS))
}

/// Whether both are one file.
fn is_one(one: &Metadata, other: &Metadata) -> bool {
    one.dev() == other.dev() && one.ino() == other.ino()
}

fn names_output<R: Disk + AllocGlobal>(rt: &R, name: &str) -> io::Result<bool> {
    let path = followed(rt, name)?;
    if !is_descriptor(&path) {
        return Ok(false);
    }
    let there = fs::metadata(rt, path.as_path())?;
    let output = fs::metadata(rt, STANDARD_OUTPUT)?;
    Ok(is_one(&there, &output))
}

/// Whether a name of an output stands for standard output: `-`, and `/dev/stdout` or the name of another descriptor of the same file.
///
/// # Errors
///
/// `AllocError` where memory is refused.
pub fn is_standard_output<R: Disk + AllocGlobal>(rt: &R, name: &str) -> Result<bool, AllocError> {
    if name == "-" {
        return Ok(true);
    }
    match names_output(rt, name) {
        Ok(is_output) => Ok(is_output),
        Err(error) if error.kind() == io::ErrorKind::OutOfMemory => Err(AllocError),
        Err(_) => Ok(false),
    }
}
