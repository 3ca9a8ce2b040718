//! What a draft has of the file that it is to replace: owner, group and mode; and whether it may replace it.

use crate::{Fault, Step};
use std::fs::{File, Metadata, Permissions};
use std::os::fd::{AsFd, AsRawFd};
use std::os::unix::fs::{MetadataExt, PermissionsExt, fchown};
use std::rt::Files as Disk;
use std::{fs, io};

// the system's number for what isn't permitted (EPERM)
const NOT_PERMITTED: i32 = 1;

// the bit of a folder in which only its owner and a file's may remove or rename the file
const STICKY: u32 = 0o1000;

/// What `/proc` calls the mount on which an open file is found, where it tells.
fn mount_of<R: Disk + AllocGlobal>(rt: &R, file: &File) -> Option<String> {
    let number = file.as_raw_fd();
    let Ok(name) = format!(in rt.alloc(); "/proc/self/fdinfo/{number}") else {
        return None;
    };
    let Ok(text) = fs::read_to_string(rt, name.as_str()) else {
        return None;
    };
    let (_, rest) = text.as_str().split_once("mnt_id:")?;
    let (mount, _) = rest.split_once('\n')?;
    match String::from_str(rt.alloc(), mount) {
        Ok(mount) => Some(mount),
        Err(_) => None,
    }
}

/// Whether something is mounted where this file of the folder stands, as far as the system tells.
pub(crate) fn is_mount<R: Disk + AllocGlobal>(rt: &R, file: &File, folder: &File) -> bool {
    match (mount_of(rt, file), mount_of(rt, folder)) {
        (Some(mount), Some(around)) => mount.as_str() != around.as_str(),
        _ => false,
    }
}

/// Whether the owner of a new file may replace an older one in this folder.
fn may_replace(own: &Metadata, folder: &Metadata, older: &Metadata) -> bool {
    let user = own.uid();
    folder.mode() & STICKY == 0 || user == 0 || user == older.uid() || user == folder.uid()
}

/// The mode of a file that replaces one of this mode. Where its owner or its group is another one it is nobody's to run in their
/// name, and another group gets no more than everyone has.
fn mode_kept(mode: u32, has_owner: bool, has_group: bool) -> u32 {
    if has_owner && has_group {
        return mode & 0o7777;
    }
    if has_group {
        return mode & 0o777;
    }
    (mode & 0o707) | (mode & 0o070 & ((mode & 0o007) << 3))
}

/// Gives a new file the group, the owner and the mode of the one that it is to replace; the first two as far as the system lets it.
fn keep(made: &File, own: &Metadata, older: &Metadata) -> io::Result<()> {
    let has_group = own.gid() == older.gid()
        || fchown(made.as_fd(), None, Some(older.gid())).is_ok();
    let has_owner = own.uid() == older.uid()
        || fchown(made.as_fd(), Some(older.uid()), None).is_ok();
    let mode = mode_kept(older.mode(), has_owner, has_group);
    made.set_permissions(Permissions::from_mode(mode))
}

/// Readies a new file, which nobody else may look at, to replace an older one of this folder.
pub(crate) fn fit(made: &File, folder: &Metadata, older: &Metadata) -> Result<(), Fault> {
    let own = match made.metadata() {
        Ok(own) => own,
        Err(error) => return Err(Fault::new(Step::Draft, error)),
    };
    if !may_replace(&own, folder, older) {
        return Err(Fault::of_number(Step::Sticky, NOT_PERMITTED));
    }
    match keep(made, &own, older) {
        Ok(()) => Ok(()),
        Err(error) => Err(Fault::new(Step::Draft, error)),
    }
}
