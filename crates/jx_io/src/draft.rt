//! A draft: a new file beside the one whose name it is to take.

ghost use Rattle.std.specs.Prelude.{◌≡◌, take, length, string_bytes, IfOk};
ghost use Rattle.std.specs.Path.{path_buf_bytes};
ghost use Rattle.jx_io.specs.Drafts.{IsBeside, IsDraft, draft_name};

use crate::kept::{fit, is_mount};
use crate::{Fault, Step};
use std::alloc::{AllocError, Global};
use std::fs::{File, Metadata, OpenOptions};
use std::os::unix::fs::OpenOptionsExt;
use std::path::PathBuf;
use std::rt::Files as Disk;
use std::{fs, io};

// the system's numbers for what isn't there, what is there, what is in use and what is a folder (ENOENT, EEXIST, EBUSY, EISDIR)
const NOT_THERE: i32 = 2;

const IS_THERE: i32 = 17;

const IN_USE: i32 = 16;

const IS_FOLDER: i32 = 21;

// a name of so many bytes stands whole in that of its draft, a longer one without so many as the draft's has beside it
const WHOLE: usize = 100;

const BESIDE: usize = 26;

// who may look at a draft that replaces a file, until it has that file's mode; and at one that is new, as far as the process's mask lets them
const OWNER: u32 = 0o600;

const ALL: u32 = 0o666;

/// A file that is made, and the name that it is to have.
#[derive(Drop)]
pub(crate) struct Draft {
    pub(crate) name: PathBuf,
    pub(crate) target: PathBuf,
    // to bring the name to the disk; none where the folder can't be opened
    folder: Option<File>,
}

/// What of a file's name stands in that of its draft.
fn front_of(name: &str) -> &str
    ensures { result.now ≡ take (length result.now) name.now }
{
    let most = if name.len() <= WHOLE {
        name.len()
    } else {
        name.len() - BESIDE
    };
    let (front, _) = name.split_at(name.floor_char_boundary(most));
    front
}

/// The name of a process's draft, where so many of these names are taken.
fn draft_text(alloc: Global, front: &str, process: u32, number: u32) -> Result<String, AllocError>
    ensures { IfOk result (λ text. string_bytes text ≡ draft_name front.now process number) }
{
    if number == 0 {
        return format!(in alloc; ".{front}.jx-{process}");
    }
    format!(in alloc; ".{front}.jx-{process}.{number}")
}

/// A new file of this name, for those of this mode.
fn created<R: Disk<File = File>>(rt: &R, name: &PathBuf, mode: u32) -> io::Result<File> {
    OpenOptions::new()
        .write(true)
        .create_new(true)
        .mode(mode)
        .open(rt, name.as_path())
}

/// A new file beside this one, with its name.
fn beside<R: Disk<File = File> + AllocGlobal>(
    rt: &R,
    target: &PathBuf,
    mode: u32,
    process: u32,
) -> io::Result<(PathBuf, File)>
    ensures { IfOk result (λ made. IsBeside (path_buf_bytes made.0) (path_buf_bytes target.now)) }
{
    let Some(file_name) = target.file_name() else {
        return Err(io::Error::from_raw_os_error(NOT_THERE));
    };
    let front = front_of(file_name);
    for number in 0..u32::MAX {
        let text = draft_text(rt.alloc(), front, process, number)?;
        let name = target.with_file_name(rt.alloc(), text.as_str())?;
        match created(rt, &name, mode) {
            Ok(file) => return Ok((name, file)),
            Err(error) if error.kind() == io::ErrorKind::AlreadyExists => {}
            Err(error) => return Err(error),
        }
    }
    Err(io::Error::from_raw_os_error(IS_THERE))
}

/// The folder of a file.
fn folder_of<R: Disk + AllocGlobal>(rt: &R, target: &PathBuf) -> io::Result<PathBuf> {
    let folder = target.with_file_name(rt.alloc(), ".")?;
    Ok(folder)
}

/// The folder of a file, opened; none where it may not be looked at.
fn opened_folder<R: Disk<File = File> + AllocGlobal>(rt: &R, target: &PathBuf) -> Option<File> {
    match folder_of(rt, target) {
        Ok(folder) => fs::open(rt, folder.as_path()).ok(),
        Err(_) => None,
    }
}

/// A draft of a file that isn't there yet.
pub(crate) fn draft_new<R: Disk<File = File> + AllocGlobal>(
    rt: &R,
    target: PathBuf,
    process: u32,
) -> Result<(File, Draft), Fault>
    ensures { IfOk result (λ made. IsDraft (path_buf_bytes target) made.1) }
{
    if target.as_str().ends_with('/') {
        return Err(Fault::of_number(Step::Create, IS_FOLDER));
    }
    let folder = opened_folder(rt, &target);
    match beside(rt, &target, ALL, process) {
        Ok((name, made)) => Ok((
            made,
            Draft {
                name,
                target,
                folder,
            },
        )),
        Err(error) => Err(Fault::new(Step::Create, error)),
    }
}

fn fit_into<R: Disk + AllocGlobal>(
    rt: &R,
    made: &File,
    target: &PathBuf,
    older: &Metadata,
) -> Result<(), Fault> {
    let folder = match folder_of(rt, target) {
        Ok(folder) => folder,
        Err(error) => return Err(Fault::new(Step::Draft, error)),
    };
    match fs::metadata(rt, folder.as_path()) {
        Ok(folder) => fit(made, &folder, older),
        Err(error) => Err(Fault::new(Step::Draft, error)),
    }
}

fn is_mounted<R: Disk + AllocGlobal>(rt: &R, file: &File, folder: &Option<File>) -> bool {
    match folder {
        Some(folder) => is_mount(rt, file, folder),
        None => false,
    }
}

/// A draft of this plain file, with its owner, group and mode.
pub(crate) fn draft_over<R: Disk<File = File> + AllocGlobal>(
    rt: &R,
    target: PathBuf,
    file: &File,
    older: &Metadata,
    process: u32,
) -> Result<(File, Draft), Fault>
    ensures { IfOk result (λ made. IsDraft (path_buf_bytes target) made.1) }
{
    let folder = opened_folder(rt, &target);
    if is_mounted(rt, file, &folder) {
        return Err(Fault::of_number(Step::Mount, IN_USE));
    }
    let (name, made) = match beside(rt, &target, OWNER, process) {
        Ok(made) => made,
        Err(error) => return Err(Fault::new(Step::Draft, error)),
    };
    if let Err(fault) = fit_into(rt, &made, &target, older) {
        let _ = fs::remove_file(rt, name.as_path());
        return Err(fault);
    }
    Ok((
        made,
        Draft {
            name,
            target,
            folder,
        },
    ))
}

impl Draft {
    /// Brings the name that a draft has taken to its disk. A folder that has none need not be brought there.
    pub(crate) fn settle(&self) -> io::Result<()> {
        let Some(folder) = &self.folder else {
            return Ok(());
        };
        match folder.sync_all() {
            Err(error) if error.kind() != io::ErrorKind::InvalidInput => Err(error),
            _ => Ok(()),
        }
    }
}
