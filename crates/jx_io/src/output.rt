//! The file that is made: a draft beside its name until it is finished, or what is written as it stands.

ghost use Rattle.std.specs.Prelude.{◌≡◌, ◌≤◌, ◌<◌, length, None, IfOk, IfSome, OnErr, OnOk};
ghost use Rattle.std.specs.Path.{path_buf_bytes};
ghost use Rattle.jx_io.specs.Drafts.{IsDraft, IsDraftFor};

use crate::draft::{Draft, draft_new, draft_over};
use crate::names::{followed, is_descriptor, is_standard_output};
use crate::{Fault, Step};
use std::fs::{File, Metadata, OpenOptions};
use std::io::Write;
use std::path::PathBuf;
use std::rt::Files as Disk;
use std::{fs, io};

/// The file of the system that is made: a draft beside its name until it is finished, that which stands under the name where no
/// draft can or should take its place, or standard output.
#[derive(Drop)]
pub(crate) struct Output {
    // none for standard output
    file: Option<File>,
    draft: Option<Draft>,
}

/// Whether a file that was opened has a name at the end of its name's links. One that was removed, or never had a name, hasn't.
fn is_found<R: Disk>(rt: &R, target: &PathBuf) -> bool {
    !is_descriptor(target) && fs::symlink_metadata(rt, target.as_path()).is_ok()
}

/// Begins to write an open file as it stands. A plain one is emptied first.
fn begin_on(file: File, there: &Metadata) -> Result<Output, Fault>
    ensures { IfOk result (λ output. output.draft ≡ None) }
{
    if there.is_file() {
        if let Err(error) = file.set_len(0) {
            return Err(Fault::new(Step::WriteOn, error));
        }
    }
    Ok(Output {
        file: Some(file),
        draft: None,
    })
}

/// Begins a file of a name whose links lead to this path, under which this one was found.
fn over<R: Disk<File = File> + AllocGlobal>(
    rt: &R,
    target: PathBuf,
    file: File,
    process: u32,
) -> Result<Output, Fault>
    ensures { IfOk result (λ output. IfSome output.draft (IsDraft (path_buf_bytes target))) }
{
    let there = match file.metadata() {
        Ok(there) => there,
        Err(error) => return Err(Fault::new(Step::Create, error)),
    };
    if !there.is_file() || !is_found(rt, &target) {
        return begin_on(file, &there);
    }
    match draft_over(rt, target, &file, &there, process) {
        Ok((made, draft)) => Ok(Output {
            file: Some(made),
            draft: Some(draft),
        }),
        Err(fault) => Err(fault),
    }
}

fn fresh<R: Disk<File = File> + AllocGlobal>(
    rt: &R,
    target: PathBuf,
    process: u32,
) -> Result<Output, Fault>
    ensures { IfOk result (λ output. IfSome output.draft (IsDraft (path_buf_bytes target))) }
{
    match draft_new(rt, target, process) {
        Ok((made, draft)) => Ok(Output {
            file: Some(made),
            draft: Some(draft),
        }),
        Err(fault) => Err(fault),
    }
}

/// Begins a file of this name, for this process. Standard output, and what is there and is no plain file with a name, is written from
/// now on. A plain file that is there stays as it is until `finish`. A draft stands under a name of its own, in the folder of the file
/// that the name stands for, which it is to replace.
pub(crate) fn begin<R: Disk<File = File> + AllocGlobal>(
    rt: &R,
    name: &str,
    process: u32,
) -> Result<Output, Fault>
    ensures { IfOk result (λ output. IfSome output.draft (λ draft. IsDraftFor name.now (path_buf_bytes draft.name) (path_buf_bytes draft.target))) }
{
    match is_standard_output(rt, name) {
        Ok(true) => {
            return Ok(Output {
                file: None,
                draft: None,
            });
        }
        Ok(false) => {}
        Err(error) => return Err(Fault::new(Step::Create, error.into())),
    }
    let target = match followed(rt, name) {
        Ok(target) => target,
        Err(error) => return Err(Fault::new(Step::Create, error)),
    };
    match OpenOptions::new().write(true).open(rt, name) {
        Ok(file) => over(rt, target, file, process),
        Err(error) if error.kind() == io::ErrorKind::NotFound => fresh(rt, target, process),
        Err(error) => Err(Fault::new(Step::Create, error)),
    }
}

impl Output {
    // what is being done while it is written
    fn step(&self) -> Step {
        if self.draft.is_some() {
            Step::Write
        } else {
            Step::WriteOn
        }
    }

    fn taken<R: Print>(&mut self, rt: &R, from: &[u8]) -> io::Result<usize>
        ensures room { IfOk result (λ n. n ≤ length from.now) }
        ensures same { self.new.draft ≡ self.old.draft }
    {
        match &mut self.file {
            Some(file) => file.write(from),
            None => rt.write_some(from),
        }
    }

    /// Appends the first of these bytes: how many, at least one where there is one.
    pub(crate) fn write<R: Print>(&mut self, rt: &R, from: &[u8]) -> Result<usize, Fault>
        ensures room { IfOk result (λ n. n ≤ length from.now) }
        ensures some { IfOk result (λ n. 0 < length from.now → 0 < n) }
    {
        match self.taken(rt, from) {
            Ok(count) if count > 0 || from.is_empty() => Ok(count),
            Ok(_) => Err(Fault::new(self.step(), io::ErrorKind::WriteZero.into())),
            Err(error) => Err(Fault::new(self.step(), error)),
        }
    }

    /// Brings the file to its disk; a draft then takes its name, in place of what had it, and is a draft no longer, but given back.
    /// After a failure all is as before.
    pub(crate) fn finish<R: Disk>(&mut self, rt: &R) -> Result<Option<Draft>, Fault>
        ensures ok { OnOk result (self.new ≡ record self.old { draft = None }) }
        ensures err { OnErr result (self.new ≡ self.old) }
    {
        self.bring()?;
        if let Some(draft) = &self.draft {
            if let Err(error) = fs::rename(rt, draft.name.as_path(), draft.target.as_path()) {
                return Err(Fault::new(Step::Rename, error));
            }
        }
        Ok(self.draft.take())
    }

    // standard output is the caller's to bring to a disk, and what is no plain file need have none
    fn bring(&self) -> Result<(), Fault> {
        let Some(file) = &self.file else {
            return Ok(());
        };
        match file.sync_all() {
            Err(error) if self.draft.is_some() => Err(Fault::new(Step::Sync, error)),
            Err(error) if error.kind() != io::ErrorKind::InvalidInput => {
                Err(Fault::new(Step::WriteOn, error))
            }
            _ => Ok(()),
        }
    }

    /// Removes a draft that hasn't taken its name yet. None is left then.
    pub(crate) fn discard<R: Disk>(&mut self, rt: &R)
        ensures { self.new ≡ record self.old { draft = None } }
    {
        if let Some(draft) = self.draft.take() {
            let _ = fs::remove_file(rt, draft.name.as_path());
        }
    }
}
