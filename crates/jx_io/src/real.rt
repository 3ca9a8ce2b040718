//! The files of the system.

ghost use Rattle.std.specs.Prelude.{None, ⊤, false, is_some, ◌≡◌, ◌≤◌, IfOk, length};
ghost use Rattle.jx_io.specs.Causes.{Rose};

use crate::draft::Draft;
use crate::output::{Output, begin};
use crate::{Fault, Files, Refused, Sink, Step, TellsFault};
use std::fs::{self, File};
use std::io::{self, Eprint, Input, Read};
use std::rt::Files as Disk;

/// What is read: a file, or standard input.
#[derive(Drop)]
enum Source<I: Drop> {
    File(File),
    Input(I),
}

impl<I: Read + Drop> Source<I> {
    fn read(&mut self, into: &mut [u8]) -> io::Result<usize>
        ensures { IfOk result (λ n. n ≤ length into.new) }
    {
        match self {
            Source::File(file) => file.read(into),
            Source::Input(input) => input.read(into),
        }
    }
}

/// The files of the system. What they hold isn't told, so every name may be asked for.
///
/// `-` is standard input where it is opened, and standard output where it is created, as are `/dev/stdout` and the names of other
/// descriptors of the same file. A plain file is made beside its name and takes it at `finish`, when it is on its disk, in place of an
/// older file and with that one's mode, owner and group, as far as the system lets it; then its folder is brought to the disk. Until
/// then the older file stands, and a file that isn't finished is removed with this value. What is there and is no plain file (a device,
/// a pipe) or has no name (a descriptor) is written directly. A name that is a link stands for what the link names. Where an older file
/// may be written and can't be replaced, `create` fails.
pub struct StdFiles<R: Disk<File = File> + AllocGlobal + Input + Print + Drop> {
    rt: R,
    // in the names of drafts
    process: u32,
    reading: Option<Source<R::Reader>>,
    making: Option<Output>,
    read_faults: u64,
    write_faults: u64,
    fault: Option<Fault>,
}

impl<R: Disk<File = File> + AllocGlobal + Input + Print + Drop> Drop for StdFiles<R> {
    fn drop(self) {
        let StdFiles {
            rt,
            process: _,
            reading: _,
            making,
            read_faults: _,
            write_faults: _,
            fault: _,
        } = self;
        if let Some(mut output) = making {
            output.discard(&rt);
        }
    }
}

impl<R: Disk<File = File> + AllocGlobal + Input + Print + Drop> TellsFault for StdFiles<R> {
    fn last_fault(&self) -> Option<Fault> {
        self.fault
    }
}

impl<R: Disk<File = File> + AllocGlobal + Input + Print + Drop> StdFiles<R> {
    /// Nothing opened or created yet, and no faults. The process's number stands in the names of its drafts.
    pub fn new(rt: R, process: u32) -> StdFiles<R>
        ensures reading { (⟦<StdFiles<R> as Files>⟧.meaning result).reading ≡ false }
        ensures making { (⟦<StdFiles<R> as Files>⟧.meaning result).making ≡ false }
        ensures reads { ⟦<StdFiles<R> as Files>⟧.read_faults result ≡ 0 }
        ensures writes { ⟦<StdFiles<R> as Files>⟧.write_faults result ≡ 0 }
    {
        StdFiles {
            rt,
            process,
            reading: None,
            making: None,
            read_faults: 0,
            write_faults: 0,
            fault: None,
        }
    }

    fn read_fault(&mut self, fault: Fault) -> Refused
        ensures same { self.new ≡ record self.old { read_faults = self.new.read_faults; fault = self.new.fault } }
        ensures rose { Rose self.old.read_faults self.new.read_faults }
        ensures later { self.old.read_faults ≤ self.new.read_faults }
        ensures cause { result ≡ Refused.Failed }
    {
        self.read_faults = self.read_faults.saturating_add(1);
        self.fault = Some(fault);
        Refused::Failed
    }

    fn write_fault(&mut self, fault: Fault) -> Refused
        ensures same { self.new ≡ record self.old { write_faults = self.new.write_faults; fault = self.new.fault } }
        ensures rose { Rose self.old.write_faults self.new.write_faults }
        ensures later { self.old.write_faults ≤ self.new.write_faults }
        ensures cause { result ≡ Refused.Failed }
    {
        self.write_faults = self.write_faults.saturating_add(1);
        self.fault = Some(fault);
        Refused::Failed
    }

    fn opened(&self, name: &str) -> io::Result<Source<R::Reader>> {
        if name == "-" {
            return Ok(Source::Input(self.rt.reader()));
        }
        match fs::open(&self.rt, name) {
            Ok(file) => Ok(Source::File(file)),
            Err(error) => Err(error),
        }
    }
}

impl<R: Disk<File = File> + AllocGlobal + Input + Print + Drop> Files for StdFiles<R> {
    ghost meaning = { λ s. record { holds = λ _. None; reading = is_some s.reading; left = None; making = is_some s.making; written = None } };

    ghost read_faults = { λ s. s.read_faults };

    ghost write_faults = { λ s. s.write_faults };

    ghost can_open = { λ s name. ⊤ };

    ghost can_create = { λ s name. ⊤ };

    fn open(&mut self, name: &str) -> Result<(), Refused> {
        match self.opened(name) {
            Ok(source) => {
                self.reading = Some(source);
                Ok(())
            }
            Err(error) => Err(self.read_fault(Fault::new(Step::Open, error))),
        }
    }

    fn read(&mut self, into: &mut [u8]) -> Result<usize, Refused> {
        let fault = match &mut self.reading {
            Some(source) => match source.read(into) {
                Ok(count) => return Ok(count),
                Err(error) => Fault::new(Step::Read, error),
            },
            None => unreachable!(),
        };
        Err(self.read_fault(fault))
    }

    fn length_hint(&self) -> Option<u64> {
        let Source::File(file) = self.reading.as_ref()? else {
            return None;
        };
        match file.metadata() {
            Ok(there) if there.is_file() => Some(there.len()),
            _ => None,
        }
    }

    fn create(&mut self, name: &str) -> Result<(), Refused> {
        match begin(&self.rt, name, self.process) {
            Ok(output) => {
                if let Some(mut older) = self.making.replace(output) {
                    older.discard(&self.rt);
                }
                Ok(())
            }
            Err(fault) if fault.is_want_of_memory() => Err(Refused::NoMemory),
            Err(fault) => Err(self.write_fault(fault)),
        }
    }

    fn write(&mut self, from: &[u8]) -> Result<usize, Refused> {
        let fault = match &mut self.making {
            Some(output) => match output.write(&self.rt, from) {
                Ok(count) => return Ok(count),
                Err(fault) => fault,
            },
            None => unreachable!(),
        };
        Err(self.write_fault(fault))
    }

    fn finish(&mut self) -> Result<(), Refused> {
        if let Some(output) = &mut self.making {
            let settled = match output.finish(&self.rt) {
                Ok(draft) => settle(&draft),
                Err(fault) => Err(fault),
            };
            if let Err(fault) = settled {
                return Err(self.write_fault(fault));
            }
        }
        self.making = None;
        Ok(())
    }
}

// Brings the name that a draft has taken to the disk.
fn settle(draft: &Option<Draft>) -> Result<(), Fault> {
    let Some(draft) = draft else {
        return Ok(());
    };
    match draft.settle() {
        Ok(()) => Ok(()),
        Err(error) => Err(Fault::new(Step::Folder, error)),
    }
}

/// Standard output, or standard error in its place. What it holds isn't told.
#[derive(Drop)]
pub struct StdSink<R: Print + Eprint + Drop> {
    rt: R,
    is_aside: bool,
    faults: u64,
    fault: Option<Fault>,
}

impl<R: Print + Eprint + Drop> StdSink<R> {
    /// No faults yet. What is said goes to standard output, or aside to standard error, where the output is a codestream's.
    pub fn new(rt: R, is_aside: bool) -> StdSink<R>
        ensures { ⟦<StdSink<R> as Sink>⟧.faults result ≡ 0 }
    {
        StdSink {
            rt,
            is_aside,
            faults: 0,
            fault: None,
        }
    }
}

impl<R: Print + Eprint + Drop> TellsFault for StdSink<R> {
    fn last_fault(&self) -> Option<Fault> {
        self.fault
    }
}

impl<R: Print + Eprint + Drop> Sink for StdSink<R> {
    ghost said = { λ _. None };

    ghost faults = { λ s. s.faults };

    fn say(&mut self, text: &str) -> Result<(), Refused> {
        let said = if self.is_aside {
            self.rt.eprint(text)
        } else {
            self.rt.print(text)
        };
        match said {
            Ok(()) => Ok(()),
            Err(error) => {
                self.faults = self.faults.saturating_add(1);
                self.fault = Some(Fault::new(Step::Say, error));
                Err(Refused::Failed)
            }
        }
    }
}
