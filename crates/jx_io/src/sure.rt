//! Files in memory of which no call fails but for want of it.

ghost use Rattle.std.specs.Prelude.{Err, ◌≡◌, ⊤, Some, OnOk, OnErr};
ghost use Rattle.std.specs.Option.{option_map};
ghost use Rattle.jx_io.specs.Device.{IsThere, after_put};
ghost use Rattle.jx_io.specs.Stored.{empty, meaning_of};

use crate::store::Store;
use crate::{Files, Refused};
use std::alloc::Global;

/// Files in memory whose only refusal is want of memory. All is told. `open` may be asked for the
/// names that are there.
#[derive(Drop)]
pub struct SureFiles {
    store: Store,
}

impl SureFiles {
    /// No files.
    pub fn new(alloc: Global) -> SureFiles
        ensures { ⟦<SureFiles as Files>⟧.meaning result ≡ empty }
    {
        SureFiles {
            store: Store::new(alloc),
        }
    }

    /// Puts a file there, in place of any of that name. It may then be opened.
    pub fn put(&mut self, name: &str, bytes: &[u8]) -> Result<(), Refused>
        ensures ok { OnOk result (⟦<SureFiles as Files>⟧.meaning self.new
            ≡ after_put name.now bytes.now (⟦<SureFiles as Files>⟧.meaning self.old)) }
        ensures err { OnErr result (⟦<SureFiles as Files>⟧.meaning self.new ≡ ⟦<SureFiles as Files>⟧.meaning self.old) }
        ensures there { OnOk result (⟦<SureFiles as Files>⟧.can_open self.new name.now) }
        ensures cause { OnErr result (result ≡ Err Refused.NoMemory) }
    {
        self.store.put(name, bytes)?;
        Ok(())
    }

    /// The name and bytes of the file that was created last, or none where none was created.
    pub fn made(&self) -> Option<(&str, &[u8])>
        ensures { Some (option_map (λ m. record { name = m.0.now; bytes = m.1.now }) result)
            ≡ (⟦<SureFiles as Files>⟧.meaning self.now).written }
    {
        self.store.made()
    }
}

impl Files for SureFiles {
    ghost meaning = { λ m. meaning_of m.store };

    ghost read_faults = { λ m. 0 };

    ghost write_faults = { λ m. 0 };

    ghost can_open = { λ m. IsThere (meaning_of m.store) };

    ghost can_create = { λ m name. ⊤ };

    fn open(&mut self, name: &str) -> Result<(), Refused> {
        match self.store.bytes_of(name)? {
            None => unreachable!(),
            Some(bytes) => {
                self.store.open(name, bytes);
                Ok(())
            }
        }
    }

    fn read(&mut self, into: &mut [u8]) -> Result<usize, Refused> {
        Ok(self.store.read(usize::MAX, into))
    }

    fn create(&mut self, name: &str) -> Result<(), Refused> {
        self.store.create(name)?;
        Ok(())
    }

    fn write(&mut self, from: &[u8]) -> Result<usize, Refused> {
        self.store.write(from)?;
        Ok(from.len())
    }

    fn finish(&mut self) -> Result<(), Refused> {
        self.store.finish()?;
        Ok(())
    }
}
