//! Files as they are kept in memory.

ghost use Rattle.std.specs.Prelude.{◌≡◌, ◌≢◌, ◌≤◌, ℕ, List, Some, None, false, length, take, drop, min, IfOk, IfSome, OnOk, OnErr, [], string_bytes};
ghost use Rattle.std.specs.Option.{option_map};
ghost use Rattle.jx_io.specs.Device.{Takes, after_create, after_finish, after_open, after_put, after_read, after_write};
ghost use Rattle.jx_io.specs.Stored.{empty, found, front_of, meaning_of};

use std::alloc::{AllocError, Global};

#[derive(Drop)]
pub struct StoredFile {
    pub name: String,
    pub bytes: Vec<u8>,
}

/// Files in memory, which fail only for want of it.
#[derive(Drop)]
pub struct Store {
    alloc: Global,
    // the newest first
    stored: Vec<StoredFile>,
    reading: bool,
    opened: Vec<u8>,
    // how many bytes of `opened` were read
    at: usize,
    making: bool,
    // the file that was created last
    written: Option<StoredFile>,
    // whether that is finished, and stands in front of `stored` without being in it
    whole: bool,
}

fn copy_of(alloc: Global, stored: &[StoredFile], name: &str) -> Result<Option<Vec<u8>>, AllocError>
    ensures found { IfOk result (λ bytes. option_map (λ v. v.items) bytes ≡ found stored.now name.now) }
    ensures none { OnErr result (found stored.now name.now ≢ None) }
{
    for file in stored {
        if name == file.name.as_str() {
            return Ok(Some(file.bytes.to_vec(alloc)?));
        }
    }
    Ok(None)
}

/// A file of this name and these bytes.
fn stored_as(alloc: Global, name: &str, bytes: &[u8]) -> Result<StoredFile, AllocError>
    ensures name { IfOk result (λ file. string_bytes file.name ≡ name.now) }
    ensures bytes { IfOk result (λ file. file.bytes.items ≡ bytes.now) }
{
    Ok(StoredFile {
        name: String::from_str(alloc, name)?,
        bytes: bytes.to_vec(alloc)?,
    })
}

/// The file that stands in front of those that are stored.
fn in_front(whole: bool, written: &Option<StoredFile>) -> Option<&StoredFile>
    ensures { option_map (λ file. file.now) result ≡ front_of whole written.now }
{
    if whole {
        return written.as_ref();
    }
    None
}

impl Store {
    pub fn new(alloc: Global) -> Store
        ensures { meaning_of result ≡ empty }
    {
        Store {
            alloc,
            stored: Vec::new(alloc),
            reading: false,
            opened: Vec::new(alloc),
            at: 0,
            making: false,
            written: None,
            whole: false,
        }
    }

    /// Puts a copy of the file that was finished last among those that are stored, where it isn't one of them.
    fn settle(&mut self) -> Result<(), AllocError>
        ensures same { meaning_of self.new ≡ meaning_of self.old }
        ensures settled { OnOk result (self.new.whole ≡ false) }
        ensures written { self.new.written ≡ self.old.written }
    {
        if let Some(file) = in_front(self.whole, &self.written) {
            let copy = stored_as(self.alloc, file.name.as_str(), &file.bytes)?;
            self.stored.insert(0, copy)?;
        }
        self.whole = false;
        Ok(())
    }

    /// Puts a file there, in place of any of that name.
    pub fn put(&mut self, name: &str, bytes: &[u8]) -> Result<(), AllocError>
        ensures ok { OnOk result (meaning_of self.new ≡ after_put name.now bytes.now (meaning_of self.old)) }
        ensures err { OnErr result (meaning_of self.new ≡ meaning_of self.old) }
    {
        self.settle()?;
        let file = stored_as(self.alloc, name, bytes)?;
        self.stored.insert(0, file)?;
        Ok(())
    }

    /// The file that was created last.
    pub fn made(&self) -> Option<(&str, &[u8])>
        ensures { Some (option_map (λ m. record { name = m.0.now; bytes = m.1.now }) result) ≡ (meaning_of self.now).written }
    {
        match &self.written {
            None => None,
            Some(file) => Some((file.name.as_str(), &file.bytes)),
        }
    }

    /// A copy of the bytes under this name.
    pub fn bytes_of(&self, name: &str) -> Result<Option<Vec<u8>>, AllocError>
        ensures found { IfOk result (λ bytes. Some (option_map (λ v. v.items) bytes) ≡ (meaning_of self.now).holds name.now) }
        ensures none { OnErr result ((meaning_of self.now).holds name.now ≢ Some None) }
    {
        if let Some(file) = in_front(self.whole, &self.written) {
            if name == file.name.as_str() {
                return Ok(Some(file.bytes.to_vec(self.alloc)?));
            }
        }
        copy_of(self.alloc, &self.stored, name)
    }

    /// These bytes, which are those under `name`, are to be read.
    pub fn open(&mut self, name: &str, bytes: Vec<u8>)
        requires { (meaning_of self.old).holds name.now ≡ Some (Some bytes.items) }
        ensures { meaning_of self.new ≡ after_open name.now (meaning_of self.old) }
    {
        let _ = name;
        self.opened = bytes;
        self.at = 0;
        self.reading = true;
    }

    /// Reads as many bytes as are left and have room, but no more than `most`.
    pub fn read(&mut self, most: usize, into: &mut [u8]) -> usize
        requires { 1 ≤ most }
        ensures read { meaning_of self.new ≡ after_read result (meaning_of self.old) }
        ensures room { result ≤ length into.new }
        ensures few { result ≤ most }
        ensures takes { IfSome (meaning_of self.old).left (λ left. Takes left result (length into.new) into.new) }
    {
        if self.at >= self.opened.len() {
            return 0;
        }
        let left = &self.opened[self.at..];
        let count = into.len().min(left.len()).min(most);
        into[..count].copy_from_slice(&left[..count]);
        self.at += count;
        count
    }

    pub fn create(&mut self, name: &str) -> Result<(), AllocError>
        ensures ok { OnOk result (meaning_of self.new ≡ after_create name.now (meaning_of self.old)) }
        ensures err { OnErr result (meaning_of self.new ≡ meaning_of self.old) }
    {
        self.settle()?;
        let name = String::from_str(self.alloc, name)?;
        self.written = Some(StoredFile {
            name,
            bytes: Vec::new(self.alloc),
        });
        self.making = true;
        Ok(())
    }

    pub fn write(&mut self, from: &[u8]) -> Result<(), AllocError>
        ensures ok { OnOk result (meaning_of self.new ≡ after_write from.now (meaning_of self.old)) }
        ensures err { OnErr result (meaning_of self.new ≡ meaning_of self.old) }
    {
        self.settle()?;
        if let Some(file) = &mut self.written {
            file.bytes.extend_from_slice(from)?;
        }
        Ok(())
    }

    /// The file is found under its name then. Its bytes aren't copied.
    pub fn finish(&mut self) -> Result<(), AllocError>
        ensures ok { OnOk result (meaning_of self.new ≡ after_finish (meaning_of self.old)) }
        ensures err { OnErr result (meaning_of self.new ≡ meaning_of self.old) }
    {
        self.settle()?;
        self.whole = true;
        self.making = false;
        Ok(())
    }
}
