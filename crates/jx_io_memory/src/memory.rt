//! Files in memory that can be made to fail.

ghost use Rattle.std.specs.Prelude.{Err, ◌≡◌, ◌≢◌, ◌++◌, ◌≤◌, ◌<◌, [], ◌∷◌, ⊤, Some, None, length, take, IfOk, IfSome, OnOk, OnErr};
ghost use Rattle.std.specs.Option.{option_map};
ghost use Rattle.jx_io.specs.Device.{Allows, Takes, after_create, after_finish, after_open, after_put, after_read, after_write};
ghost use Rattle.jx_io.specs.Stored.{empty, meaning_of};
ghost use Rattle.jx_io.specs.Causes.{HasCause, Rose};

use crate::Call;
use crate::plan::Plan;
use jx_io::{Files, Refused, Store};
use std::alloc::Global;

/// Files in memory, of which the nth call of a kind can be made to fail, and of which each read and each write can be made to take few
/// bytes. All is told. A name that isn't there is a failure of `open`.
#[derive(Drop)]
pub struct MemFiles {
    store: Store,
    read_faults: u64,
    write_faults: u64,
    plan: Plan,
    // how many bytes beside one a read or a write takes at most
    more: u32,
    // how many bytes a file that is read is said to have
    hint: Option<u64>,
}

impl MemFiles {
    ghost use Rattle.jx_io_memory.specs.MemPlan.{length_said, most_taken, next_call, planned};

    /// No files, and no call that is to fail.
    pub fn new(alloc: Global) -> MemFiles
        ensures meaning { ⟦<MemFiles as Files>⟧.meaning result ≡ empty }
        ensures reads { ⟦<MemFiles as Files>⟧.read_faults result ≡ 0 }
        ensures writes { ⟦<MemFiles as Files>⟧.write_faults result ≡ 0 }
        ensures plan { planned result ≡ [] }
        ensures first { (call : Call) → next_call result call ≡ 1 }
    {
        MemFiles {
            store: Store::new(alloc),
            read_faults: 0,
            write_faults: 0,
            plan: Plan::new(alloc),
            more: u32::MAX,
            hint: None,
        }
    }

    /// Puts a file there, in place of any of that name.
    pub fn put(&mut self, name: &str, bytes: &[u8]) -> Result<(), Refused>
        ensures ok { OnOk result (⟦<MemFiles as Files>⟧.meaning self.new
            ≡ after_put name.now bytes.now (⟦<MemFiles as Files>⟧.meaning self.old)) }
        ensures err { OnErr result (⟦<MemFiles as Files>⟧.meaning self.new ≡ ⟦<MemFiles as Files>⟧.meaning self.old) }
        ensures cause { OnErr result (result ≡ Err Refused.NoMemory) }
        ensures reads { ⟦<MemFiles as Files>⟧.read_faults self.new ≡ ⟦<MemFiles as Files>⟧.read_faults self.old }
        ensures writes { ⟦<MemFiles as Files>⟧.write_faults self.new ≡ ⟦<MemFiles as Files>⟧.write_faults self.old }
        ensures plan { planned self.new ≡ planned self.old }
        ensures counts { (call : Call) → next_call self.new call ≡ next_call self.old call }
        ensures most { most_taken self.new ≡ most_taken self.old }
    {
        self.store.put(name, bytes)?;
        Ok(())
    }

    /// Makes the nth call of a kind fail, counted from 1 over all calls of that kind.
    pub fn fail(&mut self, call: Call, nth: u32) -> Result<(), Refused>
        ensures ok { OnOk result (planned self.new ≡ planned self.old ++ record { call = call; nth = nth } ∷ []) }
        ensures err { OnErr result (planned self.new ≡ planned self.old) }
        ensures cause { OnErr result (result ≡ Err Refused.NoMemory) }
        ensures same { ⟦<MemFiles as Files>⟧.meaning self.new ≡ ⟦<MemFiles as Files>⟧.meaning self.old }
        ensures reads { ⟦<MemFiles as Files>⟧.read_faults self.new ≡ ⟦<MemFiles as Files>⟧.read_faults self.old }
        ensures writes { ⟦<MemFiles as Files>⟧.write_faults self.new ≡ ⟦<MemFiles as Files>⟧.write_faults self.old }
        ensures counts { (kind : Call) → next_call self.new kind ≡ next_call self.old kind }
        ensures most { most_taken self.new ≡ most_taken self.old }
    {
        self.plan.add(call, nth)?;
        Ok(())
    }

    /// From now on each read and each write takes at most so many bytes.
    pub fn short(&mut self, most: u32)
        requires { 1 ≤ most }
        ensures most { most_taken self.new ≡ most }
        ensures same { ⟦<MemFiles as Files>⟧.meaning self.new ≡ ⟦<MemFiles as Files>⟧.meaning self.old }
        ensures reads { ⟦<MemFiles as Files>⟧.read_faults self.new ≡ ⟦<MemFiles as Files>⟧.read_faults self.old }
        ensures writes { ⟦<MemFiles as Files>⟧.write_faults self.new ≡ ⟦<MemFiles as Files>⟧.write_faults self.old }
        ensures plan { planned self.new ≡ planned self.old }
        ensures counts { (kind : Call) → next_call self.new kind ≡ next_call self.old kind }
    {
        self.more = most - 1;
    }

    /// From now on each file that is read is said to have so many bytes, whatever it has; until then
    /// nothing is said.
    pub fn hint(&mut self, length: u64)
        ensures hint { length_said self.new ≡ Some length }
        ensures most { most_taken self.new ≡ most_taken self.old }
        ensures same { ⟦<MemFiles as Files>⟧.meaning self.new ≡ ⟦<MemFiles as Files>⟧.meaning self.old }
        ensures reads { ⟦<MemFiles as Files>⟧.read_faults self.new ≡ ⟦<MemFiles as Files>⟧.read_faults self.old }
        ensures writes { ⟦<MemFiles as Files>⟧.write_faults self.new ≡ ⟦<MemFiles as Files>⟧.write_faults self.old }
        ensures plan { planned self.new ≡ planned self.old }
        ensures counts { (kind : Call) → next_call self.new kind ≡ next_call self.old kind }
    {
        self.hint = Some(length);
    }

    /// How many bytes a read or a write takes at most.
    fn most(&self) -> usize
        ensures { result ≡ most_taken self.now }
    {
        self.more as usize + 1
    }

    /// The name and bytes of the file that was created last, or none where none was created.
    pub fn made(&self) -> Option<(&str, &[u8])>
        ensures { Some (option_map (λ m. record { name = m.0.now; bytes = m.1.now }) result)
            ≡ (⟦<MemFiles as Files>⟧.meaning self.now).written }
    {
        self.store.made()
    }

    fn read_fault(&mut self) -> Refused
        ensures same { self.new ≡ record self.old { read_faults = self.new.read_faults } }
        ensures rose { Rose self.old.read_faults self.new.read_faults }
        ensures later { self.old.read_faults ≤ self.new.read_faults }
        ensures cause { result ≡ Refused.Failed }
    {
        self.read_faults = self.read_faults.saturating_add(1);
        Refused::Failed
    }

    fn write_fault(&mut self) -> Refused
        ensures same { self.new ≡ record self.old { write_faults = self.new.write_faults } }
        ensures rose { Rose self.old.write_faults self.new.write_faults }
        ensures later { self.old.write_faults ≤ self.new.write_faults }
        ensures cause { result ≡ Refused.Failed }
    {
        self.write_faults = self.write_faults.saturating_add(1);
        Refused::Failed
    }
}

impl Files for MemFiles {
    ghost use Rattle.jx_io_memory.specs.MemPlan.{Shows, length_said, most_taken, told};

    ghost meaning = { λ m. meaning_of m.store };

    ghost read_faults = { λ m. m.read_faults };

    ghost write_faults = { λ m. m.write_faults };

    ghost can_open = { λ m name. ⊤ };

    ghost can_create = { λ m name. ⊤ };

    fn open(&mut self, name: &str) -> Result<(), Refused>
        ensures ok { OnOk result (told self.new ≡ after_open name.now (told self.old)) }
        ensures there { OnOk result ((told self.old).holds name.now ≢ Some None) }
        ensures missing { (told self.old).holds name.now ≡ Some None → result ≡ Err Refused.Failed }
        ensures err { OnErr result (told self.new ≡ told self.old) }
        ensures opens { Allows (λ _. ⊤) (λ _. ⊤) }
        ensures creates { Allows (λ _. ⊤) (λ _. ⊤) }
        ensures cause { HasCause self.old.read_faults self.new.read_faults result }
        ensures other { self.new.write_faults ≡ self.old.write_faults }
        ensures plan { Shows self.old self.new Call.Open ((told self.old).holds name.now ≡ Some None) result }
    {
        if self.plan.fails(Call::Open) {
            return Err(self.read_fault());
        }
        match self.store.bytes_of(name)? {
            None => Err(self.read_fault()),
            Some(bytes) => {
                self.store.open(name, bytes);
                Ok(())
            }
        }
    }

    fn read(&mut self, into: &mut [u8]) -> Result<usize, Refused>
        ensures ok { IfOk result (λ n. told self.new ≡ after_read n (told self.old)) }
        ensures room { IfOk result (λ n. n ≤ length into.new) }
        ensures takes { IfOk result (λ n. IfSome (told self.old).left (λ left. Takes left n (length into.new) into.new)) }
        ensures err { OnErr result (told self.new ≡ told self.old) }
        ensures opens { Allows (λ _. ⊤) (λ _. ⊤) }
        ensures creates { Allows (λ _. ⊤) (λ _. ⊤) }
        ensures cause { HasCause self.old.read_faults self.new.read_faults result }
        ensures other { self.new.write_faults ≡ self.old.write_faults }
        ensures plan { Shows self.old self.new Call.Read ⊥ result }
        ensures few { IfOk result (λ n. n ≤ most_taken self.old) }
    {
        if self.plan.fails(Call::Read) {
            return Err(self.read_fault());
        }
        let most = self.most();
        Ok(self.store.read(most, into))
    }

    fn length_hint(&self) -> Option<u64>
        ensures { result ≡ length_said self.now }
    {
        self.hint
    }

    fn create(&mut self, name: &str) -> Result<(), Refused>
        ensures ok { OnOk result (told self.new ≡ after_create name.now (told self.old)) }
        ensures err { OnErr result (told self.new ≡ told self.old) }
        ensures opens { Allows (λ _. ⊤) (λ _. ⊤) }
        ensures creates { Allows (λ _. ⊤) (λ _. ⊤) }
        ensures cause { HasCause self.old.write_faults self.new.write_faults result }
        ensures other { self.new.read_faults ≡ self.old.read_faults }
        ensures plan { Shows self.old self.new Call.Create ⊥ result }
    {
        if self.plan.fails(Call::Create) {
            return Err(self.write_fault());
        }
        self.store.create(name)?;
        Ok(())
    }

    fn write(&mut self, from: &[u8]) -> Result<usize, Refused>
        ensures ok { IfOk result (λ n. told self.new ≡ after_write (take n from.now) (told self.old)) }
        ensures room { IfOk result (λ n. n ≤ length from.now) }
        ensures some { IfOk result (λ n. 0 < length from.now → 0 < n) }
        ensures err { OnErr result (told self.new ≡ told self.old) }
        ensures opens { Allows (λ _. ⊤) (λ _. ⊤) }
        ensures creates { Allows (λ _. ⊤) (λ _. ⊤) }
        ensures cause { HasCause self.old.write_faults self.new.write_faults result }
        ensures other { self.new.read_faults ≡ self.old.read_faults }
        ensures plan { Shows self.old self.new Call.Write ⊥ result }
        ensures few { IfOk result (λ n. n ≤ most_taken self.old) }
    {
        if self.plan.fails(Call::Write) {
            return Err(self.write_fault());
        }
        let count = from.len().min(self.most());
        self.store.write(&from[..count])?;
        Ok(count)
    }

    fn finish(&mut self) -> Result<(), Refused>
        ensures ok { OnOk result (told self.new ≡ after_finish (told self.old)) }
        ensures err { OnErr result (told self.new ≡ told self.old) }
        ensures opens { Allows (λ _. ⊤) (λ _. ⊤) }
        ensures creates { Allows (λ _. ⊤) (λ _. ⊤) }
        ensures cause { HasCause self.old.write_faults self.new.write_faults result }
        ensures other { self.new.read_faults ≡ self.old.read_faults }
        ensures plan { Shows self.old self.new Call.Finish ⊥ result }
    {
        if self.plan.fails(Call::Finish) {
            return Err(self.write_fault());
        }
        self.store.finish()?;
        Ok(())
    }
}
