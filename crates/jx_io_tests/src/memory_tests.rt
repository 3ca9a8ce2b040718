//! Files and sinks in memory.

ghost use Rattle.std.specs.Prelude.{ℕ, List};

use crate::checks::{check, equal, equal_at};
use jx_io::*;
use jx_io_memory::{Call, MemFiles, MemSink, SureSink};
use std::test::Fail;

// Whether bytes that begin with 7 are written to a file, which is ended, opened and read, and a name that isn't there is refused.
pub(crate) fn round_trip<F: Files>(files: &mut F, name: &str, bytes: &[u8]) -> Result<bool, Refused>
    requires opens { (g : F) (n : List ℕ) → F.can_open g n }
    requires creates { F.can_create files.old name.now }
{
    let taken = makes(files, name, bytes)?;
    let (count, first, rest) = opened(files, name)?;
    let refused = files.open("jx_no_such_file") == Err(Refused::Failed);
    Ok(taken >= 1 && count >= 1 && first == 7 && rest == 0 && refused)
}

// Makes a file by one write, and says how many bytes this took.
fn makes<F: Files>(files: &mut F, name: &str, bytes: &[u8]) -> Result<usize, Refused>
    requires { F.can_create files.old name.now }
{
    files.create(name)?;
    let count = files.write(bytes)?;
    files.finish()?;
    Ok(count)
}

// Opens a file, and says how many bytes a read gives, the first one, and how many a read into no room gives.
fn opened<F: Files>(files: &mut F, name: &str) -> Result<(usize, u8, usize), Refused>
    requires { F.can_open files.old name.now }
{
    files.open(name)?;
    let mut piece = [0u8; 4];
    let count = files.read(&mut piece)?;
    let rest = files.read(&mut [])?;
    Ok((count, piece[0], rest))
}

// Opens a file, and says of three reads how many bytes each gives, and what then stands first.
fn three_reads<F: Files>(files: &mut F, name: &str) -> Result<[(usize, u8); 3], Refused>
    requires { F.can_open files.old name.now }
{
    files.open(name)?;
    let mut piece = [0u8; 3];
    let first = (files.read(&mut piece)?, piece[0]);
    let second = (files.read(&mut piece)?, piece[0]);
    let third = (files.read(&mut piece)?, piece[0]);
    Ok([first, second, third])
}

fn say_twice<S: Sink>(sink: &mut S) -> Result<(), Refused> {
    sink.say("done: ")?;
    sink.say("said\n")
}

#[test]
fn memory_keeps_what_is_put(rt: HostRuntime) -> Result<(), Fail> {
    let mut files = MemFiles::new(rt.alloc());
    files.put("a", &[1, 2, 3])?;
    files.put("a", &[4, 5, 6, 7, 8])?;
    let reads = three_reads(&mut files, "a")?;
    equal(&rt, reads, [(3, 4), (2, 7), (0, 7)]);
    equal(&rt, files.open("c"), Err(Refused::Failed));
    Ok(())
}

#[test]
fn memory_keeps_what_is_made(rt: HostRuntime) -> Result<(), Fail> {
    let mut files = MemFiles::new(rt.alloc());
    check(&rt, files.made().is_none());
    check(&rt, round_trip(&mut files, "b", &[7, 8, 9])?);
    let (name, bytes) = files.made().ok_or("nothing made")?;
    equal(&rt, name, "b");
    equal(&rt, bytes, [7, 8, 9].as_slice());
    Ok(())
}

#[test]
fn a_length_is_said_where_one_is_given(rt: HostRuntime) -> Result<(), Fail> {
    let mut files = MemFiles::new(rt.alloc());
    files.put("a", &[1, 2])?;
    files.open("a")?;
    equal(&rt, files.length_hint(), None);
    files.hint(7);
    equal(&rt, files.length_hint(), Some(7));
    Ok(())
}

#[test]
fn sure_files_say_no_length(rt: HostRuntime) -> Result<(), Fail> {
    let mut sure = SureFiles::new(rt.alloc());
    sure.put("a", &[1, 2])?;
    sure.open("a")?;
    equal(&rt, sure.length_hint(), None);
    Ok(())
}

#[test]
fn memory_fails_as_planned(rt: HostRuntime) -> Result<(), Fail> {
    for (call, nth, done) in [
        (Call::Create, 1, 0),
        (Call::Write, 1, 1),
        (Call::Finish, 1, 2),
        (Call::Open, 1, 3),
        (Call::Read, 1, 4),
        (Call::Read, 2, 5),
        (Call::Read, 3, 6),
    ] {
        let mut files = MemFiles::new(rt.alloc());
        files.fail(call, nth)?;
        equal_at(&rt, &(call, nth), steps(&mut files), done);
    }
    Ok(())
}

// How many of these calls succeed one after another.
fn steps(files: &mut MemFiles) -> u32 {
    if files.create("a").is_err() {
        return 0;
    }
    if files.write(&[1]).is_err() {
        return 1;
    }
    if files.finish().is_err() {
        return 2;
    }
    if files.open("a").is_err() {
        return 3;
    }
    if files.read(&mut [0]).is_err() {
        return 4;
    }
    if files.read(&mut [0]).is_err() {
        return 5;
    }
    6
}

// How many bytes each of three writes takes.
fn three_writes<F: Files>(files: &mut F, name: &str) -> Result<[usize; 3], Refused>
    requires { F.can_create files.old name.now }
{
    files.create(name)?;
    let first = files.write(&[1, 2, 3])?;
    let second = files.write(&[3])?;
    let third = files.write(&[])?;
    files.finish()?;
    Ok([first, second, third])
}

#[test]
fn memory_takes_few_bytes(rt: HostRuntime) -> Result<(), Fail> {
    let mut files = MemFiles::new(rt.alloc());
    files.short(2);
    equal(&rt, three_writes(&mut files, "a")?, [2, 1, 0]);
    let reads = three_reads(&mut files, "a")?;
    equal(&rt, reads, [(2, 1), (1, 3), (0, 3)]);
    Ok(())
}

#[test]
fn sure_files_are_found(rt: HostRuntime) -> Result<(), Fail> {
    let mut files = SureFiles::new(rt.alloc());
    files.put("a", &[7])?;
    let reads = three_reads(&mut files, "a")?;
    equal(&rt, reads, [(1, 7), (0, 7), (0, 7)]);
    equal(&rt, makes(&mut files, "b", &[7, 0, 0, 0])?, 4);
    let (name, bytes) = files.made().ok_or("nothing made")?;
    equal(&rt, name, "b");
    equal(&rt, bytes, [7, 0, 0, 0].as_slice());
    Ok(())
}

#[test]
fn sinks_keep_their_text(rt: HostRuntime) -> Result<(), Fail> {
    let mut sink = MemSink::new(rt.alloc());
    sink.fail(2)?;
    equal(&rt, say_twice(&mut sink), Err(Refused::Failed));
    equal(&rt, sink.said(), "done: ");
    say_twice(&mut sink)?;
    equal(&rt, sink.said(), "done: done: said\n");
    let mut sure = SureSink::new(rt.alloc());
    say_twice(&mut sure)?;
    equal(&rt, sure.said(), "done: said\n");
    Ok(())
}

#[test]
fn a_real_stream(rt: HostRuntime) -> Result<(), Fail> {
    let mut sink = StdSink::new(&rt, false);
    say_twice(&mut sink)?;
    Ok(())
}
