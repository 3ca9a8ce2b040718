//! The files of the system, in a folder of their own.

ghost use Rattle.std.specs.Prelude.{◌≡◌, ℕ, List, IsTrue, OnOk};

use crate::checks::check;
use crate::memory_tests::round_trip;
use jx_io::*;
use std::os::unix::fs::{PermissionsExt, symlink};
use std::test::Fail;
use std::{fs, process};

// Each test ends by removing its folder, which is refused where anything is left in it.

// bytes that tell their places apart
fn pattern(rt: &impl AllocGlobal, count: u32) -> Result<Vec<u8>, Fail> {
    let mut bytes = Vec::new(rt.alloc());
    for i in 0..count {
        bytes.push((i % 251) as u8)?;
    }
    Ok(bytes)
}

fn write_all<F: Files>(files: &mut F, bytes: &[u8]) -> Result<(), Refused>
    requires { IsTrue (F.meaning files.old).making }
    ensures making { (F.meaning files.new).making ≡ (F.meaning files.old).making }
    ensures reading { (F.meaning files.new).reading ≡ (F.meaning files.old).reading }
{
    let mut rest = bytes;
    while !rest.is_empty() {
        let count = files.write(rest)?;
        rest = &rest[count..];
    }
    Ok(())
}

// A file of this name is created and gets these bytes.
fn begin<F: Files>(files: &mut F, name: &str, bytes: &[u8]) -> Result<(), Refused>
    requires { F.can_create files.old name.now }
    ensures making { OnOk result (IsTrue (F.meaning files.new).making) }
    ensures reading { (F.meaning files.new).reading ≡ (F.meaning files.old).reading }
{
    files.create(name)?;
    write_all(files, bytes)
}

fn make<F: Files>(files: &mut F, name: &str, bytes: &[u8]) -> Result<(), Refused>
    requires { F.can_create files.old name.now }
    ensures { (F.meaning files.new).reading ≡ (F.meaning files.old).reading }
{
    begin(files, name, bytes)?;
    files.finish()
}

fn holds(rt: &HostRuntime, name: &str, bytes: &[u8]) -> Result<bool, Fail> {
    Ok(fs::read(rt, name)?.as_slice() == bytes)
}

// The file and then its folder, which has nothing else in it, are removed.
fn clear(rt: &HostRuntime, name: &str, folder: &str) -> Result<(), Fail> {
    fs::remove_file(rt, name)?;
    fs::remove_dir(rt, folder)?;
    Ok(())
}

// What is done by a device with a file.
#[derive(Clone, Copy)]
enum Scene<'a> {
    // It is made anew: what stood there, and what is to stand there.
    Replaced(&'a [u8], &'a [u8]),
    // It is made anew while it is read.
    ReadOn(&'a [u8], &'a [u8]),
    // It has three bytes, and its length is asked.
    Asked,
    // It is begun twice, and not finished.
    Begun,
    // A folder takes its name before it is finished.
    Taken,
    // It is a link to another one, which gets this byte.
    Link(&'a str, u8),
    // It is written, ended, opened and read.
    RoundTrip,
    // It is no plain file.
    Device,
    // It is gone.
    Gone,
}

// Whether a scene goes as it should. No other function has a device of its own, since a proof of its drop costs more than all else.
fn is_played(rt: &HostRuntime, name: &str, scene: Scene<'_>) -> Result<bool, Fail> {
    let mut files = StdFiles::new(rt, process::id(rt.process()));
    played(rt, &mut files, name, scene)
}

fn played<F: Files>(
    rt: &HostRuntime,
    files: &mut F,
    name: &str,
    scene: Scene<'_>,
) -> Result<bool, Fail>
    requires opens { (g : F) (n : List ℕ) → F.can_open g n }
    requires creates { (g : F) (n : List ℕ) → F.can_create g n }
{
    match scene {
        Scene::Replaced(older, newer) => replaces(rt, files, name, older, newer),
        Scene::ReadOn(older, newer) => Ok(reads_on(files, name, older, newer)?),
        Scene::Asked => Ok(says_lengths(files, name)?),
        Scene::Begun => Ok(begins(files, name)?),
        Scene::Taken => finds_folder(rt, files, name),
        Scene::Link(target, byte) => makes_through(rt, files, name, target, byte),
        Scene::RoundTrip => Ok(round_trip(files, name, &[7, 8, 9])?),
        Scene::Device => refuses_devices(rt, files),
        Scene::Gone => Ok(files.open(name) == Err(Refused::Failed)),
    }
}

// Whether the older file stands until the new one is finished.
fn replaces<F: Files>(
    rt: &HostRuntime,
    files: &mut F,
    name: &str,
    older: &[u8],
    newer: &[u8],
) -> Result<bool, Fail>
    requires { F.can_create files.old name.now }
{
    begin(files, name, newer)?;
    let stands = holds(rt, name, older)?;
    files.finish()?;
    Ok(stands && holds(rt, name, newer)?)
}

// The same of a file that others can't read, and whether they can't read the new one.
fn replaces_private(
    rt: &HostRuntime,
    name: &str,
    older: &[u8],
    newer: &[u8],
) -> Result<bool, Fail> {
    fs::write(rt, name, older)?;
    fs::set_permissions(rt, name, fs::Permissions::from_mode(0o600))?;
    let replaces = is_played(rt, name, Scene::Replaced(older, newer))?;
    let mode = fs::metadata(rt, name)?.permissions().mode();
    Ok(replaces && mode & 0o777 == 0o600)
}

#[test]
fn an_older_file_stands_until_the_new_one_is_whole(rt: HostRuntime) -> Result<(), Fail> {
    let (folder, name) = ("jx_outside_older", "jx_outside_older/out");
    let older = pattern(&rt, 6_000_000)?;
    let newer = pattern(&rt, 5_000_001)?;
    fs::create_dir(&rt, folder)?;
    check(&rt, replaces_private(&rt, name, &older, &newer)?);
    clear(&rt, name, folder)
}

// Whether the older file is read where the new one was made meanwhile.
fn reads_on<F: Files>(
    files: &mut F,
    name: &str,
    older: &[u8],
    newer: &[u8],
) -> Result<bool, Refused>
    requires opens { F.can_open files.old name.now }
    requires creates { (g : F) → F.can_create g name.now }
{
    files.open(name)?;
    make(files, name, newer)?;
    let mut piece = [0u8; 4_096];
    let count = files.read(&mut piece)?;
    Ok(count > 0 && older.starts_with(&piece[..count]))
}

#[test]
fn a_file_that_is_read_is_made_anew(rt: HostRuntime) -> Result<(), Fail> {
    let (folder, name) = ("jx_outside_same", "jx_outside_same/both");
    let older = pattern(&rt, 3_000_000)?;
    fs::create_dir(&rt, folder)?;
    fs::write(&rt, name, &older)?;
    check(&rt, is_played(&rt, name, Scene::ReadOn(&older, &[5; 5]))?);
    check(&rt, holds(&rt, name, &[5; 5])?);
    clear(&rt, name, folder)
}

// What a file's length is said to be, before and after a read.
fn said_lengths<F: Files>(files: &mut F, name: &str) -> Result<(Option<u64>, Option<u64>), Refused>
    requires { F.can_open files.old name.now }
{
    files.open(name)?;
    let before = files.length_hint();
    files.read(&mut [0, 0])?;
    Ok((before, files.length_hint()))
}

// Whether a length is said of a file of three bytes, and none before a file is opened, or of what is no plain one.
fn says_lengths<F: Files>(files: &mut F, name: &str) -> Result<bool, Refused>
    requires { (g : F) (n : List ℕ) → F.can_open g n }
{
    let none = files.length_hint();
    let plain = said_lengths(files, name)?;
    let device = said_lengths(files, "/dev/null")?;
    Ok(none.is_none() && plain == (Some(3), Some(3)) && device == (None, None))
}

#[test]
fn a_plain_file_says_its_length(rt: HostRuntime) -> Result<(), Fail> {
    let name = "jx_outside_length";
    fs::write(&rt, name, &[1u8, 2, 3])?;
    check(&rt, is_played(&rt, name, Scene::Asked)?);
    fs::remove_file(&rt, name)?;
    Ok(())
}

// A file is begun twice under this name, and not finished.
fn begins<F: Files>(files: &mut F, name: &str) -> Result<bool, Refused>
    requires { (g : F) → F.can_create g name.now }
{
    begin(files, name, &[1, 2, 3])?;
    begin(files, name, &[4, 5])?;
    Ok(true)
}

// Whether a file isn't finished whose name a folder has taken.
fn finds_folder<F: Files>(rt: &HostRuntime, files: &mut F, name: &str) -> Result<bool, Fail>
    requires { F.can_create files.old name.now }
{
    files.create(name)?;
    fs::create_dir(rt, name)?;
    Ok(files.finish() == Err(Refused::Failed))
}

#[test]
fn what_is_not_finished_leaves_no_trace(rt: HostRuntime) -> Result<(), Fail> {
    let (folder, name) = ("jx_outside_trace", "jx_outside_trace/out");
    fs::create_dir(&rt, folder)?;
    check(&rt, is_played(&rt, name, Scene::Begun)?);
    fs::write(&rt, name, &[9u8])?;
    check(&rt, is_played(&rt, name, Scene::Begun)?);
    check(&rt, holds(&rt, name, &[9])?);
    fs::remove_file(&rt, name)?;
    check(&rt, is_played(&rt, name, Scene::Taken)?);
    fs::remove_dir(&rt, name)?;
    fs::remove_dir(&rt, folder)?;
    Ok(())
}

// Whether a file that is made through a link stands under its own name.
fn makes_through<F: Files>(
    rt: &HostRuntime,
    files: &mut F,
    link: &str,
    target: &str,
    byte: u8,
) -> Result<bool, Fail>
    requires { F.can_create files.old link.now }
{
    make(files, link, &[byte])?;
    let is_file = fs::symlink_metadata(rt, target)?.is_file();
    Ok(is_file && holds(rt, target, &[byte])?)
}

#[test]
fn a_link_is_followed(rt: HostRuntime) -> Result<(), Fail> {
    let (folder, link) = ("jx_outside_link", "jx_outside_link/first");
    let target = "jx_outside_link/target";
    fs::create_dir(&rt, folder)?;
    symlink(&rt, "second", link)?;
    symlink(&rt, "target", "jx_outside_link/second")?;
    // there is nothing under the last link's name, then there is
    check(&rt, is_played(&rt, link, Scene::Link(target, 1))?);
    check(&rt, is_played(&rt, link, Scene::Link(target, 2))?);
    fs::remove_file(&rt, target)?;
    fs::remove_file(&rt, link)?;
    clear(&rt, "jx_outside_link/second", folder)
}

// Whether a device takes bytes or refuses them as it does, and no file is made where none can be.
fn refuses_devices<F: Files>(rt: &HostRuntime, files: &mut F) -> Result<bool, Fail>
    requires { (g : F) (n : List ℕ) → F.can_create g n }
{
    make(files, "/dev/null", &[1, 2, 3])?;
    let mut holds = !fs::metadata(rt, "/dev/null")?.is_file();
    files.create("/dev/full")?;
    holds &= files.write(&[1]) == Err(Refused::Failed);
    for name in ["/proc/jx_io", "no/such/folder", "folder/", ".", ""] {
        holds &= files.create(name) == Err(Refused::Failed);
    }
    Ok(holds)
}

#[test]
fn what_is_no_plain_file_is_written_directly(rt: HostRuntime) -> Result<(), Fail> {
    check(&rt, is_played(&rt, "/dev/null", Scene::Device)?);
    Ok(())
}

#[test]
fn a_real_file(rt: HostRuntime) -> Result<(), Fail> {
    let name = "jx_outside_real_file.tmp";
    check(&rt, is_played(&rt, name, Scene::RoundTrip)?);
    fs::remove_file(&rt, name)?;
    check(&rt, is_played(&rt, name, Scene::Gone)?);
    Ok(())
}
