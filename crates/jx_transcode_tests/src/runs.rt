//! A run over files in memory: what its devices hold and refuse, and what it leaves.

use crate::checks::{check_at, equal, equal_at};
use jx_io::Gate;
use jx_io_memory::{Call, MemFiles, MemSink, NoGate};
use jx_layers::{CutLayers, KeepLayers, LayerPlanner, OneLayer, PlaneLayers};
use jx_transcode::{Report, Status, run};
use std::alloc::{AllocError, Global};
use std::process::Abort;
use std::sync::Wait;
use std::test::Fail;
use std::thread::Threads;

/// The devices of a run: they hold a file IN of these bytes.
#[derive(Clone, Copy)]
pub struct Devices<'a> {
    pub bytes: &'a [u8],
    /// The calls that fail, each by its number among those of its kind.
    pub failing: &'a [(Call, u32)],
    /// How many bytes a call takes or gives at most.
    pub most: Option<u32>,
    /// What is said of a file's length.
    pub length: Option<u64>,
    /// The text that can't be said, by its number.
    pub unsaid: Option<u32>,
}

/// Devices on which nothing fails.
pub fn holding(bytes: &[u8]) -> Devices<'_> {
    Devices {
        bytes,
        failing: &[],
        most: None,
        length: None,
        unsaid: None,
    }
}

/// The bytes that are wanted in the file that was created.
#[derive(Clone, Copy)]
pub enum Made<'a> {
    /// None was created.
    Nothing,
    /// So many.
    Length(usize),
    /// These.
    Bytes(&'a [u8]),
    /// So many of these.
    Front(&'a [u8], usize),
}

/// What is wanted of a run.
#[derive(Clone, Copy)]
pub struct Want<'a> {
    pub status: Status,
    pub said: &'a str,
    /// The code-blocks, where they are wanted.
    pub blocks: Option<u32>,
    /// How many of them were written, where that is wanted.
    pub taped: Option<usize>,
    pub made: Made<'a>,
}

/// A run that ends so, with this line, and creates nothing.
pub fn ending(status: Status, said: &str) -> Want<'_> {
    Want {
        status,
        said,
        blocks: None,
        taped: None,
        made: Made::Nothing,
    }
}

/// What a run leaves.
#[derive(Drop)]
pub struct Left {
    pub report: Report,
    pub files: MemFiles,
    pub say: MemSink,
}

impl Left {
    /// The bytes of the file that was created.
    pub fn made(&self) -> Option<&[u8]> {
        match self.files.made() {
            Some((_, bytes)) => Some(bytes),
            None => None,
        }
    }
}

fn files_of(alloc: Global, devices: &Devices<'_>) -> Result<MemFiles, Fail> {
    let mut files = MemFiles::new(alloc);
    files.put("in", devices.bytes)?;
    for (call, nth) in devices.failing {
        files.fail(*call, *nth)?;
    }
    if let Some(most) = devices.most {
        files.short(u32::max(most, 1));
    }
    if let Some(length) = devices.length {
        files.hint(length);
    }
    Ok(files)
}

fn sink_of(alloc: Global, devices: &Devices<'_>) -> Result<MemSink, Fail> {
    let mut say = MemSink::new(alloc);
    if let Some(nth) = devices.unsaid {
        say.fail(nth)?;
    }
    Ok(say)
}

fn words_of(alloc: Global, list: &[&str]) -> Result<Vec<String>, AllocError> {
    let mut words = Vec::new(alloc);
    for word in list {
        words.push(String::from_str(alloc, word)?)?;
    }
    Ok(words)
}

/// The planners that the program hands in.
fn four_planners(alloc: Global) -> Result<Vec<Box<dyn LayerPlanner>>, AllocError> {
    let mut planners = Vec::new(alloc);
    for which in 0..4 {
        put_planner(alloc, &mut planners, which)?;
    }
    Ok(planners)
}

fn put_planner(
    alloc: Global,
    planners: &mut Vec<Box<dyn LayerPlanner>>,
    which: u8,
) -> Result<(), AllocError> {
    let planner: Box<dyn LayerPlanner> = match which {
        0 => Box::new(alloc, KeepLayers::new())?,
        1 => Box::new(alloc, OneLayer::new())?,
        2 => Box::new(alloc, CutLayers::new())?,
        _ => Box::new(alloc, PlaneLayers::new())?,
    };
    planners.push(planner)?;
    Ok(())
}

/// Runs these words on devices with a gate and planners.
pub fn run_planned<R: AllocGlobal + Threads + Wait + Sync, G: Gate + Sync>(
    rt: &R,
    list: &[&str],
    devices: &Devices<'_>,
    gate: &G,
    planners: Vec<Box<dyn LayerPlanner>>,
) -> Result<Left, Fail> {
    let alloc = rt.alloc();
    let words = words_of(alloc, list)?;
    let mut files = files_of(alloc, devices)?;
    let mut say = sink_of(alloc, devices)?;
    let report = run(rt, alloc, &words, &mut files, &mut say, gate, planners);
    Ok(Left { report, files, say })
}

/// Runs these words with a gate and the four planners.
pub fn run_gated<R: AllocGlobal + Threads + Wait + Sync, G: Gate + Sync>(
    rt: &R,
    list: &[&str],
    devices: &Devices<'_>,
    gate: &G,
) -> Result<Left, Fail> {
    let planners = four_planners(rt.alloc())?;
    run_planned(rt, list, devices, gate, planners)
}

/// Runs these words.
pub fn run_words<R: AllocGlobal + Threads + Wait + Sync>(
    rt: &R,
    list: &[&str],
    devices: &Devices<'_>,
) -> Result<Left, Fail> {
    run_gated(rt, list, devices, &NoGate)
}

/// Wants this of a run.
pub fn is_left(rt: &impl Abort, words: &[&str], left: &Left, want: &Want<'_>) {
    let report = &left.report;
    equal_at(rt, &words, report.status, want.status);
    equal(rt, left.say.said(), want.said);
    if let Some(blocks) = want.blocks {
        equal(rt, report.blocks, blocks);
    }
    if let Some(taped) = want.taped {
        equal(rt, report.tape.len(), taped);
    }
    is_made(rt, words, left.made(), want.made);
}

fn is_made(rt: &impl Abort, words: &[&str], found: Option<&[u8]>, want: Made<'_>) {
    let holds = match (found, want) {
        (None, Made::Nothing) => true,
        (Some(bytes), Made::Length(length)) => bytes.len() == length,
        (Some(bytes), Made::Bytes(want)) => bytes == want,
        (Some(bytes), Made::Front(whole, length)) => {
            bytes.len() == length && whole.starts_with(bytes)
        }
        _ => false,
    };
    check_at(rt, &words, holds);
}

/// Runs these words on devices, and wants this.
pub fn ends(
    rt: &(impl Abort + AllocGlobal + Threads + Wait + Sync),
    words: &[&str],
    devices: &Devices<'_>,
    want: &Want<'_>,
) -> Result<(), Fail> {
    let left = run_words(rt, words, devices)?;
    is_left(rt, words, &left, want);
    Ok(())
}

/// What these words make of these bytes.
pub fn made_of(
    rt: &(impl Abort + AllocGlobal + Threads + Wait + Sync),
    words: &[&str],
    bytes: &[u8],
) -> Result<Vec<u8>, Fail> {
    let left = run_words(rt, words, &holding(bytes))?;
    equal_at(rt, &words, left.report.status, Status::Done);
    Ok(left.made().unwrap_or(&[]).to_vec(rt.alloc())?)
}

/// Runs these words on these bytes, and wants these bytes and this line.
pub fn rewrites(
    rt: &(impl Abort + AllocGlobal + Threads + Wait + Sync),
    words: &[&str],
    bytes: &[u8],
    want: &[u8],
    line: &str,
) -> Result<(), Fail> {
    let want = Want {
        made: Made::Bytes(want),
        ..ending(Status::Done, line)
    };
    ends(rt, words, &holding(bytes), &want)
}

/// Runs these words on these bytes, which aren't rewritten, and wants this status, these blocks and this line.
pub fn stops(
    rt: &(impl Abort + AllocGlobal + Threads + Wait + Sync),
    words: &[&str],
    bytes: &[u8],
    status: Status,
    blocks: u32,
    line: &str,
) -> Result<(), Fail> {
    let want = Want {
        blocks: Some(blocks),
        ..ending(status, line)
    };
    ends(rt, words, &holding(bytes), &want)
}
