//! `make`: a generated codestream is transcoded in memory, and no file is touched.

ghost use Rattle.std.specs.Prelude.{◌≡◌, ◌<◌, [], IfOk, false, string_bytes};
ghost use Rattle.std.specs.List.{sum};
ghost use Rattle.jx_io.specs.Causes.{Rose};
ghost use Rattle.jx_io.specs.Device.{Meaning};
ghost use Rattle.jx_plan.specs.Planned.{chosen};
ghost use Rattle.jx_cli.specs.MakeWords.{MayBeMade};
ghost use Rattle.jx_transcode.specs.MakeRun.{EndsMade, IsReadyToSay, input_of, make_line, wanted_made, work_made};
ghost use Rattle.jx_transcode.specs.Outcome.{EndsAs};

use crate::judge::read_checked;
use crate::laws::{all_is_left, plans_are_carried_out};
use crate::lines::line_of;
use crate::rewrite::{made_in_memory, planned};
use crate::say::{refuse, say_line};
use crate::{Report, Status};
use jx_base::Style;
use jx_cli::Make;
use jx_io::{Gate, Sink};
use jx_layers::LayerPlanner;
use jx_options::{
    Marks, Options, OrderChoice, PartChoice, PocChoice, PrecinctChoice, RsizChoice, Work,
};
use jx_rounds::{Crew, TapeEntry};
use std::alloc::{AllocError, Global};
use std::sync::Wait;
use std::thread::Threads;

/// How the work is done.
const WORK: Work = Work {
    threads: 4,
    window: 64,
    most: 268_435_456,
};

/// The most bytes that the generated codestream may have.
const LIMIT: u32 = 268_435_456;

/// How a transcoded picture came out, before anything is said.
#[derive(Debug, Drop)]
struct MadeFile {
    status: Status,
    blocks: u32,
    // after Done, how many bytes were generated
    before: usize,
    // and how many the output has
    after: usize,
    // and their sum
    total: u128,
    tape: Vec<TapeEntry>,
}

/// How the output is written: in the order RPCL, in one layer, in the style of bypass and segmentation symbols, a tile-part for each
/// resolution, with PLT segments.
fn options(alloc: Global) -> Result<Options, AllocError>
    ensures { IfOk result (λ options. options ≡ wanted_made) }
{
    Ok(Options {
        order: OrderChoice::Order(2),
        poc: PocChoice::None,
        precincts: PrecinctChoice::Keep,
        style: Some(Style { bits: 33 }),
        layers: String::from_str(alloc, "one")?,
        marks: Marks {
            plt: true,
            parts: PartChoice::Resolution,
            ..Marks::none()
        },
        rsiz: RsizChoice::Zero,
    })
}

fn sum_of(bytes: &[u8]) -> u128
    ensures { result ≡ sum bytes.now }
{
    let mut total = 0;
    for byte in bytes {
        total += u128::from(*byte);
    }
    total
}

/// A generated codestream of which nothing was made.
fn refused(alloc: Global, status: Status, blocks: u32) -> MadeFile
    ensures status { result.status ≡ status }
    ensures blocks { result.blocks ≡ blocks }
    ensures tape { result.tape.items ≡ [] }
{
    MadeFile {
        status,
        blocks,
        before: 0,
        after: 0,
        total: 0,
        tape: Vec::new(alloc),
    }
}

/// What becomes of a generated codestream, with all of its resolutions.
fn transcoded<R: Threads + Wait + Sync, G: Gate + Sync>(
    crew: &Crew<'_, R, G>,
    alloc: Global,
    asked: Make,
    input: &[u8],
    options: &Options,
    planners: &mut [Box<dyn LayerPlanner>],
) -> MadeFile
    requires generated { input.now ≡ input_of asked }
    requires wanted { options.now ≡ wanted_made }
    requires work { crew.now.work ≡ work_made }
    ensures { IsReadyToSay asked (λ text facts.
        chosen (λ b. serves_text b text) (λ b. rule_of b text facts) planners.old)
        result.status result.blocks result.before result.after result.total result.tape.items }
{
    plans_are_carried_out();
    all_is_left();
    let read = match read_checked(alloc, input, LIMIT) {
        Ok(read) => read,
        Err(status) => return refused(alloc, status, 0),
    };
    let plan = match planned(alloc, &read.picture, options, planners) {
        Ok(plan) => plan,
        Err(ending) => return refused(alloc, ending.status, ending.blocks),
    };
    let made = made_in_memory(crew, alloc, &plan);
    MadeFile {
        status: made.status,
        blocks: made.blocks,
        before: input.len(),
        after: made.out.len(),
        total: sum_of(&made.out),
        tape: made.tape,
    }
}

/// The line of a status. After Done `before` and `after` are the lengths of what was generated and of the output, and `total` is the sum
/// of the output's bytes.
fn make_line(
    alloc: Global,
    status: Status,
    blocks: u32,
    before: usize,
    after: usize,
    total: u128,
) -> Result<String, AllocError>
    ensures { IfOk result (λ line. string_bytes line ≡ make_line status blocks before after total) }
{
    match status {
        Status::Done => format!(in alloc;
            "make: {blocks} blocks, {before} bytes in, {after} bytes out, sum {total}\n"
        ),
        other => line_of(alloc, other, blocks, 0),
    }
}

/// Says the line of what came out.
fn say_made<S: Sink>(alloc: Global, say: &mut S, made: MadeFile) -> Report
    ensures says { EndsAs made.status
        (make_line made.status made.blocks made.before made.after made.total) result.status (S.said say.old)
        (S.said say.new) (S.faults say.old) (S.faults say.new) }
    ensures blocks { result.blocks ≡ made.blocks }
    ensures tape { result.tape.items ≡ made.tape.items }
    ensures positions { result.positions ≡ false }
    ensures misfit { result.misfit ≡ None }
{
    let status = match make_line(
        alloc,
        made.status,
        made.blocks,
        made.before,
        made.after,
        made.total,
    ) {
        Ok(line) => say_line(say, made.status, line.as_str()),
        Err(_) => Status::NoMemory,
    };
    Report {
        status,
        blocks: made.blocks,
        tape: made.tape,
        positions: false,
        misfit: None,
    }
}

/// Does what good words ask for, and says its line.
pub fn run<R: Threads + Wait + Sync, S: Sink, G: Gate + Sync>(
    rt: &R,
    alloc: Global,
    asked: Make,
    say: &mut S,
    gate: &G,
    planners: &mut [Box<dyn LayerPlanner>],
) -> Report
    requires { MayBeMade asked }
    ensures ends { (files : Meaning) → EndsMade asked
        (λ text facts. chosen (λ b. serves_text b text)
        (λ b. rule_of b text facts) planners.old) result.status result.blocks result.tape.items files files
        (S.said say.old) (S.said say.new) }
    ensures read { result.status ≡ Status.ReadFault → ⊥ }
    ensures write { result.status ≡ Status.WriteFault → Rose (S.faults say.old) (S.faults say.new) }
    ensures unsaid { S.faults say.old < S.faults say.new → result.status ≡ Status.WriteFault }
    ensures positions { result.positions ≡ false }
    ensures misfit { result.misfit ≡ None }
{
    let crew = Crew {
        rt,
        gate,
        work: WORK,
    };
    let Ok(options) = options(alloc) else {
        return refuse(alloc, say, Status::NoMemory);
    };
    match jx_generate::make(alloc, asked.seed, asked.width, asked.height) {
        Ok(input) => {
            let made = transcoded(&crew, alloc, asked, &input, &options, planners);
            say_made(alloc, say, made)
        }
        Err(_) => refuse(alloc, say, Status::NoMemory),
    }
}
