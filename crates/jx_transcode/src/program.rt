//! The top call: what words ask for is read and done.

ghost use Rattle.std.specs.Prelude.{◌≡◌, ◌<◌, ◌⊎◌, None, Some, true, false, map, string_bytes, IfSome};
ghost use Rattle.jx_plan.specs.Planned.{chosen};
ghost use Rattle.jx_io.specs.Causes.{Rose};
ghost use Rattle.jx_io.specs.Device.{joined};
ghost use Rattle.jx_cli.specs.BoxesWords.{boxes_of, is_boxes};
ghost use Rattle.jx_cli.specs.SameWords.{is_same, same_of};
ghost use Rattle.jx_cli.specs.ShowWords.{is_show, show_of};
ghost use Rattle.jx_cli.specs.Words.{is_good, request_of};
ghost use Rattle.jx_transcode.specs.Misfits.{TellsMisfit};
ghost use Rattle.jx_rounds.specs.Files.{IsUntouched};
ghost use Rattle.jx_transcode.specs.Outcome.{EndsAsReadFault, EndsUnread, IsVerdict};
ghost use Rattle.jx_transcode.specs.Runs.{Outcome};
ghost use Rattle.jx_transcode.specs.SameRun.{IsOfFirst, IsStillRead};
ghost use Rattle.jx_transcode.specs.TranscodeRun.{TellsPositions};

use crate::commands::{Command, boxes, make, read_command, same, show, transcode};
use crate::say::refuse;
use crate::{Report, Status};
use jx_cli::{Make, WordsFault};
use jx_io::{Files, Gate, Sink};
use jx_layers::LayerPlanner;
use std::alloc::Global;
use std::sync::Wait;
use std::thread::Threads;

/// Does what the words ask for, and says one line; `boxes` one for each box, `show` one for each fact.
///
/// `words` begin with the program's name, and name the command. Those of `transcode` name IN, OUT and its options: IN is read
/// to its end, or to one byte past the most that the words say it may have, and OUT is created once the whole
/// input is read and its plan made. The main header, each tile-part and EOC are one piece each to write;
/// tiles are made round by round, and what is made is written before the next round. A fault of `files`
/// or `say` ends the run where it comes.
///
/// Those of `make` name a seed, a width and a height: a codestream is generated and transcoded in memory with fixed options, and no file
/// is touched. The line has the count of code-blocks, the lengths of both codestreams, and the sum of the output's bytes.
///
/// Those of `boxes` name a JP2 file, whose boxes are said in lines.
///
/// Those of `same` name two files, either of which may be a JP2 file. The first is read and judged, then the second is opened, read and
/// judged, and the line says whether their codestreams mean the same, or the first value in which they differ. Code-blocks are compared by
/// as many threads as the words ask for.
///
/// Those of `show` name a file, which may be a JP2 file. It is read and judged, and the lines or the JSON object say what its codestream is.
///
/// The code-blocks of a round of which some are coded anew are made by as many workers as the words ask for, inside both windows;
/// `gate` is told of each of them. What is written doesn't depend on them.
pub fn run<R: Threads + Wait + Sync, F: Files, S: Sink, G: Gate + Sync>(
    rt: &R,
    alloc: Global,
    words: &[String],
    files: &mut F,
    say: &mut S,
    gate: &G,
    mut planners: Vec<Box<dyn LayerPlanner>>,
) -> Report
    requires opens { is_good (map string_bytes words.now) ≡ true
        → F.can_open files.old (request_of (map string_bytes words.now)).from }
    requires lists { is_boxes (map string_bytes words.now) ≡ true
        → F.can_open files.old (boxes_of (map string_bytes words.now)).name }
    requires compares { is_same (map string_bytes words.now) ≡ true
        → F.can_open files.old (same_of (map string_bytes words.now)).first
        × F.can_open files.old (same_of (map string_bytes words.now)).second }
    requires shows { is_show (map string_bytes words.now) ≡ true
        → F.can_open files.old (show_of (map string_bytes words.now)).name }
    requires creates { is_good (map string_bytes words.now) ≡ true
        → F.can_create files.old (request_of (map string_bytes words.now)).to }
    ensures outcome { Outcome (map string_bytes words.now)
        (λ text facts. chosen (λ b. serves_text b text)
        (λ b. rule_of b text facts) planners.items) result.status result.blocks result.tape.items
        (F.meaning files.old) (F.meaning files.new) (S.said say.old) (S.said say.new) }
    ensures read { result.status ≡ Status.ReadFault → Rose (F.read_faults files.old) (F.read_faults files.new) }
    ensures write { result.status ≡ Status.WriteFault
        → Rose (F.write_faults files.old) (F.write_faults files.new) ⊎ Rose (S.faults say.old) (S.faults say.new) }
    // a file that is told as not being there; nothing is created then
    ensures absent { is_good (map string_bytes words.now) ≡ true
        → (F.meaning files.old).holds (request_of (map string_bytes words.now)).from ≡ Some None
        → EndsUnread result.status (S.faults say.old) (S.faults say.new) }
    ensures uncreated { is_good (map string_bytes words.now) ≡ true
        → (F.meaning files.old).holds (request_of (map string_bytes words.now)).from ≡ Some None
        → IsUntouched (F.meaning files.old) (F.meaning files.new) }
    ensures unlisted { is_boxes (map string_bytes words.now) ≡ true
        → (F.meaning files.old).holds (boxes_of (map string_bytes words.now)).name ≡ Some None
        → EndsUnread result.status (S.faults say.old) (S.faults say.new) }
    ensures unfound { is_same (map string_bytes words.now) ≡ true
        → (F.meaning files.old).holds (same_of (map string_bytes words.now)).first ≡ Some None
        → EndsUnread result.status (S.faults say.old) (S.faults say.new) }
    // the second is opened once the first is accepted
    ensures unfound_too { is_same (map string_bytes words.now) ≡ true
        → (F.meaning files.old).holds (same_of (map string_bytes words.now)).second ≡ Some None
        → EndsUnread result.status (S.faults say.old) (S.faults say.new) ⊎ IsOfFirst result.status }
    // where the first is refused, what is left to be read is an end of it, which nothing is too
    ensures unopened { is_same (map string_bytes words.now) ≡ true → IsOfFirst result.status
        → IsStillRead (joined ((F.meaning files.old).holds (same_of (map string_bytes words.now)).first))
        (F.meaning files.new).left }
    ensures unshown { is_show (map string_bytes words.now) ≡ true
        → (F.meaning files.old).holds (show_of (map string_bytes words.now)).name ≡ Some None
        → EndsUnread result.status (S.faults say.old) (S.faults say.new) }
    // a call of the files that failed
    ensures read_rose { F.read_faults files.old < F.read_faults files.new
        → EndsAsReadFault result.status (S.said say.old) (S.said say.new) (S.faults say.old)
        (S.faults say.new) }
    ensures write_rose { F.write_faults files.old < F.write_faults files.new → result.status ≡ Status.WriteFault }
    // a line that couldn't be said
    ensures unsaid { S.faults say.old < S.faults say.new → result.status ≡ Status.WriteFault }
    // where no count of faults rose
    ensures complete { (Rose (F.read_faults files.old) (F.read_faults files.new) → ⊥)
        → (Rose (F.write_faults files.old) (F.write_faults files.new) → ⊥)
        → (Rose (S.faults say.old) (S.faults say.new) → ⊥)
        → IsVerdict result.status ⊎ (result.status ≡ Status.NoMemory) }
    ensures idle { is_good (map string_bytes words.now) ≡ false → is_boxes (map string_bytes words.now) ≡ false
        → is_same (map string_bytes words.now) ≡ false
        → is_show (map string_bytes words.now) ≡ false → F.read_faults files.new ≡ F.read_faults files.old }
    // whether boxes that hold positions in the file were kept
    ensures positions { is_good (map string_bytes words.now) ≡ true
        → TellsPositions (request_of (map string_bytes words.now)) result.positions result.status
        (F.meaning files.old) }
    ensures none { is_good (map string_bytes words.now) ≡ false → result.positions ≡ false }
    // what is told beside choice 2
    ensures misfit { IfSome result.misfit (λ misfit. (is_good (map string_bytes words.now) ≡ true)
        × TellsMisfit (request_of (map string_bytes words.now)) misfit result.status (F.meaning files.old)) }
    ensures unwritten { is_good (map string_bytes words.now) ≡ false
        → F.write_faults files.new ≡ F.write_faults files.old }
{
    match read_command(alloc, words) {
        Ok(Command::Transcode(request)) => {
            transcode::run(rt, alloc, &request, files, say, gate, &mut planners)
        }
        Ok(
            Command::Make {
                seed,
                width,
                height,
            },
        ) => {
            let asked = Make {
                seed,
                width,
                height,
            };
            make::run(rt, alloc, asked, say, gate, &mut planners)
        }
        Ok(Command::Boxes(asked)) => boxes::run(alloc, &asked, files, say),
        Ok(Command::Same(names)) => same::run(rt, alloc, &names, files, say),
        Ok(Command::Show(asked)) => show::run(alloc, &asked, files, say),
        Err(WordsFault::Words) => refuse(alloc, say, Status::Words),
        Err(WordsFault::NoMemory) => refuse(alloc, say, Status::NoMemory),
    }
}
