//! The commands that words can name. Each has a file of its own, whose `run` does what is asked and says the command's line.

ghost use Rattle.std.specs.Prelude.{◌≡◌, Err, IfOk, map, string_bytes};
ghost use Rattle.jx_transcode.specs.Commands.{AskNothing, Asks, MayBeDone};

pub mod boxes;
pub mod make;
pub mod same;
pub mod show;
pub mod transcode;

use jx_cli::laws::commands_are_apart;
use jx_cli::{
    Boxes, Pair, Request, Show, WordsFault, read_boxes, read_make, read_same, read_show, read_words,
};
use std::alloc::Global;

/// What words ask for.
#[derive(Drop)]
pub enum Command {
    /// A codestream in a file is rewritten to another file.
    Transcode(Request),
    /// A codestream is generated from a seed, with so many columns and rows, and rewritten in memory.
    Make { seed: u64, width: u32, height: u32 },
    /// The boxes of a JP2 file are listed.
    Boxes(Boxes),
    /// The codestreams of two files are compared.
    Same(Pair),
    /// It is said what the codestream of a file is.
    Show(Show),
}

/// Reads the words of the command line, the program's name among them.
///
/// # Errors
/// `Words` where they are good for no command, `NoMemory` where there was no memory.
pub fn read_command(alloc: Global, words: &[String]) -> Result<Command, WordsFault>
    ensures asks { IfOk result (λ command. Asks (map string_bytes words.now) command) }
    ensures may { IfOk result (λ command. MayBeDone command) }
    ensures words { result ≡ Err WordsFault.Words → AskNothing (map string_bytes words.now) }
{
    commands_are_apart();
    match read_words(alloc, words) {
        Ok(request) => return Ok(Command::Transcode(request)),
        Err(WordsFault::Words) => {}
        Err(WordsFault::NoMemory) => return Err(WordsFault::NoMemory),
    }
    match read_make(alloc, words) {
        Ok(asked) => {
            return Ok(Command::Make {
                seed: asked.seed,
                width: asked.width,
                height: asked.height,
            });
        }
        Err(WordsFault::Words) => {}
        Err(WordsFault::NoMemory) => return Err(WordsFault::NoMemory),
    }
    match read_boxes(alloc, words) {
        Ok(asked) => return Ok(Command::Boxes(asked)),
        Err(WordsFault::Words) => {}
        Err(WordsFault::NoMemory) => return Err(WordsFault::NoMemory),
    }
    match read_same(alloc, words) {
        Ok(names) => return Ok(Command::Same(names)),
        Err(WordsFault::Words) => {}
        Err(WordsFault::NoMemory) => return Err(WordsFault::NoMemory),
    }
    match read_show(alloc, words) {
        Ok(asked) => Ok(Command::Show(asked)),
        Err(fault) => Err(fault),
    }
}
