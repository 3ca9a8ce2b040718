//! The words of the command lines `jx transcode`, `jx make`, `jx boxes`, `jx same` and `jx show`, read with clap, and what help says of them.
#![tactic(auto)]

ghost use Rattle.std.specs.Prelude.{◌≡◌};

mod boxes;
mod command;
mod given;
pub mod laws;
mod make;
mod reading;
mod same;
mod show;
mod texts;
mod tree;

pub use boxes::{Boxes, read_boxes};
use jx_base::NoMemory;
use jx_options::{FormChoice, Options, Work};
pub use make::{Make, read_make};
pub use reading::read_words;
pub use same::{Pair, read_same};
pub use show::{Show, read_show};
use std::marker::Model;
pub use tree::command_tree;

/// What good words ask for.
#[derive(Drop)]
pub struct Request {
    /// The name of the input.
    pub from: String,
    /// The name of the output.
    pub to: String,
    /// How the codestream is to be written.
    pub options: Options,
    /// What is written of a JP2 file.
    pub form: FormChoice,
    /// How many of the highest resolutions are left out, 0 to 32.
    pub reduce: u8,
    /// The most bytes that the input may have, 1 to 2^32 - 1.
    pub limit: u32,
    /// How the work is done.
    pub work: Work,
}

impl Model for Request {
    ghost use Rattle.std.specs.String.{string_bytes};
    ghost use Rattle.jx_cli.specs.Words.{Request};

    ghost Value = { Request };

    ghost view = { λ r. record { from = string_bytes r.from; to = string_bytes r.to; wanted = r.options; form = r.form; reduce = r.reduce; limit = r.limit; work = r.work } };
}

impl Request {
    /// The name of the input.
    pub fn from(&self) -> &str
        ensures { result.now ≡ self.now.from }
    {
        self.from.as_str()
    }

    /// The name of the output.
    pub fn to(&self) -> &str
        ensures { result.now ≡ self.now.to }
    {
        self.to.as_str()
    }

    /// How the codestream is to be written.
    pub fn options(&self) -> &Options
        ensures { result.now ≡ self.now.wanted }
    {
        &self.options
    }

    /// What is written of a JP2 file.
    pub fn form(&self) -> FormChoice
        ensures { result ≡ self.now.form }
    {
        self.form
    }

    /// How many of the highest resolutions are left out, 0 to 32.
    pub fn reduce(&self) -> u8
        ensures { result ≡ self.now.reduce }
    {
        self.reduce
    }

    /// The most bytes that the input may have, 1 to 2^32 - 1.
    pub fn limit(&self) -> u32
        ensures { result ≡ self.now.limit }
    {
        self.limit
    }

    /// How the work is done.
    pub fn work(&self) -> Work
        ensures { result ≡ self.now.work }
    {
        self.work
    }
}

/// Why words aren't read.
#[derive(Clone, Copy, Debug, PartialEq, Eq)]
pub enum WordsFault {
    /// They aren't good words.
    Words,
    /// There was no memory.
    NoMemory,
}

impl From<NoMemory> for WordsFault {
    ghost use Rattle.std.specs.Prelude.{◌≡◌};
    ghost use Rattle.jx_cli.specs.declared.WordsFault.TheVariants.{NoMemory as out_of_memory};

    ghost from_gives = { λ _ fault. fault ≡ out_of_memory };

    fn from(_: NoMemory) -> Self {
        WordsFault::NoMemory
    }
}
