//! The commands `transcode`, `make`, `boxes`, `same` and `show`, their words and their options.

ghost use Rattle.std.specs.Prelude.{◌≡◌, IfOk, false, map};
ghost use Rattle.clap.specs.Words.{app_of, rule_of};
ghost use Rattle.jx_cli.specs.BoxesWords.{boxes};
ghost use Rattle.jx_cli.specs.Command.{place_rule, transcode, with_options, with_places};
ghost use Rattle.jx_cli.specs.CommandWords.{rule_by, with_words};
ghost use Rattle.jx_cli.specs.MakeWords.{make};
ghost use Rattle.jx_cli.specs.SameWords.{same};
ghost use Rattle.jx_cli.specs.ShowWords.{show};
ghost use Rattle.jx_options.specs.Names.{default_of, is_flag, name_of};

use clap::{Arg, ArgAction, Command};
use jx_options::OptionName;
use std::alloc::{AllocError, Global};

/// A word that has to be there, as clap takes it.
fn place_of<'a>(alloc: Global, name: &'a str) -> Arg<'a>
    ensures rule { rule_of result ≡ place_rule name.entry.now }
    ensures local { result.global ≡ false }
{
    Arg::new(alloc, name).required(true).action(ArgAction::Set)
}

/// An option as clap takes it: one that stands alone, or one that has a value, with what stands for it where it isn't among the words.
fn arg_of<'a>(alloc: Global, alone: bool, name: &'a str, default: &'a str) -> Arg<'a>
    ensures rule { rule_of result ≡ rule_by alone name.entry.now default.entry.now }
    ensures local { result.global ≡ false }
{
    let arg = Arg::new(alloc, name).long(name);
    if alone {
        arg.action(ArgAction::SetTrue)
    } else {
        arg.action(ArgAction::Set).default_value(default)
    }
}

/// With the words of a list, each of which has to be there.
fn with_words<'a>(
    alloc: Global,
    command: Command<'a>,
    names: &[&'a str],
) -> Result<Command<'a>, AllocError>
    ensures { IfOk result (λ c. app_of c ≡ with_words (map (λ name. name.now) names.now) (app_of command.entry)) }
{
    let Some((name, rest)) = names.split_first() else {
        return Ok(command);
    };
    let command = command.arg(place_of(alloc, name))?;
    with_words(alloc, command, rest)
}

/// With the names of the input and the output.
fn with_places<'a>(alloc: Global, command: Command<'a>) -> Result<Command<'a>, AllocError>
    ensures { IfOk result (λ c. app_of c ≡ with_places (app_of command.entry)) }
{
    with_words(alloc, command, &["in", "out"])
}

/// An option's name, for as long as it is asked.
fn name_of<'a>(option: OptionName) -> &'a str
    ensures { result.now ≡ name_of option }
{
    option.text()
}

/// What stands for it where it isn't among the words, for as long as it is asked.
fn default_of<'a>(option: OptionName) -> &'a str
    ensures { result.now ≡ default_of option }
{
    option.default()
}

/// With the options of a list.
fn with_options<'a>(
    alloc: Global,
    command: Command<'a>,
    options: &[OptionName],
) -> Result<Command<'a>, AllocError>
    ensures { IfOk result (λ c. app_of c ≡ with_options options.now (app_of command.entry)) }
{
    let Some((option, rest)) = options.split_first() else {
        return Ok(command);
    };
    let arg = arg_of(
        alloc,
        option.is_flag(),
        name_of(*option),
        default_of(*option),
    );
    let command = command.arg(arg)?;
    with_options(alloc, command, rest)
}

/// The command `transcode`.
pub(crate) fn transcode<'a>(alloc: Global) -> Result<Command<'a>, AllocError>
    ensures { IfOk result (λ c. app_of c ≡ transcode) }
{
    let command = Command::new(alloc, "transcode");
    let command = with_places(alloc, command)?;
    with_options(alloc, command, OptionName::of_transcode())
}

/// The command `make`, of three words.
pub(crate) fn make<'a>(alloc: Global) -> Result<Command<'a>, AllocError>
    ensures { IfOk result (λ c. app_of c ≡ make) }
{
    let command = Command::new(alloc, "make");
    with_words(alloc, command, &["seed", "width", "height"])
}

/// The command `boxes`, of one word and its options.
pub(crate) fn boxes<'a>(alloc: Global) -> Result<Command<'a>, AllocError>
    ensures { IfOk result (λ c. app_of c ≡ boxes) }
{
    let command = Command::new(alloc, "boxes");
    let command = with_words(alloc, command, &["in"])?;
    with_options(alloc, command, OptionName::of_boxes())
}

/// The command `same`, of two words and its options.
pub(crate) fn same<'a>(alloc: Global) -> Result<Command<'a>, AllocError>
    ensures { IfOk result (λ c. app_of c ≡ same) }
{
    let command = Command::new(alloc, "same");
    let command = with_words(alloc, command, &["a", "b"])?;
    with_options(alloc, command, OptionName::of_same())
}

/// The command `show`, of one word and its options.
pub(crate) fn show<'a>(alloc: Global) -> Result<Command<'a>, AllocError>
    ensures { IfOk result (λ c. app_of c ≡ show) }
{
    let command = Command::new(alloc, "show");
    let command = with_words(alloc, command, &["in"])?;
    with_options(alloc, command, OptionName::of_show())
}
