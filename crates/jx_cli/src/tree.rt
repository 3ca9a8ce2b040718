//! The program as clap knows it: its commands, as words are read by them, and what help says of these.

use crate::command::{boxes, make, same, show, transcode};
use crate::texts::{
    ABOUT, BOXES, CHECK, EXAMPLES, FACTS, MAKE, MEANING, MORE, SAME, SHOW, TRANSCODE, TREE, VERSION,
};
use clap::{Arg, Command};
use jx_options::OptionName;
use std::alloc::{AllocError, Global};

/// With what help says of a word that has to be there.
fn with_place<'a>(
    command: Command<'a>,
    name: &str,
    value: &'a str,
    help: &'a str,
) -> Result<Command<'a>, AllocError> {
    command.mut_arg(name, |arg| Ok(arg.value_name(value).help(help)))
}

/// An option with what the table says of its value.
fn with_value<'a>(arg: Arg<'a>, option: OptionName) -> Arg<'a> {
    if option.is_flag() {
        return arg;
    }
    let arg = arg
        .value_name(option.placeholder())
        .hide_default_value(true);
    if option.listed().is_empty() {
        return arg;
    }
    // clap then refuses other values, in its own words
    arg.value_parser(option.listed()).hide_possible_values(true)
}

/// With what help says of options.
fn with_options<'a>(
    command: Command<'a>,
    options: &[OptionName],
) -> Result<Command<'a>, AllocError> {
    let mut command = command;
    for option in options {
        let option = *option;
        command = command.mut_arg(option.text(), |arg| {
            Ok(with_value(arg, option).help(option.what()))
        })?;
    }
    Ok(command)
}

/// With the headings under which help has options.
fn with_headings<'a>(
    command: Command<'a>,
    options: &[OptionName],
) -> Result<Command<'a>, AllocError> {
    let mut command = command;
    for option in options {
        let heading = option.heading();
        command = command.mut_arg(option.text(), |arg| Ok(arg.help_heading(heading)))?;
    }
    Ok(command)
}

fn transcode_helped<'a>(alloc: Global) -> Result<Command<'a>, AllocError> {
    let read = "the codestream or JP2 file that is read;\n- is standard input";
    let written =
        "the file that is written; - is standard output;\nan older file stands until the new one is whole";
    let command = transcode(alloc)?.about(TRANSCODE).after_help(EXAMPLES);
    let command = with_place(command, "in", "IN", read)?;
    let command = with_place(command, "out", "OUT", written)?;
    let command = with_options(command, OptionName::of_transcode())?;
    with_headings(command, OptionName::of_transcode())
}

fn make_helped<'a>(alloc: Global) -> Result<Command<'a>, AllocError> {
    let seed = "which picture: a number from 0 to 18446744073709551615";
    let command = make(alloc)?.about(MAKE).after_help(CHECK);
    let command = with_place(command, "seed", "SEED", seed)?;
    let command = with_place(command, "width", "WIDTH", "its columns, 1 to 4096")?;
    with_place(command, "height", "HEIGHT", "its rows, 1 to 4096")
}

fn boxes_helped<'a>(alloc: Global) -> Result<Command<'a>, AllocError> {
    let read = "the JP2 or JPX file that is read; - is standard input";
    let command = boxes(alloc)?.about(BOXES).after_help(TREE);
    let command = with_place(command, "in", "IN", read)?;
    with_options(command, OptionName::of_boxes())
}

fn same_helped<'a>(alloc: Global) -> Result<Command<'a>, AllocError> {
    let first = "a codestream or a JP2 file; - is standard input";
    let command = same(alloc)?.about(SAME).after_help(MEANING);
    let command = with_place(command, "a", "A", first)?;
    let command = with_place(command, "b", "B", "the one that is compared with it")?;
    with_options(command, OptionName::of_same())
}

fn show_helped<'a>(alloc: Global) -> Result<Command<'a>, AllocError> {
    let read = "the codestream or JP2 file that is read; - is standard input";
    let command = show(alloc)?.about(SHOW).after_help(FACTS);
    let command = with_place(command, "in", "IN", read)?;
    with_options(command, OptionName::of_show())
}

/// The program with its commands and their help.
///
/// Words are read by the same commands. Here clap also refuses a value that isn't one of the few that an option takes, and says which
/// these are.
///
/// # Errors
///
/// `AllocError` where memory is refused.
pub fn command_tree<'a>(alloc: Global) -> Result<Command<'a>, AllocError> {
    // The name is the same whatever file the program lies in.
    let command = Command::new(alloc, "jx").bin_name("jx")?;
    command
        .version(VERSION)
        .about(ABOUT)
        .after_help(MORE)
        .subcommand_required(true)
        .subcommand(transcode_helped(alloc)?)?
        .subcommand(make_helped(alloc)?)?
        .subcommand(boxes_helped(alloc)?)?
        .subcommand(same_helped(alloc)?)?
        .subcommand(show_helped(alloc)?)
}
