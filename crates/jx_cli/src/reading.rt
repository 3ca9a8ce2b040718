//! The request that words make.

ghost use Rattle.std.specs.Prelude.{◌≡◌, ◌≢◌, ◌≤◌, [], true, false, IfOk, IfSome, None, Err, length, map, string_bytes};
ghost use Rattle.clap.specs.Words.{fault_of, first_value, found_of};
ghost use Rattle.jx_cli.specs.Command.{transcode};
ghost use Rattle.jx_options.specs.Choices.{bytes_in, changes_in, order_in};
ghost use Rattle.jx_options.specs.Wanted.{MayBeWanted};
ghost use Rattle.jx_cli.specs.Words.{are_values, given_by, given_in, is_good, is_work, names_command, request_by, request_of, work_by};
ghost use Rattle.jx_options.specs.Work.{MayBeLimit, MayBeWork};

use crate::command::transcode;
use crate::given::{flag_of, matches_in, said_of, text_of};
use crate::{Request, WordsFault};
use clap::ArgMatches;
use jx_base::{NoMemory, Style};
use jx_options::{
    FormChoice, Marks, OptionName, Options, OrderChoice, PartChoice, PocChoice, PrecinctChoice,
    RsizChoice, Work, form_said, order_said, parse_poc, parts_said, precincts_said, reduce_said,
    rsiz_said, style_said, thread_count,
};
use std::alloc::Global;
use std::marker::Model;

/// The words that were given, with the values of options that aren't among them.
#[derive(Drop)]
struct Given<'a> {
    from: &'a str,
    to: &'a str,
    order: &'a str,
    poc: &'a str,
    precincts: &'a str,
    layers: &'a str,
    style: &'a str,
    parts: &'a str,
    sop: bool,
    eph: bool,
    plt: bool,
    tlm: bool,
    rsiz: &'a str,
    form: &'a str,
    reduce: &'a str,
    limit_bytes: &'a str,
    threads: &'a str,
    window: &'a str,
    window_bytes: &'a str,
}

impl<'a> Model for Given<'a> {
    ghost use Rattle.jx_cli.specs.Words.{Given};

    ghost Value = { Given };

    ghost view = { λ g. record {
      from = g.from.now;
      to = g.to.now;
      order = g.order.now;
      poc = g.poc.now;
      precincts = g.precincts.now;
      layers = g.layers.now;
      style = g.style.now;
      parts = g.parts.now;
      sop = g.sop;
      eph = g.eph;
      plt = g.plt;
      tlm = g.tlm;
      rsiz = g.rsiz.now;
      form = g.form.now;
      reduce = g.reduce.now;
      limit_bytes = g.limit_bytes.now;
      threads = g.threads.now;
      window = g.window.now;
      window_bytes = g.window_bytes.now;
    } };
}

/// All that was found.
#[tactic(auto, unfolding(crate::specs::Words::given_by))]
fn given_by<'a>(matches: &ArgMatches<'a>) -> Given<'a>
    ensures { result ≡ given_by (first_value (found_of matches.now)) }
{
    Given {
        from: text_of(matches, "in", ""),
        to: text_of(matches, "out", ""),
        order: said_of(matches, OptionName::Order),
        poc: said_of(matches, OptionName::Poc),
        precincts: said_of(matches, OptionName::Precincts),
        layers: said_of(matches, OptionName::Layers),
        style: said_of(matches, OptionName::Style),
        parts: said_of(matches, OptionName::TileParts),
        sop: flag_of(matches, OptionName::Sop),
        eph: flag_of(matches, OptionName::Eph),
        plt: flag_of(matches, OptionName::Plt),
        tlm: flag_of(matches, OptionName::Tlm),
        rsiz: said_of(matches, OptionName::Rsiz),
        form: said_of(matches, OptionName::Form),
        reduce: said_of(matches, OptionName::Reduce),
        limit_bytes: said_of(matches, OptionName::LimitBytes),
        threads: said_of(matches, OptionName::Threads),
        window: said_of(matches, OptionName::Window),
        window_bytes: said_of(matches, OptionName::WindowBytes),
    }
}

/// What the words ask for, of which the first is the command's name.
fn given_in<'a>(alloc: Global, words: &'a [String]) -> Result<Given<'a>, WordsFault>
    ensures taken { IfOk result (λ _. fault_of transcode (map string_bytes words.entry.now) ≡ []) }
    ensures given { IfOk result (λ g. g ≡ given_in (map string_bytes words.entry.now)) }
    ensures refused { result ≡ Err WordsFault.Words → fault_of transcode (map string_bytes words.entry.now) ≢ [] }
{
    let command = match transcode(alloc) {
        Ok(command) => command,
        Err(_) => return Err(WordsFault::NoMemory),
    };
    match matches_in(command, words) {
        Ok(matches) => Ok(given_by(&matches)),
        Err(fault) => Err(fault),
    }
}

/// How the work is to be done.
#[tactic(auto, unfolding(crate::specs::Words::work_by))]
fn work_by(given: &Given<'_>) -> Option<Work>
    ensures some { IfSome result (λ w. (is_work given.now ≡ true) × (w ≡ work_by given.now)) }
    ensures none { result ≡ None → is_work given.now ≡ false }
{
    let threads = thread_count(given.threads)?;
    let window = OptionName::Window.number(given.window)?;
    let most = OptionName::WindowBytes.number(given.window_bytes)?;
    Some(Work {
        threads,
        window,
        most,
    })
}

/// What stands in the tile-parts, which begin by this choice.
fn marks_with(given: &Given<'_>, parts: PartChoice) -> Marks
    ensures { result ≡ record {
      sop = given.now.sop;
      eph = given.now.eph;
      plt = given.now.plt;
      tlm = given.now.tlm;
      parts = parts;
    } }
{
    Marks {
        sop: given.sop,
        eph: given.eph,
        plt: given.plt,
        tlm: given.tlm,
        parts,
    }
}

/// How the file is to be written, by these values.
fn options_with(
    alloc: Global,
    given: &Given<'_>,
    order: OrderChoice,
    poc: PocChoice,
    precincts: PrecinctChoice,
    marks: Marks,
    style: Option<Style>,
    rsiz: RsizChoice,
) -> Result<Options, NoMemory>
    ensures { IfOk result (λ o. o ≡ record {
      order = order_in order;
      changes = changes_in poc;
      precincts = bytes_in precincts;
      style = style;
      layers = given.now.layers;
      marks = marks;
      rsiz = rsiz;
    }) }
{
    Ok(Options {
        order,
        poc,
        precincts,
        style,
        layers: String::from_str(alloc, given.layers)?,
        marks,
        rsiz,
    })
}

/// The request with these values.
fn made(
    alloc: Global,
    given: &Given<'_>,
    options: Options,
    form: FormChoice,
    reduce: u8,
    limit: u32,
    work: Work,
) -> Result<Request, NoMemory>
    ensures { IfOk result (λ r. r ≡ record {
      from = given.now.from;
      to = given.now.to;
      wanted = options;
      form = form;
      reduce = reduce;
      limit = limit;
      work = work;
    }) }
{
    Ok(Request {
        from: String::from_str(alloc, given.from)?,
        to: String::from_str(alloc, given.to)?,
        options,
        form,
        reduce,
        limit,
        work,
    })
}

/// The request that is made by what was given.
#[tactic(auto, unfolding(crate::specs::Words::are_values, crate::specs::Words::wanted_by))]
fn request_by(alloc: Global, given: &Given<'_>) -> Result<Request, WordsFault>
    ensures good { IfOk result (λ _. are_values given.now ≡ true) }
    ensures value { IfOk result (λ r. r ≡ request_by given.now) }
    ensures words { result ≡ Err WordsFault.Words → are_values given.now ≡ false }
{
    let Some(order) = order_said(given.order) else {
        return Err(WordsFault::Words);
    };
    let Some(parts) = parts_said(given.parts) else {
        return Err(WordsFault::Words);
    };
    let Some(style) = style_said(given.style) else {
        return Err(WordsFault::Words);
    };
    let Some(rsiz) = rsiz_said(given.rsiz) else {
        return Err(WordsFault::Words);
    };
    let Some(form) = form_said(given.form) else {
        return Err(WordsFault::Words);
    };
    let Some(reduce) = reduce_said(given.reduce) else {
        return Err(WordsFault::Words);
    };
    let Some(limit) = OptionName::LimitBytes.number(given.limit_bytes) else {
        return Err(WordsFault::Words);
    };
    let Some(work) = work_by(given) else {
        return Err(WordsFault::Words);
    };
    let Some(poc) = parse_poc(alloc, given.poc)? else {
        return Err(WordsFault::Words);
    };
    let Some(precincts) = precincts_said(alloc, given.precincts)? else {
        return Err(WordsFault::Words);
    };
    let marks = marks_with(given, parts);
    let options = options_with(alloc, given, order, poc, precincts, marks, style, rsiz)?;
    Ok(made(alloc, given, options, form, reduce, limit, work)?)
}

/// Whether the second word is the command's name.
fn names_command(words: &[String]) -> bool
    ensures names { result ≡ names_command (map string_bytes words.now) }
    ensures there { result ≡ true → 2 ≤ length words.now }
{
    if words.len() < 2 {
        return false;
    }
    words[1].as_str() == "transcode"
}

/// Reads the words of the command line, the program's name among them.
///
/// They name the command `transcode`, and clap reads the words behind it: the names of the input and the output, and the options
/// of which the values are checked here.
///
/// # Errors
/// `Words` where they aren't good words, `NoMemory` where there was no memory.
#[tactic(auto, unfolding(crate::specs::Words::is_good, crate::specs::Words::request_of))]
pub fn read_words(alloc: Global, words: &[String]) -> Result<Request, WordsFault>
    ensures good { IfOk result (λ _. is_good (map string_bytes words.now) ≡ true) }
    ensures value { IfOk result (λ r. r ≡ request_of (map string_bytes words.now)) }
    ensures wanted { IfOk result (λ r. MayBeWanted r.wanted) }
    ensures work { IfOk result (λ r. MayBeWork r.work) }
    ensures reduce { IfOk result (λ r. r.reduce ≤ 32) }
    ensures limit { IfOk result (λ r. MayBeLimit r.limit) }
    ensures words { result ≡ Err WordsFault.Words → is_good (map string_bytes words.now) ≡ false }
{
    if !names_command(words) {
        return Err(WordsFault::Words);
    }
    match given_in(alloc, words.split_at(1).1) {
        Ok(given) => request_by(alloc, &given),
        Err(fault) => Err(fault),
    }
}
