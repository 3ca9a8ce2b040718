//! What the words of `same` ask for.

ghost use Rattle.std.specs.Prelude.{◌≡◌, ◌≤◌, true, false, IfErr, IfOk, Err, length, map, string_bytes};
ghost use Rattle.clap.specs.Words.{first_value, found_of};
ghost use Rattle.jx_cli.specs.MakeFound.{texts_of};
ghost use Rattle.jx_cli.specs.SameWords.{MayBeCompared, are_numbers, is_asked, is_same, names_same, pair_by, same, same_of};

use crate::WordsFault;
use crate::command::same;
use crate::given::{limit_in, matches_in, said_of, text_of};
use clap::ArgMatches;
use jx_options::{OptionName, thread_count};
use std::alloc::Global;
use std::marker::Model;

/// The names of two files, of which the second is compared with the first, by how many threads, and how many bytes each may have.
#[derive(Drop)]
pub struct Pair {
    /// The name of the first.
    pub first: String,
    /// The name of the second.
    pub second: String,
    /// How many threads compare code-blocks, 1 to 64; 0 for as many as the system has free.
    pub threads: u32,
    /// The most bytes that each file may have, 1 to 2^32 - 1.
    pub limit: u32,
}

impl Model for Pair {
    ghost use Rattle.std.specs.String.{string_bytes};
    ghost use Rattle.jx_cli.specs.SameWords.{Pair};

    ghost Value = { Pair };

    ghost view = { λ p. record { first = string_bytes p.first; second = string_bytes p.second; threads = p.threads; limit = p.limit } };
}

impl Pair {
    /// The name of the first.
    pub fn first(&self) -> &str
        ensures { result.now ≡ self.now.first }
    {
        self.first.as_str()
    }

    /// The name of the second.
    pub fn second(&self) -> &str
        ensures { result.now ≡ self.now.second }
    {
        self.second.as_str()
    }

    /// How many threads compare code-blocks, 1 to 64; 0 for as many as the system has free.
    pub fn threads(&self) -> u32
        ensures { result ≡ self.now.threads }
    {
        self.threads
    }

    /// The most bytes that each file may have, 1 to 2^32 - 1.
    pub fn limit(&self) -> u32
        ensures { result ≡ self.now.limit }
    {
        self.limit
    }
}

/// Names that are kept.
fn pair_of(
    alloc: Global,
    first: &str,
    second: &str,
    threads: u32,
    limit: u32,
) -> Result<Pair, WordsFault>
    ensures value { IfOk result (λ pair. pair ≡ record { first = first.now; second = second.now; threads = threads; limit = limit }) }
    ensures memory { IfErr result (λ fault. fault ≡ WordsFault.NoMemory) }
{
    let Ok(first) = String::from_str(alloc, first) else {
        return Err(WordsFault::NoMemory);
    };
    let Ok(second) = String::from_str(alloc, second) else {
        return Err(WordsFault::NoMemory);
    };
    Ok(Pair {
        first,
        second,
        threads,
        limit,
    })
}

/// The names and the numbers that were found.
#[tactic(auto, unfolding(crate::specs::SameWords::pair_by))]
fn pair_by(alloc: Global, matches: &ArgMatches<'_>) -> Result<Pair, WordsFault>
    ensures good { IfOk result (λ _. are_numbers (first_value (found_of matches.now)) ≡ true) }
    ensures value { IfOk result (λ pair. pair ≡ pair_by (first_value (found_of matches.now))) }
    ensures words { result ≡ Err WordsFault.Words → are_numbers (first_value (found_of matches.now)) ≡ false }
{
    let Some(threads) = thread_count(said_of(matches, OptionName::CompareThreads)) else {
        return Err(WordsFault::Words);
    };
    let Some(limit) = limit_in(matches) else {
        return Err(WordsFault::Words);
    };
    let first = text_of(matches, "a", "");
    pair_of(alloc, first, text_of(matches, "b", ""), threads, limit)
}

/// What words ask for, of which the first is the command's name.
fn names_in(alloc: Global, words: &[String]) -> Result<Pair, WordsFault>
    ensures good { IfOk result (λ _. is_asked (map string_bytes words.now) ≡ true) }
    ensures value { IfOk result (λ pair. pair ≡ pair_by (texts_of same (map string_bytes words.now))) }
    ensures words { result ≡ Err WordsFault.Words → is_asked (map string_bytes words.now) ≡ false }
{
    let command = match same(alloc) {
        Ok(command) => command,
        Err(_) => return Err(WordsFault::NoMemory),
    };
    match matches_in(command, words) {
        Ok(matches) => pair_by(alloc, &matches),
        Err(fault) => Err(fault),
    }
}

/// Whether the second word is the command's name.
fn names_same(words: &[String]) -> bool
    ensures names { result ≡ names_same (map string_bytes words.now) }
    ensures there { result ≡ true → 2 ≤ length words.now }
{
    if words.len() < 2 {
        return false;
    }
    words[1].as_str() == "same"
}

/// Reads the words of the command line, the program's name among them: the names of the files that are compared, by how many threads, and
/// how many bytes each may have.
///
/// They name the command `same`, and clap reads the words behind it: two names, `--threads` with 1 to 64 or `auto`, which stands for it
/// where it isn't there, and `--limit-bytes` with 1 to 2^32 - 1, which is 2^28 where it isn't there.
///
/// # Errors
/// `Words` where they aren't good words, `NoMemory` where there was no memory.
#[tactic(auto, unfolding(crate::specs::SameWords::is_same, crate::specs::SameWords::same_of))]
pub fn read_same(alloc: Global, words: &[String]) -> Result<Pair, WordsFault>
    ensures good { IfOk result (λ _. is_same (map string_bytes words.now) ≡ true) }
    ensures value { IfOk result (λ pair. pair ≡ same_of (map string_bytes words.now)) }
    ensures may { IfOk result (λ pair. MayBeCompared pair) }
    ensures words { result ≡ Err WordsFault.Words → is_same (map string_bytes words.now) ≡ false }
{
    if !names_same(words) {
        return Err(WordsFault::Words);
    }
    names_in(alloc, words.split_at(1).1)
}
