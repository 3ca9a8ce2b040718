//! Faults of files and of standard output in words, with the system's own.
ghost use Rattle.std.specs.Prelude.{◌≡◌, IfOk, map, string_bytes};
ghost use Rattle.jx_messages.specs.Faults.{fault_words, input_words, instead_words, line_words, name_words, older_words, output_words};
ghost use Rattle.jx_messages.specs.Names.{inputs_in};
ghost use Rattle.jx_messages.specs.Shown.{shown_all};

use crate::shown::shown_words;
use crate::words::{inputs_of, name_at, writes_nowhere};
use jx_io::Step;
use std::alloc::{AllocError, Global};

/// An input that couldn't be opened or read.
fn input(alloc: Global, name: &str, done: &str, cause: &str) -> Result<String, AllocError>
    ensures { IfOk result (λ text. string_bytes text ≡ input_words name.now done.now cause.now) }
{
    format!(in alloc; "jx: {name} could not be {done}: {cause}\n")
}

/// The same of the files that are read.
fn inputs(alloc: Global, words: &[String], done: &str, cause: &str) -> Result<String, AllocError>
    ensures { IfOk result (λ text. string_bytes text
        ≡ input_words (inputs_in (map string_bytes words.now)) done.now cause.now) }
{
    let names = inputs_of(alloc, words)?;
    input(alloc, names.as_str(), done, cause)
}

/// An output as which something couldn't be done, and the older one stands.
fn older(alloc: Global, name: &str, done: &str, cause: &str) -> Result<String, AllocError>
    ensures { IfOk result (λ text. string_bytes text ≡ older_words name.now done.now cause.now) }
{
    format!(in alloc; "jx: {name} could not {done}: {cause}\n    an older {name} is as it was\n")
}

/// An output that is written as it stands.
fn output(alloc: Global, name: &str, cause: &str) -> Result<String, AllocError>
    ensures { IfOk result (λ text. string_bytes text ≡ output_words name.now cause.now) }
{
    format!(in alloc;
        "jx: {name} could not be written: {cause}\n    it may have a front of the codestream\n"
    )
}

/// An output that may be written and can't be replaced.
fn instead(alloc: Global, name: &str, why: &str) -> Result<String, AllocError>
    ensures { IfOk result (λ text. string_bytes text ≡ instead_words name.now why.now) }
{
    format!(in alloc;
        "jx: {name} can't be replaced: {why};\n    name an OUT in another folder, and copy it over {name} (cp)\n"
    )
}

/// An output whose name couldn't be brought to the disk.
fn settled(alloc: Global, name: &str, cause: &str) -> Result<String, AllocError>
    ensures { IfOk result (λ text. string_bytes text ≡ name_words name.now cause.now) }
{
    format!(in alloc;
        "jx: {name} was made whole, but its name could not be brought to the disk:\n    {cause}\n"
    )
}

/// A line that couldn't be said.
fn line(alloc: Global, words: &[String], cause: &str) -> Result<String, AllocError>
    ensures { IfOk result (λ text. string_bytes text ≡ line_words (map string_bytes words.now) cause.now) }
{
    if writes_nowhere(words) {
        return format!(in alloc; "jx: the line of the result could not be written: {cause}\n");
    }
    let name = name_at(words, 1);
    format!(in alloc;
        "jx: the line of the result could not be written: {cause}\n    {name} is as it was, or whole\n"
    )
}

/// A fault in words, over words that may be shown.
#[tactic(auto, unfolding(crate::specs::Faults::fault_words))]
fn fault_text(
    alloc: Global,
    step: Step,
    cause: &str,
    words: &[String],
) -> Result<String, AllocError>
    ensures { IfOk result (λ text. string_bytes text ≡ fault_words step cause.now (map string_bytes words.now)) }
{
    match step {
        Step::Open => inputs(alloc, words, "opened", cause),
        Step::Read => inputs(alloc, words, "read", cause),
        Step::Create => input(alloc, name_at(words, 1), "created", cause),
        Step::Draft => instead(alloc, name_at(words, 1), cause),
        Step::Mount => instead(alloc, name_at(words, 1), "it is a mount"),
        Step::Sticky => instead(
            alloc,
            name_at(words, 1),
            "it is another user's, in a sticky folder",
        ),
        Step::Write => older(alloc, name_at(words, 1), "be written", cause),
        Step::WriteOn => output(alloc, name_at(words, 1), cause),
        Step::Sync => older(alloc, name_at(words, 1), "be brought to its disk", cause),
        Step::Rename => older(alloc, name_at(words, 1), "take its name", cause),
        Step::Folder => settled(alloc, name_at(words, 1), cause),
        Step::Say => line(alloc, words, cause),
    }
}

/// Why a run on these words ended with a fault, by what was being done and the system's words for the cause: a line or two, each of which
/// ends with a line feed. Control characters in the words are shown as `\x` and two digits.
///
/// # Errors
///
/// `AllocError` where memory is refused.
pub fn explain_fault(
    alloc: Global,
    step: Step,
    cause: &str,
    words: &[String],
) -> Result<String, AllocError>
    ensures { IfOk result (λ text. string_bytes text
        ≡ fault_words step cause.now (shown_all (map string_bytes words.now))) }
{
    let shown = shown_words(alloc, words)?;
    fault_text(alloc, step, cause, &shown)
}
