//! Why a run was refused, in a few lines.
ghost use Rattle.std.specs.Prelude.{◌≡◌, IfOk, map, string_bytes};
ghost use Rattle.jx_messages.specs.Limits.{limit_row};
ghost use Rattle.jx_messages.specs.Names.{inputs_in, name_in};
ghost use Rattle.jx_messages.specs.Rules.{rule_row};
ghost use Rattle.jx_messages.specs.Sentences.{IsExplained, block_sentence, choice_sentence, limit_filled, limit_front, limit_sentence, misfit_sentence, no_memory_sentence, read_sentence, rule_filled, rule_front, rule_sentence, write_sentence};
ghost use Rattle.jx_messages.specs.Shown.{shown_all};

use crate::Refusal;
use crate::choices::{choice_text, misfit_text, option_of};
use crate::commands::words_text;
use crate::differences::differs_text;
use crate::limits::{LimitText, limit_text};
use crate::rules::{RuleText, rule_text};
use crate::shown::shown_words;
use crate::words::{asked, inputs_of, name_at, writes_nowhere};
use std::alloc::{AllocError, Global};

/// What stands at a byte of the input, and what is wrong with it.
#[tactic(auto, unfolding(crate::specs::Sentences::rule_front))]
fn rule_front(
    alloc: Global,
    input: &str,
    what: &str,
    place: u64,
    wrong: &str,
) -> Result<String, AllocError>
    ensures { IfOk result (λ said. string_bytes said ≡ rule_front input.now what.now place wrong.now) }
{
    format!(in alloc; "jx: {input}: {what} at byte {place}:\n    {wrong}\n")
}

/// A rule's row with its number, the byte, and the input's name.
#[tactic(auto, unfolding(crate::specs::Sentences::rule_filled, crate::specs::Rules::rule_row))]
fn rule_filled(
    alloc: Global,
    text: RuleText,
    number: u8,
    place: u64,
    input: &str,
) -> Result<String, AllocError>
    ensures { IfOk result (λ said. string_bytes said
        ≡ rule_filled (rule_row text.what.now text.wrong.now text.section.now) number place input.now) }
{
    let front = rule_front(alloc, input, text.what, place, text.wrong)?;
    let section = text.section;
    format!(in alloc; "{front}    (T.800 {section}; rule {number})\n")
}

/// A rule that is violated by a file.
fn rule(alloc: Global, number: u8, place: u64, input: &str) -> Result<String, AllocError>
    ensures { IfOk result (λ text. string_bytes text ≡ rule_sentence number place input.now) }
{
    rule_filled(alloc, rule_text(number), number, place, input)
}

/// What was counted in the input.
#[tactic(auto, unfolding(crate::specs::Sentences::limit_front))]
fn limit_front(alloc: Global, input: &str, found: u128, what: &str) -> Result<String, AllocError>
    ensures { IfOk result (λ said. string_bytes said ≡ limit_front input.now found what.now) }
{
    format!(in alloc; "jx: {input}: {found} {what},\n")
}

/// A limit's row with its number, what was found, and the input's name.
#[tactic(auto, unfolding(crate::specs::Sentences::limit_filled, crate::specs::Limits::limit_row))]
fn limit_filled(
    alloc: Global,
    text: LimitText,
    number: u8,
    found: u128,
    input: &str,
) -> Result<String, AllocError>
    ensures { IfOk result (λ said. string_bytes said
        ≡ limit_filled (limit_row text.what.now text.most text.advice.now) number found input.now) }
{
    let front = limit_front(alloc, input, found, text.what)?;
    let most = text.most;
    let advice = text.advice;
    format!(in alloc; "{front}    and this program takes at most {most} (limit {number}){advice}\n")
}

/// A limit that is passed by a file.
fn limit(alloc: Global, number: u8, found: u128, input: &str) -> Result<String, AllocError>
    ensures { IfOk result (λ text. string_bytes text ≡ limit_sentence number found input.now) }
{
    limit_filled(alloc, limit_text(number, found), number, found, input)
}

/// A choice that can't be had.
fn choice(alloc: Global, number: u8, place: u32, words: &[String]) -> Result<String, AllocError>
    ensures { IfOk result (λ text. string_bytes text ≡ choice_sentence number place (map string_bytes words.now)) }
{
    choice_text(alloc, number, place, asked(words, option_of(number)))
}

/// Precincts that can't be had, with what the input has at the first component and resolution where they can't.
fn misfit(
    alloc: Global,
    place: u32,
    comp: u16,
    res: u8,
    across: u8,
    down: u8,
    words: &[String],
) -> Result<String, AllocError>
    ensures { IfOk result (λ text. string_bytes text
        ≡ misfit_sentence place comp res across down (map string_bytes words.now)) }
{
    let list = asked(words, option_of(2));
    misfit_text(alloc, place, comp, res, across, down, list)
}

/// A block that is damaged.
fn block(alloc: Global, number: u32, words: &[String]) -> Result<String, AllocError>
    ensures { IfOk result (λ text. string_bytes text ≡ block_sentence number (name_in (map string_bytes words.now) 0)) }
{
    let input = name_at(words, 0);
    format!(in alloc;
        "jx: {input}: code-block {number} was to be coded anew for --style, and\n    one of its segmentation symbols is wrong, so its bytes are damaged:\n    --style keep takes them as they are (T.800 D.5)\n"
    )
}

/// An input that couldn't be opened or read.
fn read_fault(alloc: Global, words: &[String]) -> Result<String, AllocError>
    ensures { IfOk result (λ text. string_bytes text ≡ read_sentence (inputs_in (map string_bytes words.now))) }
{
    let input = inputs_of(alloc, words)?;
    format!(in alloc;
        "jx: {input} could not be opened or read:\n    is it there, and may you read it?\n"
    )
}

/// An output that couldn't be written, or a line that couldn't be said.
fn write_fault(alloc: Global, words: &[String]) -> Result<String, AllocError>
    ensures { IfOk result (λ text. string_bytes text ≡ write_sentence (map string_bytes words.now)) }
{
    if writes_nowhere(words) {
        return String::from_str(
            alloc,
            "jx: standard output was closed, or could not be written\n",
        );
    }
    let output = name_at(words, 1);
    format!(in alloc;
        "jx: {output} could not be created, written, brought to its disk or\n    given its name, or standard output was closed; an older {output}\n    is as it was, unless the new one was made whole\n"
    )
}

/// Why a run was refused, over words that may be shown.
fn explained(alloc: Global, refusal: Refusal, words: &[String]) -> Result<String, AllocError>
    ensures { IfOk result (λ text. IsExplained refusal (map string_bytes words.now) (string_bytes text)) }
{
    match refusal {
        Refusal::Words => words_text(alloc, words),
        Refusal::Rule { number, place } => rule(alloc, number, place, name_at(words, 0)),
        Refusal::Limit { number, found } => limit(alloc, number, found, name_at(words, 0)),
        Refusal::Choice { number, place } => choice(alloc, number, place, words),
        Refusal::Misfit {
            place,
            comp,
            res,
            across,
            down,
        } => misfit(alloc, place, comp, res, across, down, words),
        Refusal::Block { number } => block(alloc, number, words),
        Refusal::Differs(difference) => {
            differs_text(alloc, difference, name_at(words, 0), name_at(words, 1))
        }
        Refusal::SecondRule { number, place } => rule(alloc, number, place, name_at(words, 1)),
        Refusal::SecondLimit { number, found } => limit(alloc, number, found, name_at(words, 1)),
        Refusal::ReadFault => read_fault(alloc, words),
        Refusal::WriteFault => write_fault(alloc, words),
        Refusal::NoMemory => String::from_str(
            alloc,
            "jx: the system gave too little memory: close other programs\n",
        ),
    }
}

/// Why a run on these words was refused, and what to ask instead: a few lines, each of which ends with a line feed. Control characters in the
/// words are shown as `\x` and two digits.
///
/// # Errors
///
/// `AllocError` where memory is refused.
pub fn explain(alloc: Global, refusal: Refusal, words: &[String]) -> Result<String, AllocError>
    ensures { IfOk result (λ text. IsExplained refusal (shown_all (map string_bytes words.now)) (string_bytes text)) }
{
    let shown = shown_words(alloc, words)?;
    explained(alloc, refusal, &shown)
}
