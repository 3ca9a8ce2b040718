//! What is stated, as text: lines, or members of a JSON object.

ghost use Rattle.std.specs.Prelude.{◌≡◌, ◌++◌, [], ◌∷◌, OnOk, string_bytes};
ghost use Rattle.std.specs.List.{flat_map};
ghost use Rattle.jx_show.specs.Facts.{One, Precincts, kept};
ghost use Rattle.jx_show.specs.Stated.{statement_text, text_of};

use crate::fact::{About, Fact};
use crate::{json, lines, sizes};
use jx_base::NoMemory;
use std::alloc::AllocError;

/// Appends a fact.
#[tactic(auto, unfolding(crate::specs::Stated::statement_text))]
fn push_text(text: &mut String, json: bool, fact: &Fact) -> Result<(), AllocError>
    ensures { OnOk result (string_bytes text.new ≡ string_bytes text.old ++ statement_text json (One fact.now)) }
{
    if json {
        json::push_fact(text, fact)
    } else {
        lines::push_fact(text, fact)
    }
}

/// Appends a fact.
pub(crate) fn push_one(text: &mut String, json: bool, fact: Fact) -> Result<(), NoMemory>
    ensures { OnOk result (string_bytes text.new ≡ string_bytes text.old ++ text_of json (One fact ∷ [])) }
{
    push_text(text, json, &fact)?;
    Ok(())
}

/// Appends facts.
pub(crate) fn push_all(text: &mut String, json: bool, facts: &[Fact]) -> Result<(), NoMemory>
    ensures { OnOk result (string_bytes text.new
        ≡ string_bytes text.old ++ flat_map (λ fact. statement_text json (One fact)) facts.now) }
{
    for fact in facts {
        push_text(text, json, fact)?;
    }
    Ok(())
}

/// Appends a fact where it holds that it is stated.
pub(crate) fn push_kept(
    text: &mut String,
    json: bool,
    holds: bool,
    fact: Fact,
) -> Result<(), NoMemory>
    ensures { OnOk result (string_bytes text.new ≡ string_bytes text.old ++ text_of json (kept holds (One fact))) }
{
    if holds {
        push_text(text, json, &fact)?;
    }
    Ok(())
}

/// Appends the precincts of all resolutions.
#[tactic(auto, unfolding(crate::specs::Stated::statement_text))]
pub(crate) fn push_precincts(
    text: &mut String,
    json: bool,
    about: About,
    bytes: &[u8],
) -> Result<(), NoMemory>
    ensures { OnOk result (string_bytes text.new
        ≡ string_bytes text.old ++ text_of json (Precincts about bytes.now ∷ [])) }
{
    if json {
        sizes::push_member(text, about, bytes)?;
        return Ok(());
    }
    sizes::push_line(text, about, bytes)?;
    Ok(())
}
