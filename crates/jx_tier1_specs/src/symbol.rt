//! The segmentation symbol (T.800, D.5).

ghost use Rattle.std.specs.Prelude.{◌≡◌, IfOk, OnOk, true, IsOk};
ghost use Rattle.jx_tier1_specs.specs.Asking.{told};
ghost use Rattle.jx_tier1_specs.specs.Symbol.{symbol_bit, symbol_asked};

use crate::{About, Question, Source};
use jx_base::NoMemory;

/// A bit of a segmentation symbol, and which bit it should be.
fn bit_of_symbol(bit: bool) -> Question
    ensures { result ≡ symbol_bit bit }
{
    Question {
        label: 18,
        turned: false,
        shift: 0,
        about: About::Symbol(bit),
    }
}

/// Whether a segmentation symbol is 1010 (T.800 D.5). After `NoMemory` the source is given up.
#[tactic(auto, unfolding(crate::specs::Symbol::symbol_asked))]
pub fn ask_symbol<S: Source>(source: &mut S) -> Result<bool, NoMemory>
    ensures symbol { IfOk result (λ right. right ≡ (told S.ask symbol_asked source.old).0) }
    ensures source { OnOk result (source.new ≡ (told S.ask symbol_asked source.old).1) }
    ensures sure { S.is_sure ≡ true → IsOk result }
{
    let a = source.ask(bit_of_symbol(true))?;
    let b = source.ask(bit_of_symbol(false))?;
    let c = source.ask(bit_of_symbol(true))?;
    let d = source.ask(bit_of_symbol(false))?;
    Ok(a && !b && c && !d)
}
