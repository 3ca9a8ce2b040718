//! The trait of a source of decisions.

ghost use Rattle.std.specs.Prelude.{◌≡◌, ◌<◌, ℕ, Bool, true, IfOk, IsOk, OnOk};

use crate::Question;
use jx_base::NoMemory;

/// Whoever answers for the decisions of coding passes.
pub trait Source {
    ghost use Rattle.std.specs.Prelude.{Bool};
    ghost use Rattle.jx_tier1_specs.specs.declared.question.Question.{Question};

    /// The answer to a question, and the source after it.
    ghost ask: { Self → Question → Bool × Self };

    /// Whether it is never refused memory.
    ghost is_sure: { Bool };

    /// Answers a question. After `NoMemory` the source is given up.
    fn ask(&mut self, question: Question) -> Result<bool, NoMemory>
        requires label { question.label < 19 }
        requires shift { question.shift < 128 }
        ensures answer { IfOk result (λ answer. answer ≡ (ask self.old question).0) }
        ensures after { OnOk result (self.new ≡ (ask self.old question).1) }
        ensures sure { is_sure ≡ true → IsOk result };
}
