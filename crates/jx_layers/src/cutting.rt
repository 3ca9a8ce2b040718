//! The planner that cuts each code-block's passes into layers at the same passes.

ghost use Rattle.std.specs.Prelude.{◌≡◌, ◌≤◌, length, None, codes, count_by, nat_le};
ghost use Rattle.jx_layers.specs.Planners.{begins_with, cuts_of};

use crate::texts::{Cuts, cuts_in};
use crate::{LayerPlanner, PassFacts, StreamFacts};

/// `cuts:` and 1 to 32 rising numbers from 1 to 220 with commas between them: a new layer at each of these passes.
#[derive(Drop)]
pub struct CutLayers {
    cuts: Option<Cuts>,
    asked: u64,
}

/// How many numbers are at most one.
fn count_to(cuts: &[u8], pass: u16) -> u16
    requires { length cuts.now ≤ 32 }
    ensures { result ≡ count_by (λ cut. nat_le cut pass) cuts.now }
{
    let mut count = 0;
    for cut in cuts {
        if u16::from(*cut) <= pass {
            count += 1;
        }
    }
    count
}

impl CutLayers {
    /// A planner that hasn't begun.
    pub fn new() -> CutLayers
        ensures rule { ⟦<CutLayers as LayerPlanner>⟧.rule result ≡ None }
        ensures serves { ⟦<CutLayers as LayerPlanner>⟧.serves_text result ≡ begins_with (codes "cuts:") }
        ensures rule_of { ⟦<CutLayers as LayerPlanner>⟧.rule_of result ≡ cuts_of }
    {
        CutLayers {
            cuts: None,
            asked: 0,
        }
    }
}

impl LayerPlanner for CutLayers {
    ghost use Rattle.std.specs.Prelude.{codes};
    ghost use Rattle.std.specs.Option.{option_map};
    ghost use Rattle.jx_layers.specs.Rule.Rule.{Cuts};
    ghost use Rattle.jx_layers.specs.Cuts.{list_of};
    ghost use Rattle.jx_layers.specs.Planners.{begins_with, cuts_of};

    ghost rule = { λ p. option_map (λ c. Cuts (list_of c)) p.cuts };

    ghost asked = { λ p. p.asked };

    ghost serves_text = { λ p. begins_with (codes "cuts:") };

    ghost rule_of = { λ p. cuts_of };

    fn serves(&self, words: &str) -> bool {
        words.starts_with("cuts:")
    }

    fn begin(&mut self, words: &str, _facts: &StreamFacts) -> Option<u16> {
        self.cuts = cuts_in(words);
        self.asked = 0;
        match &self.cuts {
            Some(cuts) => Some(cuts.as_slice().len() as u16 + 1),
            None => None,
        }
    }

    fn layer_of(&mut self, pass: &PassFacts) -> u16 {
        self.asked += 1;
        match &self.cuts {
            Some(cuts) => count_to(cuts.as_slice(), pass.pass),
            None => 0,
        }
    }
}
