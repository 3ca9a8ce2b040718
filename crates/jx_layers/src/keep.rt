//! The planners that keep the layers, or send all in one.

ghost use Rattle.std.specs.Prelude.{◌≡◌, None, codes};
ghost use Rattle.jx_layers.specs.Planners.{is_text, keep_of, one_of};

use crate::{LayerPlanner, PassFacts, StreamFacts};

/// `keep`: each pass stays in its layer.
#[derive(Drop)]
pub struct KeepLayers {
    begun: bool,
    asked: u64,
}

/// `one`: all passes are sent in one layer.
#[derive(Drop)]
pub struct OneLayer {
    begun: bool,
    asked: u64,
}

impl KeepLayers {
    /// A planner that hasn't begun.
    pub fn new() -> KeepLayers
        ensures rule { ⟦<KeepLayers as LayerPlanner>⟧.rule result ≡ None }
        ensures serves { ⟦<KeepLayers as LayerPlanner>⟧.serves_text result ≡ is_text (codes "keep") }
        ensures rule_of { ⟦<KeepLayers as LayerPlanner>⟧.rule_of result ≡ keep_of }
    {
        KeepLayers {
            begun: false,
            asked: 0,
        }
    }
}

impl LayerPlanner for KeepLayers {
    ghost use Rattle.std.specs.Prelude.{codes};
    ghost use Rattle.jx_layers.specs.Rule.Rule.{Keep};
    ghost use Rattle.jx_layers.specs.Planners.{if_begun, is_text, keep_of};

    ghost rule = { λ p. if_begun p.begun Keep };

    ghost asked = { λ p. p.asked };

    ghost serves_text = { λ p. is_text (codes "keep") };

    ghost rule_of = { λ p. keep_of };

    fn serves(&self, words: &str) -> bool {
        words == "keep"
    }

    fn begin(&mut self, words: &str, facts: &StreamFacts) -> Option<u16> {
        self.begun = words == "keep" && facts.layers >= 1;
        self.asked = 0;
        if self.begun { Some(facts.layers) } else { None }
    }

    fn layer_of(&mut self, pass: &PassFacts) -> u16 {
        self.asked += 1;
        pass.layer
    }
}

impl OneLayer {
    /// A planner that hasn't begun.
    pub fn new() -> OneLayer
        ensures rule { ⟦<OneLayer as LayerPlanner>⟧.rule result ≡ None }
        ensures serves { ⟦<OneLayer as LayerPlanner>⟧.serves_text result ≡ is_text (codes "one") }
        ensures rule_of { ⟦<OneLayer as LayerPlanner>⟧.rule_of result ≡ one_of }
    {
        OneLayer {
            begun: false,
            asked: 0,
        }
    }
}

impl LayerPlanner for OneLayer {
    ghost use Rattle.std.specs.Prelude.{codes};
    ghost use Rattle.jx_layers.specs.Rule.Rule.{One};
    ghost use Rattle.jx_layers.specs.Planners.{if_begun, is_text, one_of};

    ghost rule = { λ p. if_begun p.begun One };

    ghost asked = { λ p. p.asked };

    ghost serves_text = { λ p. is_text (codes "one") };

    ghost rule_of = { λ p. one_of };

    fn serves(&self, words: &str) -> bool {
        words == "one"
    }

    fn begin(&mut self, words: &str, _facts: &StreamFacts) -> Option<u16> {
        self.begun = words == "one";
        self.asked = 0;
        if self.begun { Some(1) } else { None }
    }

    fn layer_of(&mut self, _pass: &PassFacts) -> u16 {
        self.asked += 1;
        0
    }
}
