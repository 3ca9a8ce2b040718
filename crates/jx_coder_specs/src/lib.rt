//! What the two coders of decisions read and write, as definitions alone: the arithmetic coder (ITU-T T.800, Annex C) and raw bits (D.6).
#![tactic(auto)]
