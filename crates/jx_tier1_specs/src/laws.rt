//! Laws of coded passes, over their definitions alone.

ghost use Rattle.std.specs.Prelude.{◌≡◌, ◌≤◌, ℕ, List, [], take, None};
ghost use Rattle.jx_coder_specs.specs.MqTable.{mq_fresh};
ghost use Rattle.jx_base.specs.Passes.{raw_pass};
ghost use Rattle.jx_tier1_specs.specs.Cells.{Cells};
ghost use Rattle.jx_tier1_specs.specs.Reading.{Coding, zeros, decoded};
ghost use Rattle.jx_tier1_specs.specs.Needs.{followed_from, needs, written, Fits};
ghost use Rattle.jx_tier1_specs.specs.Writing.{fresh_writing};
ghost use Rattle.jx_tier1_specs.specs.Ends.{ends_from};
ghost use Rattle.jx_tier1_specs.specs.Alike.{HasPasses, AreAlike, AreOfOneBlock, EndsPlane};

/// The segments that are written for a grid are read back: the first passes of them give what the
/// grid calls for in these passes, every segmentation symbol is right, and where the grid fits the
/// passes all of them give the grid.
pub fn written_is_read_back()
    ensures first { (c : Coding) → (g : Cells) → (passes : ℕ) → (first : ℕ) → first ≤ passes →
        (decoded g.width g.height c (written c g passes) first).cells ≡ followed_from c g first 0 (zeros g.width g.height) }
    ensures right { (c : Coding) → (g : Cells) → (passes : ℕ) → (first : ℕ) → first ≤ passes →
        (decoded g.width g.height c (written c g passes) first).wrong ≡ None }
    ensures grid { (c : Coding) → (g : Cells) → (passes : ℕ) → Fits c g passes →
        (decoded g.width g.height c (written c g passes) passes).cells ≡ g }
{
    jx_mq::laws::decisions_are_read_back();
    jx_raw::laws::raw_bits_are_read_back();
}

/// How many bytes a decoder of the segments that are written for a grid has looked at by the end of
/// each pass is told by where the encoder stood then, and of any segments the first passes by
/// themselves tell as much.
pub fn ends_of_passes_are_told()
    ensures told { (c : Coding) → (g : Cells) → (passes : ℕ) →
        (decoded g.width g.height c (written c g passes) passes).looked ≡ ends_from c.style 0 [] (fresh_writing g (raw_pass c.style 0) mq_fresh) (needs c g passes) }
    ensures first { (width : ℕ) → (height : ℕ) → (c : Coding) → (segments : List (List ℕ)) → (passes : ℕ) → (first : ℕ) → first ≤ passes →
        (decoded width height c segments first).looked ≡ take first (decoded width height c segments passes).looked }
{
    jx_mq::laws::decisions_are_read_back();
    jx_mq::laws::ends_are_told();
    jx_raw::laws::raw_bits_are_read_back();
    jx_raw::laws::raw_bits_one_by_one();
    jx_raw::laws::raw_ends_are_told();
}

/// Coefficients that were decoded from any segments fit the same passes in every style that agrees on
/// causal contexts: where they answer, the first passes make again what was decoded in these.
pub fn decoded_fits()
    ensures first { (width : ℕ) → (height : ℕ) → (c : Coding) → (d : Coding) → (segments : List (List ℕ)) → (passes : ℕ) → (first : ℕ) →
        first ≤ passes → HasPasses c passes → AreAlike c d →
        followed_from d (decoded width height c segments passes).cells first 0 (zeros width height) ≡ (decoded width height c segments first).cells }
    ensures size { (width : ℕ) → (height : ℕ) → (c : Coding) → (segments : List (List ℕ)) → (passes : ℕ) → HasPasses c passes →
        ((decoded width height c segments passes).cells.width ≡ width) × ((decoded width height c segments passes).cells.height ≡ height) }
    ensures fits { (width : ℕ) → (height : ℕ) → (c : Coding) → (d : Coding) → (segments : List (List ℕ)) → (passes : ℕ) →
        HasPasses c passes → AreAlike c d → Fits d (decoded width height c segments passes).cells passes }
{}

/// Recoding keeps each coefficient: what was decoded from any segments, coded in a style that agrees
/// on causal contexts, is decoded again, also by the first passes alone.
pub fn recoding_keeps_coefficients()
    ensures first { (width : ℕ) → (height : ℕ) → (c : Coding) → (d : Coding) → (segments : List (List ℕ)) → (passes : ℕ) → (first : ℕ) →
        first ≤ passes → HasPasses c passes → AreAlike c d →
        (decoded width height d (written d (decoded width height c segments passes).cells passes) first).cells
        ≡ (decoded width height c segments first).cells }
    ensures right { (width : ℕ) → (height : ℕ) → (c : Coding) → (d : Coding) → (segments : List (List ℕ)) → (passes : ℕ) → (first : ℕ) →
        first ≤ passes → HasPasses c passes → AreAlike c d →
        (decoded width height d (written d (decoded width height c segments passes).cells passes) first).wrong ≡ None }
{
    written_is_read_back();
    decoded_fits();
}

/// Coefficients that were decoded by passes which end with a plane fit the same passes in every
/// style, whatever its causal bit: where they answer, the first passes make again what was decoded in
/// these, where these end with a plane too.
pub fn whole_planes_fit()
    ensures first { (width : ℕ) → (height : ℕ) → (c : Coding) → (d : Coding) → (segments : List (List ℕ)) → (passes : ℕ) → (first : ℕ) →
        first ≤ passes → EndsPlane passes → EndsPlane first → HasPasses c passes → AreOfOneBlock c d →
        followed_from d (decoded width height c segments passes).cells first 0 (zeros width height) ≡ (decoded width height c segments first).cells }
    ensures fits { (width : ℕ) → (height : ℕ) → (c : Coding) → (d : Coding) → (segments : List (List ℕ)) → (passes : ℕ) →
        EndsPlane passes → HasPasses c passes → AreOfOneBlock c d → Fits d (decoded width height c segments passes).cells passes }
{}

/// Recoding whole planes keeps each coefficient in every style.
pub fn recoding_keeps_whole_planes()
    ensures { (width : ℕ) → (height : ℕ) → (c : Coding) → (d : Coding) → (segments : List (List ℕ)) → (passes : ℕ) → (first : ℕ) →
        first ≤ passes → EndsPlane passes → EndsPlane first → HasPasses c passes → AreOfOneBlock c d →
        (decoded width height d (written d (decoded width height c segments passes).cells passes) first).cells
        ≡ (decoded width height c segments first).cells }
{
    written_is_read_back();
    decoded_fits();
    whole_planes_fit();
}
