//! Laws over the definitions of segments. The functions do nothing: their contracts carry the laws.
ghost use Rattle.std.specs.Prelude.{◌≡◌, ◌++◌, ℕ, List, length, drop, None};
ghost use Rattle.jx_marker.specs.declared.Segment.{Segment};
ghost use Rattle.jx_marker.specs.Segments.{spelling, segment_at, size_at};
ghost use Rattle.jx_marker.specs.Rules.{first_broken};
ghost use Rattle.jx_marker.specs.Ranges.{InRange, AreBytes};
ghost use Rattle.jx_marker.specs.Laws.{StandsAt, BeginsWith};

/// The spelling of a segment, whatever follows it, violates no rule and is read as that segment.
pub fn spelling_is_read()
    ensures { (comps : ℕ) (segment : Segment) (rest : List ℕ) → InRange comps segment
        → StandsAt comps (spelling comps segment ++ rest) segment (length (spelling comps segment)) }
{}

/// Bytes that violate no rule begin with the spelling of the segment that they are read as, which is in
/// its ranges.
pub fn reading_is_spelled()
    ensures { (comps : ℕ) (bytes : List ℕ) → AreBytes bytes → first_broken comps bytes ≡ None
        → BeginsWith comps bytes (segment_at comps bytes) (drop (size_at bytes) bytes) }
{}

/// One place spells at most one segment.
pub fn one_segment()
    ensures { (comps : ℕ) (first second : Segment) (after rest : List ℕ) → InRange comps first → InRange comps second
        → spelling comps first ++ after ≡ spelling comps second ++ rest → (first ≡ second) × (after ≡ rest) }
{}
