//! Laws of raw bits, over their definitions alone.

ghost use Rattle.std.specs.Prelude.{◌≡◌, ◌≤◌, ℕ, ◌+◌, ◌-◌, ◌/◌, Bool, List, [], ◌∷◌, ◌++◌, length, take, drop};
ghost use Rattle.jx_base.specs.Markers.{HasNoMarker};
ghost use Rattle.jx_coder_specs.specs.RawBits.{raw_bits, raw_read, raw_looked, raw_write};
ghost use Rattle.jx_raw.specs.RawReading.{first_or_one};

/// What was written of some bits is read back, and has no FF before a byte above 8F and none at
/// its end.
pub fn raw_bits_are_read_back()
    ensures bits { (bits : List Bool) → raw_read (raw_write bits) (length bits) ≡ bits }
    ensures markers { (bits : List Bool) → HasNoMarker 0 (raw_write bits) }
{}

/// The first bits of a segment are those that a reader gives one by one, and depend only on the
/// bytes that it looked at for them.
pub fn raw_bits_one_by_one()
    ensures next { (segment : List ℕ) → (n : ℕ) →
        raw_read segment (n + 1) ≡ raw_read segment n ++ first_or_one (drop n (raw_bits segment)) ∷ [] }
    ensures looked { (segment : List ℕ) → (n : ℕ) →
        raw_looked segment (length (raw_bits segment) - length (drop n (raw_bits segment))) ≡ raw_looked segment n }
    ensures cut { (segment : List ℕ) → (n : ℕ) → (k : ℕ) →
        raw_looked segment n ≤ k → raw_read (take k segment) n ≡ raw_read segment n }
{}

/// A segment has no more bytes than its bits make at seven in a byte.
pub fn raw_segments_are_short()
    ensures { (bits : List Bool) → length (raw_write bits) ≤ (length bits + 6) / 7 }
{}

/// The first bits of a segment are those of every segment that has the bytes looked at for them, a last
/// FF that is left out is given back by the ones past the end, and more bits look at no fewer bytes.
pub fn raw_bits_depend_on_bytes_looked_at()
    ensures same { (s : List ℕ) → (t : List ℕ) → (n : ℕ) → n ≤ length (raw_bits s) →
        take (raw_looked s n) t ≡ take (raw_looked s n) s → raw_read t n ≡ raw_read s n }
    ensures dropped { (s : List ℕ) → (n : ℕ) → raw_read (s ++ 255 ∷ []) n ≡ raw_read s n }
    ensures more { (s : List ℕ) → (m : ℕ) → (n : ℕ) → m ≤ n → raw_looked s m ≤ raw_looked s n }
{}

/// The bytes that a reader of a finished segment looks at for its first bits are those that these bits
/// make by themselves.
pub fn raw_ends_are_told()
    ensures { (bits : List Bool) → (more : List Bool) →
        raw_looked (raw_write (bits ++ more)) (length bits) ≡ raw_looked (raw_write bits) (length bits) }
{}
