//! Words of a block's places: eight columns of a stripe's four rows, place (column, row) at bit
//! 6·column + row (T.800, D.1).

ghost use Rattle.std.specs.Prelude.{◌≡◌, ◌≢◌, ℕ, ◌+◌, ◌-◌, ◌*◌, ◌<◌, ◌≤◌, ◌==◌, ◌%◌, ◌&&◌, nat_lt, max, min, if◌then◌else◌};
ghost use Rattle.std.specs.Int.{bit_at};
ghost use Rattle.jx_tier1_specs.specs.Near.{one_if};
ghost use Rattle.jx_tier1.specs.Places.{IsWord, AreColumns, in_window, of_nine, of_eight, HasNine, HasFour};

/// The rows above and below the eight columns of a window that are a word's own.
const ABOVE: u64 = 0x0001_0410_4104_1040;

const BELOW: u64 = 0x0020_8208_2082_0800;

/// Eight columns with the row above them and the row below them, as the columns 1 to 8 of a window.
#[inline(always)]
pub(crate) fn columns(own: u64, above: u64, below: u64) -> u64
    requires { IsWord own }
    ensures { AreColumns own above below result }
{
    own << 7 | (above << 3) & ABOVE | (below << 11) & BELOW
}

/// The window of a word: its columns, and the nearest ones of the words to its sides.
#[inline(always)]
pub(crate) fn window(left: u64, own: u64, right: u64) -> u64
    requires left { (i : ℕ) → 54 ≤ i → bit_at left i ≡ 0 }
    requires before { (i : ℕ) → i < 6 → bit_at own i ≡ 0 }
    requires behind { (i : ℕ) → 54 ≤ i → bit_at own i ≡ 0 }
    requires right { (i : ℕ) → i < 6 → bit_at right i ≡ 0 }
    ensures { (column : ℕ) → (row : ℕ) → column < 10 → row < 6 → bit_at result (6 * column + row) ≡ in_window left own right column row }
{
    own | left >> 48 | right << 48
}

/// The places that have a significant one among their nine.
#[inline(always)]
pub(crate) fn near(window: u64) -> u64
    ensures { (i : ℕ) → bit_at result i ≡ of_nine window i }
{
    let rows = window | window >> 1 | window >> 2;
    rows | rows >> 6 | rows >> 12
}

/// The places that have one among their eight neighbours.
#[inline(always)]
pub(crate) fn beside(window: u64) -> u64
    ensures { (i : ℕ) → bit_at result i ≡ of_eight window i }
{
    let rows = window | window >> 1 | window >> 2;
    rows | rows >> 12 | (window | window >> 2) >> 6
}

/// The lowest of some places.
#[inline(always)]
pub(crate) fn lowest(places: u64) -> u32
    requires { 0 < places }
    ensures place { bit_at places result ≡ 1 }
    ensures first { (i : ℕ) → i < result → bit_at places i ≡ 0 }
    ensures few { result < 64 }
{
    places.trailing_zeros()
}

/// The places behind one, in the order of the scan.
#[inline(always)]
pub(crate) fn behind(places: u64, place: u32) -> u64
    requires { place < 64 }
    ensures before { (i : ℕ) → i ≤ place → bit_at result i ≡ 0 }
    ensures behind { (i : ℕ) → place < i → bit_at result i ≡ bit_at places i }
{
    places & (u64::MAX - 1) << place
}

/// A window with one more significant place.
#[inline(always)]
pub(crate) fn raised(window: u64, place: u32) -> u64
    requires { place < 57 }
    ensures place { bit_at result (place + 7) ≡ 1 }
    ensures others { (i : ℕ) → i ≢ place + 7 → bit_at result i ≡ bit_at window i }
{
    window | 128u64 << place
}

/// A window of signs, its places one bit higher, with one more sign.
#[inline(always)]
pub(crate) fn signed(signs: u64, place: u32, negative: bool) -> u64
    requires { place < 56 }
    ensures place { bit_at result (place + 8) ≡ max (bit_at signs (place + 8)) (one_if negative) }
    ensures others { (i : ℕ) → i ≢ place + 8 → bit_at result i ≡ bit_at signs i }
{
    signs | u64::from(negative) << (place + 8)
}

/// The places that have a place which becomes significant among their nine, of those behind it: the
/// one below, and three of the next column.
#[inline(always)]
pub(crate) fn following(place: u32) -> u64
    requires { place < 56 }
    ensures below { bit_at result (place + 1) ≡ 1 }
    ensures first { bit_at result (place + 5) ≡ 1 }
    ensures second { bit_at result (place + 6) ≡ 1 }
    ensures third { bit_at result (place + 7) ≡ 1 }
    ensures others { (i : ℕ) → i ≢ place + 1 → i ≢ place + 5 → i ≢ place + 6 → i ≢ place + 7 → bit_at result i ≡ 0 }
{
    0xE2u64 << place
}

/// The number of a place in the table of first bits: a bit for itself and each of its neighbours.
#[inline(always)]
pub(crate) fn label_index(window: u64, place: u32) -> usize
    requires { place < 48 }
    ensures { HasNine window place result }
{
    let around = (window >> place) & 0x71C7;
    ((around | around >> 9) % 512) as usize
}

/// The number of a place in the table of signs: two bits for each of its four nearest, whether it is
/// significant and whether it is negative.
#[inline(always)]
pub(crate) fn sign_index(window: u64, signs: u64, place: u32) -> usize
    requires { place < 48 }
    ensures { HasFour window signs place result }
{
    let around = (window >> place) & 0x2142 | (signs >> place) & 0x4284;
    ((around >> 6 | around << 3) % 512) as usize
}

/// So many rows of each of the eight columns.
#[inline(always)]
pub(crate) fn rows(count: u16) -> u64
    requires { count ≤ 4 }
    ensures { (i : ℕ) → i < 64 → bit_at result i ≡ one_if (nat_lt (i % 6) count && nat_lt i 48) }
{
    if count == 0 {
        return 0;
    }
    if count == 1 {
        return 0x0000_0410_4104_1041;
    }
    if count == 2 {
        return 0x0000_0C30_C30C_30C3;
    }
    if count == 3 {
        return 0x0000_1C71_C71C_71C7;
    }
    0x0000_3CF3_CF3C_F3CF
}

/// So many columns, in all rows.
#[inline(always)]
pub(crate) fn first_columns(count: u16) -> u64
    requires { count ≤ 8 }
    ensures below { (i : ℕ) → i < 6 * count → bit_at result i ≡ 1 }
    ensures behind { (i : ℕ) → 6 * count ≤ i → bit_at result i ≡ 0 }
{
    (1u64 << (6 * count)) - 1
}

/// The columns whose four places are in a word, at the bits of their first places.
#[inline(always)]
pub(crate) fn whole_columns(places: u64) -> u64
    ensures first { (i : ℕ) → i < 48 → i % 6 ≡ 0 → bit_at result i ≡ min (min (bit_at places i) (bit_at places (i + 1))) (min (bit_at places (i + 2)) (bit_at places (i + 3))) }
    ensures others { (i : ℕ) → i % 6 ≢ 0 → bit_at result i ≡ 0 }
    ensures behind { (i : ℕ) → 48 ≤ i → bit_at result i ≡ 0 }
{
    places & places >> 1 & places >> 2 & places >> 3 & 0x0000_0410_4104_1041
}
