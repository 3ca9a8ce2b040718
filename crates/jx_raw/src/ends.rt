//! How many bytes of a finished segment a reader has looked at.

ghost use Rattle.std.specs.Prelude.{◌≡◌, ◌≤◌, ◌∷◌, length, slice_index_or};
ghost use Rattle.jx_coder_specs.specs.RawBits.{raw_width, looked_from};

/// How many bits a byte has that stands after another: seven after FF, else eight (T.800 D.6, and C.2.7).
fn width_after(before: u8) -> u8
    ensures { result ≡ raw_width before }
{
    if before == 0xFF { 7 } else { 8 }
}

/// The byte before a place, and 0 before the first.
fn byte_before(segment: &[u8], place: usize) -> u8
    ensures { place ≤ length segment.now → result ≡ slice_index_or (0 ∷ segment.now) place 0 }
{
    if place == 0 || place > segment.len() {
        return 0;
    }
    segment[place - 1]
}

/// How many bytes of a segment have one of so many places behind its first bytes, which are counted too.
pub fn looked_from(segment: &[u8], given: usize, places: u8) -> usize
    ensures { result ≡ looked_from segment.now given places }
{
    let mut before = byte_before(segment, given);
    let mut place = given;
    let mut left = places;
    while left > 0 && place < segment.len() {
        left = left.saturating_sub(width_after(before));
        before = segment[place];
        place += 1;
    }
    place
}
