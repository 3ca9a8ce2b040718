//! Numbers in decimal digits.

ghost use Rattle.std.specs.Prelude.{◌≡◌, ◌≤◌, ◌↔◌, IsTrue, slice_index};
ghost use Rattle.jx_base.specs.Texts.{number_in};

/// Whether a word begins with a digit that isn't 0.
fn begins_well(word: &str) -> bool
    ensures { IsTrue result ↔ ((49 ≤ slice_index word.now 0) × (slice_index word.now 0 ≤ 57)) }
{
    match word.as_bytes().first() {
        Some(byte) => matches!(*byte, b'1'..=b'9'),
        None => false,
    }
}

/// The number from 1 to `most` that a word says in decimal digits, without a sign or a leading zero.
pub fn long_number_in(most: u64, word: &str) -> Option<u64>
    ensures { result ≡ number_in most word.now }
{
    if !begins_well(word) {
        return None;
    }
    let Ok(number) = word.parse::<u64>() else {
        return None;
    };
    if number > most {
        return None;
    }
    Some(number)
}

/// As `long_number_in`, of numbers that fit 32 bits.
pub fn number_in(most: u32, word: &str) -> Option<u32>
    ensures { result ≡ number_in most word.now }
{
    match long_number_in(u64::from(most), word) {
        Some(number) => Some(number as u32),
        None => None,
    }
}
