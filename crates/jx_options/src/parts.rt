//! Texts that are cut.

ghost use Rattle.std.specs.Prelude.{◌≡◌, ◌<◌, ◌≤◌, ◌∷◌, eqb, length};
ghost use Rattle.std.specs.List.{position_or_len};
ghost use Rattle.jx_options.specs.Parts.{left_of, more_parts};
ghost use Rattle.jx_options.specs.Values.{parts_of};

/// The place of the first separator of a text, or its length.
fn first_place(separator: u8, text: &[u8]) -> usize
    ensures value { result ≡ position_or_len (λ b. eqb b separator) text.now }
    ensures bound { result ≤ length text.now }
{
    for (place, byte) in text.iter().enumerate() {
        if *byte == separator {
            return place;
        }
    }
    text.len()
}

/// What stands before the first separator of a text, and what stands after it where there is one.
pub(crate) fn first_part<'a>(separator: u8, text: &'a [u8]) -> (&'a [u8], Option<&'a [u8]>)
    ensures parts { parts_of separator text.entry.now ≡ result.0.now ∷ more_parts separator result.1 }
    ensures less { left_of result.1 ≤ length text.entry.now }
{
    let (part, rest) = text.split_at(first_place(separator, text));
    if rest.is_empty() {
        return (part, None);
    }
    (part, Some(rest.split_at(1).1))
}
