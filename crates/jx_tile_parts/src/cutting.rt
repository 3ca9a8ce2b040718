//! The packets of a tile-part, and where it ends.

ghost use Rattle.std.specs.Prelude.{◌≡◌, ◌∷◌, ◌<◌, ◌≤◌, ◌-◌, drop, length, take};
ghost use Rattle.jx_tile_parts.specs.Groups.{groups_of, key_of, more_groups};

use jx_options::PartChoice;
use jx_progression::PacketName;

/// What the packets of a tile-part have in common.
fn key_of(name: PacketName, parts: PartChoice) -> u16
    ensures { result ≡ key_of parts name }
{
    match parts {
        PartChoice::None => 0,
        PartChoice::Resolution => u16::from(name.res),
        PartChoice::Layer => name.layer,
        PartChoice::Component => name.comp,
    }
}

/// The place behind the last packet of the tile-part that begins at a place.
pub fn part_end(names: &[PacketName], from: usize, parts: PartChoice) -> usize
    requires { from < length names.now }
    ensures more { from < result }
    ensures within { result ≤ length names.now }
    ensures group { groups_of parts (drop from names.now)
        ≡ take (result - from) (drop from names.now) ∷ more_groups parts (drop result names.now) }
{
    let key = key_of(names[from], parts);
    for end in from + 1..names.len() {
        if key_of(names[end], parts) != key {
            return end;
        }
    }
    names.len()
}

/// How many tile-parts a tile with these packets has, at least 1.
pub fn count_parts(names: &[PacketName], parts: PartChoice) -> usize
    ensures { result ≡ length (groups_of parts names.now) }
{
    if names.is_empty() {
        return 1;
    }
    let mut count = 0;
    let mut from = 0;
    while from < names.len() {
        from = part_end(names, from, parts);
        count += 1;
    }
    count
}
