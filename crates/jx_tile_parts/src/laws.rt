//! Laws over the definitions of tile-parts. They run no code.

ghost use Rattle.std.specs.Prelude.{◌≡◌, ◌≤◌, ◌<◌, ◌++◌, ◌∷◌, ℕ, List, [], Some, length, slice_get};
ghost use Rattle.std.specs.List.{AllPairs, Contains};
ghost use Rattle.jx_tier2_reader.specs.Written.{packets_in};
ghost use Rattle.jx_progression.specs.declared.names.PacketName.{PacketName};
ghost use Rattle.jx_options.specs.declared.PartChoice.{PartChoice};
ghost use Rattle.jx_options.specs.declared.PartChoice.TheVariants as part_choice;
ghost use Rattle.jx_tile_parts.specs.Groups.{groups_of, key_of};

/// Tile-parts have a tile's packets in their order; those of one agree in what is asked, and the last of one and the first of the
/// next don't. Where nothing is asked there is one. Only the tile-part of a tile without packets is empty. By resolution a tile
/// of n resolutions has at most n, where no packet has a lower resolution than one before it, as in RLCP and RPCL (T.800, B.12.1).
pub fn groups_are_cut()
    ensures stay { (parts : PartChoice) (names : List PacketName) → packets_in (groups_of parts names) ≡ names }
    ensures agree { (parts : PartChoice) (names group : List PacketName) (i : ℕ) (p q : PacketName)
        → slice_get (groups_of parts names) i ≡ Some group
        → Contains group p → Contains group q → key_of parts p ≡ key_of parts q }
    ensures differ { (parts : PartChoice) (names : List PacketName) (before after : List (List PacketName))
        (xs ys : List PacketName) (p q : PacketName)
        → groups_of parts names ≡ before ++ ((xs ++ p ∷ []) ∷ (q ∷ ys) ∷ after) → key_of parts p ≡ key_of parts q → ⊥ }
    ensures one { (names : List PacketName) → groups_of part_choice.None names ≡ names ∷ [] }
    ensures full { (parts : PartChoice) (names : List PacketName) (i : ℕ)
        → slice_get (groups_of parts names) i ≡ Some [] → names ≡ [] }
    ensures few { (names : List PacketName) (n : ℕ) → 1 ≤ n → AllPairs (λ (p q : PacketName). p.res ≤ q.res) names
        → ((p : PacketName) → Contains names p → p.res < n)
        → length (groups_of part_choice.Resolution names) ≤ n }
{}
