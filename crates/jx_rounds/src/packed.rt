//! A tile of a round, ready to be written.

ghost use Rattle.std.specs.Prelude.{◌≡◌, ◌<◌, ◌++◌, [], length, map, slice_index_or, IfSome, OnOk};
ghost use Rattle.std.specs.List.{concat};
ghost use Rattle.jx_rounds.specs.PackedTiles.{pieces_of};

use jx_base::NoMemory;
use jx_tier2_writer::TileOut;
use std::marker::Model;

/// How a tile waits for its round.
#[derive(Drop)]
enum Form<'a, 'b> {
    /// Put together but for its coded bytes, with its geometry.
    Laid(TileOut<'a, 'b>),
    /// Each tile-part in a buffer of its own.
    Whole(Vec<Vec<u8>>),
}

/// A tile that is ready to be written. The last of a round is put together but for its coded bytes. Those before it keep their bytes, which
/// a round bounds, in place of their geometry and lists, which may take far more. Contracts see each tile-part as its pieces.
#[derive(Drop)]
pub struct Packed<'a, 'b> {
    form: Form<'a, 'b>,
}

impl<'a, 'b> Model for Packed<'a, 'b> {
    ghost use Rattle.std.specs.Prelude.{List, ℕ};
    ghost use Rattle.jx_rounds.specs.PackedTiles.{pieces_of};

    ghost Value = { List (List (List ℕ)) };

    ghost view = { λ p. pieces_of p.form };
}

impl<'a, 'b> Packed<'a, 'b> {
    pub fn laid(out: TileOut<'a, 'b>) -> Packed<'a, 'b>
        ensures { result ≡ out.entry }
    {
        Packed {
            form: Form::Laid(out),
        }
    }

    pub fn whole(parts: Vec<Vec<u8>>) -> Packed<'a, 'b>
        ensures { map concat result ≡ map (λ v. v.items) parts.items }
    {
        Packed {
            form: Form::Whole(parts),
        }
    }

    /// How many tile-parts the tile has.
    pub fn parts(&self) -> usize
        ensures { result ≡ length self.now }
    {
        match &self.form {
            Form::Laid(out) => out.parts(),
            Form::Whole(parts) => parts.len(),
        }
    }

    /// How many pieces a tile-part has.
    pub fn pieces(&self, part: usize) -> usize
        requires { part < length self.now }
        ensures { result ≡ length (slice_index_or self.now part []) }
    {
        match &self.form {
            Form::Laid(out) => out.pieces(part),
            Form::Whole(parts) => {
                // For what is known of its place.
                let _whole = &parts[part];
                1
            }
        }
    }

    /// How many bytes a tile-part has.
    pub fn size(&self, part: usize) -> usize
        requires { part < length self.now }
        ensures { result ≡ length (concat (slice_index_or self.now part [])) }
    {
        match &self.form {
            Form::Laid(out) => out.size(part) as usize,
            Form::Whole(parts) => parts[part].len(),
        }
    }

    /// A tile-part's bytes, where they stand in one buffer.
    pub fn bytes(&self, part: usize) -> Option<&[u8]>
        requires { part < length self.now }
        ensures { IfSome result (λ bytes. bytes.now ≡ concat (slice_index_or self.now part [])) }
    {
        match &self.form {
            Form::Laid(_) => None,
            Form::Whole(parts) => Some(&parts[part]),
        }
    }

    /// Appends a piece of a tile-part.
    pub fn put(&self, part: usize, piece: usize, out: &mut Vec<u8>) -> Result<(), NoMemory>
        requires part { part < length self.now }
        requires piece { piece < length (slice_index_or self.now part []) }
        ensures ok { OnOk result (out.new.items ≡ out.old.items
            ++ slice_index_or (slice_index_or self.now part []) piece []) }
    {
        match &self.form {
            Form::Laid(tile) => tile.put(part, piece, out),
            Form::Whole(parts) => Ok(out.extend_from_slice(&parts[part])?),
        }
    }
}
