//! How long tile-parts are, put down as they are packed.

ghost use Rattle.std.specs.Prelude.{◌≡◌, ◌<◌, ◌≤◌, ◌+◌, [], ◌∷◌, ◌++◌, None, Some, length, map, slice_index_or, IfSome, OnOk};
ghost use Rattle.std.specs.List.{concat};
ghost use Rattle.std.specs.Option.{option_map};
ghost use Rattle.jx_rounds.specs.Sent.{lengths_behind, sent_as, sent_from, sent_of};

use crate::packed::Packed;
use jx_base::NoMemory;
use jx_tier2_writer::PartLength;
use std::alloc::Global;
use std::marker::Model;

/// The lengths of tile-parts, where they are asked. Contracts see a list of them, or none.
#[derive(Drop)]
pub struct Lengths {
    asked: bool,
    parts: Vec<PartLength>,
}

impl Model for Lengths {
    ghost use Rattle.std.specs.Prelude.{List, None, Option, Some, if◌then◌else◌};
    ghost use Rattle.jx_tier2_writer.specs.declared.index.PartLength.{PartLength};

    ghost Value = { Option (List PartLength) };

    ghost view = { λ l. if l.asked then Some l.parts.items else None };
}

impl Lengths {
    /// Where none are asked.
    pub fn unasked(alloc: Global) -> Lengths
        ensures { result ≡ None }
    {
        Lengths {
            asked: false,
            parts: Vec::new(alloc),
        }
    }

    /// None yet.
    pub fn asked(alloc: Global) -> Lengths
        ensures { result ≡ Some [] }
    {
        Lengths {
            asked: true,
            parts: Vec::new(alloc),
        }
    }

    /// Those that were put down.
    pub fn into_parts(self) -> Vec<PartLength>
        ensures { IfSome self (λ parts. result.items ≡ parts) }
    {
        self.parts
    }

    /// Puts one more down, of so many bytes.
    fn push(&mut self, tile: u16, size: usize) -> Result<(), NoMemory>
        ensures { OnOk result (self.new ≡ option_map
            (λ parts. parts ++ (record { tile = tile; length = size }) ∷ []) self.old) }
    {
        if !self.asked {
            return Ok(());
        }
        // No tile-part that is packed is longer.
        if size > u32::MAX as usize {
            return Err(NoMemory);
        }
        self.parts.push(PartLength {
            tile,
            length: size as u32,
        })?;
        Ok(())
    }

    /// Puts those of a tile's tile-parts down.
    fn put_tile(&mut self, tile: u16, packed: &Packed<'_, '_>) -> Result<(), NoMemory>
        ensures { OnOk result (self.new ≡ lengths_behind (sent_of tile (map concat packed.now)) self.old) }
    {
        for part in 0..packed.parts() {
            self.push(tile, packed.size(part))?;
        }
        Ok(())
    }

    /// Puts those of the tile-parts of some tiles down, of which this is the first.
    pub fn put_tiles(&mut self, first: u16, tiles: &[Packed<'_, '_>]) -> Result<(), NoMemory>
        requires { first + length tiles.now < 65536 }
        ensures { OnOk result (self.new ≡ lengths_behind (sent_from first tiles.now) self.old) }
    {
        let mut tile = first;
        for packed in tiles {
            self.put_tile(tile, packed)?;
            tile += 1;
        }
        Ok(())
    }
}
