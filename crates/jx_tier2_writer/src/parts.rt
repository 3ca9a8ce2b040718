//! Code-blocks with their coded bytes, as packets take them.

ghost use Rattle.std.specs.Prelude.{◌≡◌, ◌+◌, ◌-◌, ◌<◌, ◌++◌, OnOk, OnErr, vec_capacity, vec_len};
ghost use Rattle.jx_codeblock.specs.Recoding.{layer_part_bytes};
ghost use Rattle.jx_tier2_writer.specs.Coded.{ArePartsOf, IsInside};

use jx_base::NoMemory;
use jx_codeblock::{LayerPart, Recoded};

/// A code-block that is written.
pub trait Coded {
    ghost use Rattle.std.specs.Prelude.{List, ℕ};
    ghost use Rattle.jx_base.specs.declared.pieces.Block.{Block};

    /// The block as it is written.
    ghost block: { Self → Block };

    /// Its coded bytes.
    ghost bytes: { Self → List ℕ };

    /// Its zero planes.
    fn zero(&self) -> u8
        ensures { result ≡ (block self.now).zero };

    /// Its parts, one for each piece, in the order of layers and passes.
    fn parts(&self) -> &[LayerPart]
        ensures { ArePartsOf (block self.now) (bytes self.now) result.now };

    /// Appends the bytes of a part. With room for them in `out` it isn't refused; after an `Err` `out` is as before.
    fn append(&self, part: &LayerPart, out: &mut Vec<u8>) -> Result<(), NoMemory>
        requires { IsInside (bytes self.now) part.now }
        ensures ok { OnOk result (out.new.items ≡ out.old.items ++ layer_part_bytes (bytes self.now) part.now) }
        ensures err { OnErr result (out.new.items ≡ out.old.items) }
        ensures room { OnErr result (vec_capacity out.old < vec_len out.old + (part.now.to - part.now.from)) };
}

impl<'a> Coded for Recoded<'a> {
    ghost use Rattle.jx_tier2_writer.specs.Tile.{block_written};

    ghost block = { block_written };

    ghost bytes = { λ r. r.recoding.bytes };

    fn zero(&self) -> u8 {
        self.job().block.zero
    }

    fn parts(&self) -> &[LayerPart] {
        Recoded::parts(self)
    }

    fn append(&self, part: &LayerPart, out: &mut Vec<u8>) -> Result<(), NoMemory> {
        Recoded::append(self, part, out)
    }
}

impl<B: Coded> Coded for &B {
    ghost block = { λ b. B.block b.now };

    ghost bytes = { λ b. B.bytes b.now };

    fn zero(&self) -> u8 {
        (**self).zero()
    }

    fn parts(&self) -> &[LayerPart] {
        (**self).parts()
    }

    fn append(&self, part: &LayerPart, out: &mut Vec<u8>) -> Result<(), NoMemory> {
        (**self).append(part, out)
    }
}
