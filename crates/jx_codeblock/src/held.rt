//! What is held of a block's bytes beside its parts.

ghost use Rattle.std.specs.Prelude.{◌≡◌};
ghost use Rattle.jx_codeblock.specs.Held.{new_bytes, own_starts};

/// A block has new bytes or keeps its own, so both stand in one place: two lists would take 16 bytes more for each block.
#[derive(Drop)]
pub(crate) enum Held {
    /// The bytes of new segments.
    New(Vec<u8>),
    /// Where pieces of its own begin.
    Own(Vec<u32>),
}

impl Held {
    /// The bytes of new segments; none where the block keeps its own.
    pub(crate) fn bytes(&self) -> &[u8]
        ensures { result.now ≡ new_bytes self.now }
    {
        match self {
            Held::New(bytes) => bytes,
            Held::Own(_) => &[],
        }
    }

    /// Where pieces begin of a block that keeps its bytes.
    pub(crate) fn starts(&self) -> &[u32]
        ensures { result.now ≡ own_starts self.now }
    {
        match self {
            Held::New(_) => &[],
            Held::Own(starts) => starts,
        }
    }
}
