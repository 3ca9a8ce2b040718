//! The most that a file may hold.

/// The most bytes of a file, 2^32 - 1: Psot and all places have 32 bits (T.800, A.4.2).
pub const MOST_BYTES: usize = 4_294_967_295;

/// The most code-blocks of a codestream, 2^22 (limit 5).
pub const MOST_BLOCKS: u64 = 4_194_304;
