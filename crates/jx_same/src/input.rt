//! A codestream that is compared.

use jx_base::Block;
use jx_codestream::Stream;

/// A codestream as it was read, with its code-blocks.
#[derive(Clone, Copy)]
pub(crate) struct Input<'a> {
    pub(crate) stream: &'a Stream,
    pub(crate) blocks: &'a [Block<'a>],
}
