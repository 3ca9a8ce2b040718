//! The code-blocks of a tape's entries.

ghost use Rattle.std.specs.Prelude.{◌≡◌, map, IfOk};
ghost use Rattle.jx_tier2_writer.specs.Tile.{AreMade, IsMade, made_in};

use jx_base::NoMemory;
use jx_codeblock::Recoded;
use jx_store::{Entry, Named};
use std::alloc::Global;

/// The block of an entry that has one.
fn block_in<'a, 'b>(entry: &'a Entry<Recoded<'b>>) -> &'a Recoded<'b>
    requires { IsMade entry.now.named }
    ensures { entry.entry.now.named ≡ Named.Made result.now }
{
    let Named::Made(block) = &entry.named else {
        unreachable!()
    };
    block
}

/// The blocks of entries that all have one, in their order. None is copied.
pub(crate) fn blocks_of<'a, 'b>(
    alloc: Global,
    entries: &'a [Entry<Recoded<'b>>],
) -> Result<Vec<&'a Recoded<'b>>, NoMemory>
    requires { AreMade entries.now }
    ensures { IfOk result (λ list. map (λ r. r.now) list.items ≡ made_in entries.entry.now) }
{
    let mut list = Vec::new(alloc);
    for entry in entries {
        list.push(block_in(entry))?;
    }
    Ok(list)
}
