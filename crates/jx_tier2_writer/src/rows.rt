//! Rows of items, kept one behind another in one buffer.

ghost use Rattle.std.specs.Prelude.{◌≡◌, ◌<◌, ◌++◌, ◌∷◌, [], length, slice_index_or, OnOk, OnErr};
ghost use Rattle.jx_tier2_writer.specs.Rows.{AreEnds, rows_from};

use jx_base::NoMemory;
use std::alloc::Global;
use std::marker::Model;

/// Rows of items, which contracts see as a list of lists.
#[derive(Drop)]
pub(crate) struct Rows<T> {
    items: Vec<T>,
    /// Where each row ends.
    ends: Vec<usize>,
}

impl<T> Model for Rows<T> {
    ghost use Rattle.std.specs.Prelude.{List, length};
    ghost use Rattle.jx_tier2_writer.specs.Rows.{AreEnds, rows_from};

    ghost Value = { List (List T) };

    ghost view = { λ r. rows_from 0 r.ends.items r.items.items };

    ghost invariant = { λ r. AreEnds 0 r.ends.items (length r.items.items) };
}

/// Where a row begins.
fn start_of(ends: &[usize], row: usize) -> usize
    requires { row < length ends.now }
    ensures { result ≡ slice_index_or (0 ∷ ends.now) row 0 }
{
    if row == 0 {
        return 0;
    }
    ends[row - 1]
}

/// The items of a row.
#[tactic(auto, using(crate::proofs::RowsLemmas::row_is, crate::proofs::RowsLemmas::row_low, crate::proofs::RowsLemmas::row_high))]
fn row_of<'a, T>(items: &'a [T], ends: &[usize], row: usize) -> &'a [T]
    requires ends { AreEnds 0 ends.now (length items.now) }
    requires row { row < length ends.now }
    ensures { result.now ≡ slice_index_or (rows_from 0 ends.now items.entry.now) row [] }
{
    let start = start_of(ends, row);
    &items[start..ends[row]]
}

impl<T: Copy + Drop> Rows<T> {
    /// No row.
    pub(crate) fn new(alloc: Global) -> Rows<T>
        ensures { result ≡ [] }
    {
        Rows {
            items: Vec::new(alloc),
            ends: Vec::new(alloc),
        }
    }

    /// One more row, of these items. After an `Err` the rows are as before.
    #[tactic(auto, using(crate::proofs::RowsLemmas::rows_push, crate::proofs::RowsLemmas::ends_push))]
    pub(crate) fn push(&mut self, row: &[T]) -> Result<(), NoMemory>
        ensures ok { OnOk result (self.new ≡ self.old ++ row.now ∷ []) }
        ensures err { OnErr result (self.new ≡ self.old) }
    {
        self.ends.reserve(1)?;
        self.items.extend_from_slice(row)?;
        self.ends.push_reserved(self.items.len());
        Ok(())
    }

    /// The items of a row.
    #[tactic(auto, using(crate::proofs::RowsLemmas::rows_long))]
    pub(crate) fn row(&self, row: usize) -> &[T]
        requires { row < length self.now }
        ensures { result.now ≡ slice_index_or self.now row [] }
    {
        row_of(&self.items, &self.ends, row)
    }
}
