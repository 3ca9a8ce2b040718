//! Lists of which most have one item.

ghost use Rattle.std.specs.Prelude.{◌≡◌, ◌++◌, ◌∷◌, [], length, IfOk, OnOk, OnErr};
ghost use Rattle.std.specs.Mem.{FitsInMemory};

use crate::NoMemory;
use std::alloc::Global;
use std::marker::Model;
use std::slice::from_ref;

/// Where the items stand.
#[derive(Drop)]
enum Held<T> {
    None(Global),
    One(T, Global),
    Many(Vec<T>),
}

/// A list whose only item takes no memory of its own. A codestream may have millions of such lists.
#[derive(Drop)]
pub struct ShortList<T> {
    held: Held<T>,
}

impl<T> Model for ShortList<T> {
    ghost use Rattle.std.specs.Prelude.{List};
    ghost use Rattle.jx_base.specs.ShortLists.{items_held};

    ghost Value = { List T };

    ghost view = { λ l. items_held l.held };
}

impl<T: Copy + Drop> ShortList<T> {
    /// No item. It takes no memory.
    pub fn new(alloc: Global) -> ShortList<T>
        ensures { result ≡ [] }
    {
        ShortList {
            held: Held::None(alloc),
        }
    }

    /// The items of a list. It takes no memory.
    pub fn from_vec(items: Vec<T>) -> ShortList<T>
        ensures { result ≡ items.items }
    {
        ShortList {
            held: Held::Many(items),
        }
    }

    /// The items.
    pub fn as_slice(&self) -> &[T]
        requires { FitsInMemory T.row }
        ensures { result.now ≡ self.now }
    {
        match &self.held {
            Held::None(_) => &[],
            Held::One(item, _) => from_ref(item),
            Held::Many(items) => items,
        }
    }

    /// How many there are.
    pub fn len(&self) -> usize
        ensures { result ≡ length self.now }
    {
        match &self.held {
            Held::None(_) => 0,
            Held::One(_, _) => 1,
            Held::Many(items) => items.len(),
        }
    }

    /// Appends an item. After an `Err` they are as before.
    pub fn push(&mut self, item: T) -> Result<(), NoMemory>
        ensures ok { OnOk result (self.new ≡ self.old ++ item ∷ []) }
        ensures err { OnErr result (self.new ≡ self.old) }
    {
        if let Held::Many(items) = &mut self.held {
            items.push(item)?;
            return Ok(());
        }
        self.held = match &self.held {
            Held::None(alloc) => Held::One(item, *alloc),
            Held::One(first, alloc) => Held::Many(two(*alloc, *first, item)?),
            Held::Many(_) => unreachable!(),
        };
        Ok(())
    }
}

/// A list of two items.
fn two<T: Copy + Drop>(alloc: Global, first: T, second: T) -> Result<Vec<T>, NoMemory>
    ensures { IfOk result (λ v. v.items ≡ first ∷ second ∷ []) }
{
    let mut items = Vec::new(alloc);
    items.push(first)?;
    items.push(second)?;
    Ok(items)
}
