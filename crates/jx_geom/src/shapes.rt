//! The shapes of a picture's components, which tiles share.

ghost use Rattle.std.specs.Prelude.{◌≡◌, IfOk};

use crate::shape::CompShape;
use jx_base::NoMemory;
use std::alloc::Global;
use std::marker::Model;
use std::sync::ArcSlice;

/// The shapes of all components, which contracts see as a list. Tiles with equal parameters share them.
#[derive(Debug, Drop)]
pub struct Shapes {
    items: ArcSlice<CompShape, Global>,
}

impl Model for Shapes {
    ghost use Rattle.std.specs.Prelude.{List};
    ghost use Rattle.std.specs.Arc.{arc_slice_items};
    ghost use Rattle.jx_geom.specs.declared.shape.CompShape.{CompShape};

    ghost Value = { List CompShape };

    ghost view = { λ list. arc_slice_items list.items };
}

impl Shapes {
    /// The list of these shapes.
    ///
    /// # Errors
    ///
    /// `NoMemory` where memory is refused.
    pub fn new(items: Vec<CompShape>) -> Result<Self, NoMemory>
        ensures { IfOk result (λ list. list ≡ items.items) }
    {
        let items = ArcSlice::from_vec(items)?;
        Ok(Shapes { items })
    }

    /// The same list once more, without a copy of its shapes.
    ///
    /// # Errors
    ///
    /// `NoMemory` where it is shared too often.
    pub fn share(&self) -> Result<Self, NoMemory>
        ensures { IfOk result (λ list. list ≡ self.now) }
    {
        let items = self.items.clone()?;
        Ok(Shapes { items })
    }

    /// The shapes.
    pub fn as_slice(&self) -> &[CompShape]
        ensures { result.now ≡ self.now }
    {
        self.items.as_slice()
    }
}
