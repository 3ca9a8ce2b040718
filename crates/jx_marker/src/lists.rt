//! Bytes and numbers of a segment, which contracts see as lists.

ghost use Rattle.std.specs.Prelude.{◌≡◌, IfOk, length};

use crate::{CompSize, Progression};
use jx_base::NoMemory;
use std::marker::Model;

/// Bytes of a segment, which contracts see as a list.
#[derive(Drop)]
pub struct Bytes {
    items: Vec<u8>,
}

impl Model for Bytes {
    ghost use Rattle.std.specs.Prelude.{List, ℕ};

    ghost Value = { List ℕ };

    ghost view = { λ list. list.items.items };
}

impl Bytes {
    /// The list of these items. It takes no memory.
    pub fn new(items: Vec<u8>) -> Self
        ensures { result ≡ items.items }
    {
        Bytes { items }
    }

    /// The items.
    pub fn as_slice(&self) -> &[u8]
        ensures { result.now ≡ self.now }
    {
        &self.items
    }

    /// The same items again, in memory of their own.
    pub fn copy(&self) -> Result<Self, NoMemory>
        ensures { IfOk result (λ copy. copy ≡ self.now) }
    {
        Ok(Bytes {
            items: self.items.clone()?,
        })
    }

    /// The items as the `Vec` that they came in.
    pub fn into_vec(self) -> Vec<u8>
        ensures { result.items ≡ self }
    {
        let Bytes { items } = self;
        items
    }
}

/// Numbers of at most 16 bits, which contracts see as a list.
#[derive(Drop)]
pub struct Numbers {
    items: Vec<u16>,
}

impl Model for Numbers {
    ghost use Rattle.std.specs.Prelude.{List, ℕ};

    ghost Value = { List ℕ };

    ghost view = { λ list. list.items.items };
}

impl Numbers {
    /// The list of these items. It takes no memory.
    pub fn new(items: Vec<u16>) -> Self
        ensures { result ≡ items.items }
    {
        Numbers { items }
    }

    /// The items.
    pub fn as_slice(&self) -> &[u16]
        ensures { result.now ≡ self.now }
    {
        &self.items
    }

    /// The same items again, in memory of their own.
    pub fn copy(&self) -> Result<Self, NoMemory>
        ensures { IfOk result (λ copy. copy ≡ self.now) }
    {
        Ok(Numbers {
            items: self.items.clone()?,
        })
    }

    /// The items as the `Vec` that they came in.
    pub fn into_vec(self) -> Vec<u16>
        ensures { result.items ≡ self }
    {
        let Numbers { items } = self;
        items
    }
}

/// The components of a SIZ segment, which contracts see as a list.
#[derive(Drop)]
pub struct CompSizes {
    items: Vec<CompSize>,
}

impl Model for CompSizes {
    ghost use Rattle.std.specs.Prelude.{List};
    ghost use Rattle.jx_marker.specs.declared.CompSize.{CompSize};

    ghost Value = { List CompSize };

    ghost view = { λ list. list.items.items };
}

impl CompSizes {
    /// The list of these items. It takes no memory.
    pub fn new(items: Vec<CompSize>) -> Self
        ensures { result ≡ items.items }
    {
        CompSizes { items }
    }

    /// The items.
    pub fn as_slice(&self) -> &[CompSize]
        ensures { result.now ≡ self.now }
    {
        &self.items
    }

    /// The same items again, in memory of their own.
    pub fn copy(&self) -> Result<Self, NoMemory>
        ensures { IfOk result (λ copy. copy ≡ self.now) }
    {
        Ok(CompSizes {
            items: self.items.clone()?,
        })
    }

    /// The items as the `Vec` that they came in.
    pub fn into_vec(self) -> Vec<CompSize>
        ensures { result.items ≡ self }
    {
        let CompSizes { items } = self;
        items
    }
}

/// The entries of a POC segment, which contracts see as a list.
#[derive(Drop)]
pub struct Progressions {
    items: Vec<Progression>,
}

impl Model for Progressions {
    ghost use Rattle.std.specs.Prelude.{List};
    ghost use Rattle.jx_marker.specs.declared.Progression.{Progression};

    ghost Value = { List Progression };

    ghost view = { λ list. list.items.items };
}

impl Progressions {
    /// The list of these items. It takes no memory.
    pub fn new(items: Vec<Progression>) -> Self
        ensures { result ≡ items.items }
    {
        Progressions { items }
    }

    /// The items.
    pub fn as_slice(&self) -> &[Progression]
        ensures { result.now ≡ self.now }
    {
        &self.items
    }

    /// The same items again, in memory of their own.
    pub fn copy(&self) -> Result<Self, NoMemory>
        ensures { IfOk result (λ copy. copy ≡ self.now) }
    {
        Ok(Progressions {
            items: self.items.clone()?,
        })
    }

    /// The items as the `Vec` that they came in.
    pub fn into_vec(self) -> Vec<Progression>
        ensures { result.items ≡ self }
    {
        let Progressions { items } = self;
        items
    }
}
