//! How a codestream is to be written.

ghost use Rattle.std.specs.Prelude.{◌≡◌};
ghost use Rattle.jx_options.specs.Choices.{bytes_in, changes_in, borrowed_entries, lent, order_in};

use crate::{Marks, RsizChoice};
use jx_base::Style;
use jx_marker::Progression;
use std::marker::Model;

/// The progression order of the written file (ITU-T T.800, Table A.16).
#[derive(Clone, Copy, Debug, PartialEq, Eq)]
pub enum OrderChoice {
    /// Each tile keeps the order of its COD.
    Keep,
    /// This order's number in each tile, 0 to 4.
    Order(u8),
}

/// The progression order changes of the written file (POC; ITU-T T.800, A.6.6).
#[derive(Drop)]
pub enum PocChoice {
    /// None: each tile has its packets in the one order of its COD.
    None,
    /// Those of the input, in the main header and in each tile's.
    Keep,
    /// These entries in the main header, 1 to 32, and none in the tiles.
    Volumes(Vec<Progression>),
}

/// The precincts of the written file (ITU-T T.800, Table A.21).
#[derive(Drop)]
pub enum PrecinctChoice {
    /// Each component keeps its own.
    Keep,
    /// Every exponent is 15; no bytes are written.
    Max,
    /// One byte for each resolution from 0 up, the width's exponent in the low four bits and the height's in the high four; the
    /// last byte stands for all resolutions above.
    List(Vec<u8>),
}

/// How a codestream is to be written.
#[derive(Drop)]
pub struct Options {
    /// The order of the packets.
    pub order: OrderChoice,
    /// The progression order changes.
    pub poc: PocChoice,
    /// The precincts.
    pub precincts: PrecinctChoice,
    /// The style in which all code-blocks are coded (ITU-T T.800, Table A.19), with bits 4, 6 and 7 clear; none where each component
    /// keeps its own.
    pub style: Option<Style>,
    /// The words for the planners of layers.
    pub layers: String,
    /// What stands in the tile-parts beside headers and code-blocks, where they begin, and whether the main header says so.
    pub marks: Marks,
    /// What profile is claimed.
    pub rsiz: RsizChoice,
}

impl Model for Options {
    ghost use Rattle.std.specs.String.{string_bytes};
    ghost use Rattle.jx_options.specs.Choices.{bytes_in, changes_in, order_in};
    ghost use Rattle.jx_options.specs.Wanted.{Wanted};

    ghost Value = { Wanted };

    ghost view = { λ o. record {
      order = order_in o.order;
      changes = changes_in o.poc;
      precincts = bytes_in o.precincts;
      style = o.style;
      layers = string_bytes o.layers;
      marks = o.marks;
      rsiz = o.rsiz;
    } };
}

impl OrderChoice {
    /// The number of the order that is asked (ITU-T T.800, Table A.16); none where each tile keeps its own.
    pub fn number(self) -> Option<u8>
        ensures { result ≡ order_in self }
    {
        match self {
            OrderChoice::Keep => None,
            OrderChoice::Order(number) => Some(number),
        }
    }
}

impl PocChoice {
    /// The entries that the main header gets; without entries no POC is written (ITU-T T.800, A.6.6). None if those
    /// of the input are kept.
    pub fn entries(&self) -> Option<&[Progression]>
        ensures { borrowed_entries result ≡ changes_in self.now }
    {
        match self {
            PocChoice::None => Some(&[]),
            PocChoice::Keep => None,
            PocChoice::Volumes(entries) => Some(entries),
        }
    }
}

impl PrecinctChoice {
    /// The exponents that are asked, a byte for each resolution from 0 up, of which the last stands for all above; without bytes
    /// every exponent is 15 (ITU-T T.800, Table A.21). None where precincts are kept.
    pub fn bytes(&self) -> Option<&[u8]>
        ensures { lent result ≡ bytes_in self.now }
    {
        match self {
            PrecinctChoice::Keep => None,
            PrecinctChoice::Max => Some(&[]),
            PrecinctChoice::List(bytes) => Some(bytes),
        }
    }
}
