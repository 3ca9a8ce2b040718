//! Names of packets, and why there is no list.

use jx_base::NoMemory;

/// A packet of a tile: one layer of one precinct (T.800, B.9). Names can be compared, and put into an order of
/// their own by the derives; no clause speaks of that order.
#[derive(Clone, Copy, Debug, PartialEq, Eq, PartialOrd, Ord)]
pub struct PacketName {
    /// The layer's number; 0 is the most significant.
    pub layer: u16,
    /// The resolution's number; 0 is the smallest.
    pub res: u8,
    /// The component's number.
    pub comp: u16,
    /// The precinct's number in its resolution, row by row from 0 on.
    pub precinct: u32,
}

/// Why there is no list of a tile's packets.
#[derive(Clone, Copy, Debug, PartialEq, Eq)]
pub enum OrderFault {
    /// Some packet of the tile is covered by no entry.
    Uncovered,
    /// Memory was refused.
    NoMemory,
}

impl From<NoMemory> for OrderFault {
    ghost use Rattle.std.specs.Prelude.{◌≡◌};
    ghost use Rattle.jx_progression.specs.declared.names.OrderFault.TheVariants.{NoMemory as out_of_memory};

    ghost from_gives = { λ _ fault. fault ≡ out_of_memory };

    fn from(_: NoMemory) -> Self {
        OrderFault::NoMemory
    }
}
