//! The progression orders, and what an entry's groups are sorted by: a layer of a resolution stands together, or a precinct.

ghost use Rattle.std.specs.Prelude.{◌≡◌, ◌<◌};
ghost use Rattle.jx_base.specs.OrderNumbers.{IsOrderNumber};
ghost use Rattle.jx_geom.specs.Geometry.{HasResolution, precincts_in};
ghost use Rattle.jx_progression.specs.Orders.{order_of};
ghost use Rattle.jx_progression.specs.Steps.{across_or, by_layer, count_of, down_or, sort_key};

use crate::names::PacketName;
use jx_geom::TileGeom;

/// The five progression orders (T.800, Table A.16 and B.12.1), each named by what changes from the
/// slowest to the fastest: layer, resolution, component, position.
#[derive(Clone, Copy, Debug, PartialEq, Eq)]
pub enum Order {
    /// Layer, resolution, component, position: number 0.
    Lrcp,
    /// Resolution, layer, component, position: number 1.
    Rlcp,
    /// Resolution, position, component, layer: number 2.
    Rpcl,
    /// Position, component, resolution, layer: number 3.
    Pcrl,
    /// Component, position, resolution, layer: number 4.
    Cprl,
}

/// The numbers that an order sorts groups by.
#[derive(Clone, Copy, Debug, PartialEq, Eq, PartialOrd, Ord, Drop)]
pub(crate) struct Key {
    pub first: u32,
    pub second: u32,
    pub third: u32,
    pub fourth: u16,
}

/// The order of a number.
pub(crate) fn order_from(number: u8) -> Order
    requires { IsOrderNumber number }
    ensures { result ≡ order_of number }
{
    match number {
        0 => Order::Lrcp,
        1 => Order::Rlcp,
        2 => Order::Rpcl,
        3 => Order::Pcrl,
        4 => Order::Cprl,
        _ => unreachable!(),
    }
}

/// Whether the packets of a layer of a resolution stand together; else those of a precinct do.
pub(crate) fn by_layer(order: Order) -> bool
    ensures { result ≡ by_layer order }
{
    match order {
        Order::Lrcp | Order::Rlcp => true,
        Order::Rpcl | Order::Pcrl | Order::Cprl => false,
    }
}

/// How many precincts a resolution has; none where it isn't there.
#[tactic(auto, unfolding(crate::specs::Steps::count_of))]
pub(crate) fn count_precincts(geom: &TileGeom, comp: u16, res: u8) -> u32
    ensures { result ≡ count_of geom.now comp res }
{
    if usize::from(comp) >= geom.components() {
        return 0;
    }
    if res > geom.levels(comp) {
        return 0;
    }
    let (columns, rows) = geom.precincts(comp, res);
    columns * rows
}

/// Where a packet's precinct stands on the reference grid: its column and its row, or 0 where it isn't there.
#[tactic(auto, using(crate::proofs::PointLemmas::across_there, crate::proofs::PointLemmas::down_there, crate::proofs::PointLemmas::across_none, crate::proofs::PointLemmas::down_none))]
fn position(geom: &TileGeom, name: PacketName) -> (u32, u32)
    ensures across { result.0 ≡ across_or geom.now name }
    ensures down { result.1 ≡ down_or geom.now name }
{
    match geom.point_of(name.comp, name.res, name.precinct) {
        Some((x, y)) => (x as u32, y as u32),
        None => (0, 0),
    }
}

/// A key of four numbers.
fn keyed(first: u32, second: u32, third: u32, fourth: u16) -> Key
    ensures { result ≡ record { first = first; second = second; third = third; fourth = fourth } }
{
    Key {
        first,
        second,
        third,
        fourth,
    }
}

/// What a packet is sorted by: the numbers of its layer and resolution, or where its precinct stands.
#[tactic(auto, unfolding(crate::specs::Steps::sort_key))]
pub(crate) fn sort_key(geom: &TileGeom, order: Order, name: PacketName) -> Key
    ensures { result ≡ sort_key geom.now order name }
{
    let layer = u32::from(name.layer);
    let res = u32::from(name.res);
    let comp = u32::from(name.comp);
    match order {
        Order::Lrcp => keyed(layer, res, comp, 0),
        Order::Rlcp => keyed(res, layer, comp, 0),
        Order::Rpcl => {
            let (x, y) = position(geom, name);
            keyed(res, y, x, name.comp)
        }
        Order::Pcrl => {
            let (x, y) = position(geom, name);
            keyed(y, x, comp, u16::from(name.res))
        }
        Order::Cprl => {
            let (x, y) = position(geom, name);
            keyed(comp, y, x, u16::from(name.res))
        }
    }
}
