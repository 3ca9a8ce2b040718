//! Laws over the definitions. They run no code.

ghost use Rattle.std.specs.Prelude.{◌≡◌, ℕ, List};
ghost use Rattle.jx_geom.specs.Geometry.{Geometry, GeometryInRange};
ghost use Rattle.jx_marker.specs.declared.Progression.{Progression};
ghost use Rattle.jx_progression.specs.declared.names.PacketName.{PacketName};
ghost use Rattle.jx_progression.specs.Packets.{IsOrder, LayersRise, Sends};
ghost use Rattle.jx_progression.specs.Loops.{all_loops, sent_by};

/// One tile's geometry, its number of layers and its entries give one list.
pub fn orders_are_one()
    ensures { (g : Geometry) (layers : ℕ) (entries : List Progression) (n : ℕ) (a b : List PacketName)
        → IsOrder g layers entries n a → IsOrder g layers entries n b → a ≡ b }
{}

/// Each geometry in its ranges has one, whatever the entries.
pub fn orders_exist()
    ensures { (g : Geometry) (layers : ℕ) (entries : List Progression) (n : ℕ) → GeometryInRange g
        → (list : List PacketName) × IsOrder g layers entries n list }
{}

/// In a tile's list the packets of a precinct stand in the order of their layers, lowest first.
pub fn layers_rise()
    ensures { (g : Geometry) (layers : ℕ) (entries : List Progression) (n : ℕ) (list : List PacketName)
        → IsOrder g layers entries n list → LayersRise list }
{}

/// A tile's list is what the standard's loops over layers, resolutions, components, precincts and places run
/// through for each entry, without what was sent before.
pub fn orders_are_loops()
    ensures entry { (g : Geometry) (layers : ℕ) (e : Progression) (before : List PacketName) → GeometryInRange g
        → Sends g layers e before (sent_by g layers e before) }
    ensures order { (g : Geometry) (layers : ℕ) (entries : List Progression) (n : ℕ) (list : List PacketName) → GeometryInRange g
        → IsOrder g layers entries n list → list ≡ all_loops g layers entries n }
    ensures there { (g : Geometry) (layers : ℕ) (entries : List Progression) (n : ℕ) → GeometryInRange g
        → IsOrder g layers entries n (all_loops g layers entries n) }
{}
