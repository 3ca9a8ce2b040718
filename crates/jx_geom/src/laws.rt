//! Laws over the definitions: each place in one tile, one precinct and one block; nothing that is counted
//! is empty; blocks are numbered by the count of those before them. They run no code.

ghost use Rattle.std.specs.Prelude.{◌≡◌, ◌≤◌, ◌<◌, ◌+◌, ◌-◌, ◌*◌, ◌^◌, ◌⊎◌, ◌↔◌, ℕ, List, max, slice_index_or};
ghost use Rattle.std.specs.List.{AllPairs, Contains};
ghost use Rattle.jx_base.specs.declared.names.Band.{Band};
ghost use Rattle.jx_base.specs.declared.names.BlockName.{BlockName};
ghost use Rattle.jx_base.specs.declared.names.Rect.{Rect};
ghost use Rattle.jx_base.specs.Places.{ExactlyOne, InRect, column_at, row_at, size_of};
ghost use Rattle.jx_geom.specs.declared.shape.Canvas.{Canvas};
ghost use Rattle.jx_geom.specs.declared.shape.CompShape.{CompShape};
ghost use Rattle.jx_geom.specs.declared.table.Resolution.{Resolution};
ghost use Rattle.jx_geom.specs.Counts.{block_count, precinct_count, tile_count, tile_precincts};
ghost use Rattle.jx_geom.specs.Geometry.{Geometry, GeometryInRange, HasBlock, HasResolution, no_shape, precincts_in, rect_of_tile, reference_across, reference_down};
ghost use Rattle.jx_geom.specs.Numbering.{ComesBefore, IsBlock, block_number, blocks_of_all, number_in_tile};
ghost use Rattle.jx_geom.specs.Precincts.{
  HasPrecinct,
  IsLeaf,
  PrecinctBefore,
  leaf_name,
  leaf_number,
  leaves,
  precinct_number,
};
ghost use Rattle.jx_geom.specs.Ranges.{CanvasInRange, HasBand, ShapeInRange, exponent_across, exponent_down};
ghost use Rattle.jx_geom.specs.Rects.{
  band_rect,
  block_cells,
  block_rect,
  component_rect,
  off_across,
  off_down,
  precinct_blocks,
  precinct_cells,
  precinct_column_point,
  precinct_row_point,
  resolution_rect,
  tile_rect,
};
ghost use Rattle.jx_geom.specs.Resolutions.{ResolutionBefore, resolution_at, resolutions_of};
ghost use Rattle.jx_geom.specs.Same.{AllSameBlocks};
ghost use Rattle.jx_geom.specs.Sizes.{BlockFits};
ghost use Rattle.jx_geom.specs.Sets.{
  HasPlace,
  InBand,
  InBlock,
  InCell,
  InComponent,
  InPart,
  InPicture,
  InPrecinct,
  InResolution,
  InTile,
};

/// Each place of the picture lies in exactly one tile, and each tile has a place.
pub fn tiles_divide_the_picture()
    ensures one { (c : Canvas) (x y : ℕ) → CanvasInRange c → InPicture c x y → ExactlyOne (λ t. (t < tile_count c) × InTile c t x y) }
    ensures some { (c : Canvas) (t : ℕ) → CanvasInRange c → t < tile_count c → HasPlace (InTile c t) }
{}

/// The rect of a tile-component holds its places: those that stand on places of the tile (B.3).
pub fn components_are_sets()
    ensures { (tile : Rect) (s : CompShape) (x y : ℕ) → ShapeInRange s → InRect (component_rect tile s) x y ↔ InComponent tile s x y }
{}

/// The rect of a resolution holds its places.
pub fn resolutions_are_sets()
    ensures { (tile : Rect) (s : CompShape) (r x y : ℕ) → ShapeInRange s → InRect (resolution_rect tile s r) x y ↔ InResolution tile s r x y }
{}

/// The rect of a band holds its places, and that of a code-block its own; no code-block is empty, or larger than Table A.18 allows.
pub fn bands_are_sets()
    ensures bands { (tile : Rect) (s : CompShape) (r : ℕ) (b : Band) (x y : ℕ) → ShapeInRange s → InRect (band_rect tile s r b) x y ↔ InBand tile s r b x y }
    ensures blocks { (tile : Rect) (s : CompShape) (r : ℕ) (b : Band) (i x y : ℕ) → ShapeInRange s → InRect (block_rect tile s r b i) x y ↔ InBlock tile s r b i x y }
    ensures fit { (tile : Rect) (s : CompShape) (r : ℕ) (b : Band) (i : ℕ) → ShapeInRange s → i < block_count tile s r b → BlockFits (block_rect tile s r b i) }
{}

/// Each place of a resolution lies in exactly one precinct, each precinct has a place, and the cells that
/// are counted are those that have one.
pub fn precincts_divide_a_resolution()
    ensures one { (tile : Rect) (s : CompShape) (r x y : ℕ) → ShapeInRange s → InResolution tile s r x y
        → ExactlyOne (λ k. (k < precinct_count tile s r) × InPrecinct tile s r k x y) }
    ensures some { (tile : Rect) (s : CompShape) (r k : ℕ) → ShapeInRange s → k < precinct_count tile s r → HasPlace (InPrecinct tile s r k) }
    ensures cells { (tile : Rect) (s : CompShape) (r u v : ℕ) → ShapeInRange s → InRect (precinct_cells tile s r) u v
        ↔ HasPlace (λ x y. InResolution tile s r x y × InCell (exponent_across s r) (exponent_down s r) u v x y) }
{}

/// Each place of a band lies in exactly one precinct: above resolution 0 in that of the place of the
/// resolution that it comes from.
pub fn precincts_divide_a_band()
    ensures one { (tile : Rect) (s : CompShape) (r : ℕ) (b : Band) (x y : ℕ) → ShapeInRange s → r ≤ s.levels → HasBand r b → InBand tile s r b x y
        → ExactlyOne (λ k. (k < precinct_count tile s r) × InPart tile s r b k x y) }
    ensures beside { (tile : Rect) (s : CompShape) (r : ℕ) (b : Band) (k x y : ℕ) → ShapeInRange s → 0 < r → r ≤ s.levels → HasBand r b
        → InPart tile s r b k x y ↔ InPrecinct tile s r k (2 * x + off_across b) (2 * y + off_down b) }
{}

/// Each place of a band lies in exactly one block, and each block has a place.
pub fn blocks_divide_a_band()
    ensures one { (tile : Rect) (s : CompShape) (r : ℕ) (b : Band) (x y : ℕ) → ShapeInRange s → InBand tile s r b x y
        → ExactlyOne (λ i. (i < block_count tile s r b) × InBlock tile s r b i x y) }
    ensures some { (tile : Rect) (s : CompShape) (r : ℕ) (b : Band) (i : ℕ) → ShapeInRange s → i < block_count tile s r b → HasPlace (InBlock tile s r b i) }
{}

/// The cell of each block of a band is one of exactly one precinct's, which has all of its places.
pub fn blocks_lie_in_precincts()
    ensures one { (tile : Rect) (s : CompShape) (r : ℕ) (b : Band) (i : ℕ) → ShapeInRange s → r ≤ s.levels → HasBand r b → i < block_count tile s r b
        → ExactlyOne (λ k. (k < precinct_count tile s r)
        × InRect (precinct_blocks tile s r b k) (column_at (block_cells tile s r b) i) (row_at (block_cells tile s r b) i)) }
    ensures within { (tile : Rect) (s : CompShape) (r : ℕ) (b : Band) (i k x y : ℕ) → ShapeInRange s
        → InRect (precinct_blocks tile s r b k) (column_at (block_cells tile s r b) i) (row_at (block_cells tile s r b) i)
        → InBlock tile s r b i x y → InPart tile s r b k x y }
{}

/// The number of a block is below the count of all, is larger for a later name, and each number below the
/// count is that of a block. So the blocks have the numbers from 0 on, in the order of their names.
pub fn blocks_are_numbered()
    ensures below { (c : Canvas) (shapes : ℕ → List CompShape) (n : BlockName) → IsBlock c shapes n → block_number c shapes n < blocks_of_all c shapes }
    ensures later { (c : Canvas) (shapes : ℕ → List CompShape) (a b : BlockName) → IsBlock c shapes a → IsBlock c shapes b
        → (a.tile < b.tile) ⊎ ((a.tile ≡ b.tile) × ComesBefore a b) → block_number c shapes a < block_number c shapes b }
    ensures taken { (c : Canvas) (shapes : ℕ → List CompShape) (k : ℕ) → k < blocks_of_all c shapes → (n : BlockName) × (IsBlock c shapes n × (block_number c shapes n ≡ k)) }
{}

/// The number of a precinct is below the count of a tile's, is larger for a later precinct, and each number
/// below the count is that of a precinct. So the precincts of a tile have the numbers from 0 on.
pub fn precincts_are_numbered()
    ensures below { (g : Geometry) (c r k : ℕ) → HasPrecinct g c r k → precinct_number g c r k < tile_precincts (rect_of_tile g) g.shapes }
    ensures later { (g : Geometry) (c r k d q m : ℕ) → HasPrecinct g c r k → HasPrecinct g d q m → PrecinctBefore c r k d q m
        → precinct_number g c r k < precinct_number g d q m }
    ensures taken { (g : Geometry) (n : ℕ) → n < tile_precincts (rect_of_tile g) g.shapes
        → (c : ℕ) × (r : ℕ) × (k : ℕ) × (HasPrecinct g c r k × (precinct_number g c r k ≡ n)) }
{}

/// The list of a tile's resolutions has them in order, each with what stands before it, and has that of each
/// precinct.
pub fn resolutions_are_listed()
    ensures order { (g : Geometry) → AllPairs ResolutionBefore (resolutions_of g) }
    ensures there { (g : Geometry) (e : Resolution) → Contains (resolutions_of g) e
        → HasResolution g e.comp e.res × (e ≡ resolution_at (rect_of_tile g) g.shapes e.comp e.res) × (e.precincts ≡ size_of (precincts_in g e.comp e.res)) }
    ensures every { (g : Geometry) (c r k : ℕ) → HasPrecinct g c r k → Contains (resolutions_of g) (resolution_at (rect_of_tile g) g.shapes c r) }
{}

/// Each leaf of a precinct is a block of its resolution, each block of a tile is a leaf of some precinct, and
/// no block is two leaves. So the blocks of a tile are divided among its precincts.
pub fn precincts_divide_the_blocks()
    ensures there { (g : Geometry) (c r k j : ℕ) → GeometryInRange g → HasPrecinct g c r k → j < leaves g c r k
        → HasBlock g (leaf_name g c r k j) × ((leaf_name g c r k j).comp ≡ c) × ((leaf_name g c r k j).res ≡ r) }
    ensures taken { (g : Geometry) (n : BlockName) → GeometryInRange g → HasBlock g n → (k : ℕ) × (j : ℕ) × IsLeaf g k j n }
    ensures once { (g : Geometry) (c r k j d q m i : ℕ) → GeometryInRange g → HasPrecinct g c r k → j < leaves g c r k
        → HasPrecinct g d q m → i < leaves g d q m → leaf_number g c r k j ≡ leaf_number g d q m i
        → (c ≡ d) × (r ≡ q) × (k ≡ m) × (j ≡ i) }
{}

/// Where shapes differ in their precincts alone, and the exponents of blocks stay, so do the names of the
/// blocks, their places and their numbers.
pub fn blocks_stay()
    ensures there { (c : Canvas) (t : ℕ) (xs ys : List CompShape) (n : BlockName) → AllSameBlocks xs ys
        → HasBlock (record { canvas = c; tile = t; shapes = xs }) n ↔ HasBlock (record { canvas = c; tile = t; shapes = ys }) n }
    ensures places { (c : Canvas) (t : ℕ) (xs ys : List CompShape) (n : BlockName) → AllSameBlocks xs ys
        → HasBlock (record { canvas = c; tile = t; shapes = xs }) n
        → block_rect (tile_rect c t) (slice_index_or xs n.comp no_shape) n.res n.band n.index
        ≡ block_rect (tile_rect c t) (slice_index_or ys n.comp no_shape) n.res n.band n.index }
    ensures number { (c : Canvas) (t : ℕ) (xs ys : List CompShape) (n : BlockName) → AllSameBlocks xs ys
        → HasBlock (record { canvas = c; tile = t; shapes = xs }) n
        → number_in_tile (record { canvas = c; tile = t; shapes = xs }) n ≡ number_in_tile (record { canvas = c; tile = t; shapes = ys }) n }
    ensures all { (c : Canvas) (xs ys : ℕ → List CompShape) (n : BlockName) → ((t : ℕ) → t < tile_count c → AllSameBlocks (xs t) (ys t))
        → IsBlock c xs n → block_number c xs n ≡ block_number c ys n }
{}

/// A precinct stands at the later of the tile's first column and the one that the first place of its cell
/// comes from; rows alike. That place lies in the tile.
pub fn reference_points_are_latest()
    ensures across { (tile : Rect) (s : CompShape) (r k : ℕ) → ShapeInRange s → k < precinct_count tile s r
        → precinct_column_point tile s r (column_at (precinct_cells tile s r) k)
        ≡ max tile.x.low (column_at (precinct_cells tile s r) k * (2 ^ exponent_across s r * (2 ^ (s.levels - r) * s.dx))) }
    ensures down { (tile : Rect) (s : CompShape) (r k : ℕ) → ShapeInRange s → k < precinct_count tile s r
        → precinct_row_point tile s r (row_at (precinct_cells tile s r) k)
        ≡ max tile.y.low (row_at (precinct_cells tile s r) k * (2 ^ exponent_down s r * (2 ^ (s.levels - r) * s.dy))) }
    ensures inside { (g : Geometry) (c r k : ℕ) → GeometryInRange g → HasPrecinct g c r k
        → InRect (rect_of_tile g) (reference_across g c r k) (reference_down g c r k) }
{}
