//! The numbers of a tile's precincts and code-blocks, in the order of their names, and of a precinct's leaves.

use crate::checks::{check_at, equal, equal_at};
use crate::geometries::{
    BANDS, WHOLE, geometry, has_band, has_block, has_precinct, has_resolution, shape,
};
use jx_base::{Band, BlockName};
use jx_geom::{Canvas, TileGeom};
use std::process::Abort;
use std::test::Fail;

/// The number of the block in a cell of a band; none where there is no such cell.
fn number_in(
    geom: &TileGeom,
    comp: u16,
    res: u8,
    band: Band,
    (column, row): (u32, u32),
) -> Option<usize> {
    if !has_resolution(geom, comp, res) || !has_band(res, band) {
        return None;
    }
    let all = geom.cells(comp, res, band);
    if !(all.x.low..all.x.high).contains(&column) || !(all.y.low..all.y.high).contains(&row) {
        return None;
    }
    let index = all.number(column, row) as u32;
    if !has_block(geom, comp, res, band, index) {
        return None;
    }
    let number = geom.block_number(&BlockName {
        tile: geom.number(),
        comp,
        res,
        band,
        index,
    });
    Some(number as usize)
}

/// Compares the leaves of a precinct with its blocks, band by band and row by row, and gives how many they are.
fn compare_leaves(rt: &impl Abort, geom: &TileGeom, comp: u16, res: u8, precinct: u32) -> u32 {
    if !has_resolution(geom, comp, res) || !has_precinct(geom, comp, res, precinct) {
        return 0;
    }
    let leaves = geom.leaves(comp, res, precinct);
    let mut leaf: u32 = 0;
    for band in BANDS {
        if has_band(res, band) {
            let part = geom.blocks(comp, res, band, precinct);
            for row in part.y.low..part.y.high {
                for column in part.x.low..part.x.high {
                    let want = number_in(geom, comp, res, band, (column, row));
                    equal_at(rt, &(precinct, leaf), Some(leaves.number(leaf)), want);
                    leaf = leaf.saturating_add(1);
                }
            }
        }
    }
    equal_at(rt, &(comp, res, precinct), leaves.count(), leaf as usize);
    leaf
}

/// Compares the blocks of a band, of which the first has a number, and gives that of the next band's first one.
fn compare_blocks(
    rt: &impl Abort,
    geom: &TileGeom,
    comp: u16,
    res: u8,
    band: Band,
    first: u32,
) -> u32 {
    if !has_resolution(geom, comp, res) || !has_band(res, band) {
        return first;
    }
    let grid = geom.block_grid(comp, res, band);
    let mut number = first;
    for index in 0..grid.count() {
        check_at(rt, &index, has_block(geom, comp, res, band, index));
        let name = BlockName {
            tile: geom.number(),
            comp,
            res,
            band,
            index,
        };
        equal_at(rt, &name, geom.block_number(&name), number);
        number = number.saturating_add(1);
    }
    check_at(
        rt,
        &(res, band),
        !has_block(geom, comp, res, band, grid.count()),
    );
    number
}

/// Compares the precincts of a resolution, of which the first has a number, and gives that of the next one's, and how many
/// leaves they have.
fn compare_precincts(
    rt: &impl Abort,
    geom: &TileGeom,
    comp: u16,
    res: u8,
    first: u32,
) -> (u32, u32) {
    let mut number = first;
    let mut leaves: u32 = 0;
    for precinct in 0..64 {
        if !has_resolution(geom, comp, res) || !has_precinct(geom, comp, res, precinct) {
            break;
        }
        let own = geom.precinct_number(comp, res, precinct);
        equal_at(rt, &(comp, res, precinct), own, number);
        leaves = leaves.saturating_add(compare_leaves(rt, geom, comp, res, precinct));
        number = number.saturating_add(1);
    }
    (number, leaves)
}

/// Goes through a tile, and gives how many blocks and precincts it has.
fn compare_tile(rt: &impl Abort, geom: &TileGeom) -> (u32, u32) {
    let mut blocks = 0;
    let mut precincts = 0;
    let mut leaves: u32 = 0;
    for comp in 0..geom.components() as u16 {
        for res in 0..4 {
            let (next, own) = compare_precincts(rt, geom, comp, res, precincts);
            precincts = next;
            leaves = leaves.saturating_add(own);
            for band in BANDS {
                blocks = compare_blocks(rt, geom, comp, res, band, blocks);
            }
        }
    }
    equal(rt, leaves, blocks);
    (blocks, precincts)
}

#[test]
fn numbers_of_two_tiles(rt: HostRuntime) -> Result<(), Fail> {
    let canvas = Canvas {
        x1: 40,
        y1: 23,
        x0: 5,
        y0: 1,
        tw: 24,
        th: 23,
        tx: 0,
        ty: 0,
    };
    let mut small = WHOLE;
    small[0] = 0x22;
    small[1] = 0x33;
    small[2] = 0x34;
    let comps = [
        shape(1, 1, 2, (2, 2), small),
        shape(255, 1, 2, (2, 2), small),
        shape(2, 1, 1, (2, 3), WHOLE),
    ];
    for (tile, want) in [(0, (59, 16)), (1, (50, 16))] {
        let geom = geometry(rt.alloc(), &canvas, tile, &comps)?;
        equal_at(&rt, &tile, compare_tile(&rt, &geom), want);
    }
    Ok(())
}

#[test]
fn numbers_of_four_tiles(rt: HostRuntime) -> Result<(), Fail> {
    let canvas = Canvas {
        x1: 61,
        y1: 47,
        x0: 5,
        y0: 3,
        tw: 40,
        th: 29,
        tx: 2,
        ty: 1,
    };
    let mut small = WHOLE;
    small[3] = 0x43;
    let comps = [shape(1, 1, 3, (2, 3), WHOLE), shape(2, 1, 3, (3, 2), small)];
    for (tile, want) in [(0, 99), (1, 62), (2, 95), (3, 59)] {
        let geom = geometry(rt.alloc(), &canvas, tile, &comps)?;
        equal_at(&rt, &tile, compare_tile(&rt, &geom).0, want);
    }
    Ok(())
}
