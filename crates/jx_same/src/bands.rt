//! A tile-component of two codestreams: its headers, then its bands.

ghost use Rattle.std.specs.Prelude.{◌≡◌, ◌<◌, ◌≤◌, ◌+◌, find, length, IfOk, IsTrue};
ghost use Rattle.jx_base.specs.Joined.{joined};
ghost use Rattle.jx_geom.specs.Geometry.{HasResolution, shape_of};
ghost use Rattle.jx_same.specs.Items.{band_items, coding_items, component_items, differs, resolution_items, step_items};
ghost use Rattle.jx_same.specs.Shared.{SameHeaders};
ghost use Rattle.jx_same.specs.Sides.{AreAligned, AreBeside, HasBandOf, geometry_at, meaning_at};

use crate::Spot;
use crate::headers::{spot_of_band, spot_of_component, unlike_coding, unlike_step};
use crate::runs::compare_blocks;
use crate::side::{BandName, Side};
use jx_base::{Band, NoMemory};
use std::alloc::Global;
use std::thread::Threads;

/// The first value of a band's step that differs; none is looked for where both headers say the same of the component.
fn compare_step(a: &Side<'_>, b: &Side<'_>, name: BandName, same: bool) -> Option<Spot>
    requires beside { AreBeside a.now b.now }
    requires band { HasBandOf a.now name }
    requires same { IsTrue same → SameHeaders a.now.stream b.now.stream a.now.tile name.comp }
    ensures { result ≡ find (differs (meaning_at a.now) (meaning_at b.now))
        (step_items a.now.tile name.comp name.res name.band) }
{
    if same {
        return None;
    }
    match unlike_step(a.step(name), b.step(name)) {
        Some(field) => Some(spot_of_band(a.tile(), name, field)),
        None => None,
    }
}

/// The first value that differs of how a component is transformed and quantized; none is looked for where both headers say the same.
fn compare_coding(a: &Side<'_>, b: &Side<'_>, comp: u16, same: bool) -> Option<Spot>
    requires beside { AreBeside a.now b.now }
    requires same { IsTrue same → SameHeaders a.now.stream b.now.stream a.now.tile comp }
    ensures { result ≡ find (differs (meaning_at a.now) (meaning_at b.now)) (coding_items a.now.tile comp) }
{
    if same {
        return None;
    }
    match unlike_coding(&a.params(comp), &b.params(comp)) {
        Some(field) => Some(spot_of_component(a.tile(), comp, field)),
        None => None,
    }
}

/// The first value of a band that differs: its step, then its coefficients.
fn compare_band<R: Threads + Sync>(
    rt: &R,
    alloc: Global,
    threads: u32,
    a: &Side<'_>,
    b: &Side<'_>,
    name: BandName,
    same: bool,
) -> Result<Option<Spot>, NoMemory>
    requires threads { (1 ≤ threads) × (threads ≤ 64) }
    requires aligned { AreAligned a.now b.now name.comp }
    requires band { HasBandOf a.now name }
    requires same { IsTrue same → SameHeaders a.now.stream b.now.stream a.now.tile name.comp }
    ensures { IfOk result (λ found. found ≡ find (differs (meaning_at a.now) (meaning_at b.now))
        (band_items (geometry_at a.now) name.comp name.res name.band)) }
{
    if let Some(spot) = compare_step(a, b, name, same) {
        return Ok(Some(spot));
    }
    compare_blocks(rt, alloc, threads, a, b, name)
}

/// The first value of a resolution that differs, band by band.
fn compare_resolution<R: Threads + Sync>(
    rt: &R,
    alloc: Global,
    threads: u32,
    a: &Side<'_>,
    b: &Side<'_>,
    comp: u16,
    res: u8,
    same: bool,
) -> Result<Option<Spot>, NoMemory>
    requires threads { (1 ≤ threads) × (threads ≤ 64) }
    requires aligned { AreAligned a.now b.now comp }
    requires res { HasResolution (geometry_at a.now) comp res }
    requires same { IsTrue same → SameHeaders a.now.stream b.now.stream a.now.tile comp }
    ensures { IfOk result (λ found. found ≡ find (differs (meaning_at a.now) (meaning_at b.now))
        (resolution_items (geometry_at a.now) comp res)) }
{
    let bands = Band::of_resolution(res);
    for band in bands {
        let name = BandName {
            comp,
            res,
            band: *band,
        };
        if let Some(spot) = compare_band(rt, alloc, threads, a, b, name, same)? {
            return Ok(Some(spot));
        }
    }
    Ok(None)
}

/// The first value of the resolutions of a tile-component that differs.
fn compare_resolutions<R: Threads + Sync>(
    rt: &R,
    alloc: Global,
    threads: u32,
    a: &Side<'_>,
    b: &Side<'_>,
    comp: u16,
    levels: u8,
    same: bool,
) -> Result<Option<Spot>, NoMemory>
    requires threads { (1 ≤ threads) × (threads ≤ 64) }
    requires aligned { AreAligned a.now b.now comp }
    requires comp { comp < length a.now.stream.siz.comps }
    requires levels { levels ≡ (shape_of (geometry_at a.now) comp).levels }
    requires few { levels ≤ 32 }
    requires same { IsTrue same → SameHeaders a.now.stream b.now.stream a.now.tile comp }
    ensures { IfOk result (λ found. found ≡ find (differs (meaning_at a.now) (meaning_at b.now))
        (joined (resolution_items (geometry_at a.now) comp) 0 (levels + 1))) }
{
    for res in 0..levels + 1 {
        if let Some(spot) = compare_resolution(rt, alloc, threads, a, b, comp, res, same)? {
            return Ok(Some(spot));
        }
    }
    Ok(None)
}

/// The first value of a tile-component that differs.
///
/// # Errors
///
/// `NoMemory` where memory is refused.
pub(crate) fn compare_component<R: Threads + Sync>(
    rt: &R,
    alloc: Global,
    threads: u32,
    a: &Side<'_>,
    b: &Side<'_>,
    comp: u16,
    same: bool,
) -> Result<Option<Spot>, NoMemory>
    requires threads { (1 ≤ threads) × (threads ≤ 64) }
    requires beside { AreBeside a.now b.now }
    requires comp { comp < length a.now.stream.siz.comps }
    requires same { IsTrue same → SameHeaders a.now.stream b.now.stream a.now.tile comp }
    ensures { IfOk result (λ found. found ≡ find (differs (meaning_at a.now) (meaning_at b.now))
        (component_items (geometry_at a.now) comp)) }
{
    if let Some(spot) = compare_coding(a, b, comp, same) {
        return Ok(Some(spot));
    }
    compare_resolutions(rt, alloc, threads, a, b, comp, a.levels(comp), same)
}
