//! The facts of SIZ (ITU-T T.800, A.5.1).

ghost use Rattle.std.specs.Prelude.{◌≡◌, ◌≤◌, ◌<◌, ◌++◌, None, OnOk, length, string_bytes};
ghost use Rattle.jx_base.specs.Joined.{joined};
ghost use Rattle.jx_codestream.specs.First.{canvas_of, tile_number};
ghost use Rattle.jx_codestream.specs.InRange.{StreamInRange};
ghost use Rattle.jx_codestream.specs.Shapes.{size_in};
ghost use Rattle.jx_geom.specs.Ranges.{CanvasInRange};
ghost use Rattle.jx_show.specs.Facts.{comp_facts, depth_fact, depth_of, differing_facts, fact, first_facts, of_comp, of_tile, picture_facts, sampling_fact, sign_fact, size_facts, One};
ghost use Rattle.jx_show.specs.Stated.{text_of};

use crate::fact::{About, Fact, Name, Value};
use crate::stated::{push_all, push_kept};
use crate::words::sign_word;
use jx_base::NoMemory;
use jx_codestream::{Stream, comps_of};
use jx_marker::{CompSize, Siz};

/// A fact.
pub(crate) fn fact(name: Name, about: About, value: Value) -> Fact
    ensures { One result ≡ fact name about value }
{
    Fact { name, about, value }
}

/// Of a tile, or of all tiles.
pub(crate) fn of_tile(tile: Option<u16>) -> About
    ensures { result ≡ of_tile tile }
{
    About {
        number: None,
        comp: None,
        tile,
    }
}

/// Of a component of a tile, or of all tiles.
pub(crate) fn of_comp(tile: Option<u16>, comp: u16) -> About
    ensures { result ≡ of_comp tile comp }
{
    About {
        number: None,
        comp: Some(comp),
        tile,
    }
}

/// Appends what is told of the picture and its tiles on the reference grid.
pub(crate) fn push_picture(text: &mut String, json: bool, stream: &Stream) -> Result<(), NoMemory>
    requires { StreamInRange stream.now }
    ensures { OnOk result (string_bytes text.new
        ≡ string_bytes text.old ++ text_of json (picture_facts stream.now.siz)) }
{
    let siz = &stream.siz;
    let all = of_tile(None);
    let size = Value::Size(siz.x1 - siz.x0, siz.y1 - siz.y0);
    let comps = u128::from(comps_of(siz));
    push_all(
        text,
        json,
        &[
            fact(Name::Profile, all, Value::Count(u128::from(siz.rsiz))),
            fact(Name::Size, all, size),
            fact(Name::Offset, all, Value::Place(siz.x0, siz.y0)),
            fact(Name::TileSize, all, Value::Size(siz.tw, siz.th)),
            fact(Name::TileOffset, all, Value::Place(siz.tx, siz.ty)),
            fact(
                Name::Tiles,
                all,
                Value::Count(u128::from(stream.tile_count())),
            ),
            fact(Name::Components, all, Value::Count(comps)),
        ],
    )
}

fn depth_of(size: CompSize) -> u8
    ensures { result ≡ depth_of size }
{
    size.ssiz % 128 + 1
}

fn depth_fact(about: About, size: CompSize) -> Fact
    ensures { One result ≡ depth_fact about size }
{
    fact(Name::Depth, about, Value::Count(u128::from(depth_of(size))))
}

fn sign_fact(about: About, size: CompSize) -> Fact
    ensures { One result ≡ sign_fact about size }
{
    fact(Name::Sign, about, Value::Word(sign_word(size.ssiz)))
}

fn sampling_fact(about: About, size: CompSize) -> Fact
    ensures { One result ≡ sampling_fact about size }
{
    let sampling = Value::Size(u32::from(size.dx), u32::from(size.dy));
    fact(Name::Sampling, about, sampling)
}

fn push_first(text: &mut String, json: bool, size: CompSize) -> Result<(), NoMemory>
    ensures { OnOk result (string_bytes text.new ≡ string_bytes text.old ++ text_of json (first_facts size)) }
{
    let all = of_tile(None);
    push_all(
        text,
        json,
        &[
            depth_fact(all, size),
            sign_fact(all, size),
            sampling_fact(all, size),
        ],
    )
}

/// Appends in what a component differs from the first.
#[tactic(auto, unfolding(crate::specs::Facts::differing_facts))]
fn push_differing(
    text: &mut String,
    json: bool,
    first: CompSize,
    comp: u16,
    size: CompSize,
) -> Result<(), NoMemory>
    ensures { OnOk result (string_bytes text.new
        ≡ string_bytes text.old ++ text_of json (differing_facts first comp size)) }
{
    let about = of_comp(None, comp);
    let depth = depth_of(size) == depth_of(first);
    push_kept(text, json, !depth, depth_fact(about, size))?;
    let sign = size.ssiz / 128 == first.ssiz / 128;
    push_kept(text, json, !sign, sign_fact(about, size))?;
    let sampling = size.dx == first.dx && size.dy == first.dy;
    push_kept(text, json, !sampling, sampling_fact(about, size))
}

/// The size of a component.
fn size_at(siz: &Siz, comp: u16) -> CompSize
    requires { comp < length siz.now.comps }
    ensures { result ≡ size_in siz.now comp }
{
    siz.comps.as_slice()[usize::from(comp)]
}

/// Appends in what each component differs from the first.
fn push_comps(text: &mut String, json: bool, siz: &Siz) -> Result<(), NoMemory>
    requires some { 1 ≤ length siz.now.comps }
    requires few { length siz.now.comps ≤ 16384 }
    ensures { OnOk result (string_bytes text.new
        ≡ string_bytes text.old ++ text_of json (joined (comp_facts siz.now) 0 (length siz.now.comps))) }
{
    let first = size_at(siz, 0);
    for comp in 0..comps_of(siz) {
        push_differing(text, json, first, comp, size_at(siz, comp))?;
    }
    Ok(())
}

/// Appends what is told of the components' samples.
pub(crate) fn push_sizes(text: &mut String, json: bool, siz: &Siz) -> Result<(), NoMemory>
    requires some { 1 ≤ length siz.now.comps }
    requires few { length siz.now.comps ≤ 16384 }
    ensures { OnOk result (string_bytes text.new ≡ string_bytes text.old ++ text_of json (size_facts siz.now)) }
{
    push_first(text, json, size_at(siz, 0))?;
    push_comps(text, json, siz)
}
