//! The codeword segments of a code-block, whatever pieces they came in (ITU-T T.800, B.10.7 and D.4).

ghost use Rattle.std.specs.Prelude.{◌≡◌, ◌≤◌, ◌<◌, ◌++◌, ℕ, [], IfOk, IsTrue, OnOk, if◌then◌else◌, ◌==◌, length, map};
ghost use Rattle.jx_codeblock.specs.Recoding.{own_segments};
ghost use Rattle.jx_codeblock.specs.Segments.{ends_below, segment_count};
ghost use Rattle.jx_same.specs.Lists.{bytes_at};

use jx_base::{Block, NoMemory, Style, ends_segment};
use jx_tier1::Segments;
use std::alloc::Global;

/// How many of the first passes end a segment.
#[tactic(auto, using(crate::proofs::SegmentLemmas::ends_next))]
fn ends_below(style: Style, passes: u16) -> u16
    ensures value { result ≡ ends_below style.bits passes }
    ensures few { result ≤ passes }
{
    let mut count = 0;
    for pass in 0..passes {
        if ends_segment(style, pass) {
            count += 1;
        }
    }
    count
}

/// How many segments so many passes have.
#[tactic(auto, using(crate::proofs::SegmentLemmas::count_some))]
fn segment_count(style: Style, passes: u16) -> u32
    ensures { result ≡ segment_count style.bits passes }
{
    if passes == 0 {
        return 0;
    }
    u32::from(ends_below(style, passes - 1)) + 1
}

/// The same of other passes than those of which it is known: what lies between them is looked at, where they are more.
#[tactic(auto, using(crate::proofs::SegmentLemmas::ends_next, crate::proofs::SegmentLemmas::ends_few))]
fn ends_from(style: Style, passed: u16, known: u16, passes: u16) -> u16
    requires { known ≡ ends_below style.bits passed }
    ensures { result ≡ ends_below style.bits passes }
{
    if passes < passed {
        return ends_below(style, passes);
    }
    let mut count = known;
    for pass in passed..passes {
        if ends_segment(style, pass) {
            count += 1;
        }
    }
    count
}

/// So many lists without bytes.
#[tactic(auto, using(crate::proofs::SegmentLemmas::rows_begin, crate::proofs::SegmentLemmas::rows_more))]
fn empty_lists(alloc: Global, count: u32) -> Result<Vec<Vec<u8>>, NoMemory>
    ensures long { IfOk result (λ lists. length lists.items ≡ count) }
    ensures none { IfOk result (λ lists. (i : ℕ) → bytes_at (map (λ l. l.items) lists.items) i ≡ []) }
{
    let mut lists = Vec::new(alloc);
    for _number in 0..count {
        lists.push(Vec::new(alloc))?;
    }
    Ok(lists)
}

/// Appends bytes to the list of a number, where there is one.
fn put_bytes(lists: &mut Vec<Vec<u8>>, number: u16, bytes: &[u8]) -> Result<(), NoMemory>
    ensures long { OnOk result (length lists.new.items ≡ length lists.old.items) }
    ensures each { OnOk result ((i : ℕ) → i < length lists.old.items → bytes_at (map (λ l. l.items) lists.new.items) i
        ≡ bytes_at (map (λ l. l.items) lists.old.items) i ++ (if number == i then bytes.now else [])) }
{
    if usize::from(number) >= lists.len() {
        return Ok(());
    }
    lists[usize::from(number)].extend_from_slice(bytes)?;
    Ok(())
}

/// The bytes of each segment of a block. Each piece is looked at once, and so are the passes between one and the next.
pub(crate) fn segments_of(alloc: Global, block: &Block<'_>) -> Result<Vec<Vec<u8>>, NoMemory>
    ensures { IfOk result (λ lists. map (λ l. l.items) lists.items ≡ own_segments block.now) }
{
    let pieces = block.pieces.as_slice();
    let mut lists = empty_lists(alloc, segment_count(block.style, block.passes))?;
    let mut passed = 0;
    let mut number = 0;
    for piece in pieces {
        number = ends_from(block.style, passed, number, piece.first);
        passed = piece.first;
        put_bytes(&mut lists, number, piece.bytes)?;
    }
    Ok(lists)
}

/// Lists of bytes, lent as segments.
pub(crate) fn lent(alloc: Global, lists: &[Vec<u8>]) -> Result<Segments<'_>, NoMemory>
    ensures { IfOk result (λ segments. segments ≡ map (λ l. l.items) lists.entry.now) }
{
    let mut segments = Segments::new(alloc);
    for list in lists {
        segments.push(list)?;
    }
    Ok(segments)
}

/// Whether two segments have the same bytes.
#[tactic(auto, using(crate::proofs::SegmentLemmas::bytes_go, crate::proofs::SegmentLemmas::bytes_end))]
fn same_bytes(a: &[u8], b: &[u8]) -> bool
    ensures { IsTrue result → a.now ≡ b.now }
{
    if a.len() != b.len() {
        return false;
    }
    for at in 0..a.len() {
        if a[at] != b[at] {
            return false;
        }
    }
    true
}

/// Whether two blocks have the same segments.
#[tactic(auto, using(crate::proofs::SegmentLemmas::takes_go, crate::proofs::SegmentLemmas::takes_end))]
pub(crate) fn same_lists(a: &[Vec<u8>], b: &[Vec<u8>]) -> bool
    ensures { IsTrue result → map (λ l. l.items) a.now ≡ map (λ l. l.items) b.now }
{
    if a.len() != b.len() {
        return false;
    }
    for at in 0..a.len() {
        if !same_bytes(&a[at], &b[at]) {
            return false;
        }
    }
    true
}
