//! Where the layers of the input ended.

ghost use Rattle.std.specs.Prelude.{◌≡◌, ◌<◌, ◌≤◌, ◌+◌, ◌==◌, ◌&&◌, ◌||◌, ℕ, false, map, drop, length, slice_index_or, IfOk};
ghost use Rattle.std.specs.List.{list_all};
ghost use Rattle.jx_base.specs.Pieces.{value_of};
ghost use Rattle.jx_codeblock.specs.Tables.{is_own_end, is_last_of_layer, are_cut, is_cut, end_within, last_within};

use crate::LayerEnd;
use jx_base::{NoMemory, Piece, Style, ends_segment};
use std::alloc::Global;

/// Whether a piece is the last one of its layer.
#[tactic(auto, using(crate::proofs::DropLemmas::last_in_layer, crate::proofs::DropLemmas::before_in_layer))]
fn ends_layer(pieces: &[Piece<'_>], at: usize) -> bool
    requires { at < length pieces.now }
    ensures { result ≡ is_last_of_layer (map value_of (drop at pieces.now)) }
{
    if at + 1 == pieces.len() {
        return true;
    }
    pieces[at].layer != pieces[at + 1].layer
}

/// How many passes were sent by the end of a piece.
fn sent_by(piece: Piece<'_>) -> usize
    ensures { result ≡ piece.entry.first + piece.entry.passes }
{
    usize::from(piece.first) + usize::from(piece.passes)
}

/// Notes that a layer ended after so many passes.
fn note(own: &mut Vec<bool>, passes: usize)
    ensures long { length own.new.items ≡ length own.old.items }
    ensures each { (n : ℕ) → n < length own.old.items → slice_index_or own.new.items n false ≡ ((passes == n) || slice_index_or own.old.items n false) }
{
    if passes < own.len() {
        own[passes] = true;
    }
}

/// Notes the end of a layer, where a piece is the last of it.
fn note_piece(own: &mut Vec<bool>, pieces: &[Piece<'_>], at: usize)
    requires { at < length pieces.now }
    ensures long { length own.new.items ≡ length own.old.items }
    ensures each { (n : ℕ) → n < length own.old.items → (slice_index_or own.new.items n false || is_own_end (map value_of (drop (at + 1) pieces.now)) n)
        ≡ (slice_index_or own.old.items n false || is_own_end (map value_of (drop at pieces.now)) n) }
{
    if !ends_layer(pieces, at) {
        return;
    }
    note(own, sent_by(pieces[at]));
}

/// Whether a layer of the input ended after each number of passes.
pub(crate) fn own_ends(
    alloc: Global,
    pieces: &[Piece<'_>],
    passes: u16,
) -> Result<Vec<bool>, NoMemory>
    ensures long { IfOk result (λ own. length own.items ≡ passes + 1) }
    ensures each { IfOk result (λ own. (n : ℕ) → n ≤ passes → slice_index_or own.items n false ≡ is_own_end (map value_of pieces.now) n) }
{
    let mut own = vec![in alloc; false; usize::from(passes) + 1]?;
    for at in 0..pieces.len() {
        note_piece(&mut own, pieces, at);
    }
    Ok(own)
}

/// Whether a number of passes is noted.
fn is_noted(own: &[bool], passes: u16) -> bool
    ensures { result ≡ slice_index_or own.now passes false }
{
    let at = usize::from(passes);
    at < own.len() && own[at]
}

/// Whether each end is one that is noted.
pub(crate) fn all_noted(own: &[bool], ends: &[LayerEnd]) -> bool
    ensures { result ≡ list_all (λ e. slice_index_or own.now e.passes false) ends.now }
{
    for end in ends {
        if !is_noted(own, end.passes) {
            return false;
        }
    }
    true
}

/// Whether an end is the block's last pass or the end of a segment.
fn is_cut(style: Style, passes: u16, end: LayerEnd) -> bool
    ensures { result ≡ is_cut style.bits passes end }
{
    end.passes == passes || ends_segment(style, end.passes.saturating_sub(1))
}

/// Whether each end is the block's last pass or the end of a segment.
pub(crate) fn all_cut(style: Style, passes: u16, ends: &[LayerEnd]) -> bool
    ensures { result ≡ are_cut style.bits passes ends.now }
{
    for end in ends {
        if !is_cut(style, passes, *end) {
            return false;
        }
    }
    true
}

/// How many passes are sent by an end that lies within a segment, and 0 by another.
fn end_within(style: Style, passes: u16, end: LayerEnd) -> u16
    ensures { result ≡ end_within style.bits passes end }
{
    if is_cut(style, passes, end) {
        return 0;
    }
    end.passes
}

/// How many passes are sent by the last end that lies within a segment; 0 where none does.
pub(crate) fn last_within(style: Style, passes: u16, ends: &[LayerEnd]) -> u16
    ensures { result ≡ last_within style.bits passes ends.now }
{
    let mut last = 0;
    for end in ends {
        last = end_within(style, passes, *end).max(last);
    }
    last
}
