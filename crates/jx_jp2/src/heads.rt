//! The box at a place, or the first of the rules 32 to 34 that it breaks (ITU-T T.800, I.4).

ghost use Rattle.std.specs.Prelude.{◌≡◌, ◌+◌, ◌-◌, ◌≤◌, length, false, None, Some, OnOk, IfOk, IfErr};
ghost use Rattle.jx_base.specs.Limits.{most_bytes};
ghost use Rattle.jx_jp2.specs.Heads.{lbox, tbox, xlbox, form_of, head_size, length_at, boxed_at, breaks_32, breaks_33, breaks_34, first_broken, IsBroken};

use crate::numbers::{u32_at, u64_at};
use crate::{BoxFault, Boxed, HeadForm};

#[tactic(auto, unfolding(crate::specs::Heads::lbox))]
fn lbox(bytes: &[u8], at: usize) -> u32
    requires { at + 8 ≤ length bytes.now }
    ensures { result ≡ lbox bytes.now at }
{
    u32_at(bytes, at)
}

/// TBox of the box at a place.
#[tactic(auto, unfolding(crate::specs::Heads::tbox))]
pub fn tbox(bytes: &[u8], at: usize) -> u32
    requires { at + 8 ≤ length bytes.now }
    ensures { result ≡ tbox bytes.now at }
{
    u32_at(bytes, at + 4)
}

#[tactic(auto, unfolding(crate::specs::Heads::xlbox))]
fn xlbox(bytes: &[u8], at: usize) -> u64
    requires { at + 16 ≤ length bytes.now }
    ensures { result ≡ xlbox bytes.now at }
{
    u64_at(bytes, at + 8)
}

#[tactic(auto, unfolding(crate::specs::Heads::form_of))]
fn form_of(told: u32) -> HeadForm
    ensures { result ≡ form_of told }
{
    match told {
        0 => HeadForm::Rest,
        1 => HeadForm::Long,
        _ => HeadForm::Short,
    }
}

/// The bytes of a head.
pub fn head_size(form: HeadForm) -> u32
    ensures { result ≡ head_size form }
{
    match form {
        HeadForm::Short | HeadForm::Rest => 8,
        HeadForm::Long => 16,
    }
}

// The length of the whole box, of which the head is there.
#[tactic(auto, unfolding(crate::specs::Heads::length_at))]
fn length_at(bytes: &[u8], at: usize) -> u64
    requires head { at + 8 ≤ length bytes.now }
    requires long { lbox bytes.now at ≡ 1 → at + 16 ≤ length bytes.now }
    ensures { result ≡ length_at bytes.now at }
{
    match lbox(bytes, at) {
        0 => (bytes.len() - at) as u64,
        1 => xlbox(bytes, at),
        told => u64::from(told),
    }
}

#[tactic(auto, unfolding(crate::specs::Heads::breaks_32))]
fn breaks_32(bytes: &[u8], at: usize, left: usize) -> bool
    requires { at + left ≤ length bytes.now }
    ensures { result ≡ breaks_32 bytes.now at left }
{
    left < 8 || (lbox(bytes, at) == 1 && left < 16)
}

#[tactic(auto, unfolding(crate::specs::Heads::breaks_33))]
fn breaks_33(bytes: &[u8], is_top: bool, at: usize) -> bool
    requires head { at + 8 ≤ length bytes.now }
    requires long { lbox bytes.now at ≡ 1 → at + 16 ≤ length bytes.now }
    ensures { result ≡ breaks_33 bytes.now is_top at }
{
    match lbox(bytes, at) {
        0 => !is_top,
        1 => xlbox(bytes, at) < 16,
        told => told < 8,
    }
}

#[tactic(auto, unfolding(crate::specs::Heads::breaks_34))]
fn breaks_34(bytes: &[u8], at: usize, left: usize) -> bool
    requires head { at + 8 ≤ length bytes.now }
    requires long { lbox bytes.now at ≡ 1 → at + 16 ≤ length bytes.now }
    ensures { result ≡ breaks_34 bytes.now at left }
{
    (left as u64) < length_at(bytes, at)
}

fn first_broken(bytes: &[u8], is_top: bool, stop: usize, at: usize) -> Option<u8>
    requires place { at ≤ stop }
    requires within { stop ≤ length bytes.now }
    ensures { result ≡ first_broken bytes.now is_top stop at }
{
    let left = stop - at;
    if breaks_32(bytes, at, left) {
        return Some(32);
    }
    if breaks_33(bytes, is_top, at) {
        return Some(33);
    }
    if breaks_34(bytes, at, left) {
        return Some(34);
    }
    None
}

// The box at a place where no rule is broken.
fn boxed_at(bytes: &[u8], is_top: bool, stop: usize, at: usize) -> Boxed
    requires small { length bytes.now ≤ most_bytes }
    requires place { at ≤ stop }
    requires within { stop ≤ length bytes.now }
    requires sound { first_broken bytes.now is_top stop at ≡ None }
    ensures { result ≡ boxed_at bytes.now at }
{
    let form = form_of(lbox(bytes, at));
    Boxed {
        head: at as u32,
        from: at as u32 + head_size(form),
        to: at as u32 + length_at(bytes, at) as u32,
        form,
    }
}

/// The box at a place of a level that ends at `stop`, or the first of the rules 32 to 34 that it breaks.
pub fn read_box(bytes: &[u8], is_top: bool, stop: usize, at: usize) -> Result<Boxed, BoxFault>
    requires small { length bytes.now ≤ most_bytes }
    requires place { at ≤ stop }
    requires within { stop ≤ length bytes.now }
    ensures sound { OnOk result (first_broken bytes.now is_top stop at ≡ None) }
    ensures boxed { IfOk result (λ boxed. boxed ≡ boxed_at bytes.now at) }
    ensures broken { IfErr result (λ wrong. IsBroken bytes.now is_top stop at wrong) }
{
    match first_broken(bytes, is_top, stop, at) {
        Some(number) => Err(BoxFault::Rule {
            number,
            place: at as u32,
        }),
        None => Ok(boxed_at(bytes, is_top, stop, at)),
    }
}
