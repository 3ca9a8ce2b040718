//! A JP2 file with another codestream in the place of its own (ITU-T T.800, I.4 and I.5.4).

ghost use Rattle.std.specs.Prelude.{◌≡◌, ℕ, ◌+◌, ◌<◌, ◌≤◌, ◌++◌, ◌^◌, List, length, take, drop};
ghost use Rattle.byteorder.specs.Endian.{big_bytes};
ghost use Rattle.jx_jp2.specs.Codestream.{IsCodestream};
ghost use Rattle.jx_jp2.specs.Kinds.{jp2c};
ghost use Rattle.jx_jp2.specs.Wrapped.{form_for, head_bytes};

use crate::kinds::JP2C;
use crate::{Boxed, HeadForm};
use byteorder::{BigEndian, ByteOrder};
use std::marker::Model;

fn form_for(form: HeadForm, size: u64) -> HeadForm
    requires { 16 + size < 2 ^ 64 }
    ensures { result ≡ form_for form size }
{
    match form {
        HeadForm::Short => {
            if 8 + size < 1 << 32 {
                HeadForm::Short
            } else {
                HeadForm::Long
            }
        }
        other => other,
    }
}

/// The head of a codestream box: 8 or 16 bytes (T.800, I.4).
#[derive(Drop)]
pub struct Head {
    bytes: [u8; 16],
    count: usize,
}

impl Model for Head {
    ghost Value = { List ℕ };

    ghost view = { λ h. take h.count h.bytes };

    ghost invariant = { λ h. h.count ≤ 16 };
}

impl Head {
    /// Its bytes, as they stand in the file.
    pub fn bytes(&self) -> &[u8]
        ensures same { result.now ≡ self.now }
        ensures most { length result.now ≤ 16 }
    {
        &self.bytes[..self.count]
    }
}

// LBox and TBox.
fn short_head(told: u32) -> Head
    ensures { result ≡ big_bytes 4 told ++ big_bytes 4 jp2c }
{
    let mut bytes = [0u8; 16];
    BigEndian::write_u32(&mut bytes, told);
    BigEndian::write_u32(&mut bytes[4..], JP2C);
    Head { bytes, count: 8 }
}

// LBox, TBox and XLBox.
fn long_head(told: u64) -> Head
    ensures { result ≡ big_bytes 4 1 ++ big_bytes 4 jp2c ++ big_bytes 8 told }
{
    let mut bytes = [0u8; 16];
    BigEndian::write_u32(&mut bytes, 1);
    BigEndian::write_u32(&mut bytes[4..], JP2C);
    BigEndian::write_u64(&mut bytes[8..], told);
    Head { bytes, count: 16 }
}

#[tactic(auto, unfolding(crate::specs::Wrapped::head_bytes))]
fn head_of(form: HeadForm, size: u64) -> Head
    requires most { 16 + size < 2 ^ 64 }
    requires told { form_for form size ≡ form }
    ensures { result ≡ head_bytes form size }
{
    match form {
        HeadForm::Short => short_head((8 + size) as u32),
        HeadForm::Long => long_head(16 + size),
        HeadForm::Rest => short_head(0),
    }
}

/// The head that stands in the place of the head of `boxed` before a content of `size` bytes. It keeps its form, but where the content
/// is too long for a short one, it is long.
pub fn head_for(boxed: &Boxed, size: u64) -> Head
    requires { 16 + size < 2 ^ 64 }
    ensures { result ≡ head_bytes (form_for boxed.now.form size) size }
{
    head_of(form_for(boxed.form, size), size)
}

/// What stands in the file `bytes` before the head of `boxed`, which is what `find` gives for it, and what stands behind its end.
pub fn around<'a>(bytes: &'a [u8], boxed: &Boxed) -> (&'a [u8], &'a [u8])
    requires { IsCodestream bytes.now boxed.now }
    ensures front { result.0.now ≡ take boxed.now.head bytes.now }
    ensures back { result.1.now ≡ drop boxed.now.to bytes.now }
{
    let front = bytes.split_at(boxed.head as usize).0;
    let back = bytes.split_at(boxed.to as usize).1;
    (front, back)
}
