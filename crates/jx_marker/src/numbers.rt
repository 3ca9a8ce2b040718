//! Numbers of one, two and four bytes, the highest first.

ghost use Rattle.std.specs.Prelude.{◌≡◌, ◌+◌, ◌≤◌, ◌<◌, ◌^◌, ◌++◌, length, OnOk, OnErr};
ghost use Rattle.byteorder.specs.Endian.{big_from, big_bytes};

use byteorder::{BigEndian, ByteOrder};
use std::alloc::AllocError;

/// The number in the two bytes at a place.
pub fn u16_at(bytes: &[u8], at: usize) -> u16
    requires { at + 2 ≤ length bytes.now }
    ensures { result ≡ big_from at 2 bytes.now }
{
    BigEndian::read_u16(&bytes[at..])
}

/// The number in the four bytes at a place.
pub fn u32_at(bytes: &[u8], at: usize) -> u32
    requires { at + 4 ≤ length bytes.now }
    ensures { result ≡ big_from at 4 bytes.now }
{
    BigEndian::read_u32(&bytes[at..])
}

/// The number in the one or two bytes at a place.
pub fn narrow_at(bytes: &[u8], size: usize, at: usize) -> u16
    requires room { at + size ≤ length bytes.now }
    requires some { 1 ≤ size }
    requires most { size ≤ 2 }
    ensures { result ≡ big_from at size bytes.now }
{
    if size == 1 {
        u16::from(bytes[at])
    } else {
        u16_at(bytes, at)
    }
}

/// Appends a number in two bytes.
pub fn put_u16(out: &mut Vec<u8>, number: u16) -> Result<(), AllocError>
    ensures ok { OnOk result (out.new.items ≡ out.old.items ++ big_bytes 2 number) }
    ensures err { OnErr result (out.new.items ≡ out.old.items) }
{
    let mut bytes = [0u8; 2];
    BigEndian::write_u16(&mut bytes, number);
    out.extend_from_slice(&bytes)?;
    Ok(())
}

/// Appends a number in four bytes.
pub fn put_u32(out: &mut Vec<u8>, number: u32) -> Result<(), AllocError>
    ensures ok { OnOk result (out.new.items ≡ out.old.items ++ big_bytes 4 number) }
    ensures err { OnErr result (out.new.items ≡ out.old.items) }
{
    let mut bytes = [0u8; 4];
    BigEndian::write_u32(&mut bytes, number);
    out.extend_from_slice(&bytes)?;
    Ok(())
}

/// Appends a number in one or two bytes.
pub fn put_narrow(out: &mut Vec<u8>, size: usize, number: u16) -> Result<(), AllocError>
    requires some { 1 ≤ size }
    requires most { size ≤ 2 }
    requires fits { number < 256 ^ size }
    ensures ok { OnOk result (out.new.items ≡ out.old.items ++ big_bytes size number) }
    ensures err { OnErr result (out.new.items ≡ out.old.items) }
{
    if size == 1 {
        out.push(number as u8)?;
        Ok(())
    } else {
        put_u16(out, number)
    }
}
