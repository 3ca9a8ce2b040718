//! Code words of a packet header, read: numbers, the number of passes, the raise of Lblock (T.800, B.10.6, B.10.7).

ghost use Rattle.std.specs.Prelude.{◌≡◌, ◌∷◌, [], ◌<◌, ◌+◌, ◌*◌, if◌then◌else◌, ◌^◌, Some, None, IfOk, IfErr, OnOk};
ghost use Rattle.jx_tagtree.specs.Header.{to_come};
ghost use Rattle.jx_packet_header.specs.Scan.{scan_number, scan_passes, scan_passes_2, scan_passes_4, scan_raise};
ghost use Rattle.jx_packet_header.specs.Frame.{frame};

use crate::HeadFault;
use jx_tagtree::BitReader;

/// Takes a bit.
pub(crate) fn flag(bits: &mut BitReader<'_>) -> Result<bool, HeadFault>
    ensures ok { IfOk result (λ b. to_come bits.old ≡ b ∷ to_come bits.new) }
    ensures frame { OnOk result (frame bits.new ≡ frame bits.old) }
    ensures err { IfErr result (λ e. (e ≡ HeadFault.Bits) × (to_come bits.old ≡ [])) }
{
    match bits.bit() {
        Ok(bit) => Ok(bit),
        Err(_) => Err(HeadFault::Bits),
    }
}

/// Takes a number of `width` bits, which must be below 2^32.
pub(crate) fn read_number(width: u128, bits: &mut BitReader<'_>) -> Result<u32, HeadFault>
    ensures ok { IfOk result (λ n. scan_number width (to_come bits.old) ≡ Some (record { value = n; rest = to_come bits.new })) }
    ensures fits { IfOk result (λ n. n < 2 ^ width) }
    ensures frame { OnOk result (frame bits.new ≡ frame bits.old) }
    ensures err { IfErr result (λ e. (e ≡ HeadFault.Bits) × (scan_number width (to_come bits.old) ≡ None)) }
{
    let mut value: u64 = 0;
    let mut taken = 0;
    while taken < width {
        let next = with_bit(value, flag(bits)?);
        if next > u32::MAX as u64 {
            return Err(HeadFault::Bits);
        }
        value = next;
        taken += 1;
    }
    Ok(value as u32)
}

/// A number with one more bit behind it.
fn with_bit(value: u64, bit: bool) -> u64
    requires { value < 2 ^ 32 }
    ensures { result ≡ 2 * value + (if bit then 1 else 0) }
{
    if bit { 2 * value + 1 } else { 2 * value }
}

/// Takes the code word of a number of passes (T.800 table B.4).
pub(crate) fn read_passes(bits: &mut BitReader<'_>) -> Result<u16, HeadFault>
    ensures ok { IfOk result (λ n. scan_passes (to_come bits.old) ≡ Some (record { value = n; rest = to_come bits.new })) }
    ensures frame { OnOk result (frame bits.new ≡ frame bits.old) }
    ensures err { IfErr result (λ e. (e ≡ HeadFault.Bits) × (scan_passes (to_come bits.old) ≡ None)) }
{
    if !flag(bits)? {
        return Ok(1);
    }
    if !flag(bits)? {
        return Ok(2);
    }
    read_some_passes(bits)
}

/// The rest of a code word that begins with two ones.
fn read_some_passes(bits: &mut BitReader<'_>) -> Result<u16, HeadFault>
    ensures ok { IfOk result (λ n. scan_passes_2 (to_come bits.old) ≡ Some (record { value = n; rest = to_come bits.new })) }
    ensures frame { OnOk result (frame bits.new ≡ frame bits.old) }
    ensures err { IfErr result (λ e. (e ≡ HeadFault.Bits) × (scan_passes_2 (to_come bits.old) ≡ None)) }
{
    let number = read_number(2, bits)?;
    if number < 3 {
        return Ok(3 + number as u16);
    }
    read_many_passes(bits)
}

/// The rest of a code word that begins with four ones.
fn read_many_passes(bits: &mut BitReader<'_>) -> Result<u16, HeadFault>
    ensures ok { IfOk result (λ n. scan_passes_4 (to_come bits.old) ≡ Some (record { value = n; rest = to_come bits.new })) }
    ensures frame { OnOk result (frame bits.new ≡ frame bits.old) }
    ensures err { IfErr result (λ e. (e ≡ HeadFault.Bits) × (scan_passes_4 (to_come bits.old) ≡ None)) }
{
    let number = read_number(5, bits)?;
    if number < 31 {
        return Ok(6 + number as u16);
    }
    let more = read_number(7, bits)?;
    Ok(37 + more as u16)
}

/// Takes ones up to a zero, and says how many.
pub(crate) fn read_raise(bits: &mut BitReader<'_>) -> Result<u128, HeadFault>
    requires { (frame bits.old).total < 2 ^ 67 }
    ensures ok { IfOk result (λ k. scan_raise (to_come bits.old) ≡ Some (record { value = k; rest = to_come bits.new })) }
    ensures few { IfOk result (λ k. k < 2 ^ 67) }
    ensures frame { OnOk result (frame bits.new ≡ frame bits.old) }
    ensures err { IfErr result (λ e. (e ≡ HeadFault.Bits) × (scan_raise (to_come bits.old) ≡ None)) }
{
    let mut raise = 0;
    while flag(bits)? {
        raise += 1;
    }
    Ok(raise)
}
