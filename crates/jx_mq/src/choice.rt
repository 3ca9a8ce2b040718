ghost use Rattle.std.specs.Prelude.{◌≡◌, ◌<◌, ◌==◌, if◌then◌else◌};

/// One of two numbers. As a choice of values it needs no branch.
#[inline(always)]
pub fn either(test: bool, one: u32, other: u32) -> u32
    ensures { result ≡ (if test then one else other) }
{
    if test { one } else { other }
}

/// One of two numbers by a bit, in arithmetic, of which the compiler makes no branch.
#[inline(always)]
pub fn by_bit(bit: u32, one: u32, other: u32) -> u32
    requires { bit < 2 }
    ensures { result ≡ (if bit == 1 then one else other) }
{
    let mask = 0u32.wrapping_sub(bit);
    other.wrapping_add(one.wrapping_sub(other) & mask)
}

/// A number, or 0 where a bit is 1.
#[inline(always)]
pub fn unless(bit: u32, number: u32) -> u32
    requires { bit < 2 }
    ensures { result ≡ (if bit == 1 then 0 else number) }
{
    number & bit.wrapping_sub(1)
}
