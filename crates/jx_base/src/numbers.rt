//! Quotients rounded up, as the formulas of ITU-T T.800, Annex B write them.

ghost use Rattle.std.specs.Prelude.{◌≡◌, ◌<◌, ◌^◌};
ghost use Rattle.jx_base.specs.Numbers.{ceil_of, IsCeiling};

/// The quotient of `a` and `b` rounded up: the least n with `n * b >= a`.
#[tactic(auto, using(crate::proofs::Ceilings::ceil_of_is_ceiling), unfolding(crate::specs::Numbers::ceil_of))]
pub fn ceil_div(a: u64, b: u64) -> u64
    requires { 0 < b }
    ensures value { result ≡ ceil_of a b }
    ensures least { IsCeiling a b result }
{
    a.div_ceil(b)
}

/// The quotient of `a` and 2^`s` rounded up: the least n with `n * 2^s >= a`.
pub fn ceil_shift(a: u64, s: u32) -> u64
    requires { s < 64 }
    ensures value { result ≡ ceil_of a (2 ^ s) }
    ensures least { IsCeiling a (2 ^ s) result }
{
    ceil_div(a, 1u64 << s)
}

#[cfg(test)]
mod tests {
    use super::*;

    #[test]
    fn rounds_up(rt: HostRuntime) {
        for (a, b, want) in [
            (0, 3, 0),
            (1, 3, 1),
            (6, 3, 2),
            (7, 3, 3),
            (u64::MAX, 2, 1 << 63),
        ] {
            if b > 0 {
                assert_eq!(rt; ceil_div(a, b), want, "{a} {b}");
            }
        }
        for (a, s, want) in [
            (0, 5, 0),
            (1, 5, 1),
            (64, 5, 2),
            (65, 5, 3),
            (u64::MAX, 63, 2),
        ] {
            if s < 64 {
                assert_eq!(rt; ceil_shift(a, s), want, "{a} {s}");
            }
        }
    }
}
