//! The segment and the marker that stand in tile data (ITU-T T.800, A.8).

ghost use Rattle.std.specs.Prelude.{◌≡◌};
ghost use Rattle.jx_marker.specs.Codes.{eph_spelling, sop_spelling};

use crate::codes::{EPH, SOP};

/// The bytes of the SOP segment of a number, which stands before a packet (A.8.1).
pub fn sop(number: u16) -> [u8; 6]
    ensures { result ≡ sop_spelling number }
{
    let [high, low] = number.to_be_bytes();
    [0xFF, SOP, 0, 4, high, low]
}

/// The bytes of the EPH marker, which stands behind a packet's header (A.8.2).
pub fn eph() -> [u8; 2]
    ensures { result ≡ eph_spelling }
{
    [0xFF, EPH]
}
