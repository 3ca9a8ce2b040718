//! The slots of a header: a number for each kind of segment, or kind and component, that a header has once at most.

ghost use Rattle.std.specs.Prelude.{◌≡◌};
ghost use Rattle.jx_codestream.specs.Headers.{coc_slot, packed_slot, qcc_slot, rgn_slot, slot_count};

/// Segments that may stand in a header more than once.
pub const OTHER: usize = 0;

pub const COD: usize = 1;

pub const QCD: usize = 2;

pub const POC: usize = 3;

pub const CRG: usize = 4;

/// PPM or PPT of an index.
pub fn packed(index: u8) -> usize
    ensures { result ≡ packed_slot index }
{
    5 + usize::from(index)
}

/// The last slot of PPM and PPT.
pub const LAST_PACKED: usize = 260;

/// COC of a component.
pub fn coc(comp: u16) -> usize
    ensures { result ≡ coc_slot comp }
{
    261 + 3 * usize::from(comp)
}

/// QCC of a component.
pub fn qcc(comp: u16) -> usize
    ensures { result ≡ qcc_slot comp }
{
    262 + 3 * usize::from(comp)
}

/// RGN of a component.
pub fn rgn(comp: u16) -> usize
    ensures { result ≡ rgn_slot comp }
{
    263 + 3 * usize::from(comp)
}

/// How many slots there are in a picture of so many components.
pub fn count(comps: u16) -> usize
    ensures { result ≡ slot_count comps }
{
    261 + 3 * usize::from(comps)
}
