//! The boxes of a JP2 file (ITU-T T.800, Annex I): the codestream among them, the file with another codestream in its place, and a
//! list of all, and names. Limit: 2^32 - 1 bytes.
#![tactic(auto)]

mod faults;
mod finding;
mod heads;
mod kinds;
pub mod laws;
mod levels;
mod lines;
mod listing;
mod naming;
mod numbers;
mod positions;
mod wrapping;

pub use faults::BoxFault;
pub use finding::{find, is_jp2};
pub use listing::list;
pub use naming::{brand, names};
pub use positions::holds_positions;
pub use wrapping::{Head, around, head_for};

/// How a box's head tells where the box ends (T.800, I.4).
#[derive(Clone, Copy, Debug, PartialEq, Eq)]
pub enum HeadForm {
    /// LBox has the length of the box. The head has 8 bytes.
    Short,
    /// LBox is 1 and XLBox has the length of the box. The head has 16 bytes.
    Long,
    /// LBox is 0: the box goes on up to the end of the file. The head has 8 bytes.
    Rest,
}

/// A box by its places, which are bytes of the file, counted from 0.
#[derive(Clone, Copy, Debug, PartialEq, Eq)]
pub struct Boxed {
    /// The first byte of its head.
    pub head: u32,
    /// The first byte of its content.
    pub from: u32,
    /// The byte after its content, which is its end.
    pub to: u32,
    /// How its head tells the end.
    pub form: HeadForm,
}
