//! What the coding passes of a code-block are (ITU-T T.800, Annex D): coefficients, the labels of
//! decisions, the questions that a pass asks of whoever answers for them, the reader of segments that
//! both forms of the passes ask, and the laws that recoding rests on.
#![tactic(auto)]

mod coded;
mod coef;
mod labels;
pub mod laws;
mod question;
mod reader;
mod source;
mod stand;
mod symbol;

pub use coded::{BadSymbol, Coded, Segments};
pub use coef::Coef;
pub use labels::{refinement_label, sign_label, significance_label};
pub use question::{About, Plane, Question};
pub use reader::Reader;
pub use source::Source;
pub use stand::Stand;
pub use symbol::ask_symbol;
