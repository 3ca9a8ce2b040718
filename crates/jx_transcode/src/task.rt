//! What is asked of a file.

use jx_options::{FormChoice, Options};

/// How a codestream is to be written, what is left out of it, and how much is read.
#[derive(Drop)]
pub struct Task<'a> {
    /// How it is written.
    pub options: &'a Options,
    /// The form of the file that is written.
    pub form: FormChoice,
    /// How many of the highest resolutions are left out, 0 to 32.
    pub reduce: u8,
    /// The most bytes that the file may have.
    pub limit: u32,
}
