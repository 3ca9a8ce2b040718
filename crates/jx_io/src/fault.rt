//! Why a call on the system's files or its output failed.

use std::alloc::{AllocError, Global};
use std::io;
use std::io::ErrorKind;

/// What was being done when the system refused it.
#[derive(Clone, Copy, Debug, PartialEq, Eq)]
pub enum Step {
    /// The input was opened.
    Open,
    /// Bytes of the input were read.
    Read,
    /// The output was created, or opened to be written.
    Create,
    /// A draft was made beside an output that is there.
    Draft,
    /// The output is a mount, whose place no draft can take.
    Mount,
    /// The output is another user's, in a folder where only its owner may replace it.
    Sticky,
    /// Bytes were written to a draft.
    Write,
    /// Bytes were written to what isn't replaced: a device, a pipe, standard output.
    WriteOn,
    /// A draft was brought to its disk.
    Sync,
    /// A draft took its name.
    Rename,
    /// A name was brought to the disk, of a file that was made whole.
    Folder,
    /// A text was said.
    Say,
}

/// A call that failed: what was being done, and what the system said.
#[derive(Clone, Copy)]
pub struct Fault {
    step: Step,
    error: io::Error,
}

impl Fault {
    pub(crate) fn new(step: Step, error: io::Error) -> Fault {
        Fault { step, error }
    }

    /// A fault that is no answer of a call: the system's number says what would be answered.
    pub(crate) fn of_number(step: Step, number: i32) -> Fault {
        Fault::new(step, io::Error::from_raw_os_error(number))
    }

    pub(crate) fn is_want_of_memory(&self) -> bool {
        self.error.kind() == ErrorKind::OutOfMemory
    }

    /// What was being done.
    pub fn step(&self) -> Step {
        self.step
    }

    /// The system's words for it, as `Permission denied`.
    ///
    /// # Errors
    ///
    /// `AllocError` where memory is refused.
    pub fn cause(&self, alloc: Global) -> Result<String, AllocError> {
        let error = self.error;
        let text = format!(in alloc; "{error}")?;
        // std puts the number behind the words
        if let Some((words, _)) = text.as_str().split_once(" (os error ") {
            return String::from_str(alloc, words);
        }
        Ok(text)
    }
}

/// What a device tells of its faults beside their counts, of which no contract speaks.
pub trait TellsFault {
    /// The last call that failed, where one did.
    fn last_fault(&self) -> Option<Fault>;
}
