//! A plan, written in rounds of tiles: the code-blocks of a round are made by workers, its tile-parts are packed, and then they are
//! written to a file or to memory, one after another.
#![tactic(auto)]

mod blind_writer;
mod buffer;
mod crew;
mod file;
mod file_writer;
mod halt;
mod head;
mod lengths;
mod making;
mod measure;
mod memory_writer;
mod packed;
mod ready;
mod room;
mod rounds;
mod tape;
mod tile;
mod write;
mod writer;

pub use crew::{Crew, threads_for};
pub use file::{write_file, write_memory};
pub use halt::Halt;
pub use memory_writer::MemoryWriter;
pub use tape::TapeEntry;
pub use writer::ByteWriter;
