//! Packet orders: the packets of a tile in the order in which they are sent (T.800, A.6.6 and B.12).
#![tactic(auto)]

mod bounds;
mod covered;
mod entry;
mod keys;
pub mod laws;
mod listing;
mod names;
mod repeats;
mod rows;
mod sending;
mod spread;
mod table;

pub use covered::are_covered;
pub use keys::Order;
pub use listing::packets;
pub use names::{OrderFault, PacketName};
