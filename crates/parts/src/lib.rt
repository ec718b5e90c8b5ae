// The parts of a bench chip, in memory: buffers of a fixed size, the chip record, and the queue of the fates to come.
#![tactic(auto)]

pub mod inboxes;
mod pushes;
pub mod queues;
pub mod records;
pub mod rooms;

pub use inboxes::Inbox;
pub use queues::FateQueue;
pub use records::ChipRecord;
pub use rooms::Room;
