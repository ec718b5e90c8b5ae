// One try: one transaction over any port, by exactly the register accesses that it takes, and its result.
#![tactic(auto)]

mod packets;
mod receipts;
mod tries;

pub use packets::Packet;
pub use receipts::{Receipt, launch, result};
pub use tries::{Arrival, try_hs_in, try_in, try_out, try_setup};
