//! Types of a user's own, read and written by hand: a composite type, an enumerated type and a
//! domain.
#![tactic(auto)]

mod inventory_item;
pub mod laws;
mod mood;
mod session_id;
pub mod types;

pub use inventory_item::InventoryItem;
pub use mood::Mood;
pub use session_id::SessionId;
