//! Desks in memory: one whose answers are exact, with faults where they are asked for, and one on which nothing fails.
#![tactic(auto)]

mod calls;
mod clock_lists;
mod entries;
mod heap;
mod kept;
mod letters;
mod memory;
mod outbox;
mod pages;
mod readings;
mod settings;
mod stored;
mod stored_letters;
mod stored_mail;
mod sure;
mod sure_parts;

pub use heap::Heap;
pub use letters::Letters;
pub use memory::MemoryDesk;
pub use outbox::Outbox;
pub use pages::Pages;
pub use readings::Readings;
pub use sure::SureDesk;
pub use sure_parts::{SureLink, SurePost, SureSink, SureSource};
