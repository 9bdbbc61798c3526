//! Threads act on one value, each in its turn: what happened is one history, in which each call stands once.
#![tactic(auto)]

mod act;
mod close;
mod crossing;
mod entrance;
pub mod examples;
pub mod laws;
mod pass;
mod perform;
mod permitting;
mod plays;
mod rule;
mod seats;
mod split;
mod turn;
mod view;
mod wait;

pub use act::Act;
pub use close::Last;
pub use crossing::crosses;
pub use pass::Pass;
pub use perform::SeatSpent;
pub use permitting::Permitting;
pub use split::NoRoom;
pub use tesla_base::Chronicle;
pub use turn::Turn;
pub use view::Call;
