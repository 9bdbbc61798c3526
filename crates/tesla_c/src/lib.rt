//! The library `libtesla`: receivers, senders and followers as C functions.
#![tactic(auto)]

mod answers;
mod engine;
mod exports;
mod exports_sender;
mod follow_opening;
mod follower;
mod following;
mod frames;
mod lags;
mod loose;
mod making;
mod opening;
mod parameters;
mod pure;
mod receiver;
mod records;
mod sender;
mod sender_answers;
mod sender_opening;
mod setups;
mod slot;
mod status;
