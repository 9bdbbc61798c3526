//! The command `receive`: the datagrams of live links are judged by one receiver, and what it releases is written to sinks. And
//! `record` and `watch`, which are `receive` over other stations, with one output more, and what they have in common with it.
#![tactic(auto)]

mod arguments;
mod ending;
mod extra;
mod forms;
mod live;
mod output_arguments;
mod output_form;
mod output_words;
mod receive;
pub mod record;
pub mod watch;
mod words;

pub use arguments::Arguments;
pub use extra::{Extra, Idle};
pub use forms::RECEIVE;
pub use live::{StationResult, run_station};
pub use output_arguments::OutputWords;
pub use output_form::{Form, Order};
pub use output_words::output_words_in;
pub use receive::{receiver_under, run_receive};
