//! The commands over files, in two tables, that of the streams themselves and that of the tools beside them: which word
//! names each, and one run of any words; and the program over both.
#![tactic(auto)]

mod here;
pub mod program;
mod tools;

pub use here::{FORMS, run_here};
pub use tools::{TOOLS, is_tool, run_tools};
