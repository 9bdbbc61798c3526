//! The forms of commands with one output more.

/// In which order the last two words stand.
#[derive(Clone, Copy, Drop)]
pub enum Order {
    /// The number, and then the output.
    NumberFirst,
    /// The output, and then the number.
    OutputFirst,
}

/// A form: the words of `receive` behind the name of a command, a number and the name of an output.
#[derive(Drop)]
pub struct Form {
    /// The name of the command.
    pub name: &'static str,
    /// The greatest number. The least is 1.
    pub greatest: u32,
    /// Which of the last two words is the output.
    pub order: Order,
}
