//! What the words of the commands `ask` and `reply` ask for.

ghost use Rattle.std.specs.Prelude.{◌<◌, ◌^◌};

/// What the words `ask READING ASK-OUT` ask for.
#[derive(Clone, Copy, Debug)]
pub struct AskWords<'a> {
    /// What the receiver's clock reads, in microseconds.
    pub reading: u64,
    /// The name of the file that the ask is written to.
    pub out: &'a str,
    ghost fits: { reading < 2 ^ 64 },
}

/// What the words `reply ASK KEY READING REPLY-OUT` ask for.
#[derive(Clone, Copy, Debug)]
pub struct ReplyWords<'a> {
    /// The name of the ask.
    pub ask: &'a str,
    /// The name of the shared key.
    pub key: &'a str,
    /// What the sender's clock reads, in microseconds.
    pub reading: u64,
    /// The name of the file that the reply is written to.
    pub out: &'a str,
    ghost fits: { reading < 2 ^ 64 },
}
