//! Why a feed hears no more.

ghost use Rattle.std.specs.Prelude.{◌≡◌};
ghost use Rattle.tesla_feed.specs.Steps.{lacks_sender};

/// Why a feed asks its link for nothing more.
#[derive(Clone, Copy, Debug, PartialEq, Eq)]
pub enum Hearing {
    /// Nothing was left.
    Ended,
    /// The link failed.
    LinkFailed,
    /// All posts have failed.
    Unheard,
    /// The sender of a later stream can't be had.
    Lacking,
    /// The sender of a later stream was needed for what came, and couldn't be had.
    Lost,
}

impl Hearing {
    /// Whether the sender of a later stream can't be had.
    pub fn lacks_sender(self) -> bool
        ensures { result ≡ lacks_sender self }
    {
        match self {
            Hearing::Lacking | Hearing::Lost => true,
            Hearing::Ended | Hearing::LinkFailed | Hearing::Unheard => false,
        }
    }
}
