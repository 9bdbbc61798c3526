//! The names of commands, as lines on standard error begin with them.

/// The names of all commands, and of the two words that ask for a text.
const LABELS: [&str; 27] = [
    "ask",
    "audit",
    "capture",
    "chain",
    "chain2",
    "early",
    "feed",
    "follow",
    "info",
    "lag",
    "play",
    "receive",
    "record",
    "relay",
    "replay",
    "reply",
    "roll",
    "seeds",
    "send",
    "show",
    "stress",
    "trace",
    "watch",
    "watch-relay",
    "weave",
    "--help",
    "--version",
];

/// The command of this name; `run` where there is none.
pub fn label_of(name: &str) -> &'static str {
    for label in LABELS {
        if name == label {
            return label;
        }
    }
    "run"
}
