//! The receiver's ask for the sender's time.

ghost use Rattle.std.specs.Prelude.{◌≡◌, ℕ, Some, IfSome};
ghost use Rattle.tesla_sync.specs.Ask.{IsAsk, ask_of, ask_text};

use tesla_base::u64_at;

/// The first bytes of every ask: the magic, and the version.
const HEAD: [u8; 5] = [b'T', b'A', b'S', b'K', 1];

/// The ask of a receiver whose clock reads `t_r` microseconds: 13 bytes. It takes no memory.
pub fn write_ask(t_r: u64) -> [u8; 13]
    ensures text { result ≡ ask_text t_r }
    ensures spelled { IsAsk result t_r }
{
    let mut ask = [0; 13];
    ask[..5].copy_from_slice(&HEAD);
    ask[5..].copy_from_slice(&t_r.to_be_bytes());
    ask
}

/// The receiver's time in an ask, in microseconds. `None` exactly where the bytes aren't an ask. It takes no memory.
#[tactic(auto, using(crate::proofs::Asks::ask_found, crate::proofs::Asks::ask_only))]
pub fn read_ask(bytes: &[u8]) -> Option<u64>
    // Which time it is.
    ensures exact { result ≡ ask_of bytes.now }
    // What is read is spelled so.
    ensures found { IfSome result (IsAsk bytes.now) }
    // What is spelled so is read.
    ensures only { (t_r : ℕ) → IsAsk bytes.now t_r → result ≡ Some t_r }
{
    asked(bytes)
}

// What `read_ask` answers: each time has one spelling, so the bytes are compared with that.
fn asked(bytes: &[u8]) -> Option<u64>
    ensures { result ≡ ask_of bytes.now }
{
    let Some(t_r) = u64_at(bytes, 5) else {
        return None;
    };
    if bytes == write_ask(t_r).as_slice() {
        Some(t_r)
    } else {
        None
    }
}
