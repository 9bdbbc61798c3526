//! The text of the key that a sender and a receiver share.

ghost use Rattle.std.specs.Prelude.{◌≡◌, ◌++◌, codes, Some, IfSome};
ghost use Rattle.hex.specs.Hex.{encode_lower};
ghost use Rattle.tesla_base.specs.declared.names.Key.{Key};
ghost use Rattle.tesla_sync.specs.KeyText.{IsKeyText, key_of, key_text};

use hex::{decode_to_slice, encode_to_slice};
use tesla_base::{KEY_BYTES, Key};

/// The digits of a key.
const DIGITS: usize = 64;

/// The bytes of the text of a key.
const LENGTH: usize = 65;

// The one spelling of a key.
fn text_of(key: &Key) -> [u8; LENGTH]
    ensures { result ≡ key_text key.now }
{
    let mut text = [b'\n'; LENGTH];
    let Ok(()) = encode_to_slice(key.0, &mut text[..DIGITS]) else {
        unreachable!()
    };
    text
}

// What `read_key` answers. `hex` reads both cases, so the text is compared with the one spelling of the key.
fn key(text: &[u8]) -> Option<Key>
    ensures { result ≡ key_of text.now }
{
    if text.len() != LENGTH {
        return None;
    }
    let (digits, _) = text.split_at(DIGITS);
    let mut bytes = [0; KEY_BYTES];
    if decode_to_slice(digits, &mut bytes).is_err() {
        return None;
    }
    let key = Key(bytes);
    if text == text_of(&key).as_slice() {
        Some(key)
    } else {
        None
    }
}

/// The shared key that a text spells: 64 lower-case hexadecimal digits and an LF. `None` exactly where it spells none.
/// It takes no memory.
#[tactic(auto, using(crate::proofs::Keys::key_found, crate::proofs::Keys::key_only))]
pub fn read_key(text: &[u8]) -> Option<Key>
    // Which key it is.
    ensures exact { result ≡ key_of text.now }
    // What is read is spelled so.
    ensures found { IfSome result (IsKeyText text.now) }
    // What is spelled so is read.
    ensures only { (key : Key) → IsKeyText text.now key → result ≡ Some key }
{
    key(text)
}
