//! Reading a data frame again and again.

ghost use Rattle.std.specs.Prelude.{◌≡◌, ◌+◌, ◌*◌, ◌==◌, if◌then◌else◌, min};

use tesla_base::MOST_DATAGRAM;
use tesla_frame::{FrameView, read_frame};

/// How many bytes a frame has before its payload.
const HEAD: usize = 22;

/// A datagram that is a data frame.
#[derive(Drop)]
pub struct Datagram {
    bytes: [u8; MOST_DATAGRAM],
    length: usize,
}

impl Datagram {
    /// The data frame of a version with so many bytes of payload, at most 1,200, and so many rows, at most 8. Each row
    /// has a tag of 16 bytes and a key.
    pub fn new(version: u64, payload: u64, chains: u64) -> Datagram
        ensures { result.length ≡ 23 + min payload 1200 + (if version == 2 then 1 else 0) + 49 * min chains 8 }
    {
        let payload = payload.min(1200) as usize;
        let chains = chains.min(8) as usize;
        let mut bytes = [1; 2048];
        bytes[..4].copy_from_slice(b"TSLA");
        bytes[20..22].copy_from_slice(&(payload as u16).to_be_bytes());
        bytes[HEAD + payload] = chains as u8;
        let mut rows = HEAD + payload + 1;
        if version == 2 {
            bytes[4] = 2;
            bytes[rows] = 16;
            rows += 1;
        }
        Datagram {
            bytes,
            length: rows + chains * 49,
        }
    }
}

/// A sum over what a reader of the frame looks at: its payload's length, and of each row a byte of the tag and of the
/// key.
fn looked_at(view: &FrameView<'_>) -> u64 {
    match view {
        FrameView::Data(data) => {
            let mut sum = data.payload().len() as u64;
            for chain in 0..data.count() {
                let tag = data.tag(chain);
                sum = sum.wrapping_add(u64::from(tag.bytes[15]));
                if let Some(key) = data.key(chain) {
                    sum = sum.wrapping_add(u64::from(key.0[31]));
                }
            }
            sum
        }
        FrameView::Disclosure(keys) => u64::from(keys.count()),
    }
}

/// Reads the datagram so many times, each time with another interval, and adds up what was looked at.
pub fn read_often(datagram: &Datagram, times: u64) -> u64 {
    let mut bytes = datagram.bytes;
    let length = datagram.length.min(2048);
    let mut sum = 0u64;
    for turn in 0..times {
        bytes[17] = (turn % 251) as u8;
        if let Some(view) = read_frame(&bytes[..length]) {
            sum = sum.wrapping_add(looked_at(&view));
        }
    }
    sum
}
