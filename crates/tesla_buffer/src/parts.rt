//! The parts of a buffer: its slots, and what stands in one.

ghost use Rattle.std.specs.Prelude.{◌≡◌, ◌+◌, ◌*◌, ◌^◌, ◌<◌, ◌≤◌, ◌⊎◌, [], ◌∷◌, ◌++◌, false, length, map, take, vec_len};
ghost use Rattle.std.specs.Vec.{vec_capacity};
ghost use Rattle.tesla_buffer.specs.Held.{IsMadeOf, is_resting, wide_tag_in};
ghost use Rattle.tesla_buffer.specs.Stored.{key_of_name};

use crate::Item;
use tesla_base::{MOST_PAYLOAD, MOST_TAG_BYTES, Name, WideTag};
use tesla_frame::DataView;

/// An item of which nothing is said.
const EMPTY: Item = Item {
    order: 0,
    name: Name {
        interval: 0,
        number: 0,
    },
    chains: 0,
    released: false,
    taken: false,
    length: 0,
    payload: [0; MOST_PAYLOAD],
    tags: [WideTag {
        bytes: [0; MOST_TAG_BYTES],
        length: 0,
    }; 8],
};

/// The number that stands for a name.
pub fn key_of_name(name: Name) -> u64
    ensures value { result ≡ key_of_name name }
    ensures number { name.number < 2 ^ 16 }
{
    u64::from(name.interval) * 0x1_0000_0000 + u64::from(name.number)
}

/// Whether the packet doesn't wait to be taken: it was not released, or it was taken.
pub fn rests(item: &Item) -> bool
    ensures { result ≡ is_resting item.now }
{
    !item.released || item.taken
}

/// A slot that isn't in use: the free one that was given back last, or else a new one.
pub fn vacant_slot(slots: &mut Vec<Item>, free: &mut Vec<u32>) -> u32
    requires room { free.old.items ≡ [] → vec_len slots.old < vec_capacity slots.old }
    requires few { vec_len slots.old < 2 ^ 32 }
    ensures slot { ((free.old.items ≡ free.new.items ++ result ∷ []) × (slots.new.items ≡ slots.old.items)) ⊎ ((free.old.items ≡ []) × (free.new.items ≡ []) × (result ≡ length slots.old.items) × (slots.new.items ≡ slots.old.items ++ EMPTY ∷ [])) }
    ensures slots_capacity { vec_capacity slots.new ≡ vec_capacity slots.old }
    ensures free_capacity { vec_capacity free.new ≡ vec_capacity free.old }
{
    if let Some(place) = free.pop() {
        return place;
    }
    let place = slots.len() as u32;
    slots.push_reserved(EMPTY);
    place
}

/// Writes the tags of a frame over those that stand first, each with zeros behind its bytes.
fn write_tags(room: &mut [WideTag; 8], frame: &DataView<'_>)
    ensures tags { take (length frame.now.rows) room.new ≡ map wide_tag_in frame.now.rows }
    ensures few { length frame.now.rows ≤ 8 }
{
    for chain in 0..frame.count() {
        room[usize::from(chain)] = frame.tag(chain);
    }
}

/// Writes the item of a data frame over another. Only the bytes and the tags that are there are copied.
pub fn write_parts(item: &mut Item, order: u64, chains: u8, frame: &DataView<'_>)
    ensures made { IsMadeOf order chains frame.now item.new }
    ensures few { length frame.now.rows ≤ 8 }
    ensures payload { length frame.now.payload ≤ 1200 }
{
    let payload = frame.payload();
    item.order = order;
    item.name = frame.name();
    item.chains = chains;
    item.length = payload.len() as u16;
    item.payload[..payload.len()].copy_from_slice(payload);
    write_tags(&mut item.tags, frame);
    item.released = false;
    item.taken = false;
}
