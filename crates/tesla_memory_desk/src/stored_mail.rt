//! What a desk in memory keeps of posts.

ghost use Rattle.std.specs.Prelude.{◌≡◌, length};
ghost use Rattle.std.specs.List.{sum};

use crate::entries::{Entries, Named};

/// The datagrams of a post, one behind another, their lengths, and whether the post failed.
#[derive(Drop)]
pub struct StoredMail {
    pub bytes: Vec<u8>,
    pub lengths: Vec<u16>,
    pub failed: bool,
    pub ghost whole: { sum lengths.items ≡ length bytes.items },
}

/// What closed posts sent, by name. Of those with one name the newest counts.
pub type StoredMails = Entries<Named<StoredMail>>;

impl StoredMail {
    ghost use Rattle.std.specs.Prelude.{◌≡◌, ◌<◌, ◌≤◌, ◌+◌, ◌∷◌, ◌++◌, [], length, vec_len, vec_capacity};
    ghost use Rattle.std.specs.List.{slice_get};
    ghost use Rattle.std.specs.Option.{option_map};
    ghost use Rattle.tesla_memory_desk.specs.LiveMemory.{datagrams_stored};

    /// Adds a datagram, for which there is memory.
    #[tactic(auto, using(crate::proofs::Mail::cut_more))]
    pub fn add(&mut self, datagram: &[u8])
        requires size { length datagram.now ≤ 2048 }
        requires bytes { vec_len self.old.bytes + length datagram.now ≤ vec_capacity self.old.bytes }
        requires lengths { vec_len self.old.lengths < vec_capacity self.old.lengths }
        ensures datagrams { datagrams_stored self.new ≡ datagrams_stored self.old ++ datagram.now ∷ [] }
        ensures bytes { vec_len self.new.bytes ≡ vec_len self.old.bytes + length datagram.now }
        ensures lengths { vec_len self.new.lengths ≡ vec_len self.old.lengths + 1 }
        ensures memory { (vec_capacity self.old.bytes ≤ vec_capacity self.new.bytes) × (vec_capacity self.new.lengths ≡ vec_capacity self.old.lengths) }
    {
        let StoredMail {
            bytes,
            lengths,
            failed: _,
        } = self;
        lengths.push_reserved(datagram.len() as u16);
        let _ = bytes.extend_from_slice(datagram);
    }

    /// The datagram with this number, counted from 0; `None` exactly where there is none.
    pub fn datagram(&self, number: usize) -> Option<&[u8]>
        ensures { option_map (λ datagram. datagram.now) result ≡ slice_get (datagrams_stored self.now) number }
    {
        let mut lengths = self.lengths.as_slice();
        let mut bytes = self.bytes.as_slice();
        for _ in 0..number {
            let Some((first, more)) = lengths.split_first() else {
                return None;
            };
            let (_, behind) = bytes.split_at(usize::from(*first));
            (lengths, bytes) = (more, behind);
        }
        let Some((first, _)) = lengths.split_first() else {
            return None;
        };
        let (datagram, _) = bytes.split_at(usize::from(*first));
        Some(datagram)
    }
}
