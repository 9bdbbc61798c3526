//! Entries that a desk in memory keeps, the newest first.

ghost use Rattle.std.specs.Prelude.{◌≡◌, [], ◌∷◌, ◌++◌, IfOk, OnOk, is_ok, option_map, bytes_eq, if◌then◌else◌};
ghost use Rattle.tesla_memory_desk.specs.Stored.{entries_in, newest, values_under};

use std::alloc::Global;
use std::mem;
use tesla_base::{NoMemory, Text};

/// Entries, the newest first.
#[derive(Drop)]
pub enum Entries<T> {
    Empty,
    Newest(T, Box<Entries<T>>),
}

/// A value under a name.
#[derive(Drop)]
pub struct Named<T> {
    pub name: Text,
    pub value: T,
}

impl<T> Named<T> {
    // Whether the value is under this name.
    fn is_under(&self, name: &[u8]) -> bool
        ensures { result ≡ bytes_eq self.now.name name.now }
    {
        self.name.bytes() == name
    }
}

impl<T> Entries<T> {
    /// A box for one entry more, which is made before anything changes.
    pub fn spare(alloc: Global) -> Result<Box<Entries<T>>, NoMemory>
    where
        T: Drop,
        ensures { IfOk result (λ spare. entries_in spare.value ≡ []) }
    {
        Ok(Box::new(alloc, Entries::Empty)?)
    }

    /// A copy of a name, and a box for one entry more, which are made before anything changes.
    pub fn spare_under(alloc: Global, name: &str) -> Result<(Text, Box<Entries<T>>), NoMemory>
    where
        T: Drop,
        ensures { IfOk result (λ made. made.0 ≡ name.now) }
    {
        let spare = Entries::spare(alloc)?;
        let name = Text::new(alloc, name.as_bytes())?;
        Ok((name, spare))
    }

    /// Puts an entry before the others. The box was made before, so that this takes no memory.
    pub fn put(&mut self, entry: T, mut spare: Box<Entries<T>>)
    where
        T: Drop,
        ensures { entries_in self.new ≡ entry ∷ entries_in self.old }
    {
        *spare = mem::replace(self, Entries::Empty);
        *self = Entries::Newest(entry, spare);
    }
}

/// The newest value under this name.
pub fn newest_under<'a, T>(entries: &'a Entries<Named<T>>, name: &[u8]) -> Option<&'a T>
    ensures { option_map (λ value. value.now) result ≡ newest (entries_in entries.now) name.now }
{
    match entries {
        Entries::Empty => None,
        Entries::Newest(entry, rest) => {
            if entry.is_under(name) {
                Some(&entry.value)
            } else {
                newest_under(rest, name)
            }
        }
    }
}

/// Puts a value under this name before the others.
pub fn put_under<T: Drop>(
    entries: &mut Entries<Named<T>>,
    alloc: Global,
    name: &str,
    value: T,
) -> Result<(), NoMemory>
    ensures { entries_in entries.new ≡ (if is_ok result then record { name = name.now; value = value } ∷ entries_in entries.old else entries_in entries.old) }
{
    let (name, spare) = Entries::spare_under(alloc, name)?;
    entries.put(Named { name, value }, spare);
    Ok(())
}

/// Puts all values under this name at the end of a list, the newest first.
pub fn collect_under(
    entries: &Entries<Named<u64>>,
    name: &[u8],
    into: &mut Vec<u64>,
) -> Result<(), NoMemory>
    ensures { OnOk result (into.new.items ≡ into.old.items ++ values_under (entries_in entries.now) name.now) }
{
    match entries {
        Entries::Empty => Ok(()),
        Entries::Newest(entry, rest) => {
            if entry.is_under(name) {
                into.push(entry.value)?;
            }
            collect_under(rest, name, into)
        }
    }
}
