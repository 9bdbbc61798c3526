//! The formats of files of records.

ghost use Rattle.std.specs.Prelude.{◌≡◌, length};
ghost use Rattle.tesla_records.specs.Grammar.{Grammar, IsGrammar, Whole};
ghost use Rattle.tesla_records.specs.Judged.{Judges, JudgesHead, BeginsWhole};

/// What the bytes that were read of a record tell, whatever follows them.
#[derive(Clone, Copy, Debug, PartialEq, Eq)]
pub enum Judged<K> {
    /// Nothing yet: only more bytes tell.
    Awaits,
    /// A whole record of so many bytes stands at their start.
    Whole(usize),
    /// No record begins so.
    Bad(K),
}

/// What the bytes that were read of a head tell, whatever follows them.
#[derive(Clone, Copy, Debug, PartialEq, Eq)]
pub enum HeadJudged<H> {
    /// Nothing yet: only more bytes tell.
    Awaits,
    /// A whole head, which tells this.
    Whole(H),
    /// No head begins so.
    Bad,
}

/// What one format has of its own.
pub trait Format {
    ghost grammar: { Grammar };

    /// What a head tells.
    type Head: Copy;

    /// Why no record begins with some bytes.
    type Kind: Copy;

    /// The caller's room for one record.
    type Room;

    /// What the caller is told of a record beside its room.
    type Taken: Copy;

    ghost head_of: { Self.Head → grammar.Head };

    ghost kind_of: { Self.Kind → grammar.Kind };

    /// The record that the caller is told and its room holds.
    ghost shown: { Self.Taken → Self.Room → grammar.Record };

    /// What is so of a room before and after the record was put into it that the caller is told.
    ghost fits: { Self.Taken → Self.Room → Self.Room → Type 0 };

    /// How many bytes a head has.
    fn head_size() -> usize
        ensures { result ≡ grammar.head_size };

    /// What bytes tell of the head.
    fn judge_head(bytes: &[u8]) -> HeadJudged<Self::Head>
        ensures { JudgesHead grammar head_of result bytes.now };

    /// What bytes tell of the record at their start.
    fn judge(bytes: &[u8]) -> Judged<Self::Kind>
        ensures { Judges grammar kind_of result bytes.now };

    /// Puts the record of these bytes into the room.
    fn put(bytes: &[u8], room: &mut Self::Room) -> Self::Taken
        requires { BeginsWhole grammar (length bytes.now) bytes.now }
        ensures shown { (it : grammar.Record) → grammar.parse bytes.now ≡ Whole it (length bytes.now) → shown result room.new ≡ it }
        ensures fits { fits result room.old room.new };

    ghost is: { IsGrammar grammar };
}
