//! The formats of captures and scripts as formats of files of records.

ghost use Rattle.std.specs.Prelude.{◌≡◌, ◌≤◌, length};
ghost use Rattle.tesla_records.specs.Grammar.{Whole};
ghost use Rattle.tesla_records.specs.Judged.{BeginsWhole};
ghost use Rattle.tesla_capture.specs.Formats.{script_is};
ghost use Rattle.tesla_capture.specs.Parsing.{file_of, parse_record};
ghost use Rattle.tesla_capture.specs.Script.{script};
ghost use Rattle.tesla_capture.specs.Steps.{HoldsRead, record_read};
ghost use Rattle.tesla_capture.specs.FileOf.{is_file};

use crate::format::{Format, ScriptFormat};
use crate::judging::{Found, judge_head, judge_record, record_found};
use crate::record::{RecordFault, RecordHead};
use crate::sizes::HEAD_SIZE;
use std::marker::PhantomData;
use tesla_base::{MOST_DATAGRAM, MOST_PAYLOAD};
use tesla_records::{HeadJudged, Judged};

/// Tells of the record of these bytes, and puts the bytes that it carries at the front of the room.
fn put_record<F: Format>(bytes: &[u8], room: &mut [u8]) -> RecordHead
    requires whole { BeginsWhole (file_of F.grammar) (length bytes.now) bytes.now }
    requires room { F.grammar.longest ≤ length room.old }
    ensures shown { (it : F.grammar.Record) → parse_record F.grammar bytes.now ≡ Whole it (length bytes.now) → record_read F.grammar result room.new ≡ it }
    ensures fits { HoldsRead F.grammar result room.old room.new }
{
    match record_found::<F>(bytes) {
        Found::Carrying { reading, bytes } => {
            room[..bytes.len()].copy_from_slice(bytes);
            RecordHead::Carrying {
                reading,
                length: bytes.len() as u16,
            }
        }
        Found::Bare { reading } => RecordHead::Bare { reading },
        Found::Short | Found::Wrong(_) => unreachable!(),
    }
}

/// The format of files of records that a format of captures or scripts is. The room is that of a datagram.
#[derive(Drop)]
pub struct FileFormat<F> {
    format: PhantomData<F>,
}

impl<F: Format> tesla_records::Format for FileFormat<F> {
    ghost grammar = { file_of F.grammar };

    type Head = ();

    type Kind = RecordFault;

    type Room = [u8; MOST_DATAGRAM];

    type Taken = RecordHead;

    ghost head_of = { λ head. tt };

    ghost kind_of = { λ fault. fault };

    ghost shown = { λ record_head room. record_read F.grammar record_head room };

    ghost fits = { λ record_head before after. HoldsRead F.grammar record_head before after };

    ghost is = { is_file F.grammar F.is };

    fn head_size() -> usize {
        HEAD_SIZE
    }

    fn judge_head(bytes: &[u8]) -> HeadJudged<()> {
        judge_head::<F>(bytes)
    }

    fn judge(bytes: &[u8]) -> Judged<RecordFault> {
        judge_record::<F>(bytes)
    }

    fn put(bytes: &[u8], room: &mut [u8; MOST_DATAGRAM]) -> RecordHead {
        put_record::<F>(bytes, room)
    }
}

/// The format of files of records that the format of scripts is, with the room of a payload.
#[derive(Drop)]
pub struct ScriptFile;

impl tesla_records::Format for ScriptFile {
    ghost grammar = { file_of script };

    type Head = ();

    type Kind = RecordFault;

    type Room = [u8; MOST_PAYLOAD];

    type Taken = RecordHead;

    ghost head_of = { λ head. tt };

    ghost kind_of = { λ fault. fault };

    ghost shown = { λ record_head room. record_read script record_head room };

    ghost fits = { λ record_head before after. HoldsRead script record_head before after };

    ghost is = { is_file script script_is };

    fn head_size() -> usize {
        HEAD_SIZE
    }

    fn judge_head(bytes: &[u8]) -> HeadJudged<()> {
        judge_head::<ScriptFormat>(bytes)
    }

    fn judge(bytes: &[u8]) -> Judged<RecordFault> {
        judge_record::<ScriptFormat>(bytes)
    }

    fn put(bytes: &[u8], room: &mut [u8; MOST_PAYLOAD]) -> RecordHead {
        put_record::<ScriptFormat>(bytes, room)
    }
}
