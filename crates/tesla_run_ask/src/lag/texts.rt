//! The texts under the names, read one after the other.

ghost use Rattle.std.specs.Prelude.{◌≡◌, ℕ, List, [], ◌∷◌, Err, IfOk};
ghost use Rattle.tesla_desk.specs.Outside.{OfSource};
ghost use Rattle.tesla_front.specs.Fault.{Causes};
ghost use Rattle.tesla_front.specs.Files.{ReadsFile};
ghost use Rattle.tesla_front.specs.Openings.{Opens, OpensSome};
ghost use Rattle.tesla_run_ask.specs.lag.Arguments.{arguments_of, files_of_lag};

use crate::lag::form::Arguments;
use std::alloc::Global;
use tesla_desk::Desk;
use tesla_front::{Fault, read_file};

/// How many bytes are asked for of an ask, of a reply and of a key: one more than they have.
const MOST_ASK: usize = 14;

const MOST_REPLY: usize = 54;

const MOST_KEY: usize = 66;

/// The texts of an ask, a reply and a key.
#[derive(Debug, Drop)]
pub struct Texts {
    pub ask: Vec<u8>,
    pub reply: Vec<u8>,
    pub key: Vec<u8>,
}

// The texts of a reply and a key.
fn read_two<D: Desk>(
    alloc: Global,
    reply: &str,
    key: &str,
    desk: &mut D,
) -> Result<(Vec<u8>, Vec<u8>), Fault>
    ensures told { IfOk result (λ read. ReadsFile 54 ((D.told desk.old).page reply.now) read.0.items × ReadsFile 66 ((D.told desk.old).page key.now) read.1.items) }
    ensures opened { IfOk result (λ _. Opens (OfSource reply.now ∷ OfSource key.now ∷ []) 2 (D.told desk.old) (D.told desk.new)) }
    ensures opens { OpensSome (OfSource reply.now ∷ OfSource key.now ∷ []) (D.told desk.old) (D.told desk.new) }
    ensures pages { (n : List ℕ) → (D.told desk.new).page n ≡ (D.told desk.old).page n }
    ensures live { (D.told desk.new).live ≡ (D.told desk.old).live }
    ensures causes { Causes result (D.told desk.old).faults (D.told desk.new).faults }
    ensures kind { result ≡ Err Fault.Write → ⊥ }
{
    let reply = read_file(alloc, reply, MOST_REPLY, desk)?;
    let key = read_file(alloc, key, MOST_KEY, desk)?;
    Ok((reply, key))
}

/// The texts under the names of the words. Each file is opened, read and closed before the next, and none is judged: of
/// a longer file one byte more is read than an ask, a reply or a key has, which tells that it is none.
///
/// A fault as `read_file` gives it, after which no further file is opened.
pub fn read_texts<D: Desk>(
    alloc: Global,
    arguments: &Arguments<'_>,
    desk: &mut D,
) -> Result<Texts, Fault>
    ensures ask { IfOk result (λ texts. ReadsFile 14 ((D.told desk.old).page arguments.now.ask.now) texts.ask.items) }
    ensures reply { IfOk result (λ texts. ReadsFile 54 ((D.told desk.old).page arguments.now.reply.now) texts.reply.items) }
    ensures key { IfOk result (λ texts. ReadsFile 66 ((D.told desk.old).page arguments.now.key.now) texts.key.items) }
    ensures opened { IfOk result (λ _. Opens (files_of_lag (arguments_of arguments.now)) 3 (D.told desk.old) (D.told desk.new)) }
    ensures opens { OpensSome (files_of_lag (arguments_of arguments.now)) (D.told desk.old) (D.told desk.new) }
    ensures live { (D.told desk.new).live ≡ (D.told desk.old).live }
    ensures causes { Causes result (D.told desk.old).faults (D.told desk.new).faults }
    ensures kind { result ≡ Err Fault.Write → ⊥ }
{
    let ask = read_file(alloc, arguments.ask, MOST_ASK, desk)?;
    let (reply, key) = read_two(alloc, arguments.reply, arguments.key, desk)?;
    Ok(Texts { ask, reply, key })
}
