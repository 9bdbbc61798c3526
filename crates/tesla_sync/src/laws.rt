//! Laws of asks, replies, keys and lags, as contracts of functions that do nothing.

ghost use Rattle.std.specs.Prelude.{◌≡◌, ◌≢◌, ◌^◌, ◌<◌, ℕ, List, ℤ, Some, None, Ok, Err, FitsSigned};
ghost use Rattle.std.specs.Int.{w64};
ghost use Rattle.tesla_base.specs.declared.names.Key.{Key};
ghost use Rattle.tesla_sync.specs.Ask.{IsAsk, ask_of};
ghost use Rattle.tesla_sync.specs.KeyText.{IsKeyText, key_of};
ghost use Rattle.tesla_sync.specs.Lag.{lag_judged, lag_sum};
ghost use Rattle.tesla_sync.specs.Reply.{HasShape, IsReply, reply_judged};
ghost use Rattle.tesla_sync.specs.declared.lag.LagTooLarge.{LagTooLarge};
ghost use Rattle.tesla_sync.specs.declared.reply.SyncRefusal.TheVariants as refusals;

/// Each time has one ask, from which it is read, and nothing else is an ask.
#[tactic(auto, using(crate::proofs::Asks::ask_found, crate::proofs::Asks::ask_only))]
pub fn asks()
    // What is read is spelled so.
    ensures found { (text : List ℕ) (t_r : ℕ) → ask_of text ≡ Some t_r → IsAsk text t_r }
    // What is spelled so is read.
    ensures only { (text : List ℕ) (t_r : ℕ) → IsAsk text t_r → ask_of text ≡ Some t_r }
{}

/// Under a key each two times have one reply, from which the sender's time is read for that ask; and each refusal comes
/// exactly where it has its cause.
pub fn replies()
    // What is read is spelled so.
    ensures found { (text : List ℕ) (key : Key) (t_r t_s : ℕ) → reply_judged text key t_r ≡ Ok t_s → IsReply text key t_r t_s }
    // What is spelled so is read.
    ensures only { (text : List ℕ) (key : Key) (t_r t_s : ℕ) → IsReply text key t_r t_s → reply_judged text key t_r ≡ Ok t_s }
    // A malformed reply has another length or another head.
    ensures malformed { (text : List ℕ) (key : Key) (t_r : ℕ) → reply_judged text key t_r ≡ Err refusals.Malformed → HasShape text → ⊥ }
    ensures malformed_only { (text : List ℕ) (key : Key) (t_r : ℕ) → (HasShape text → ⊥) → reply_judged text key t_r ≡ Err refusals.Malformed }
    // A reply with a bad tag has the length and the head, and is the reply of no times under the key.
    ensures bad_tag { (text : List ℕ) (key : Key) (t_r : ℕ) → reply_judged text key t_r ≡ Err refusals.BadTag → HasShape text × ((asked t_s : ℕ) → IsReply text key asked t_s → ⊥) }
    ensures bad_tag_only { (text : List ℕ) (key : Key) (t_r : ℕ) → HasShape text → ((asked t_s : ℕ) → IsReply text key asked t_s → ⊥) → reply_judged text key t_r ≡ Err refusals.BadTag }
    // A reply to another ask is a reply under the key, to the ask that is told.
    ensures other { (text : List ℕ) (key : Key) (t_r asked : ℕ) → reply_judged text key t_r ≡ Err (refusals.OtherAsk asked) → (asked ≢ t_r) × (t_s : ℕ) × IsReply text key asked t_s }
    ensures other_only { (text : List ℕ) (key : Key) (t_r asked t_s : ℕ) → asked ≢ t_r → IsReply text key asked t_s → reply_judged text key t_r ≡ Err (refusals.OtherAsk asked) }
{}

/// Each key of 32 bytes has one text, from which it is read, and nothing else is the text of a key.
pub fn keys()
    // What is read is spelled so.
    ensures found { (text : List ℕ) (key : Key) → key_of text ≡ Some key → IsKeyText text key }
    // What is spelled so is read.
    ensures only { (text : List ℕ) (key : Key) → IsKeyText text key → key_of text ≡ Some key }
{}

/// A lag is the sender's time less the receiver's and the drift, and is refused exactly where that leaves 64 bits.
pub fn lags()
    ensures found { (t_s t_r drift : ℕ) (lag : ℤ) → lag_judged t_s t_r drift ≡ Ok lag → (lag ≡ lag_sum t_s t_r drift) × FitsSigned w64 lag }
    ensures only { (t_s t_r drift : ℕ) → FitsSigned w64 (lag_sum t_s t_r drift) → lag_judged t_s t_r drift ≡ Ok (lag_sum t_s t_r drift) }
    ensures refused { (t_s t_r drift : ℕ) (why : LagTooLarge) → lag_judged t_s t_r drift ≡ Err why → (FitsSigned w64 (lag_sum t_s t_r drift) → ⊥) × (why ≡ record { t_s = t_s; t_r = t_r; drift = drift }) }
{}
