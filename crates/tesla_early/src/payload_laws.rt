//! What is so of every payload, as contracts of functions that do nothing.

ghost use Rattle.std.specs.Prelude.{◌≡◌, ◌↔◌, ◌+◌, ◌≤◌, ◌<◌, ◌^◌, ℕ, List, Some, None, length, slice_get};
ghost use Rattle.tesla_base.specs.Prefix.{AreBytes};
ghost use Rattle.tesla_base.specs.declared.names.Name.{Name};
ghost use Rattle.tesla_early.specs.Payloads.{Promises, plain_text, promise_for, promise_of};
ghost use Rattle.tesla_early.specs.Woven.{IsWovenAt, woven};
ghost use Rattle.tesla_early.specs.declared.promise.Promise.{Promise};

/// A payload of bytes has a promise exactly where it spells it, with some body; and a plain payload has none.
pub fn promises()
    ensures exact { (payload : List ℕ) (promise : Promise) → AreBytes payload → (promise_of payload ≡ Some promise ↔ Promises payload promise) }
    ensures plain { (body : List ℕ) → promise_of (plain_text body) ≡ None }
{}

/// Of woven payloads there is one for each body, and it promises the one `gap` messages behind it.
pub fn weaving()
    // Each payload is of its own body, behind the promise of the later one.
    ensures each { (gap : ℕ) (names : List Name) (bodies : List (List ℕ)) (k : ℕ) (body : List ℕ) → 1 ≤ gap → length names ≡ length bodies →
        slice_get bodies k ≡ Some body → IsWovenAt gap names bodies (woven gap names bodies) k body }
    // There are no more payloads than bodies.
    ensures many { (gap : ℕ) (names : List Name) (bodies : List (List ℕ)) → length names ≡ length bodies → length (woven gap names bodies) ≡ length bodies }
    // What is read off a payload is the promise of the later one.
    ensures read { (gap : ℕ) (names : List Name) (bodies : List (List ℕ)) (k : ℕ) (payload later : List ℕ) (name : Name) → 1 ≤ gap → length names ≡ length bodies →
        slice_get (woven gap names bodies) k ≡ Some payload → slice_get (woven gap names bodies) (k + gap) ≡ Some later → slice_get names (k + gap) ≡ Some name →
        name.interval < 2 ^ 32 → name.number < 2 ^ 16 → promise_of payload ≡ Some (promise_for name later) }
{}
