//! What is so of every history, as contracts of functions that do nothing.

ghost use Rattle.std.specs.Prelude.{◌≡◌, ◌⊎◌, ◌<◌, ◌≤◌, ◌+◌, ◌^◌, ◌++◌, ℕ, List, Some, true, count_by, length, map, slice_get};
ghost use Rattle.tesla_base.specs.declared.names.Name.{Name};
ghost use Rattle.tesla_early.specs.Payloads.{promise_for, promise_of};
ghost use Rattle.tesla_early.specs.Woven.{woven};
ghost use Rattle.tesla_early.specs.declared.promise.Promise.{Promise};
ghost use Rattle.tesla_fitting.specs.declared.config.Config.{Config};
ghost use Rattle.tesla_receiver.specs.History.{IsLegal};
ghost use Rattle.tesla_receiver.specs.Entries.{Arrival, Entry};
ghost use Rattle.tesla_early.specs.Early.{Message, candidate, is_early, learnt};
ghost use Rattle.tesla_early.specs.Laws.{Collides, Gave, GivenAreOf, IsLearnt, IsLive, IsOneOf, IsReleased, NamesFit, ReachesReleased, Taught, TaughtPromise, Uses, WasEarly, WasPromised, is_used, origin_of};
ghost use Rattle.tesla_early.specs.Learnt.{Learnt};
ghost use Rattle.tesla_early.specs.Counted.{early_arrivals, early_count};

/// Where `weave` made the payloads, the message that comes `gap` behind one that taught its promise is early: where it
/// arrives with one of the four verdicts, fewer than `most` promises were learnt after its own, and no arrival before used it.
pub fn woven()
    ensures { (most gap k entry : ℕ) (names : List Name) (bodies : List (List ℕ)) (payload later : List ℕ) (name : Name) (h : List Entry) (arrival : Arrival) →
        1 ≤ gap → length names ≡ length bodies → name.interval < 2 ^ 32 → name.number < 2 ^ 16 →
        slice_get (woven gap names bodies) k ≡ Some payload → slice_get (woven gap names bodies) (k + gap) ≡ Some later → slice_get names (k + gap) ≡ Some name →
        Taught most h entry payload → IsLive most h entry → candidate arrival ≡ Some (record { name = name; payload = later }) → is_early most h arrival ≡ true }
{}

/// The promise of each early arrival stands in a payload that was given before, or that was early before.
pub fn promised()
    ensures { (most : ℕ) (h : List Entry) (entry : ℕ) (message : Message) → WasEarly most h entry message → WasPromised most h entry message }
{}

/// Each promise accepts one arrival.
pub fn once()
    // Each early arrival uses the promise of its message, which an entry before taught.
    ensures uses { (most : ℕ) (h : List Entry) (entry : ℕ) (message : Message) → WasEarly most h entry message →
        (teacher : ℕ) × (teacher < entry) × TaughtPromise most h teacher (promise_for message.name message.payload) × Uses most h entry teacher }
    // Nothing else uses a promise.
    ensures only { (most : ℕ) (h : List Entry) (n teacher : ℕ) → Uses most h n teacher →
        (message : Message) × WasEarly most h n message × TaughtPromise most h teacher (promise_for message.name message.payload) }
    // None uses those of two entries.
    ensures one { (most : ℕ) (h : List Entry) (n a b : ℕ) → Uses most h n a → Uses most h n b → a ≡ b }
    // No two use that of one entry.
    ensures once { (most : ℕ) (h : List Entry) (n m teacher : ℕ) → Uses most h n teacher → Uses most h m teacher → n ≡ m }
{}

/// As many arrivals are early as promises are used: so never more than promises were learnt.
pub fn counted()
    ensures { (most : ℕ) (h : List Entry) → early_count most h ≡ count_by is_used (learnt most h) }
{}

/// The promises that are learnt are those that were taught, in the order of the entries that taught them.
pub fn taught()
    // What an entry taught is learnt.
    ensures learnt { (most : ℕ) (h : List Entry) (entry : ℕ) (payload : List ℕ) (promise : Promise) → Taught most h entry payload → promise_of payload ≡ Some promise → IsLearnt most h entry promise }
    // What is learnt was taught by its entry.
    ensures only { (most : ℕ) (h : List Entry) (place : ℕ) (it : Learnt) → slice_get (learnt most h) place ≡ Some it → TaughtPromise most h it.entry it.promise }
    // No two were taught by one entry.
    ensures one { (most : ℕ) (h : List Entry) (i j : ℕ) (a b : Learnt) → slice_get (learnt most h) i ≡ Some a → slice_get (learnt most h) j ≡ Some b → a.entry ≡ b.entry → i ≡ j }
    // A later one was taught by a later entry.
    ensures order { (most : ℕ) (h : List Entry) (i j : ℕ) (a b : Learnt) → slice_get (learnt most h) i ≡ Some a → slice_get (learnt most h) j ≡ Some b → i < j → a.entry < b.entry }
{}

/// What was told stays told: of the first entries it is a prefix of what all of them tell.
pub fn prefixes()
    // The promises that were learnt stay, in their places; only whether they were used may change.
    ensures promises { (most : ℕ) (h more : List Entry) → (rest : List (ℕ × Promise)) × (map origin_of (learnt most (h ++ more)) ≡ map origin_of (learnt most h) ++ rest) }
    // What was early stays early.
    ensures early { (most : ℕ) (h more : List Entry) → (rest : List Arrival) × (early_arrivals most (h ++ more) ≡ early_arrivals most h ++ rest) }
{}

/// In a legal history the trust in each early message goes back to a packet that was released.
pub fn authentic()
    // Each packet that is given is the next one that is released.
    ensures released { (cfg : Config) (h : List Entry) (entry : ℕ) (payload : List ℕ) → IsLegal cfg h → Gave h entry payload → IsReleased cfg h entry payload }
    // The promise of each early message stands in such a packet, or in a message that was early before and whose own promise goes back to one.
    ensures reaches { (cfg : Config) (most : ℕ) (h : List Entry) (entry : ℕ) (message : Message) → IsLegal cfg h → WasEarly most h entry message → ReachesReleased cfg most h entry message }
{}

/// Where each packet that was given has one of the payloads that `weave` made, each early message is one of those messages;
/// or an early payload up to it and one of those payloads are two texts with one SHA-256 digest.
pub fn genuine()
    ensures { (most gap : ℕ) (names : List Name) (bodies : List (List ℕ)) (h : List Entry) (entry : ℕ) (message : Message) →
        1 ≤ gap → length names ≡ length bodies → NamesFit names → GivenAreOf h (woven gap names bodies) → WasEarly most h entry message →
        IsOneOf names (woven gap names bodies) message ⊎ Collides most h entry (woven gap names bodies) }
{}
