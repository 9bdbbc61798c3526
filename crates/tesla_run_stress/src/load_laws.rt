//! The law of what is sent, as the contract of a function that does nothing.

ghost use Rattle.std.specs.Prelude.{ℕ, ◌<◌, IsOk};
ghost use Rattle.tesla_sender.specs.Made.{made_disclosure, made_message};
ghost use Rattle.tesla_run_stress.specs.Base.{base_stream, last_of};
ghost use Rattle.tesla_run_stress.specs.Load.{end_reading, log_of, payload_of, reading_of};

/// All that is sent of a load is accepted, so that each message has its frame.
pub fn accepted()
    // Each message is accepted after those before it.
    ensures messages { (count k : ℕ) → k < count → IsOk (made_message (base_stream count) (log_of k) (reading_of k) (payload_of k)) }
    // The disclosure is accepted after all messages.
    ensures disclosure { (count : ℕ) → IsOk (made_disclosure (base_stream count) (log_of count) (end_reading (last_of count))) }
{}
