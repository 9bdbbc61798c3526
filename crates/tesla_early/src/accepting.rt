//! Which messages the promises accept, and what a payload teaches.

ghost use Rattle.std.specs.Prelude.{◌≡◌, option_copied, option_map};
ghost use Rattle.tesla_frame.specs.Shown.{shown};
ghost use Rattle.tesla_early.specs.Early.{may_be_early};
ghost use Rattle.tesla_early.specs.Kept.{candidate_in, is_promised_by, kept_after, kept_with};
ghost use Rattle.tesla_early.specs.Payloads.{promise_of};

use crate::{Promises, promise_of};
use tesla_frame::FrameView;
use tesla_receiver::Verdict;

/// Whether the frame of a message with this verdict fits the setup, and its keys were taken.
fn may_be_early(verdict: Verdict) -> bool
    ensures { result ≡ may_be_early verdict }
{
    matches!(
        verdict,
        Verdict::Late | Verdict::Repeat | Verdict::Full | Verdict::Kept { .. }
    )
}

impl Promises {
    /// Learns the promise of a payload, where it has one. It takes no memory.
    pub fn learn_of(&mut self, payload: &[u8])
        ensures most { self.new.most ≡ self.old.most }
        ensures reserved { self.new.reserved ≡ self.old.reserved }
        ensures kept { self.new.kept ≡ kept_with self.old.most self.old.kept (promise_of payload.now) }
    {
        if let Some(promise) = promise_of(payload) {
            self.learn(&promise);
        }
    }

    /// Tells whether the message of a frame with this verdict would be accepted: its verdict is Late, Repeat, Full or Kept,
    /// and one of the promises that aren't used is of it. Nothing changes.
    pub fn is_promised(&self, verdict: Verdict, frame: Option<&FrameView<'_>>) -> bool
        ensures { result ≡ is_promised_by self.now.kept (candidate_in verdict (option_map shown (option_copied frame.entry))) }
    {
        if !may_be_early(verdict) {
            return false;
        }
        match frame {
            Some(FrameView::Data(data)) => self.has(data.name(), data.payload()),
            Some(FrameView::Disclosure(_)) => false,
            None => false,
        }
    }

    /// Accepts the message of a frame with this verdict where it is promised, as `is_promised` tells: the first promise of
    /// it is used, and what its payload promises is learnt. It takes no memory.
    #[tactic(auto, using(crate::proofs::Using::none_used))]
    pub fn accept(&mut self, verdict: Verdict, frame: Option<&FrameView<'_>>) -> bool
        ensures most { self.new.most ≡ self.old.most }
        ensures reserved { self.new.reserved ≡ self.old.reserved }
        ensures early { result ≡ is_promised_by self.old.kept (candidate_in verdict (option_map shown (option_copied frame.entry))) }
        ensures kept { self.new.kept ≡ kept_after self.old.most self.old.kept (candidate_in verdict (option_map shown (option_copied frame.entry))) }
    {
        if !may_be_early(verdict) {
            return false;
        }
        let Some(FrameView::Data(data)) = frame else {
            return false;
        };
        let payload = data.payload();
        if !self.use_up(data.name(), payload) {
            return false;
        }
        self.learn_of(payload);
        true
    }
}
