//! The queues before posts, as their calls show what was put into them and which of them were full.

ghost use Rattle.std.specs.Prelude.{◌≡◌, ◌≤◌, ◌∷◌, [], ◌++◌, ℕ, Bool, List, true, length, IfOk, IfErr};
ghost use Rattle.crossbeam_queue.specs.Passes.{view, IsSamePass, IsPassOf, ruled_capacity};
ghost use Rattle.tesla_relay.specs.Line.{numbered, numbered_in, put_log};
ghost use Rattle.tesla_relay.specs.Numbered.{AreBelow, AreBroughtFrom};
ghost use Rattle.tesla_relay.specs.declared.line.Item.{Item};

use crate::basis::Based;
use crate::line::{Item, Line, LinePass, length_of, put_in};
use std::sync::Wait;
use tesla_desk::Environment;

/// What puts datagrams into the queues before posts. That one was put in, or that a queue was full, is known from its calls
/// alone.
///
/// A post is named by its place among the posts, and a datagram by its number among those of its link, both counted from
/// 0.
pub trait PostQueues {
    /// Told what links brought: into the queue of this post the datagram of this number was put.
    ghost was_put: { (ℕ → List ℕ → Bool) → ℕ → ℕ → Bool } = { λ _ _ _. true };

    /// Told what links brought: so many items or more were, at one moment, in the queue of this post, and the datagram of
    /// this number had come then.
    ghost was_full: { (ℕ → List ℕ → Bool) → ℕ → ℕ → ℕ → Bool } = { λ _ _ _ _. true };

    /// Puts an item into the queue of a post: a datagram that a link brought behind all that were put in, or the end.
    /// `Err`: the queue was full at one moment, and the item is given back.
    fn put<R: Wait, X: Based>(
        rt: &R,
        line: &Line<X>,
        pass: &mut LinePass,
        post: usize,
        item: Item,
    ) -> Result<(), Item>
        requires own { IsPassOf line.now pass.old }
        requires puts { (put : List Item) × (view pass.old ≡ put_log put) }
        requires brought { (number : ℕ) × AreBelow number (numbered (view pass.old).put) × AreBroughtFrom X.basis.brought number (numbered_in item) }
        ensures own { IsSamePass pass.old pass.new }
        ensures put { IfOk result (λ _. view pass.new ≡ put_log ((view pass.old).put ++ item ∷ [])) }
        ensures full { IfErr result (λ _. (view pass.new ≡ view pass.old) × (ruled_capacity line.now ≤ length (view pass.old).put)) }
        ensures was_put { IfOk result (λ _. (number : ℕ) (bytes : List ℕ) → numbered_in item ≡ record { number = number; bytes = bytes } ∷ [] → was_put X.basis.brought post number ≡ true) }
        ensures was_full { IfErr result (λ _. (number : ℕ) (bytes : List ℕ) → numbered_in item ≡ record { number = number; bytes = bytes } ∷ [] → (items : ℕ) → items ≤ ruled_capacity line.now → was_full X.basis.brought items post number ≡ true) };

    /// How many items the queue of a post holds at most, at one moment, when a link has brought the datagram of this
    /// number.
    fn length<R: Wait, X: Based>(
        rt: &R,
        line: &Line<X>,
        pass: &mut LinePass,
        post: usize,
        number: u64,
    ) -> usize
        requires own { IsPassOf line.now pass.old }
        requires puts { (view pass.old).puts ≡ true }
        requires brought { (bytes : List ℕ) × (X.basis.brought number bytes ≡ true) }
        ensures own { IsSamePass pass.old pass.new × (view pass.new ≡ view pass.old) }
        ensures most { result ≤ length (view pass.old).put }
        ensures was_full { (items : ℕ) → items ≤ result → was_full X.basis.brought items post number ≡ true };
}

impl<D: Environment> PostQueues for D {
    fn put<R: Wait, X: Based>(
        rt: &R,
        line: &Line<X>,
        pass: &mut LinePass,
        _post: usize,
        item: Item,
    ) -> Result<(), Item> {
        put_in(rt, line, pass, item)
    }

    fn length<R: Wait, X: Based>(
        rt: &R,
        line: &Line<X>,
        pass: &mut LinePass,
        _post: usize,
        _number: u64,
    ) -> usize {
        length_of(rt, line, pass)
    }
}
