//! What a run of a relay has in memory before it opens anything.

ghost use Rattle.std.specs.Prelude.{◌≡◌, ◌+◌, ◌≤◌, [], IfOk, length, vec_len, vec_capacity};

use std::alloc::Global;
use std::sync::Arc;
use tesla_base::NoMemory;
use tesla_desk::Environment;
use tesla_relay::{PostSide, PostTally};

/// Room for posts, what stands beside each of them, and the gate of the link.
pub(crate) struct Room<D: Environment> {
    pub(crate) posts: Vec<D::Port>,
    pub(crate) sides: Vec<PostSide<D::Pause>>,
    pub(crate) gate: D::Pause,
}

// Makes what stands beside so many posts, a gate and a tally each, and puts it behind what is there.
fn make_sides<D: Environment>(
    alloc: Global,
    count: usize,
    sides: &mut Vec<PostSide<D::Pause>>,
    desk: &mut D,
) -> Result<(), NoMemory>
    requires room { vec_len sides.old + count ≤ vec_capacity sides.old }
    ensures len { IfOk result (λ _. vec_len sides.new ≡ vec_len sides.old + count) }
    ensures desk { D.told desk.new ≡ D.told desk.old }
{
    if count == 0 {
        return Ok(());
    }
    let tally = Arc::new(alloc, PostTally::new())?;
    let gate = desk.gate();
    sides.push_reserved(PostSide { gate, tally });
    make_sides(alloc, count - 1, sides, desk)
}

/// Room for so many posts, with what stands beside each.
pub(crate) fn room_for<D: Environment>(
    alloc: Global,
    posts: usize,
    desk: &mut D,
) -> Result<Room<D>, NoMemory>
    requires { posts ≤ 32 }
    ensures posts { IfOk result (λ it. (it.posts.items ≡ []) × (posts ≤ vec_capacity it.posts)) }
    ensures sides { IfOk result (λ it. length it.sides.items ≡ posts) }
    ensures desk { D.told desk.new ≡ D.told desk.old }
{
    let mut sides = Vec::with_capacity(alloc, posts)?;
    make_sides(alloc, posts, &mut sides, desk)?;
    let posts = Vec::with_capacity(alloc, posts)?;
    let gate = desk.gate();
    Ok(Room { posts, sides, gate })
}

/// Gives the room back.
pub(crate) fn give_back<D: Environment>(room: Room<D>)
    requires { room.posts.items ≡ [] }
{
    let Room {
        posts,
        sides: _,
        gate: _,
    } = room;
    posts.destroy_empty();
}
