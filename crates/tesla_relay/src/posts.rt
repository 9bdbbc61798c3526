//! The opening and the closing of posts under several names.

ghost use Rattle.std.specs.Prelude.{◌≡◌, ◌≤◌, ◌+◌, [], MatchResult, map, length, vec_len, vec_capacity};
ghost use Rattle.tesla_relay.specs.Opening.{OpensOne, RefusesOne, OpensPosts, ClosesPosts, name_of};
ghost use Rattle.tesla_relay.specs.Posts.{PostSeen};

use tesla_desk::Environment;
use tesla_front::Fault;

// Opens a post.
fn open_one<D: Environment>(desk: &mut D, name: &str) -> Result<D::Port, Fault>
    ensures { MatchResult result (λ post. OpensOne name.now (D.told desk.old) (D.told desk.new) (record { name = D.Port.name post; sent = D.Port.sent post; faults = D.Port.faults post })) (λ fault. RefusesOne name.now (D.told desk.old) (D.told desk.new) fault) }
{
    Ok(desk.open_post(name)?)
}

/// Opens a post under each of these names, in order, and puts it behind those that are there, until an opening is refused.
/// The posts that were opened before it stay, and the caller closes them.
///
/// `Err`: what the refusal comes to, `Open` or `NoMemory`.
pub fn open_posts<D: Environment>(
    desk: &mut D,
    names: &[&str],
    posts: &mut Vec<D::Port>,
) -> Result<(), Fault>
    requires space { vec_len posts.old + length names.now ≤ vec_capacity posts.old }
    ensures { OpensPosts (map name_of names.now) (D.told desk.old) (D.told desk.new) (map (λ post. record { name = D.Port.name post; sent = D.Port.sent post; faults = D.Port.faults post }) posts.old.items) (map (λ post. record { name = D.Port.name post; sent = D.Port.sent post; faults = D.Port.faults post }) posts.new.items) result }
{
    let [name, names @ ..] = names else {
        return Ok(());
    };
    match open_one(desk, name) {
        Ok(post) => {
            posts.push_reserved(post);
            open_posts(desk, names, posts)
        }
        Err(fault) => Err(fault),
    }
}

/// Closes the posts, the last first.
pub fn close_posts<D: Environment>(desk: &mut D, posts: &mut Vec<D::Port>)
    ensures closes { ClosesPosts (map (λ post. record { name = D.Port.name post; sent = D.Port.sent post; faults = D.Port.faults post }) posts.old.items) (D.told desk.old) (D.told desk.new) }
    ensures none { posts.new.items ≡ [] }
{
    let Some(post) = posts.pop() else {
        return;
    };
    desk.close_post(post);
    close_posts(desk, posts);
}
