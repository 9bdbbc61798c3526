//! Which ingests have ended.

ghost use Rattle.std.specs.Prelude.{◌≡◌, ◌≤◌, false, true, replicate, slice_set, vec_capacity};
ghost use Rattle.std.specs.List.{list_all};

/// Whether all flags are set.
pub fn all_set(flags: &[bool]) -> bool
    ensures { result ≡ list_all (λ flag. flag) flags.now }
{
    for flag in flags {
        if !*flag {
            return false;
        }
    }
    true
}

/// Sets the flag at a place, if there is one.
pub fn mark(flags: &mut Vec<bool>, place: usize)
    ensures flags { flags.new.items ≡ slice_set flags.old.items place true }
    ensures capacity { vec_capacity flags.new ≡ vec_capacity flags.old }
{
    if place < flags.len() {
        flags[place] = true;
    }
}

/// Puts so many flags, none of which is set, in place of what the list had. It takes no memory: there is room for as
/// many as a `u8` can tell.
pub fn unset(flags: &mut Vec<bool>, count: u8)
    requires { 255 ≤ vec_capacity flags.old }
    ensures flags { flags.new.items ≡ replicate count false }
    ensures capacity { vec_capacity flags.new ≡ vec_capacity flags.old }
{
    flags.clear();
    for _ in 0..count {
        flags.push_reserved(false);
    }
}
