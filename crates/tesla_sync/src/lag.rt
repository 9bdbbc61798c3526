//! By how much the sender's clock may be ahead of the receiver's.

ghost use Rattle.std.specs.Prelude.{◌≡◌, pos, ◌+ℤ◌, ◌-ℤ◌};
ghost use Rattle.tesla_sync.specs.Lag.{lag_judged, lag_sum};

/// The lag of these readings and this drift, in microseconds, doesn't fit in 64 bits with a sign.
#[derive(Clone, Copy, Debug, PartialEq, Eq)]
pub struct LagTooLarge {
    /// The sender's time, from the reply.
    pub t_s: u64,
    /// The receiver's time, from the ask.
    pub t_r: u64,
    /// The drift that is allowed for.
    pub drift: u32,
}

// The microseconds by which the sender's clock may be ahead. 128 bits have room for every sum.
fn sum_of(t_s: u64, t_r: u64, drift: u32) -> i128
    ensures { result ≡ lag_sum t_s t_r drift }
{
    i128::from(t_s) - i128::from(t_r) + i128::from(drift)
}

/// By how many microseconds the sender's clock may be ahead of the receiver's at most: `t_s - t_r + drift`, where the
/// receiver's clock read `t_r` when it asked and the sender's `t_s` when it replied, and `drift` is what the clocks drift
/// apart before the next synchronisation (RFC 4082, section 3.3.1: the upper bound of the sender's time). `LagTooLarge`
/// exactly where that leaves the `i64`.
pub fn lag_of(t_s: u64, t_r: u64, drift: u32) -> Result<i64, LagTooLarge>
    ensures { result ≡ lag_judged t_s t_r drift }
{
    match i64::try_from(sum_of(t_s, t_r, drift)) {
        Ok(lag) => Ok(lag),
        Err(_) => Err(LagTooLarge { t_s, t_r, drift }),
    }
}
