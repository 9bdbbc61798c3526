//! The lines of the command.

ghost use Rattle.std.specs.Prelude.{◌≡◌};
ghost use Rattle.tesla_front.specs.Refusal.{IsRefusal};
ghost use Rattle.tesla_run_ask.specs.lag.Lag.{lag_line, large_line, reply_line};

use itoa::Buffer;
use tesla_front::{Lines, Refusal};
use tesla_sync::{LagTooLarge, SyncRefusal};

/// The line that tells the lag.
pub fn lag_line(lag: i64) -> Lines
    ensures { result.bytes ≡ lag_line lag }
{
    let mut line = Lines::new();
    let mut digits = Buffer::new();
    line.push_str("lag ");
    line.push_str(digits.format(lag));
    line.push_str("\n");
    line
}

/// The refusal of a lag that leaves its type: status 9.
pub fn too_large(why: LagTooLarge) -> Refusal
    ensures { IsRefusal 9 (large_line why) result }
{
    let mut line = Lines::new();
    let mut digits = Buffer::new();
    line.push_str("lag too large ");
    line.push_str(digits.format(why.t_s));
    line.push_str(" ");
    line.push_str(digits.format(why.t_r));
    line.push_str(" ");
    line.push_str(digits.format(why.drift));
    line.push_str("\n");
    Refusal { status: 9, line }
}

// The line of a refused reply.
fn reply_line(why: SyncRefusal) -> Lines
    ensures { result.bytes ≡ reply_line why }
{
    let mut line = Lines::new();
    match why {
        SyncRefusal::Malformed => line.push_str("refused reply Malformed\n"),
        SyncRefusal::BadTag => line.push_str("refused reply BadTag\n"),
        SyncRefusal::OtherAsk(t_r) => {
            let mut digits = Buffer::new();
            line.push_str("refused reply OtherAsk ");
            line.push_str(digits.format(t_r));
            line.push_str("\n");
        }
    }
    line
}

/// The refusal of a reply: status 10.
pub fn refused_reply(why: SyncRefusal) -> Refusal
    ensures { IsRefusal 10 (reply_line why) result }
{
    Refusal {
        status: 10,
        line: reply_line(why),
    }
}
