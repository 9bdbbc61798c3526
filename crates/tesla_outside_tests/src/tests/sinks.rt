//! A sink of records that can't be written.

use std::test::Fail;
use tesla_desk::{Environment, Incidents, Observed, Output};
use tesla_live::{Command, Events, Gates, LiveDesk};

/// A file that is always full.
const FULL: &str = "/dev/full";

/// Where something stands, so that the run is asked to end.
const STANDS: &str = "/dev";

// Where a run is asked to end, no sink waits, and each has failed with its first write.
#[test]
fn a_sink_of_a_run_that_ends_fails_at_once(rt: HostRuntime) -> Result<(), Fail> {
    for command in [Command::Receive, Command::Watch, Command::Follow] {
        let stop = format!(in rt.alloc(); "{STANDS}")?;
        let events = Events::new(Some(stop), 1, command.failure_policy());
        let gates = Gates::of(events, None);
        let mut desk = LiveDesk::new(&rt, &gates, command);
        let Ok(mut output) = desk.open_output(FULL) else {
            panic!(rt; "{FULL} isn't opened")
        };
        let is_written = output.write_piece(b"one");
        desk.close_output(output);
        assert_eq!(rt;
            (is_written, desk.incidents().failed_sinks()),
            (false, 1),
            "{command:?}"
        );
    }
    Ok(())
}
