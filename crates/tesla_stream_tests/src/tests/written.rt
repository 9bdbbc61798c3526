//! What is written by calls that no command makes, and the laws of captures at their formats.

use std::test::*;
use tesla_base::Head;
use tesla_capture::{
    CaptureFormat, ScriptFormat, laws, write_arrival, write_head, write_record, write_take,
};
use tesla_desk::{Desk, Environment, Sink};
use tesla_memory_desk::MemoryDesk;
use tesla_state::Take;
use tesla_trace::{EntryBuffer, write_entry};

const HEAD: Head = Head {
    position: 0,
    interval: 1,
    number: 0,
    chain: 0,
    length: 2,
};

// The head of a capture, an arrival at 5, a take, a release record, and a take that gave that packet.
const WRITTEN: &[u8] = b"\
TCAP\x01\x01\0\0\0\0\0\0\0\x05\0\x02hi\x02\
\0\0\0\0\0\0\0\0\0\0\0\x01\0\0\0\0\x02hi\
\x02\x03\x02\0\0\0\0\0\0\0\0\0\0\0\x01\0\0\0\0\x02hi";

// Writes these.
fn writes<S: Sink>(sink: &mut S) -> bool {
    let mut payload = [0; 1200];
    payload[..2].copy_from_slice(b"hi");
    let mut entry = EntryBuffer::new();
    entry.set_take(3, Take::Given(HEAD), &payload);
    write_head(sink)
        && write_arrival(sink, 5, b"hi")
        && write_take(sink)
        && write_record(sink, &HEAD, b"hi")
        && write_entry(sink, &entry)
}

// Whether these are written over a desk, whose output then holds them.
fn is_written_over(desk: &mut MemoryDesk) -> bool {
    let Ok(mut sink) = desk.open_sink("out") else {
        return false;
    };
    let is_written = writes(&mut sink);
    desk.close_sink(sink);
    is_written && desk.page("out") == Some(WRITTEN)
}

#[test]
fn written_files(rt: HostRuntime) -> Result<(), Fail> {
    let mut desk = MemoryDesk::new(rt.alloc(), 100)?;
    let is_written = is_written_over(&mut desk);
    // One call lets the desk go: at an exit that does the proof goes through all its parts.
    drop(desk);
    assert!(rt; is_written);
    Ok(())
}

#[test]
fn laws_are_called(_rt: HostRuntime) {
    laws::captures();
    laws::scripts();
    laws::file_outlines::<CaptureFormat>();
    laws::file_outlines::<ScriptFormat>();
    laws::taken::<CaptureFormat>();
    laws::taken::<ScriptFormat>();
}
