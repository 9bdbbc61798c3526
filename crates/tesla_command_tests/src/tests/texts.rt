//! What is printed of the program, and the line of want of memory for the words.

use super::status_of_program;
use std::alloc::{AllocError, Global};
use std::test::Fail;
use tesla_memory_desk::MemoryDesk;
use tesla_test_desk::run_result;

/// What is printed of the program on a console that fails.
pub const PROGRAM: &str = r"
* help on a console whose second write fails $ --help
set fails 1 -
told 5 Sends and receives streams that are authenticated with TESLA (RFC 4082).\n\n
* version on a full console $ --version
set room 5 -
told 5 tesla|
* help without a console $ --help
set unopened 0
told 7 |
lacks -
";

// What is told where there is no memory for the words.
fn told_without_words(alloc: Global) -> Result<String, Fail> {
    let mut desk = MemoryDesk::new(alloc, 100)?;
    let status = status_of_program(alloc, Err(AllocError), &mut desk);
    let reported = run_result(alloc, status, &desk);
    drop(desk);
    reported
}

#[test]
fn want_of_memory_for_words(rt: HostRuntime) -> Result<(), Fail> {
    assert_eq!(rt; told_without_words(rt.alloc())?.as_str(), "6 no memory\n");
    Ok(())
}
