//! What the words of the commands `chain` and `chain2` ask for.

use tesla_sender_setup::Parameters;

/// What the words `chain SETUP-OUT SECRET STREAM START INTERVAL LAST DELAY..` ask for, or those of `chain2`, which
/// have a word TAG before the delays.
#[derive(Debug, Drop)]
pub struct Arguments<'a> {
    /// The name of the file that the setup is written to.
    pub out: &'a str,
    /// The name of the seeds.
    pub secret: &'a str,
    /// The parameters of the stream: the version of `chain` is 1, that of `chain2` is 2.
    pub parameters: Parameters,
}
