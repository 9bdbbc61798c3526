//! What calls tell, in numbers.

ghost use Rattle.std.specs.Prelude.{◌≡◌};
ghost use Rattle.tesla_c.specs.Told.{kind_code, verdict_told, head_told, report_told};

use tesla_base::Head;
use tesla_commit::SetupKind;
use tesla_fitting::Verdict;
use tesla_receiver::Report;

/// Why a text or a number is refused: the first refused line, counted from 1, or 0 for the whole text, and its kind; or which
/// number, counted from 1 in the order of the parameters.
#[repr(C)]
#[derive(Drop)]
pub struct CRefusal {
    pub line: u32,
    pub kind: u32,
}

/// A verdict: its kind, the chain or the set of chains that it names, and the stream or the bound.
#[repr(C)]
#[derive(Drop)]
pub struct CVerdict {
    pub kind: u32,
    pub chains: u32,
    pub number: u64,
}

/// The head of a packet that is given.
#[repr(C)]
#[derive(Drop)]
pub struct CHead {
    pub position: u64,
    pub interval: u32,
    pub number: u16,
    pub length: u16,
    pub chain: u32,
}

/// The counts of a history.
#[repr(C)]
#[derive(Drop)]
pub struct CReport {
    pub arrivals: u64,
    pub malformed: u64,
    pub foreign: u64,
    pub misfit: u64,
    pub future: u64,
    pub badkey: u64,
    pub late: u64,
    pub repeat: u64,
    pub full: u64,
    pub kept: u64,
    pub keys: u64,
    pub given: u64,
}

/// Room for a payload.
#[repr(C)]
#[derive(Drop)]
pub struct CPayload {
    pub bytes: [u8; 1200],
}

/// The number of a kind of refusal.
pub(crate) fn code_of(kind: SetupKind) -> u32
    ensures { result ≡ kind_code kind }
{
    match kind {
        SetupKind::BadLine => 1,
        SetupKind::BadNumber => 2,
        SetupKind::BadHex => 3,
        SetupKind::NoChain => 4,
        SetupKind::TooManyChains => 5,
        SetupKind::DelaysNotRising => 6,
        SetupKind::IndexPastLast => 7,
        SetupKind::LimitPassed => 8,
        SetupKind::TooLong => 9,
    }
}

fn verdict_of(kind: u32, chains: u8, number: u64) -> CVerdict
    ensures { result ≡ record { kind = kind; chains = chains; number = number } }
{
    CVerdict {
        kind,
        chains: u32::from(chains),
        number,
    }
}

/// A verdict in numbers.
pub(crate) fn told(verdict: Verdict) -> CVerdict
    ensures { result ≡ verdict_told verdict }
{
    match verdict {
        Verdict::Malformed => verdict_of(0, 0, 0),
        Verdict::Foreign { stream } => verdict_of(1, 0, stream.0),
        Verdict::Misfit => verdict_of(2, 0, 0),
        Verdict::Future { bound: None } => verdict_of(3, 0, 0),
        Verdict::Future { bound: Some(bound) } => verdict_of(3, 1, bound),
        Verdict::BadKey { chain } => verdict_of(4, chain.0, 0),
        Verdict::Late => verdict_of(5, 0, 0),
        Verdict::Repeat => verdict_of(6, 0, 0),
        Verdict::Full => verdict_of(7, 0, 0),
        Verdict::Kept { chains } => verdict_of(8, chains, 0),
        Verdict::Keys => verdict_of(9, 0, 0),
    }
}

/// A head in numbers.
pub(crate) fn head_of(head: &Head) -> CHead
    ensures { result ≡ head_told head.now }
{
    CHead {
        position: head.position,
        interval: head.interval,
        number: head.number,
        length: head.length,
        chain: u32::from(head.chain),
    }
}

/// The counts, in the order of C.
pub(crate) fn counts_of(report: &Report) -> CReport
    ensures { result ≡ report_told report.now }
{
    CReport {
        arrivals: report.arrivals,
        malformed: report.malformed,
        foreign: report.foreign,
        misfit: report.misfit,
        future: report.future,
        badkey: report.badkey,
        late: report.late,
        repeat: report.repeat,
        full: report.full,
        kept: report.kept,
        keys: report.keys,
        given: report.given,
    }
}
