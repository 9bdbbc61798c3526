//! What goes wrong outside of a command.

ghost use Rattle.std.specs.Prelude.{◌≡◌};
ghost use Rattle.tesla_front.specs.Fault.{fault_status, fault_line};

use tesla_base::NoMemory;
use tesla_desk::OpenRefusal;

/// What went wrong outside of a command.
#[derive(Clone, Copy, Debug, PartialEq, Eq)]
pub enum Fault {
    /// A read failed: the desk's count of reads rose.
    Read,
    /// A write failed: the desk's count of writes rose.
    Write,
    /// There was no memory.
    NoMemory,
    /// Something wasn't opened: the desk's count of openings rose.
    Open,
}

impl Fault {
    /// The status that a program ends with, from 4 to 7.
    pub fn status(self) -> u8
        ensures { result ≡ fault_status self }
    {
        match self {
            Fault::Read => 4,
            Fault::Write => 5,
            Fault::NoMemory => 6,
            Fault::Open => 7,
        }
    }

    /// The line of the console that tells it, with its LF.
    pub fn line(self) -> &'static [u8]
        ensures { result.now ≡ fault_line self }
    {
        match self {
            Fault::Read => b"read fault\n",
            Fault::Write => b"write fault\n",
            Fault::NoMemory => b"no memory\n",
            Fault::Open => b"open fault\n",
        }
    }
}

impl From<NoMemory> for Fault {
    ghost use Rattle.std.specs.Prelude.{◌≡◌};
    ghost use Rattle.tesla_front.specs.declared.fault.Fault.TheVariants as faults;

    ghost from_gives = { λ _ fault. fault ≡ faults.NoMemory };

    fn from(_: NoMemory) -> Fault {
        Fault::NoMemory
    }
}

impl From<OpenRefusal> for Fault {
    ghost use Rattle.std.specs.Prelude.{◌≡◌};
    ghost use Rattle.tesla_front.specs.Fault.{unopened};

    ghost from_gives = { λ refusal fault. fault ≡ unopened refusal };

    fn from(refusal: OpenRefusal) -> Fault {
        match refusal {
            OpenRefusal::Failed => Fault::Open,
            OpenRefusal::NoMemory => Fault::NoMemory,
        }
    }
}
