//! Statuses.

ghost use Rattle.std.specs.Prelude.{◌≡◌};
ghost use Rattle.must_cli.specs.Statuses.{number_of, status_for};

use must_codec::StreamFault;

/// How a run of the program ended; the number is the status of its process.
#[derive(Clone, Copy, Debug, PartialEq, Eq)]
pub enum Status {
    /// What was asked for was put; a report has no line of a finding.
    Clean = 0,
    /// The report is whole and has a line of a finding.
    Found = 1,
    /// The words aren't canonical.
    Usage = 2,
    /// A stream isn't complete.
    Malformed = 3,
    /// A file couldn't be read, or the output couldn't be written.
    Outside = 4,
    /// A stream exceeds a limit.
    Bound = 5,
    /// There was no memory.
    NoMemory = 6,
    /// The rules file has no settings.
    Settings = 7,
}

impl Status {
    /// The status of the process that ends so.
    pub fn number(self) -> u8
        ensures { result ≡ number_of self }
    {
        self as u8
    }

    /// The status of a stream's fault.
    pub fn of_fault(fault: StreamFault) -> Status
        ensures { result ≡ status_for fault }
    {
        match fault {
            StreamFault::Malformed { .. } => Status::Malformed,
            StreamFault::Bound { .. } => Status::Bound,
            StreamFault::Read => Status::Outside,
            StreamFault::NoMemory => Status::NoMemory,
        }
    }
}
