//! How the program ends.

ghost use Rattle.std.specs.Prelude.{◌≡◌};
ghost use Rattle.top_call.specs.Codes.{code_of, usage_is_due, closed_as};

/// The status that a call of the program ends with.
#[derive(Clone, Copy, Debug, PartialEq, Eq)]
pub enum Status {
    /// Served to the end; the whole text was written.
    Done,
    /// The text read has a fault, and the fault's text was written.
    Refused,
    /// The words are no form; nothing was read or written.
    Usage,
    /// The source failed; nothing was written.
    ReadFault,
    /// The sink failed; a prefix of the text begun was written.
    WriteFault,
    /// Out of memory; nothing was written.
    NoMemory,
}

impl Status {
    /// The number with which a process ends that ends so, from 0 to 5.
    pub fn code(self) -> u8
        ensures { result ≡ code_of self }
    {
        match self {
            Status::Done => 0,
            Status::Refused => 1,
            Status::Usage => 2,
            Status::ReadFault => 3,
            Status::WriteFault => 4,
            Status::NoMemory => 5,
        }
    }
    /// Whether the usage line is to be written: where the words are no form.
    pub fn is_usage(self) -> bool
        ensures { result ≡ usage_is_due self }
    {
        self == Status::Usage
    }

    /// The status of a call after which its sink was closed. Where the sink couldn't hand on what it held, it failed.
    pub fn closed(self, handed_on: bool) -> Status
        ensures { result ≡ closed_as handed_on self }
    {
        if handed_on { self } else { Status::WriteFault }
    }
}
