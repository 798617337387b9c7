//! The statuses of the program, and their numbers.

ghost use Rattle.std.specs.Prelude.{◌≡◌};
ghost use Rattle.mind_top.specs.Code.{code_of};

/// How a call of the program ended.
#[derive(Clone, Copy, Debug, PartialEq, Eq)]
pub enum Status {
    Done,
    Usage,
    Malformed,
    ReadFault,
    WriteFault,
    NoMemory,
    NotARun,
    Spent,
}

impl Status {
    /// The exit status of the process: the number of the status in the order above, from 0.
    pub fn code(self) -> u8
        ensures { result ≡ code_of self }
    {
        match self {
            Status::Done => 0,
            Status::Usage => 1,
            Status::Malformed => 2,
            Status::ReadFault => 3,
            Status::WriteFault => 4,
            Status::NoMemory => 5,
            Status::NotARun => 6,
            Status::Spent => 7,
        }
    }
}
