ghost use Rattle.std.specs.Prelude.{◌≡◌};
ghost use Rattle.perm_engine.specs.meaning.Statuses.{number_of};

/// How a run ends.
#[derive(Clone, Copy, Debug, PartialEq, Eq)]
pub enum Status {
    /// The script was run to its end.
    Done,
    /// The words of the command line are refused.
    Usage,
    /// The script isn't spelled by the language.
    Syntax,
    /// A statement can't stand.
    Refused,
    /// A statement met a fault while it ran.
    RunFault,
    /// A file is missing, too long or damaged.
    BadData,
    /// A file couldn't be read.
    ReadFault,
    /// The output couldn't be written.
    WriteFault,
    /// Memory is wanting.
    NoMemory,
}

impl Status {
    /// The exit status of the program.
    pub fn number(self) -> u8
        ensures { result ≡ number_of self }
    {
        match self {
            Status::Done => 0,
            Status::Usage => 2,
            Status::Syntax => 3,
            Status::Refused => 4,
            Status::RunFault => 5,
            Status::BadData => 6,
            Status::ReadFault => 7,
            Status::WriteFault => 8,
            Status::NoMemory => 9,
        }
    }
}
