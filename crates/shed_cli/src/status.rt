//! How a run of the command ends.

/// The status of a run of the command.
#[derive(Clone, Copy, Debug, PartialEq, Eq)]
pub enum Status {
    /// All was done.
    Done,
    /// The program that was run ended by an exception.
    Raised,
    /// The words of the command line say nothing.
    WordsRefused,
    /// The source is missing, or isn't a program of the language.
    SourceRefused,
    /// The types of the source do not fit.
    TypesRefused,
    /// A limit was passed.
    LimitPassed,
    /// A read failed.
    ReadFault,
    /// A write failed.
    WriteFault,
    /// Memory ran out.
    NoMemory,
    /// The emitted C++ isn't well formed.
    CppRefused,
    /// The program that was run used up its ticks.
    TicksUsedUp,
    /// The program that was run used an index out of bounds, unchecked.
    UndefinedIndex,
}

impl Status {
    ghost use Rattle.std.specs.Prelude.{◌≡◌};
    ghost use Rattle.shed_cli.specs.Judging.{number_of};

    /// The number that the program ends with.
    pub fn number(&self) -> u8
        ensures { result ≡ number_of self.now }
    {
        match self {
            Status::Done => 0,
            Status::Raised => 1,
            Status::WordsRefused => 2,
            Status::SourceRefused => 3,
            Status::TypesRefused => 4,
            Status::LimitPassed => 5,
            Status::ReadFault => 6,
            Status::WriteFault => 7,
            Status::NoMemory => 8,
            Status::CppRefused => 9,
            Status::TicksUsedUp => 10,
            Status::UndefinedIndex => 11,
        }
    }
}
