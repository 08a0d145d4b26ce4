//! How a run of the program ends.

ghost use Rattle.std.specs.Prelude.{◌≡◌};
ghost use Rattle.clf_base.specs.Status.{number_of};

/// How a run of the program ended.
#[derive(Clone, Copy, Debug, PartialEq, Eq)]
pub enum Status {
    /// An instance, or a finished front.
    Done,
    /// No instance satisfies the model.
    NoInstance,
    /// The model text is refused.
    Refused,
    /// A budget is spent, or the front is too long.
    Unfinished,
    /// The words of the call have no reading.
    BadWords,
    /// Memory was wanting.
    NoMemory,
    /// The source failed.
    ReadFault,
    /// The sink failed.
    WriteFault,
}

impl Status {
    /// The number with which the process ends, from 0 to 7.
    pub fn number(self) -> u8
        ensures { result ≡ number_of self }
    {
        match self {
            Status::Done => 0,
            Status::NoInstance => 1,
            Status::Refused => 2,
            Status::Unfinished => 3,
            Status::BadWords => 4,
            Status::NoMemory => 5,
            Status::ReadFault => 6,
            Status::WriteFault => 7,
        }
    }
}
