ghost use Rattle.std.specs.Prelude.{◌≡◌};
ghost use Rattle.flux_base.specs.Status.{code_of};

/// How a run of the program ended.
#[derive(Clone, Copy, Debug, PartialEq, Eq)]
pub enum Status {
    /// The work ended, and every wanted sector is good.
    AllGood,
    /// The work ended, and a wanted sector is not good.
    NotAllGood,
    /// The input is not what the words ask for.
    Refused,
    /// The words are not a command.
    Usage,
    /// The source failed.
    ReadFault,
    /// The sink of the image failed.
    ImageFault,
    /// The sink of the notes failed.
    NotesFault,
    /// There was not enough memory to begin.
    Memory,
    /// The shelf failed.
    ShelfFault,
}

impl Status {
    /// The program's exit code, 0 to 8 in the order of the variants.
    pub fn code(self) -> u8
        ensures { result ≡ code_of self }
    {
        match self {
            Status::AllGood => 0,
            Status::NotAllGood => 1,
            Status::Refused => 2,
            Status::Usage => 3,
            Status::ReadFault => 4,
            Status::ImageFault => 5,
            Status::NotesFault => 6,
            Status::Memory => 7,
            Status::ShelfFault => 8,
        }
    }
}
