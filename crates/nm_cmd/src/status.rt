//! How the program ends.
ghost use Rattle.std.specs.Prelude.{◌≡◌};
ghost use Rattle.nm_cmd.specs.Replay.{exit_of};

/// How a command ends. Its number is the exit status.
#[derive(Clone, Copy)]
pub enum Status {
    /// The whole text was written.
    Done,
    /// The bytes are no script. `line N: WHY` was written.
    Script,
    /// The words are refused. The usage line was written.
    Usage,
    /// The source failed. Nothing was written.
    ReadFault,
    /// The sink failed. A part of the text was written, from its first byte on.
    WriteFault,
    /// Want of memory. Nothing was written.
    Memory,
}

impl Status {
    /// The exit status.
    pub fn number(self) -> u8
        ensures { result ≡ exit_of self }
    {
        match self {
            Status::Done => 0,
            Status::Script => 1,
            Status::Usage => 2,
            Status::ReadFault => 3,
            Status::WriteFault => 4,
            Status::Memory => 5,
        }
    }
}
