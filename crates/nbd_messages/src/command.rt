ghost use Rattle.std.specs.Prelude.{◌≡◌};
ghost use Rattle.nbd_messages.specs.Requests.{command_by};

/// What a request asks for.
#[derive(Clone, Copy, Debug, PartialEq, Eq)]
pub enum Command {
    /// The contents of sectors.
    Read,
    /// New contents for sectors.
    Write,
    /// The end of the session.
    Disconnect,
    /// What was answered before holds.
    Flush,
    /// The contents of sectors are given up.
    Trim,
    /// Zeros throughout sectors.
    WriteZeroes,
}

impl Command {
    /// The command with this number, if there is one that is served.
    pub fn by(number: u16) -> Option<Command>
        ensures { result ≡ command_by number }
    {
        match number {
            0 => Some(Command::Read),
            1 => Some(Command::Write),
            2 => Some(Command::Disconnect),
            3 => Some(Command::Flush),
            4 => Some(Command::Trim),
            6 => Some(Command::WriteZeroes),
            _ => None,
        }
    }
}
