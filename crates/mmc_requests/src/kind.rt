/// What a request does with its sectors. A group is of one kind.
#[derive(Clone, Copy, Debug, PartialEq, Eq, PartialOrd, Ord)]
pub enum Kind {
    /// It reads them.
    Read,
    /// It writes them.
    Write,
    /// It erases them, by whole erase units.
    Erase,
    /// It erases each of them by itself.
    Trim,
}

impl Kind {
    ghost use Rattle.std.specs.Prelude.{◌≡◌};
    ghost use Rattle.mmc_requests.specs.Kinds.{is_read, moves_blocks};

    /// Whether it moves blocks between host and card.
    pub fn moves_blocks(self) -> bool
        ensures { result ≡ moves_blocks self }
    {
        matches!(self, Kind::Read | Kind::Write)
    }

    /// Whether neighbours of this kind may be served together: where they move blocks. An erase or a trim is served alone.
    pub fn can_merge(self) -> bool
        ensures { result ≡ moves_blocks self }
    {
        self.moves_blocks()
    }

    /// Whether it changes nothing.
    pub fn is_read(self) -> bool
        ensures { result ≡ is_read self }
    {
        matches!(self, Kind::Read)
    }
}
