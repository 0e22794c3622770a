// What one line of a card file or a script says.
ghost use Rattle.std.specs.Prelude.{◌≡◌};
ghost use Rattle.card_text.specs.TextLines.{line_by};

/// What a line says.
#[derive(Debug, Drop)]
pub enum Line<T> {
    /// It isn't of the grammar.
    Bad,
    /// Nothing: it is empty or a comment.
    Skipped,
    /// This.
    Says(T),
}

impl<T> Line<T> {
    /// A line that isn't skipped, by what its fields say.
    pub fn by(said: Option<T>) -> Line<T>
        ensures { result ≡ line_by said }
    {
        match said {
            None => Line::Bad,
            Some(said) => Line::Says(said),
        }
    }
}
