// What one call moves of the blocks after a command.

/// What a call moved of the blocks after a command: so many good ones, or some and then one that failed.
#[derive(Clone, Copy, Debug, PartialEq, Eq)]
pub enum Moved<T> {
    /// So many blocks were moved, from the first on, and each was a good one. None after them was asked for or offered.
    Good(usize),
    /// A block failed in this way, and none was moved after it. How many good ones there were before it isn't told, since a controller
    /// that moves them by itself may not know.
    Failed(T),
}
