// What C lends to its controller.

/// Memory that C has lent to its controller.
#[derive(Clone, Copy, Debug, PartialEq, Eq)]
pub struct Lent {
    /// Whether the controller writes to it.
    pub is_room: bool,
    /// The first blocks of the request's memory, as many as these two bytes of a number say, the lowest first.
    pub count: [u8; 2],
    /// And so many bytes of the memory for a table.
    pub table: u16,
}
