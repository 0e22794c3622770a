/// How far a turn of a run goes.
#[derive(Clone, Copy, Debug, PartialEq, Eq)]
pub enum Pace {
    /// One exchange.
    Exchange,
    /// One exchange, or a command and all blocks that the bus moves with it.
    Transfer,
}
