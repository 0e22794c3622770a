// Sectors one after the other.
ghost use Rattle.std.specs.Prelude.{◌+◌, ◌-◌, ◌<◌, ◌^◌, ◌≡◌, ◌≤◌, min};

/// Sectors of an export, one after the other.
#[derive(Clone, Copy, Debug, PartialEq, Eq)]
pub struct Span {
    /// The first.
    pub start: u64,
    /// How many.
    pub count: u64,
    pub ghost fits: { start + count ≤ 2 ^ 64 - 1 },
}

impl Span {
    /// The sectors after the first `done`, at most so many.
    pub fn after(self, done: u64, most: u64) -> Span
        requires { done < self.count }
        ensures start { result.start ≡ self.start + done }
        ensures count { result.count ≡ min most (self.count - done) }
    {
        Span {
            start: self.start + done,
            count: most.min(self.count - done),
        }
    }
}
