ghost use Rattle.std.specs.Prelude.{◌%◌, ◌≡◌, ◌∷◌, List, Option};
ghost use Rattle.sdhci_board.specs.Accesses.Access.{Waited, WordRead, WordWritten};
ghost use Rattle.sdhci_board.specs.Accesses.{Access, Tells};

/// The registers of an SD host controller by whole words of 32 bits, which each controller takes, and some take alone (Broadcom's and
/// Cadence's). Each access reaches the controller, in order.
pub trait Words {
    // The accesses so far, the last one first. What keeps no account of them says `None`, and nothing has to be shown of it.
    ghost past: { Self → Option (List Access) };

    /// Reads the word at this offset in bytes, a multiple of 4.
    fn read(&mut self, offset: u8) -> u32
        requires { offset % 4 ≡ 0 }
        ensures { Tells (λ old new. new ≡ WordRead offset result ∷ old) (past self.old) (past self.new) };

    /// Writes the word at this offset in bytes, a multiple of 4.
    fn write(&mut self, offset: u8, value: u32)
        requires { offset % 4 ≡ 0 }
        ensures { Tells (λ old new. new ≡ WordWritten offset value ∷ old) (past self.old) (past self.new) };

    /// Waits for so many microseconds.
    fn pause(&mut self, micros: u32)
        ensures { Tells (λ old new. new ≡ Waited micros ∷ old) (past self.old) (past self.new) };
}
