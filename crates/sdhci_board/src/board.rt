ghost use Rattle.std.specs.Prelude.{◌≡◌, ◌∷◌};
ghost use Rattle.mmc_sdhci.specs.Beside.{untold};
ghost use Rattle.mmc_sdhci.specs.Driver.{unkept_controller};
ghost use Rattle.sdhci_board.specs.Accesses.Access.{Waited, WordWritten};
ghost use Rattle.sdhci_board.specs.Accesses.{Tells};
ghost use Rattle.sdhci_board.specs.Boards.{ReadsByte, ReadsWord, WritesByte, word_at};

use crate::known::{Known, byte_in, with_byte, word_at};
use crate::words::Words;
use mmc_sdhci::Registers;

/// The registers of a controller on a board that knows more of it than the controller tells.
///
/// Each access is one of a whole word; a byte is written by its word, which is read before, so that the bytes beside it stay.
/// Nothing is assumed of what the words hold: `sdhci_story` has the promises over it.
#[derive(Drop)]
pub struct Board<W: Words> {
    words: W,
    known: Known,
}

impl<W: Words> Board<W> {
    /// A controller by its words, and what the board knows of it.
    pub fn new(words: W, known: Known) -> Board<W>
        ensures { result ≡ record { words = words; known = known } }
    {
        Board { words, known }
    }

    /// The words.
    pub fn words(&self) -> &W
        ensures { result.now ≡ self.now.words }
    {
        &self.words
    }
}

impl<W: Words> Registers for Board<W> {
    ghost view = { λ _. unkept_controller };

    ghost beside = { λ _. untold };

    ghost kept = { λ _. 0 };

    fn read32(&mut self, offset: u8) -> u32
        ensures reads { Tells (ReadsWord self.old.known offset result) (W.past self.old.words) (W.past self.new.words) }
        ensures same { self.new.known ≡ self.old.known }
    {
        let at = word_at(offset);
        let value = self.words.read(at);
        self.known.shown(at, value)
    }

    fn write32(&mut self, offset: u8, value: u32)
        ensures writes { Tells (λ old new. new ≡ WordWritten (word_at offset) value ∷ old) (W.past self.old.words) (W.past self.new.words) }
        ensures same { self.new.known ≡ self.old.known }
    {
        self.words.write(word_at(offset), value);
    }

    fn read8(&mut self, offset: u8) -> u8
        ensures reads { Tells (ReadsByte self.old.known offset result) (W.past self.old.words) (W.past self.new.words) }
        ensures same { self.new.known ≡ self.old.known }
    {
        byte_in(offset, self.read32(offset))
    }

    fn write8(&mut self, offset: u8, value: u8)
        ensures writes { Tells (WritesByte offset value) (W.past self.old.words) (W.past self.new.words) }
        ensures same { self.new.known ≡ self.old.known }
    {
        let at = word_at(offset);
        let word = self.words.read(at);
        self.words.write(at, with_byte(offset, word, value));
    }

    // No memory is lent: a board has no DMA.
    fn take_place(&mut self, index: usize, block: &mut [u8; 512]) {
        let _ = index;
        let _ = block;
    }

    fn take_back(&mut self) {}

    fn pause(&mut self, micros: u32)
        ensures waits { Tells (λ old new. new ≡ Waited micros ∷ old) (W.past self.old.words) (W.past self.new.words) }
        ensures same { self.new.known ≡ self.old.known }
    {
        self.words.pause(micros);
    }

    fn kept_interrupts(&self) -> u32 {
        0
    }
}
