//! Laws of the definitions that the contracts cite. Each stands on a function that does nothing.
ghost use Rattle.std.specs.Prelude.{◌≡◌, ◌++◌, ◌<◌, ℕ, List, length, replicate, true};
ghost use Rattle.card_wave.specs.BlockSamples.{check_samples, line_bits, lines_of};
ghost use Rattle.card_wave.specs.declared.sample.Sample.{Sample};
ghost use Rattle.mmc_card.specs.declared.exchange.Width.{Width};
ghost use Rattle.card_wave.specs.LineCheck.{line_check, remainder};
ghost use Rattle.mmc_frame.specs.Check.{bits_of};

/// The check value of the standard: 512 bytes FFh on one line have the CRC16 7FA1h (SD Physical Layer 6.00, section 4.5).
pub fn check_of_512_bytes_ffh()
    ensures { line_check (bits_of (replicate 512 0xff)) ≡ 0x7fa1 }
{}

/// What a data line in use shows of the data of a sound block and of its check leaves no remainder: by this a receiver judges the
/// block.
pub fn each_line_of_a_block_divides()
    ensures { (width : Width) (block : List Sample) (k : ℕ) → k < length (lines_of width)
        → remainder (line_bits k (block ++ check_samples width true block)) ≡ 0 }
{}
