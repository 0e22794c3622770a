//! Laws about the frames. Each function does nothing; its contract is the law, which a caller then knows.
ghost use Rattle.std.specs.Prelude.{ℕ};
ghost use Rattle.mmc_frame.specs.Flips.{RefusesFlips, RefusesFlipsBesideOcr, is_command, is_r2, is_r6, is_r7, is_response_to};
ghost use Rattle.mmc_frame.specs.RegisterFrame.{RegistersComeBack};

/// A sound command with one bit or two flipped is no sound command.
pub fn flipped_command_is_refused()
    ensures { RefusesFlips 6 is_command is_command }
{}

/// A sound R1, R6 or R7 with one bit or two flipped is refused, whichever command it is taken to answer.
pub fn flipped_response_is_refused()
    ensures r1 { (index other : ℕ) → RefusesFlips 6 (is_response_to index) (is_response_to other) }
    ensures r6 { RefusesFlips 6 is_r6 is_r6 }
    ensures r7 { RefusesFlips 6 is_r7 is_r7 }
{}

/// A sound R2 with one bit or two flipped is refused.
pub fn flipped_register_is_refused()
    ensures { RefusesFlips 17 is_r2 is_r2 }
{}

/// An R3 with one bit or two flipped is refused, as long as none of them is of the OCR, which nothing protects.
pub fn flipped_beside_the_ocr_is_refused()
    ensures { RefusesFlipsBesideOcr }
{}

/// A register of sixteen bytes whose check fits and whose last bit is 1 comes back whole from its response, an R2.
pub fn register_comes_back()
    ensures { RegistersComeBack }
{}
