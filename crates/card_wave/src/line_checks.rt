// The CRC16 of each data line.
ghost use Rattle.std.specs.Prelude.{◌≡◌, ◌<◌, ◌++◌, ◌∷◌, [], List, slice_index};
ghost use Rattle.card_wave.specs.BlockSamples.{AreChecks, check_level, check_sample, check_samples};
ghost use Rattle.card_wave.specs.declared.sample.Sample.{Sample};

use crate::line_check::with_bit;
use crate::sample::Sample;
use mmc_bus::Width;

/// The CRC16 of what each of the eight data lines has shown.
#[derive(Clone, Copy, Debug, PartialEq, Eq)]
pub(crate) struct LineChecks {
    pub(crate) of_line: [u16; 8],
}

impl LineChecks {
    /// Nothing has been shown.
    pub(crate) fn new() -> LineChecks
        ensures { AreChecks result.of_line [] }
    {
        LineChecks { of_line: [0; 8] }
    }

    // One clock more.
    fn push(&mut self, sample: &Sample)
        ensures { (block : List Sample) → AreChecks self.old.of_line block
            → AreChecks self.new.of_line (block ++ sample.now ∷ []) }
    {
        for line in 0..8 {
            self.of_line[line] = with_bit(self.of_line[line], sample.dat[line]);
        }
    }

    /// These clocks more.
    pub(crate) fn push_all(&mut self, samples: &[Sample])
        ensures { (block : List Sample) → AreChecks self.old.of_line block
            → AreChecks self.new.of_line (block ++ samples.now) }
    {
        for sample in samples {
            self.push(sample);
        }
    }

    // A bit of the check of a line; where the check is to be bad, the other one.
    fn level(&self, is_sound: bool, line: usize, place: u32) -> bool
        requires line { line < 8 }
        requires place { place < 16 }
        ensures { result ≡ check_level is_sound (slice_index self.now.of_line line) place }
    {
        let bit = (self.of_line[line] >> place) % 2;
        if is_sound { bit == 1 } else { bit == 0 }
    }

    // On each line in use the bit at this place of its check.
    fn sample(&self, width: Width, is_sound: bool, place: u32) -> Sample
        requires { place < 16 }
        ensures { (block : List Sample) → AreChecks self.now.of_line block
            → result ≡ check_sample width is_sound block place }
    {
        match width {
            Width::One => Sample::on_one_line(self.level(is_sound, 0, place)),
            Width::Four => Sample::on_four_lines(
                self.level(is_sound, 3, place),
                self.level(is_sound, 2, place),
                self.level(is_sound, 1, place),
                self.level(is_sound, 0, place),
            ),
            Width::Eight => Sample::on_eight_lines([
                self.level(is_sound, 7, place),
                self.level(is_sound, 6, place),
                self.level(is_sound, 5, place),
                self.level(is_sound, 4, place),
                self.level(is_sound, 3, place),
                self.level(is_sound, 2, place),
                self.level(is_sound, 1, place),
                self.level(is_sound, 0, place),
            ]),
        }
    }

    /// The checks on the lines in use, the highest bit first; inverted where they are to be bad. It stands alone, so that a block
    /// is drawn without its locals below.
    #[inline(never)]
    pub(crate) fn samples(&self, width: Width, is_sound: bool) -> [Sample; 16]
        ensures { (block : List Sample) → AreChecks self.now.of_line block
            → result ≡ check_samples width is_sound block }
    {
        [
            self.sample(width, is_sound, 15),
            self.sample(width, is_sound, 14),
            self.sample(width, is_sound, 13),
            self.sample(width, is_sound, 12),
            self.sample(width, is_sound, 11),
            self.sample(width, is_sound, 10),
            self.sample(width, is_sound, 9),
            self.sample(width, is_sound, 8),
            self.sample(width, is_sound, 7),
            self.sample(width, is_sound, 6),
            self.sample(width, is_sound, 5),
            self.sample(width, is_sound, 4),
            self.sample(width, is_sound, 3),
            self.sample(width, is_sound, 2),
            self.sample(width, is_sound, 1),
            self.sample(width, is_sound, 0),
        ]
    }
}
