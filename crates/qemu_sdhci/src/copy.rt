// What each sector of the card should hold, as far as the runs go.

use std::alloc::{AllocError, Global};

/// The sectors of each of the two ends of the card that runs are in.
pub const END: u64 = 2048;

/// The sectors at both ends of a card, by the value that each was filled with last; 0 is none, and 512 zeros.
#[derive(Drop)]
pub struct Copy {
    sectors: u64,
    values: Vec<u8>,
}

// A byte of a sector that was filled with this value.
fn byte_of(value: u8, sector: u64, at: usize) -> u8 {
    if value == 0 {
        return 0;
    }
    let at = (at % 256) as u64;
    (u64::from(value).wrapping_add(sector).wrapping_add(3 * at) % 256) as u8
}

/// A stretch of sectors at one end of the card.
#[derive(Clone, Copy)]
pub struct Stretch {
    pub start: u64,
    pub count: u64,
}

impl Copy {
    /// Of a card with so many sectors, none of which was written.
    pub fn new(alloc: Global, sectors: u64) -> Result<Copy, AllocError> {
        Ok(Copy {
            sectors,
            values: vec![in alloc; 0; 4096]?,
        })
    }

    // Where a sector stands among the values.
    fn place(&self, sector: u64) -> usize {
        let front = self.sectors.saturating_sub(END);
        let place = if sector < END {
            sector
        } else {
            sector.saturating_sub(front).wrapping_add(END)
        };
        (place % 4096) as usize
    }

    /// A stretch, by three numbers: at which end, where, and how long, 1 to 64 sectors.
    pub fn stretch(&self, end: u64, at: u64, count: u64) -> Stretch {
        let start = at % (END - 64);
        let front = if end % 2 == 0 {
            0
        } else {
            self.sectors.saturating_sub(END)
        };
        Stretch {
            start: front.saturating_add(start),
            count: count % 64 + 1,
        }
    }

    /// Fills a stretch with this value.
    pub fn fill(&mut self, stretch: Stretch, value: u8) {
        for i in 0..stretch.count {
            let place = self.place(stretch.start.saturating_add(i));
            if let Some(held) = self.values.get_mut(place) {
                *held = value;
            }
        }
    }

    /// What a stretch holds.
    pub fn bytes(&self, alloc: Global, stretch: Stretch) -> Result<Vec<u8>, AllocError> {
        let mut bytes = Vec::new(alloc);
        for i in 0..stretch.count {
            let sector = stretch.start.saturating_add(i);
            let value = self.values.get(self.place(sector)).copied().unwrap_or(0);
            for at in 0..512 {
                bytes.push(byte_of(value, sector, at))?;
            }
        }
        Ok(bytes)
    }
}
