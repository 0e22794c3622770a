// The sectors of a card in memory, and the write or erase of them that is unfinished.
ghost use Rattle.std.specs.Prelude.{◌*◌, ◌+◌, ◌++◌, ◌<◌, ◌^◌, ◌∷◌, ◌≡◌, ◌≤◌, IfOk, IfSome, None, Some, []};
ghost use Rattle.std.specs.Prelude.{if◌then◌else◌, length, nat_le, nat_lt, replicate, slice_index_or, slice_set, take, true};
ghost use Rattle.std.specs.Prelude.{vec_capacity, vec_len};
ghost use Rattle.mmc_card.specs.Sectors.{part_number};
ghost use Rattle.mmc_card_rows.specs.SectorLists.{first_sectors};
ghost use Rattle.mmc_card_rows.specs.Sizes.{total};
ghost use Rattle.mmc_card_rows.specs.declared.store.TheConstants.{MAX_LARGE};

use crate::fault::Outcome;
use mmc_bus::Bytes;
use mmc_card::Part;
use sparse_sectors::Sectors;
use std::alloc::{AllocError, Global};

/// The most sectors that any card in memory may have, in all its partitions together.
pub const MAX_LARGE: usize = 4_194_304;

/// The sectors of a card, as they were before the write or erase that is unfinished, and its new values so far.
#[derive(Debug, Drop)]
pub struct Store {
    // The sectors of the partitions one after the other, in the order of `Part`, and how many each has.
    sectors: Sectors,
    sizes: [usize; 7],
    // The first sector of what is unfinished, counted in its partition, and its new values: so many sectors that an
    // erase makes all one byte, which are kept as their number, and after them the blocks of a write. The room for
    // blocks is taken at once, so that no block is refused, and is touched only as they come.
    start: usize,
    erased_count: usize,
    erased_byte: u8,
    blocks: Vec<[u8; 512]>,
    ghost few: { total sizes ≤ MAX_LARGE },
    ghost whole: { length sectors ≡ total sizes },
    ghost room: { total sizes ≤ vec_capacity blocks },
    ghost counted: { erased_count + vec_len blocks ≤ total sizes },
}

// The place of a partition among the seven.
fn part_number(part: Part) -> usize
    ensures number { result ≡ part_number part }
    ensures small { result < 7 }
{
    match part {
        Part::User => 0,
        Part::Boot1 => 1,
        Part::Boot2 => 2,
        Part::Gp1 => 3,
        Part::Gp2 => 4,
        Part::Gp3 => 5,
        Part::Gp4 => 6,
    }
}

// How many sectors partitions of these sizes have together.
fn total(sizes: &[usize]) -> usize
    requires { total sizes.now < 2 ^ 64 }
    ensures { result ≡ total sizes.now }
{
    let mut sum = 0;
    for size in sizes {
        sum += *size;
    }
    sum
}

// The sectors of a new card: those of an image, whose bytes are taken over without a copy, or so many that are all this byte.
fn first_sectors(
    alloc: Global,
    count: usize,
    image: Option<Bytes>,
    erased: u8,
) -> Result<Sectors, AllocError>
    requires few { count ≤ MAX_LARGE }
    requires image { IfSome image (λ bytes. length bytes ≡ 512 * count) }
    ensures sectors { IfOk result (λ sectors. sectors ≡ first_sectors image count erased) }
    ensures len { IfOk result (λ sectors. length sectors ≡ count) }
{
    match image {
        Some(image) => Ok(Sectors::from_image(alloc, image)),
        None => Ok(Sectors::new(alloc, count, erased)?),
    }
}

impl Store {
    ghost use Rattle.mmc_card.specs.Card.{landed_in};
    ghost use Rattle.mmc_card_rows.specs.Store.{landed_by, parts_of, part_of, split, values_of};

    /// Partitions of these sizes, at most `MAX_LARGE` sectors together, with the bytes of an image, which is taken over
    /// without a copy, or all with this byte.
    #[tactic(auto, unfolding(crate::specs::Store::parts_of, crate::specs::Store::values_of))]
    pub fn new(
        alloc: Global,
        sizes: [usize; 7],
        image: Option<Bytes>,
        erased: u8,
    ) -> Result<Store, AllocError>
        requires few { total sizes ≤ MAX_LARGE }
        requires image { IfSome image (λ bytes. length bytes ≡ 512 * total sizes) }
        ensures sectors { IfOk result (λ store.
            parts_of store ≡ split sizes (first_sectors image (total sizes) erased)) }
        ensures start { IfOk result (λ store. store.start ≡ 0) }
        ensures values { IfOk result (λ store. values_of store ≡ []) }
    {
        let count = total(&sizes);
        Ok(Store {
            sectors: first_sectors(alloc, count, image, erased)?,
            sizes,
            start: 0,
            erased_count: 0,
            erased_byte: erased,
            blocks: Vec::with_capacity(alloc, count)?,
        })
    }

    // Where the first sector of a partition stands.
    fn first_of(&self, part: Part) -> usize
        ensures first { result ≡ total (take (part_number part) self.now.sizes) }
        ensures within { result + length (part_of self.now part) ≤ total self.now.sizes }
    {
        total(&self.sizes[..part_number(part)])
    }

    /// How many sectors a partition has.
    pub fn size(&self, part: Part) -> usize
        ensures size { result ≡ length (part_of self.now part) }
        ensures few { result ≤ MAX_LARGE }
    {
        self.sizes[part_number(part)]
    }

    /// A sector of a partition, if there is such a sector.
    pub fn sector(&self, part: Part, sector: usize) -> Option<[u8; 512]>
        ensures { result
            ≡ (if nat_lt sector (length (part_of self.now part))
            then Some (slice_index_or (part_of self.now part) sector []) else None) }
    {
        if sector < self.size(part) {
            return Some(*self.sectors.sector(self.first_of(part) + sector));
        }
        None
    }

    /// A write begins at this sector of its partition.
    #[tactic(auto, unfolding(crate::specs::Store::parts_of, crate::specs::Store::values_of))]
    pub fn begin(&mut self, start: usize)
        ensures sectors { parts_of self.new ≡ parts_of self.old }
        ensures start { self.new.start ≡ start }
        ensures values { values_of self.new ≡ [] }
    {
        self.start = start;
        self.drop_values();
    }

    // How many sectors what is unfinished has so far.
    #[tactic(auto, unfolding(crate::specs::Store::values_of))]
    fn count(&self) -> usize
        ensures count { result ≡ length (values_of self.now) }
        ensures few { result ≤ MAX_LARGE }
    {
        self.erased_count + self.blocks.len()
    }

    /// Whether this partition has a sector for another block of the write.
    pub fn has_next(&self, part: Part) -> bool
        ensures { result ≡ nat_lt (self.now.start + length (values_of self.now)) (length (part_of self.now part)) }
    {
        self.count() < self.size(part).saturating_sub(self.start)
    }

    /// Accepts the next block of the write to this partition.
    #[tactic(auto, unfolding(crate::specs::Store::parts_of, crate::specs::Store::values_of))]
    pub fn accept(&mut self, part: Part, block: &[u8; 512])
        requires { self.old.start + length (values_of self.old) < length (part_of self.old part) }
        ensures sectors { parts_of self.new ≡ parts_of self.old }
        ensures start { self.new.start ≡ self.old.start }
        ensures values { values_of self.new ≡ values_of self.old ++ block.now ∷ [] }
    {
        self.blocks.push(*block).unwrap();
    }

    /// An erase of so many sectors from this one on, to this byte.
    #[tactic(auto, unfolding(crate::specs::Store::parts_of, crate::specs::Store::values_of))]
    pub fn erase(&mut self, part: Part, start: usize, count: usize, erased: u8)
        requires { count ≤ length (part_of self.old part) }
        ensures sectors { parts_of self.new ≡ parts_of self.old }
        ensures start { self.new.start ≡ start }
        ensures values { values_of self.new ≡ replicate count (replicate 512 erased) }
    {
        self.start = start;
        self.erased_count = count;
        self.erased_byte = erased;
        self.blocks.clear();
    }

    /// What is unfinished is over, and nothing of it has landed.
    #[tactic(auto, unfolding(crate::specs::Store::parts_of, crate::specs::Store::values_of))]
    pub fn drop_values(&mut self)
        ensures sectors { parts_of self.new ≡ parts_of self.old }
        ensures start { self.new.start ≡ self.old.start }
        ensures values { values_of self.new ≡ [] }
    {
        self.erased_count = 0;
        self.blocks.clear();
    }

    /// What is unfinished in this partition is over, and all of it has landed or nothing.
    pub fn settle(&mut self, part: Part, outcome: Outcome)
        ensures sectors { parts_of self.new ≡ landed_by outcome part self.old }
        ensures start { self.new.start ≡ self.old.start }
        ensures values { values_of self.new ≡ [] }
    {
        match outcome {
            Outcome::Old => self.drop_values(),
            Outcome::New => self.land(part),
        }
    }

    /// Whether what is unfinished lies inside this partition.
    pub fn is_inside(&self, part: Part) -> bool
        ensures { result ≡ nat_le (self.now.start + length (values_of self.now)) (length (part_of self.now part)) }
    {
        let size = self.size(part);
        self.start <= size && self.count() <= size - self.start
    }

    /// What has come so far of a write to this partition has landed or nothing, and the write goes on after it.
    #[tactic(auto, unfolding(crate::specs::Store::parts_of, crate::specs::Store::values_of))]
    pub fn settle_so_far(&mut self, part: Part, outcome: Outcome)
        requires { self.old.start + length (values_of self.old) ≤ length (part_of self.old part) }
        ensures sectors { parts_of self.new ≡ landed_by outcome part self.old }
        ensures start { self.new.start ≡ self.old.start + length (values_of self.old) }
        ensures values { values_of self.new ≡ [] }
    {
        let next = self.start + self.count();
        self.settle(part, outcome);
        self.start = next;
    }

    /// What is unfinished in this partition is carried out.
    #[tactic(auto, unfolding(crate::specs::Store::values_of))]
    pub fn land(&mut self, part: Part)
        ensures sectors { parts_of self.new
            ≡ slice_set (parts_of self.old) (part_number part)
            (landed_in (λ i. true) self.old.start (values_of self.old) (part_of self.old part)) }
        ensures start { self.new.start ≡ self.old.start }
        ensures values { values_of self.new ≡ [] }
    {
        let size = self.size(part);
        let start = self.start.min(size);
        let count = self.count().min(size - start);
        let erased = self.erased_count.min(count);
        let first = self.first_of(part) + start;
        self.sectors.fill(first, erased, self.erased_byte);
        self.sectors
            .put_all(first + erased, &self.blocks[..count - erased]);
        self.drop_values();
    }
}
