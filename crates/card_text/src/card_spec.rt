// Makes what a card is built by from the lines of its file.
ghost use Rattle.std.specs.Prelude.{◌≡◌, [], ◌∷◌, ◌++◌, List, slice_set};
ghost use Rattle.card_text.specs.declared.card_line.CardLine.{CardLine};
ghost use Rattle.card_text.specs.CardSpecs.{first_rca, given_by, has_high_speed, own_registers_of, refusal_of, spec_of};

use crate::card_line::{CardLine, HighSpeedChoice, PublishedRca};
use mmc_card_sim::{CardSpec, KindRegisters, MmcRegisters, Refusal, Registers, SdRegisters};
use mmc_frame::Kind;

/// What the lines of a card file give: for each key what its first line gives.
#[derive(Drop)]
pub struct Given {
    kind: Option<Kind>,
    ocr: Option<u32>,
    cid: Option<[u8; 16]>,
    csd: Option<[u8; 16]>,
    sectors: Option<u64>,
    ready: Option<u8>,
    busy: Option<u8>,
    early: Option<u8>,
    keeps_length: Option<bool>,
    stays_busy: Option<bool>,
    lagging: Option<u8>,
    late: Option<u8>,
    goes_on: Option<bool>,
    locked: Option<bool>,
    scr: Option<[u8; 8]>,
    rca: Option<PublishedRca>,
    cmd8: Option<bool>,
    high_speed: Option<HighSpeedChoice>,
    shows_app_cmd: Option<bool>,
    ages: Option<bool>,
    // A byte that no line gives is 00, and of two lines for a place the last one counts.
    ext_csd: [u8; 512],
}

impl Given {
    // What no lines give.
    #[tactic(auto, unfolding(crate::specs::CardSpecs::given_by, crate::specs::CardSpecs::first_of, crate::specs::CardSpecs::ext_csd_of))]
    fn nothing() -> Given
        ensures { result ≡ given_by [] }
    {
        Given {
            kind: None,
            ocr: None,
            cid: None,
            csd: None,
            sectors: None,
            ready: None,
            busy: None,
            early: None,
            keeps_length: None,
            stays_busy: None,
            lagging: None,
            late: None,
            goes_on: None,
            locked: None,
            scr: None,
            rca: None,
            cmd8: None,
            high_speed: None,
            shows_app_cmd: None,
            ages: None,
            ext_csd: [0; 512],
        }
    }

    // Takes one more line, below those that were taken.
    #[tactic(auto, using(crate::proofs::GivenLemmas::taken))]
    fn take(&mut self, line: &CardLine)
        ensures { (above : List CardLine) → self.old ≡ given_by above → self.new ≡ given_by (above ++ line.now ∷ []) }
    {
        match *line {
            CardLine::Kind(kind) => self.kind = self.kind.or(Some(kind)),
            CardLine::Ocr(ocr) => self.ocr = self.ocr.or(Some(ocr)),
            CardLine::Cid(bytes) => self.cid = self.cid.or(Some(bytes)),
            CardLine::Csd(bytes) => self.csd = self.csd.or(Some(bytes)),
            CardLine::Sectors(count) => self.sectors = self.sectors.or(Some(count)),
            CardLine::Ready(count) => self.ready = self.ready.or(Some(count)),
            CardLine::Busy(count) => self.busy = self.busy.or(Some(count)),
            CardLine::Early(bits) => self.early = self.early.or(Some(bits)),
            CardLine::KeepsLength(choice) => self.keeps_length = self.keeps_length.or(Some(choice)),
            CardLine::StaysBusy(choice) => self.stays_busy = self.stays_busy.or(Some(choice)),
            CardLine::SlowStatus(count) => self.lagging = self.lagging.or(Some(count)),
            CardLine::LateStatus(count) => self.late = self.late.or(Some(count)),
            CardLine::GoesOn(choice) => self.goes_on = self.goes_on.or(Some(choice)),
            CardLine::Locked(choice) => self.locked = self.locked.or(Some(choice)),
            CardLine::Scr(bytes) => self.scr = self.scr.or(Some(bytes)),
            CardLine::Rca(rca) => self.rca = self.rca.or(Some(rca)),
            CardLine::Cmd8(choice) => self.cmd8 = self.cmd8.or(Some(choice)),
            CardLine::HighSpeed(choice) => self.high_speed = self.high_speed.or(Some(choice)),
            CardLine::R6App(choice) => self.shows_app_cmd = self.shows_app_cmd.or(Some(choice)),
            CardLine::ExtChanges(choice) => self.ages = self.ages.or(Some(choice)),
            CardLine::Ext { place, value } => put_byte(&mut self.ext_csd, place, value),
            CardLine::Fault { .. } => {}
        }
    }

    // What the lines give together.
    fn by(lines: &[CardLine]) -> Given
        ensures { result ≡ given_by lines.now }
    {
        let mut given = Given::nothing();
        for line in lines {
            given.take(line);
        }
        given
    }

    // What a card of this kind has.
    fn own_registers(&self, kind: Kind) -> Option<KindRegisters>
        ensures { result ≡ own_registers_of kind self.now }
    {
        match kind {
            Kind::Sd => Some(KindRegisters::Sd(SdRegisters {
                scr: self.scr?,
                rca: first_rca(self.rca),
                rca_changes: matches!(self.rca, Some(PublishedRca::Changes)),
                answers_cmd8: self.cmd8.unwrap_or(false),
                has_high_speed: has_high_speed(self.high_speed),
            })),
            Kind::Mmc => Some(KindRegisters::Mmc(MmcRegisters {
                ext_csd: self.ext_csd,
            })),
        }
    }
}

// The RCA that an SD card publishes first, which is 1 but where a line gives one.
fn first_rca(rca: Option<PublishedRca>) -> u16
    ensures { result ≡ first_rca rca }
{
    match rca {
        Some(PublishedRca::Fixed(rca)) => rca,
        _ => 1,
    }
}

// Whether the switch status of an SD card names high speed.
fn has_high_speed(choice: Option<HighSpeedChoice>) -> bool
    ensures { result ≡ has_high_speed choice }
{
    match choice {
        Some(HighSpeedChoice::Taken(has)) => has,
        Some(HighSpeedChoice::Refused(_)) => true,
        None => false,
    }
}

// How it refuses to switch, if it does.
fn refusal_of(choice: Option<HighSpeedChoice>) -> Option<Refusal>
    ensures { result ≡ refusal_of choice }
{
    match choice {
        Some(HighSpeedChoice::Refused(refusal)) => Some(refusal),
        _ => None,
    }
}

// Puts a byte in its place.
fn put_byte(block: &mut [u8; 512], place: u16, value: u8)
    ensures { block.new ≡ slice_set block.old place value }
{
    if (place as usize) < block.len() {
        block[place as usize] = value;
    }
}

/// What the card of these lines is built by, without an image; of two lines of a key the first counts. Nothing where a
/// key is missing that must stand: `kind`, `ocr`, `cid`, `csd`, `sectors`, and for an SD card `scr`.
#[tactic(auto, unfolding(crate::specs::CardSpecs::spec_of))]
pub fn card_spec(lines: &[CardLine]) -> Option<CardSpec>
    ensures { result ≡ spec_of lines.now }
{
    let given = Given::by(lines);
    let registers = Registers {
        kind: given.own_registers(given.kind?)?,
        ocr: given.ocr?,
        cid: given.cid?,
        csd: given.csd?,
        is_locked: given.locked.unwrap_or(false),
    };
    Some(CardSpec {
        registers,
        sectors: given.sectors?,
        ready: given.ready.unwrap_or(0),
        busy: given.busy.unwrap_or(0),
        early: given.early,
        keeps_length: given.keeps_length.unwrap_or(true),
        refusal: refusal_of(given.high_speed),
        stays_busy: given.stays_busy.unwrap_or(false),
        lagging: given.lagging.unwrap_or(0),
        late: given.late.unwrap_or(0),
        goes_on: given.goes_on.unwrap_or(false),
        shows_app_cmd: given.shows_app_cmd.unwrap_or(false),
        ages: given.ages.unwrap_or(false),
        image: None,
    })
}
