ghost use Rattle.std.specs.Prelude.{◌≡◌, ◌<◌, IsSome, None, Some, false};
ghost use Rattle.mmc_card.specs.declared.part.Part.TheVariants.{User};
ghost use Rattle.mmc_card.specs.BusView.{BusView};
ghost use Rattle.mmc_switch.specs.Address.{address_of};
ghost use Rattle.mmc_switch.specs.Info.{IsKnown, used_as};
ghost use Rattle.mmc_switch.specs.KnownFaults.{heeding};
ghost use Rattle.mmc_switch.specs.Place.{IsReady};
ghost use Rattle.mmc_switch.specs.UnderWay.{broken_off, room_of};

use crate::broken::Broken;
use crate::info::Info;
use mmc_bus::{Cause, Part};
use mmc_frame::{Addressing, Kind};

/// A card that is ready for transfers, as far as the host knows.
#[derive(Debug, Drop)]
pub struct Session {
    pub(crate) info: Info,
    // PARTITION_CONFIG of an eMMC device, whose bits 7 to 3 a switch of the partition leaves; 0 of an SD card.
    pub(crate) partition_config: u8,
    pub(crate) selected: Option<Part>,
}

impl Session {
    /// The session of a card that was widened: the user partition is selected.
    pub(crate) fn opened(info: Info, partition_config: u8) -> Session
        ensures { result ≡ record { info = info; partition_config = partition_config; selected = Some User } }
    {
        Session {
            info,
            partition_config,
            selected: Some(Part::User),
        }
    }

    /// The session of which this is known, as a host that has kept it elsewhere goes on. Whether the card is so is for the caller's
    /// contract to say.
    pub fn of(info: Info, partition_config: u8, selected: Option<Part>) -> Session
        ensures { result ≡ record { info = info; partition_config = partition_config; selected = selected } }
    {
        Session {
            info,
            partition_config,
            selected,
        }
    }

    /// PARTITION_CONFIG of an eMMC device, as it was read when the card was opened; 0 of an SD card.
    pub fn partition_config(&self) -> u8
        ensures { result ≡ self.now.partition_config }
    {
        self.partition_config
    }

    /// What the host knows of the card.
    pub fn info(&self) -> &Info
        ensures { result.now ≡ self.now.info }
    {
        &self.info
    }

    /// SD or eMMC.
    pub fn kind(&self) -> Kind
        ensures { result ≡ self.now.info.kind }
    {
        self.info.kind
    }

    /// The RCA, by which the card is named.
    pub fn rca(&self) -> u16
        ensures { result ≡ self.now.info.rca }
    {
        self.info.rca
    }

    /// The partition that is selected, or `None` where that isn't known, so that one has to be selected first.
    pub fn selected(&self) -> Option<Part>
        ensures { result ≡ self.now.selected }
    {
        self.selected
    }

    /// The size of the partition that is selected, in sectors, or 0 where that isn't known.
    pub fn room(&self) -> u64
        ensures known { IsSome self.now.selected → result ≡ room_of self.now }
        ensures unknown { self.now.selected ≡ None → result ≡ 0 }
    {
        match self.selected {
            Some(part) => self.info.sizes.of(part),
            None => 0,
        }
    }

    /// What names a sector of the selected partition in a command: its first byte, or its number.
    pub fn address(&self, sector: u64) -> u32
        requires { sector < room_of self.now }
        ensures { result ≡ address_of self.now.info.addressing sector }
    {
        match self.info.addressing {
            Addressing::Bytes => (512 * sector) as u32,
            Addressing::Sectors => sector as u32,
        }
    }

    /// The same session, but that trims and CMD23 aren't used where what else is known of the card doesn't use them, and that what
    /// the card told of its write protection is the other's.
    pub fn used_as(self, other: &Info) -> Session
        ensures uses { result ≡ record self { info = used_as other.now self.info } }
        ensures ready { (view : BusView) → IsKnown view.limits view.card.made other.now → IsReady self view
            → IsReady result view }
    {
        Session {
            info: self.info.used_as(other),
            partition_config: self.partition_config,
            selected: self.selected,
        }
    }

    /// The same session, but that what cards of this make are known to do wrong isn't used: trims of some eMMC devices, which lose
    /// other sectors by them, and CMD23 of some SD cards, which lock up at it.
    pub fn heeding_known_faults(self) -> Session
        ensures heeds { result ≡ record self { info = heeding self.info } }
        ensures ready { (view : BusView) → IsReady self view → IsReady result view }
    {
        Session {
            info: self.info.heeding_known_faults(),
            partition_config: self.partition_config,
            selected: self.selected,
        }
    }

    /// What is left once something has failed for this cause.
    pub fn break_off(self, cause: Cause) -> Broken
        ensures { result ≡ broken_off self cause }
    {
        Broken {
            session: self,
            cause,
            must_reset: false,
        }
    }
}
