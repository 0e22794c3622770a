//! Laws about the steps of a card, and about the cards in profile. Each function does nothing; its contract is the law,
//! which a caller then knows.
ghost use Rattle.std.specs.Prelude.{◌≡◌, ◌<◌, Bool, List, None, Ok, Some, true, ℕ};
ghost use Rattle.mmc_frame.specs.Frame.{command_in};
ghost use Rattle.mmc_frame.specs.declared.addressing.Addressing.{Addressing};
ghost use Rattle.mmc_frame.specs.declared.kind.Kind.{Kind};
ghost use Rattle.mmc_frame.specs.declared.kind.Kind.TheVariants as Is;
ghost use Rattle.mmc_frame.specs.declared.commands.TheConstants as Index;
ghost use Rattle.mmc_regs.specs.Csd.{csd_in};
ghost use Rattle.mmc_regs.specs.declared.csd.Csd.TheVariants.{Mmc, V1, V2};
ghost use Rattle.mmc_ext_csd.specs.ExtCsd.{ext_csd_in};
ghost use Rattle.mmc_card.specs.Card.{AreBlocks, Card, HasItsSizes, IsBlock, IsCard, holds, powered_on, stored};
ghost use Rattle.mmc_card.specs.Made.{HasRegisters, Made, addressing_of, csd_number_of};
ghost use Rattle.mmc_card.specs.Faults.{CommandStep, Passes, PollStep, ReadStep, WriteStep};
ghost use Rattle.mmc_card.specs.Laws.{Carried, CountsAtMost, IsStill, StandsIn, StillStands, SwitchesTo, WithinOrAccepted};
ghost use Rattle.mmc_card.specs.Laws.{erased_by, is_frame_of_run, maybe_erased};
ghost use Rattle.mmc_card.specs.Profile.{InProfile, IsHighCapacity, IsStandardCapacity, MmcInProfile};
ghost use Rattle.mmc_card.specs.Sectors.{Sector, Within};
ghost use Rattle.mmc_card.specs.BusView.{BusView};
ghost use Rattle.mmc_card.specs.declared.part.Part.{Part};
ghost use Rattle.mmc_card.specs.declared.exchange.DataIn.{DataIn};
ghost use Rattle.mmc_card.specs.declared.exchange.DataOut.{DataOut};
ghost use Rattle.mmc_card.specs.declared.exchange.Reply.{Reply};

/// Whatever happens, a card is made as it was, and its partitions have their sizes.
pub fn a_step_keeps_what_a_card_is_made_with()
    ensures command { (old new : BusView) (frame : List ℕ) (reply : Reply) → CommandStep old frame reply new
        → Carried old.card new.card }
    ensures poll { (old new : BusView) (said : Bool) → PollStep old said new → Carried old.card new.card }
    ensures write { (old new : BusView) (block : Sector) (got : DataOut) → WriteStep old block got new
        → Carried old.card new.card }
    ensures read { (old new : BusView) (size : ℕ) (got : DataIn) (block : Sector) → ReadStep old size got block new
        → Carried old.card new.card }
{}

/// Whatever happens, a sector may hold no more than it might before; but a block that is offered may be the next sector
/// of the write that runs, and CMD38 may erase the sectors that it names.
pub fn a_step_narrows_what_sectors_may_hold()
    ensures command { (old new : BusView) (frame : List ℕ) (reply : Reply) → CommandStep old frame reply new
        → Within (holds new.card) (maybe_erased (erased_by old.card (command_in frame)) (holds old.card)) }
    ensures poll { (old new : BusView) (said : Bool) → PollStep old said new
        → Within (holds new.card) (holds old.card) }
    ensures write { (old new : BusView) (block : Sector) (got : DataOut) → WriteStep old block got new
        → WithinOrAccepted old.card block new.card }
    ensures read { (old new : BusView) (size : ℕ) (got : DataIn) (block : Sector) → ReadStep old size got block new
        → Within (holds new.card) (holds old.card) }
{}

/// Whatever happens, what was a card is one.
pub fn a_step_leaves_a_card()
    ensures command { (old new : BusView) (frame : List ℕ) (reply : Reply) → CommandStep old frame reply new
        → IsCard old.card → IsCard new.card }
    ensures poll { (old new : BusView) (said : Bool) → PollStep old said new → IsCard old.card → IsCard new.card }
    ensures write { (old new : BusView) (block : Sector) (got : DataOut) → IsBlock block → WriteStep old block got new
        → IsCard old.card → IsCard new.card }
    ensures read { (old new : BusView) (size : ℕ) (got : DataIn) (block : Sector) → ReadStep old size got block new
        → IsCard old.card → IsCard new.card }
{}

/// Whatever happens in a run, the card stays selected as it was, or is as after CMD0, error bits apart: a command of a
/// run, a poll, and a block that is offered or asked for.
pub fn a_step_of_a_run_leaves_the_card_standing()
    ensures command { (old new : BusView) (frame : List ℕ) (reply : Reply)
        → is_frame_of_run old.card (command_in frame) ≡ true → CommandStep old frame reply new
        → StillStands old.card new.card }
    ensures poll { (old new : BusView) (said : Bool) → PollStep old said new → StillStands old.card new.card }
    ensures write { (old new : BusView) (block : Sector) (got : DataOut) → WriteStep old block got new
        → StillStands old.card new.card }
    ensures read { (old new : BusView) (size : ℕ) (got : DataIn) (block : Sector) → ReadStep old size got block new
        → StillStands old.card new.card }
{}

/// Whatever happens to a switch of the partition of an eMMC device, it stands as before, in its partition or in the new
/// one.
pub fn a_switch_of_the_partition_leaves_the_card_standing()
    ensures { (old new : BusView) (part : Part) (frame : List ℕ) (index argument : ℕ) (reply : Reply)
        → SwitchesTo part old.card index argument → command_in frame ≡ Some (index, argument)
        → CommandStep old frame reply new → StandsIn part old.card new.card }
{}

/// No command but CMD38 erases anything, so that no sector may hold more after it.
pub fn no_command_but_erase_widens()
    ensures { (card : Card) (index argument : ℕ) → index < 64 → (index ≡ Index.ERASE → ⊥)
        → erased_by card (Some (index, argument)) ≡ None }
{}

/// A card after power on, with registers that have their form and as many sectors of 512 bytes as they say, is a card.
pub fn a_card_after_power_on_is_one()
    ensures { (made : Made) (sectors : List (List Sector)) → HasRegisters made → HasItsSizes (powered_on made sectors)
        → ((part : Part) → AreBlocks (stored (powered_on made sectors) part)) → IsCard (powered_on made sectors) }
{}

/// No step takes a fault back. A poll and a block that is read count one at most; a command and a block that is written count two
/// at most, of which one fell unseen since the exchange before.
pub fn a_step_counts_few_faults()
    ensures command { (old new : BusView) (frame : List ℕ) (reply : Reply) → CommandStep old frame reply new
        → CountsAtMost 2 old new }
    ensures poll { (old new : BusView) (said : Bool) → PollStep old said new → CountsAtMost 1 old new }
    ensures write { (old new : BusView) (block : Sector) (got : DataOut) → WriteStep old block got new
        → CountsAtMost 2 old new }
    ensures read { (old new : BusView) (size : ℕ) (got : DataIn) (block : Sector) → ReadStep old size got block new
        → CountsAtMost 1 old new }
{}

/// Time that passes between two exchanges leaves a card as it is that isn't busy, and neither programs nor sends. Any other one stays
/// a card that stands as it did; no sector may hold more after it, and no error bit is cleared.
pub fn time_leaves_a_still_card_as_it_is()
    ensures still { (old met : BusView) → IsStill old.card → Passes old met → met ≡ old }
    ensures card { (old met : BusView) → Passes old met → IsCard old.card → IsCard met.card }
    ensures narrows { (old met : BusView) → Passes old met → Within (holds met.card) (holds old.card) }
    ensures stands { (old met : BusView) → Passes old met → StillStands old.card met.card }
    ensures errors { (old met : BusView) → Passes old met → met.card.errors ≡ 0 → old.card.errors ≡ 0 }
    ensures counts { (old met : BusView) → Passes old met → CountsAtMost 1 old met }
{}

/// Of each kind, and with each addressing, some card is in profile.
pub fn some_card_is_in_profile()
    ensures { (kind : Kind) (addressing : Addressing)
        → (made : Made) × (made.kind ≡ kind) × (addressing_of made ≡ addressing) × HasRegisters made × InProfile made }
{}

/// The readers of CSD and EXT_CSD accept the registers of a card in profile.
pub fn registers_in_profile_are_taken()
    ensures standard { (made : Made) → HasRegisters made → IsStandardCapacity made
        → csd_in Is.Sd made.csd ≡ Ok (V1 (csd_number_of made)) }
    ensures high { (made : Made) → HasRegisters made → IsHighCapacity made
        → csd_in Is.Sd made.csd ≡ Ok (V2 (csd_number_of made)) }
    ensures mmc { (made : Made) → HasRegisters made → csd_in Is.Mmc made.csd ≡ Ok (Mmc (csd_number_of made)) }
    ensures ext_csd { (made : Made) → MmcInProfile made → ext_csd_in made.ext_csd ≡ Ok made.ext_csd }
{}
