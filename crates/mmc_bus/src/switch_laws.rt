//! Laws about the commands of width, speed and partition, in the form of `identify_laws`.
ghost use Rattle.std.specs.Prelude.{◌≡◌, Ok, Result, Some, false, true, ℕ};
ghost use Rattle.mmc_frame.specs.Field.{field};
ghost use Rattle.mmc_frame.specs.declared.card_state.State.TheVariants.{Tran};
ghost use Rattle.mmc_frame.specs.declared.kind.Kind.TheVariants.{Mmc, Sd};
ghost use Rattle.mmc_frame.specs.declared.commands.TheConstants as Index;
ghost use Rattle.mmc_bus.specs.declared.host.Unheard.{Unheard};
ghost use Rattle.mmc_card.specs.CardAnswer.{shown};
ghost use Rattle.mmc_card.specs.Card.{Card, NoAddress};
ghost use Rattle.mmc_bus.specs.CommandLaws.{Does, IsSwitchSource, Responded, ShowsDropped, ShowsNoError, Switches, bytes_sent};
ghost use Rattle.mmc_card.specs.Laws.{timing_once_sent};
ghost use Rattle.mmc_card.specs.Made.{has_switch_function};
ghost use Rattle.mmc_card.specs.RowsErase.{forgotten};
ghost use Rattle.mmc_card.specs.RowsSwitch.{IsExtCsdOf, switched, width_by};
ghost use Rattle.mmc_card.specs.RowsTransfer.{sending};
ghost use Rattle.mmc_card.specs.BusView.{BusView};

/// CMD6 of eMMC, SWITCH: a device in tran carries out a switch that it knows, or fails to, and is busy with it.
pub fn cmd6_switches_an_emmc_device()
    ensures { (old new : BusView) (argument : ℕ) (heard : Result ℕ Unheard) (switched_card : Card)
        → Responded Index.SWITCH_FUNC old argument heard new
        → old.card.made.kind ≡ Mmc → old.card.erase ≡ NoAddress → switched old.card argument ≡ Some switched_card
        → Switches switched_card old heard new }
{}

/// CMD6 of SD, SWITCH_FUNC: a card in tran that knows it sends its switch status, or one that refuses to switch.
pub fn cmd6_sends_the_switch_status()
    ensures does { (old new : BusView) (argument : ℕ) (heard : Result ℕ Unheard)
        → Responded Index.SWITCH_FUNC old argument heard new
        → old.card.made.kind ≡ Sd → old.card.app ≡ false
        → Does ShowsNoError ((old.card.state ≡ Tran) × (has_switch_function old.card.made ≡ true))
        ShowsDropped
        (sending (bytes_sent new.card.source) (timing_once_sent new.card.source old.card.timing) (forgotten old.card))
        old heard new }
    ensures sends { (old new : BusView) (argument told : ℕ) (heard : Result ℕ Unheard)
        → Responded Index.SWITCH_FUNC old argument heard new
        → old.card.made.kind ≡ Sd → old.card.app ≡ false → heard ≡ Ok told
        → ShowsNoError told → IsSwitchSource old.card argument new.card.source }
{}

/// ACMD6, SET_BUS_WIDTH: a card in tran uses one line or four from then on, as the argument says.
pub fn acmd6_sets_the_width()
    ensures { (old new : BusView) (argument : ℕ) (heard : Result ℕ Unheard)
        → Responded Index.SET_BUS_WIDTH old argument heard new
        → old.card.made.kind ≡ Sd → old.card.app ≡ true
        → Does ShowsNoError (old.card.state ≡ Tran)
        ShowsDropped
        (record (shown (forgotten old.card)) { width = width_by (field 1 0 argument) old.card.width })
        old heard new }
{}

/// CMD8 of eMMC, SEND_EXT_CSD: a device in tran sends its EXT_CSD, in which the bytes that nobody reads are open.
pub fn cmd8_sends_the_ext_csd()
    ensures does { (old new : BusView) (argument : ℕ) (heard : Result ℕ Unheard)
        → Responded Index.SEND_IF_COND old argument heard new
        → old.card.made.kind ≡ Mmc
        → Does ShowsNoError (old.card.state ≡ Tran)
        ShowsDropped
        (sending (bytes_sent new.card.source) old.card.timing (forgotten old.card))
        old heard new }
    ensures sends { (old new : BusView) (argument told : ℕ) (heard : Result ℕ Unheard)
        → Responded Index.SEND_IF_COND old argument heard new
        → old.card.made.kind ≡ Mmc → heard ≡ Ok told → ShowsNoError told
        → IsExtCsdOf old.card (bytes_sent new.card.source) }
{}
