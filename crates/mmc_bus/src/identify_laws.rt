//! Laws about the commands of identification and status: what a host may conclude from what it learned of an exchange,
//! so that it never looks at the table of the card's commands. Each function does nothing; its contract is the law,
//! which a caller then knows.
ghost use Rattle.std.specs.Prelude.{◌≡◌, ◌⊎◌, Bool, List, Result, false, true, ℕ};
ghost use Rattle.mmc_frame.specs.Field.{field};
ghost use Rattle.mmc_frame.specs.declared.card_state.State.TheVariants.{Ident, Idle, Ready, Stby, Tran};
ghost use Rattle.mmc_frame.specs.declared.kind.Kind.TheVariants.{Mmc, Sd};
ghost use Rattle.mmc_frame.specs.declared.commands.TheConstants as Index;
ghost use Rattle.mmc_bus.specs.declared.host.Unheard.{Unheard};
ghost use Rattle.mmc_card.specs.CardAnswer.{busied, done, refused, reset, shown};
ghost use Rattle.mmc_card.specs.Judged.{Shows};
ghost use Rattle.mmc_card.specs.Made.{IsToldCsd};
ghost use Rattle.mmc_card.specs.Card.{IsCard, NoAddress, is_identified};
ghost use Rattle.mmc_bus.specs.CommandLaws.{AsksStatus, Does, Inquires, IsUnheard, Names, Responded, ShowsNoError, Whatever};
ghost use Rattle.mmc_card.specs.Faults.{NoFault};
ghost use Rattle.mmc_bus.specs.Heard.{nothing_of, ocr_of, register_of};
ghost use Rattle.mmc_bus.specs.Learned.{CommandFacts};
ghost use Rattle.mmc_card.specs.RowsErase.{forgotten};
ghost use Rattle.mmc_card.specs.RowsIdentify.{is_served};
ghost use Rattle.mmc_card.specs.BusView.{BusView};
ghost use Rattle.mmc_bus.specs.CommandLaws.{ShowsDropped};

use mmc_frame::laws;

/// CMD0, GO_IDLE_STATE: where no fault fell, the card is as after power on, and some of an unfinished write or erase
/// has landed.
pub fn cmd0_resets_the_card()
    ensures { (old new : BusView) (argument : ℕ) (heard : Result ℕ Unheard)
        → CommandFacts nothing_of old Index.GO_IDLE_STATE argument heard new
        → NoFault old new
        → (lands : ℕ → Bool) × (keeps_length : Bool) × (new.card ≡ reset lands keeps_length old.card) }
{}

/// CMD1 of eMMC, SEND_OP_COND: a device in idle tells its OCR, and says at most fifteen times that it isn't ready, when its
/// window may be empty. Only an eMMC device answers.
pub fn cmd1_asks_an_emmc_device_whether_it_is_ready()
    ensures { (old new : BusView) (argument : ℕ) (heard : Result ℕ Unheard)
        → CommandFacts ocr_of old Index.SEND_OP_COND argument heard new → IsCard old.card
        → Inquires ((old.card.made.kind ≡ Mmc) × (old.card.state ≡ Idle)) Unit old heard new }
{}

/// CMD2, ALL_SEND_CID: a card in ready tells its CID, and is in ident after it.
pub fn cmd2_tells_the_cid()
    ensures { (old new : BusView) (argument : ℕ) (heard : Result (List ℕ) Unheard)
        → CommandFacts register_of old Index.ALL_SEND_CID argument heard new → IsCard old.card
        → Does Whatever (old.card.state ≡ Ready) (λ card cid. cid ≡ card.made.cid) (record (done old.card) { state = Ident }) old heard new }
{
    laws::register_comes_back();
}

/// CMD3 of SD, SEND_RELATIVE_ADDR: a card in ident or stby publishes an RCA, which isn't 0 but of a nameless card, and goes
/// by it in stby.
pub fn cmd3_publishes_the_rca()
    ensures does { (old new : BusView) (argument : ℕ) (heard : Result ℕ Unheard)
        → Responded Index.SEND_RELATIVE_ADDR old argument heard new → IsCard old.card
        → old.card.made.kind ≡ Sd
        → Does Whatever ((old.card.state ≡ Ident) ⊎ (old.card.state ≡ Stby))
        (λ card told. field 31 16 told ≡ new.card.rca)
        (record (shown old.card) { state = Stby; rca = new.card.rca })
        old heard new }
    ensures named { (old new : BusView) (argument : ℕ) (heard : Result ℕ Unheard)
        → Responded Index.SEND_RELATIVE_ADDR old argument heard new → IsCard old.card
        → old.card.made.kind ≡ Sd → old.card.made.is_nameless ≡ false → NoFault old new
        → (old.card.state ≡ Ident) ⊎ (old.card.state ≡ Stby) → new.card.rca ≡ 0 → ⊥ }
{}

/// CMD3 of eMMC, SET_RELATIVE_ADDR: a device in ident is assigned the RCA of the argument, and goes by it in stby.
pub fn cmd3_gives_the_rca()
    ensures { (old new : BusView) (argument : ℕ) (heard : Result ℕ Unheard)
        → Responded Index.SEND_RELATIVE_ADDR old argument heard new → IsCard old.card
        → old.card.made.kind ≡ Mmc
        → Does ShowsNoError (old.card.state ≡ Ident)
        Shows
        (record (shown old.card) { state = Stby; rca = field 31 16 argument })
        old heard new }
{}

/// CMD7, SELECT_CARD: a card in stby that is named is in tran after it, and may be busy; statuses may lag behind.
pub fn cmd7_selects_the_card()
    ensures { (old new : BusView) (argument : ℕ) (heard : Result ℕ Unheard)
        → Responded Index.SELECT_CARD old argument heard new → IsCard old.card
        → Does Whatever ((old.card.state ≡ Stby) × Names argument old.card)
        Shows (record (busied (shown old.card)) { state = Tran; lags = true }) old heard new }
{}

/// CMD8 of SD, SEND_IF_COND, for 2.7 to 3.6 V: a card in idle that knows CMD8 accepts it, and tells the voltage and the
/// pattern again.
/// Of one that doesn't know it nothing is heard, and neither of an eMMC device in idle.
pub fn cmd8_is_repeated_by_a_card_that_knows_it()
    ensures does { (old new : BusView) (argument : ℕ) (heard : Result ℕ Unheard)
        → Responded Index.SEND_IF_COND old argument heard new → IsCard old.card
        → old.card.made.kind ≡ Sd → field 11 8 argument ≡ 1
        → Does Whatever ((old.card.state ≡ Idle) × (old.card.made.answers_cmd8 ≡ true))
        (λ card told. field 11 0 told ≡ field 11 0 argument) (record (done old.card) { accepted_cmd8 = true }) old heard new }
    ensures unknown { (old new : BusView) (argument : ℕ) (heard : Result ℕ Unheard)
        → Responded Index.SEND_IF_COND old argument heard new → IsCard old.card
        → old.card.made.kind ≡ Sd → old.card.made.answers_cmd8 ≡ false → old.card.state ≡ Idle
        → IsUnheard (refused old.card) old heard new }
    ensures mmc { (old new : BusView) (argument : ℕ) (heard : Result ℕ Unheard)
        → Responded Index.SEND_IF_COND old argument heard new → IsCard old.card
        → old.card.made.kind ≡ Mmc → old.card.state ≡ Idle → IsUnheard (refused old.card) old heard new }
{}

/// CMD9, SEND_CSD: a card in stby that is named tells its CSD, in which TMP_WRITE_PROTECT may have come on.
pub fn cmd9_tells_the_csd()
    ensures { (old new : BusView) (argument : ℕ) (heard : Result (List ℕ) Unheard)
        → CommandFacts register_of old Index.SEND_CSD argument heard new → IsCard old.card
        → Does Whatever ((old.card.state ≡ Stby) × Names argument old.card) (λ card csd. IsToldCsd card.made csd) (done old.card) old heard new }
{
    laws::register_comes_back();
}

/// CMD13, SEND_STATUS: an identified card tells its status, and holds no error after it. After CMD7, CMD12 and its programming
/// the status may lag, at most fifteen times with the polls that were answered yes, and errors may show later still.
pub fn cmd13_tells_the_status()
    ensures { (old new : BusView) (argument : ℕ) (heard : Result ℕ Unheard)
        → Responded Index.SEND_STATUS old argument heard new
        → AsksStatus ((is_identified old.card.state ≡ true) × (old.card.app ≡ false) × Names argument old.card)
        old heard new }
{}

/// ACMD41, SD_SEND_OP_COND: a card in idle tells its OCR, and says to a host that serves it at most fifteen times that it
/// isn't ready, when its window may be empty. Only an SD card answers, and only after CMD55.
pub fn acmd41_asks_an_sd_card_whether_it_is_ready()
    ensures { (old new : BusView) (argument : ℕ) (heard : Result ℕ Unheard)
        → CommandFacts ocr_of old Index.SD_SEND_OP_COND argument heard new → IsCard old.card
        → Inquires ((old.card.made.kind ≡ Sd) × (old.card.app ≡ true) × (old.card.state ≡ Idle))
        (is_served old.card argument ≡ true) old heard new }
{}

/// CMD55 of SD, APP_CMD: a card in idle, or an identified one, that is named expects the next command to be an
/// application command. Only an SD card answers; an eMMC device isn't heard.
pub fn cmd55_announces_an_application_command()
    ensures idle { (old new : BusView) (argument : ℕ) (heard : Result ℕ Unheard)
        → Responded Index.APP_CMD old argument heard new → IsCard old.card
        → Does ShowsNoError ((old.card.made.kind ≡ Sd) × ((old.card.state ≡ Idle) ⊎ (is_identified old.card.state ≡ true))
        × Names argument old.card)
        ShowsDropped
        (record (shown (forgotten old.card)) { app = true })
        old heard new }
    ensures mmc { (old new : BusView) (argument : ℕ) (heard : Result ℕ Unheard)
        → Responded Index.APP_CMD old argument heard new → IsCard old.card
        → old.card.made.kind ≡ Mmc → Names argument old.card → old.card.erase ≡ NoAddress
        → IsUnheard (refused old.card) old heard new }
{}

/// CMD7, CMD9, CMD13 and CMD55 to another card: nothing is heard, and nothing changes.
pub fn a_command_to_another_card_changes_nothing()
    ensures select_card { (old new : BusView) (argument : ℕ) (heard : Result ℕ Unheard)
        → Responded Index.SELECT_CARD old argument heard new → (Names argument old.card → ⊥)
        → IsUnheard old.card old heard new }
    ensures send_csd { (old new : BusView) (argument : ℕ) (heard : Result (List ℕ) Unheard)
        → CommandFacts register_of old Index.SEND_CSD argument heard new → (Names argument old.card → ⊥)
        → IsUnheard old.card old heard new }
    ensures send_status { (old new : BusView) (argument : ℕ) (heard : Result ℕ Unheard)
        → Responded Index.SEND_STATUS old argument heard new → (Names argument old.card → ⊥)
        → IsUnheard old.card old heard new }
    ensures app_cmd { (old new : BusView) (argument : ℕ) (heard : Result ℕ Unheard)
        → Responded Index.APP_CMD old argument heard new → (Names argument old.card → ⊥)
        → IsUnheard old.card old heard new }
{}
