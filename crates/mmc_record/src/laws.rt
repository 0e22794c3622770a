//! A law of cards. The function does nothing; its contract is the law, which a caller then knows.
ghost use Rattle.mmc_card.specs.Made.{HasRegisters, Made};
ghost use Rattle.mmc_card.specs.declared.exchange.Lines.{Lines};
ghost use Rattle.mmc_switch.specs.Info.{IsKnown};
ghost use Rattle.mmc_switch.specs.declared.info.Info.{Info};
ghost use Rattle.mmc_record.specs.Note.{HasChecks};

/// What is known of a card by its registers has its checks.
pub fn a_card_s_registers_have_their_checks()
    ensures { (limits : Lines) (made : Made) (info : Info) → HasRegisters made → IsKnown limits made info → HasChecks info }
{}
