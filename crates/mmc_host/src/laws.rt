//! Laws of the table: what it says of a command is what a card does. Each function does nothing; its contract is the law, which
//! a caller then knows.
ghost use Rattle.std.specs.Prelude.{◌<◌, ◌≡◌, ℕ};
ghost use Rattle.mmc_card.specs.Card.{Card, IsCard};
ghost use Rattle.mmc_card.specs.CardAnswer.{Choice};
ghost use Rattle.mmc_card.specs.Rows.{command_of, respond};
ghost use Rattle.mmc_card.specs.Wanted.{response_to, want_of};
ghost use Rattle.mmc_card.specs.declared.command.Command.{Command};
ghost use Rattle.mmc_host.specs.Fits.{HasDataAfter, IsAnswered, IsBusyAfter};
ghost use Rattle.mmc_host.specs.Table.{data_of, response_of};
ghost use Rattle.mmc_host.specs.WireLaws.{FaithfulIsHeard, UnsoundIsLost};

/// Whatever a card does with a command, by its kind, its state and after CMD55 or not: its answer is the response of the
/// table to this index, or none, and as long as a host wants; it is busy only where it was, or after an R1b; and where it begins to send or to accept
/// blocks, they are the data of the table, by the count that it holds preset, and where it holds none by any number.
pub fn a_card_does_as_the_table_says()
    ensures answer { (choice : Choice) (card : Card) (index argument : ℕ) → index < 64
        → IsAnswered (response_of (command_of card.made.kind card.app index)) index (respond choice card index argument).1 }
    ensures length { (command : Command) → want_of (response_of command) ≡ response_to command }
    ensures busy { (choice : Choice) (card : Card) (index argument : ℕ)
        → IsBusyAfter (response_of (command_of card.made.kind card.app index)) card (respond choice card index argument).0 }
    ensures blocks { (choice : Choice) (card : Card) (index argument moved : ℕ) → index < 64 → IsCard card
        → HasDataAfter (data_of (command_of card.made.kind card.app index) card.count moved) card
        (respond choice card index argument).0 }
{}

/// What a wire carries, a host can tell: a faithful answer as it is, and one of which bits were flipped, so that its check fails,
/// as a lost one, with the same card and as many faults.
pub fn a_host_can_tell_what_a_wire_carries()
    ensures faithful { FaithfulIsHeard }
    ensures unsound { UnsoundIsLost }
{}
