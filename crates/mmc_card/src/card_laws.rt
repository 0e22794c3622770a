//! Laws about what a card shows and what it holds. Each function does nothing; its contract is the law, which a caller
//! then knows.
ghost use Rattle.std.specs.Prelude.{◌^◌, ◌≡◌, [], false, ℕ};
ghost use Rattle.mmc_frame.specs.Field.{field};
ghost use Rattle.mmc_frame.specs.Status.{IsAtWork, IsClean, error_bits, own_status, state_number};
ghost use Rattle.mmc_frame.specs.declared.card_state.State.TheVariants.{Prg};
ghost use Rattle.mmc_frame.specs.declared.kind.Kind.{Kind};
ghost use Rattle.mmc_card.specs.CardAnswer.{Choice, status};
ghost use Rattle.mmc_card.specs.Blocks.{rested};
ghost use Rattle.mmc_card.specs.Card.{Card, FitsPart, IsCard, holds, known, unfinished};
ghost use Rattle.mmc_card.specs.CardLaws.{HasNoError, HasNoErrorOfItsOwn, IsInOrder, Tells};
ghost use Rattle.mmc_card.specs.ErrorBits.{out_of_range};
ghost use Rattle.mmc_card.specs.Judged.{Shows, ShowsItself};
ghost use Rattle.mmc_card.specs.RowsIdentify.{at_work};
ghost use Rattle.mmc_card.specs.Sectors.{AreRead, Change, Same, Sets, changed};

/// What an R1 says of its card, by the bits that are judged, and by the errors of the card's kind. Its error bits are 0 just
/// where the card holds no error. Of a card that holds OUT_OF_RANGE and no other error they are bit 31. Bit 25 says whether it
/// is locked. The R1 of CMD13 has the state of its card too: but for errors of an earlier command it is clean just where the
/// card holds none of its own, is in tran and isn't busy; one that lags behind the card's programming shows it at work just
/// where it holds none of its own, and is never clean. By the errors of the other kind what it tells is so all the same.
pub fn a_status_tells_of_its_card()
    ensures state { (told : ℕ) (card : Card) → ShowsItself card told → field 12 9 told ≡ state_number card.state }
    ensures errors { (kind : Kind) (told : ℕ) (card : Card) → IsCard card → Shows card told
        → Tells kind card (error_bits kind told ≡ 0) (HasNoError kind card) }
    ensures own { (kind : Kind) (told : ℕ) (card : Card) → IsCard card → ShowsItself card told
        → Tells kind card (error_bits kind (own_status told) ≡ 0) (HasNoErrorOfItsOwn kind card) }
    ensures clean { (kind : Kind) (told : ℕ) (card : Card) → IsCard card → ShowsItself card told
        → Tells kind card (IsClean kind (own_status told)) (IsInOrder kind card) }
    ensures at_end { (kind : Kind) (told : ℕ) (card : Card) → IsCard card → card.made.kind ≡ kind → Shows card told
        → HasNoError kind (record card { errors = 0 }) → card.errors ≡ out_of_range
        → error_bits kind told ≡ 2 ^ 31 }
    ensures lagging { (kind : Kind) (choice : Choice) (told : ℕ) (card : Card) → IsCard card
        → ShowsItself (at_work choice card) told
        → Tells kind card (IsAtWork kind (own_status told)) (HasNoErrorOfItsOwn kind (at_work choice card)) }
    ensures lags_unclean { (kind : Kind) (choice : Choice) (told : ℕ) (card : Card) → IsCard card
        → ShowsItself (at_work choice card) told → IsClean kind (own_status told) → ⊥ }
    ensures locked { (told : ℕ) (card : Card) → Shows card told
        → field 25 25 told ≡ field 25 25 (status false card) }
{}

/// Where no write, erase or trim is unfinished, each sector holds what is stored, and nothing else.
pub fn a_card_at_rest_holds_what_it_stores()
    ensures { (card : Card) → card.values ≡ [] → Same (holds card) (known card) }
{}

/// Once programming has ended, what was unfinished is carried out: each of its sectors holds its new value alone, and
/// each other one what was stored.
pub fn programming_carries_a_change_out()
    ensures changes { (card : Card) → card.state ≡ Prg → FitsPart card
        → Same (holds (rested card)) (changed (unfinished card) (known card)) }
    ensures nothing { (card : Card) → card.state ≡ Prg → card.values ≡ [] → Same (holds (rested card)) (holds card) }
{}

/// After a change that was carried out, its values are read from its sectors.
pub fn a_change_that_was_carried_out_is_read_back()
    ensures { (change : Change) (sets : Sets) → AreRead (changed change sets) change.part change.start change.values }
{}
