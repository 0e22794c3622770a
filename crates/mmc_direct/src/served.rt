// What came of a request, and how it left the card.
ghost use Rattle.std.specs.Prelude.{◌≡◌, Err, None};
ghost use Rattle.mmc_direct.specs.Served.{AnswersBy, answer_of, refusal_in};
ghost use Rattle.mmc_switch.specs.Stands.{stands_of};
ghost use Rattle.mmc_direct.specs.declared.refused.NotDone.TheVariants as NotDone;

use crate::refused::NotDone;
use mmc_requests::Refused;
use mmc_switch::{Broken, Session, Stands};

/// What came of a request.
#[derive(Debug, Drop)]
pub struct Served {
    /// How the card stands now.
    pub stands: Stands,
    /// Whether the request was done, and if not, why.
    pub answer: Result<(), NotDone>,
}

// Whether a request was done by its attempts, and if not, why.
pub(crate) fn answer(outcome: &Result<Session, Broken>) -> Result<(), NotDone>
    ensures answer { result ≡ answer_of outcome.now }
    ensures unrefused { refusal_in result ≡ None }
    ensures fits { AnswersBy result (stands_of outcome.now) }
{
    match outcome {
        Ok(_) => Ok(()),
        Err(broken) => Err(NotDone::Failed(broken.cause())),
    }
}

impl Served {
    // It was refused.
    pub(crate) fn refused(stands: Stands, refused: Refused) -> Served
        ensures stands { result.stands ≡ stands }
        ensures answer { result.answer ≡ Err (NotDone.Refused refused) }
    {
        Served {
            stands,
            answer: Err(NotDone::Refused(refused)),
        }
    }

    // It was done, or the last of its attempts has failed.
    pub(crate) fn of(outcome: Result<Session, Broken>) -> Served
        ensures stands { result.stands ≡ stands_of outcome }
        ensures answer { result.answer ≡ answer_of outcome }
    {
        let answer = answer(&outcome);
        let stands = match outcome {
            Ok(session) => Stands::Ready(session),
            Err(broken) => Stands::Broken(broken),
        };
        Served { stands, answer }
    }
}
