// A card is served once for each exchange at which something goes wrong.
use crate::serving::{Served, Trouble, Way, Which, no_trouble, serve, silent_at, spec_of, waiting};
use mmc_card_sim::{Fault, Outcome};
use sdhci_model::{Line, Manner, Silence};
use std::alloc::Global;
use std::default::Default;
use std::test::Fail;

// The command or its response is lost; a block that is read doesn't come, or comes with a bad check; one that is
// written is rejected, alone or with all after it, or its status is lost; and the power fails.
const FAULTS: [Fault; 8] = [
    Fault::LoseCommand,
    Fault::LoseReply,
    Fault::NoBlock,
    Fault::BadBlock,
    Fault::Reject,
    Fault::RejectAll,
    Fault::LoseStatus(Outcome::Old),
    Fault::Brownout(Outcome::Old),
];

/// At each exchange once each of them.
pub fn fail_each(alloc: Global, which: Which, way: Way) -> Result<Served, Fail> {
    let whole = serve(alloc, spec_of(which), way, no_trouble())?;
    for exchange in 0..whole.exchanges {
        for fault in FAULTS {
            let trouble = Trouble {
                exchange,
                fault,
                ..no_trouble()
            };
            serve(alloc, spec_of(which), way, trouble)?;
        }
    }
    Ok(whole)
}

/// At each exchange once the controller is silent, for a few looks or for good. For good: the command is never over, whether the card
/// heard it or not; a block or room for one is never shown, or, once a block was, Transfer Complete isn't nor what is next. So the
/// driver gives up, and resets what runs.
pub fn silence_each(alloc: Global, which: Which, way: Way) -> Result<(), Fail> {
    let whole = serve(alloc, spec_of(which), way, no_trouble())?;
    for silence in [Silence::Before, Silence::After, Silence::Unsent] {
        let mut lost: u64 = 0;
        for exchange in 0..whole.noted {
            let slow = silent_at(exchange, 5, silence);
            if serve(alloc, spec_of(which), way, slow)?.lost != 0 {
                return Err("a slow controller was given up".into());
            }
            let silent = silent_at(exchange, u64::MAX, silence);
            if serve(alloc, spec_of(which), way, silent)?.lost > 0 {
                lost = lost.saturating_add(1);
            }
        }
        if lost < whole.noted / 2 {
            return Err("silence was not heard".into());
        }
    }
    Ok(())
}

/// At each exchange once a block is damaged or lost, and the controller's error comes a look after it has shown the block, or with the
/// next one.
pub fn fail_each_late(alloc: Global, which: Which, way: Way) -> Result<(), Fail> {
    let whole = serve(alloc, spec_of(which), way, no_trouble())?;
    for exchange in 0..whole.exchanges {
        for fault in FAULTS {
            let trouble = Trouble {
                exchange,
                fault,
                manner: Manner {
                    has_late_errors: true,
                    ..Manner::default()
                },
            };
            serve(alloc, spec_of(which), way, trouble)?;
        }
    }
    Ok(())
}

/// At each exchange once the controller is silent for good, until there is an interrupt, for which the driver waits: nothing is lost then.
/// Where there is none, what is silent is.
pub fn wait_at_each(alloc: Global, which: Which, way: Way) -> Result<(), Fail> {
    let whole = serve(
        alloc,
        spec_of(which),
        way,
        waiting(no_trouble(), Line::Fires),
    )?;
    for silence in [Silence::Before, Silence::After, Silence::Unsent] {
        let mut lost: u64 = 0;
        for exchange in 0..whole.noted {
            let silent = silent_at(exchange, u64::MAX, silence);
            if serve(alloc, spec_of(which), way, waiting(silent, Line::Fires))?.lost != 0 {
                return Err("an interrupt was not heard".into());
            }
            if serve(alloc, spec_of(which), way, waiting(silent, Line::IsDead))?.lost > 0 {
                lost = lost.saturating_add(1);
            }
        }
        if lost < whole.noted / 2 {
            return Err("silence was not heard".into());
        }
    }
    Ok(())
}
