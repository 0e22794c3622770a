// The host that a call begins with, goes on with, and ends.
ghost use Rattle.std.specs.Prelude.{◌≡◌, IfErr, IfOk, IsOk, false, pos, true};
ghost use Rattle.mmc_host.specs.HostStates.{IsBetween, begun};
ghost use Rattle.mmc_host.specs.Hosts.{IsUnused, Where};
ghost use Rattle.mmc_sdhci.specs.Driver.{IsNew, IsReady};
ghost use Rattle.mmc_sdhci.specs.Moving.{WhereKept};
ghost use Rattle.c_host.specs.declared.given.WayRecord.{WayRecord};
ghost use Rattle.kelifandro.specs.Answers.{is_unready, minus};
ghost use Rattle.kelifandro.specs.Calls.{is_attempted};
ghost use Rattle.kelifandro.specs.Done.{AtRegisters, IsLeft, IsWired, OnlyTold, TellsUnready, done_of, host_after, stories_of};

use crate::answers::start_number;
use crate::did::{Did, ended};
use c_host::{CFunctions, CRegisters, Given, Way, WayRecord, given_by, most_by};
use mmc_bus::{Lines, Timing, Width};
use mmc_direct::Stands;
use mmc_host::{Host, HostBus, Ios};
use mmc_sdhci::{POWER, Registers, Sdhci};
use mmc_story::{HasStory, StoryHost};
use sdhci_story::{HasRegisterStory, Note, StoryRegisters};

/// A host of C's, with a diary of what it did: by functions of their calls, and by registers of the accesses that the proved driver makes.
pub type CHost<S> = Way<StoryHost<CFunctions, S>, Sdhci<StoryRegisters<CRegisters, S>>>;

/// A host that begins with a card, on one line, at the clock of identification, after what was done in earlier calls.
///
/// # Errors
/// The number of why its controller isn't ready.
pub fn begin<S: HasStory + HasRegisterStory>(
    way: &WayRecord,
    did: &mut Did,
) -> Result<CHost<S>, i32>
    requires wired { IsWired (stories_of S.HasStory.story S.HasRegisterStory.story) way.now }
    requires still { AtRegisters (stories_of S.HasStory.story S.HasRegisterStory.story) way.now (done_of did.old) IsNew }
    ensures comes { IfOk result (λ host. OnlyTold
        (host_after (stories_of S.HasStory.story S.HasRegisterStory.story) way.now (done_of did.old)) (⟦<CHost<S> as Host>⟧.view host)) }
    ensures unused { IfOk result (λ host. IsUnused (⟦<CHost<S> as Host>⟧.view host)) }
    ensures told { IfOk result (λ host. ⟦<CHost<S> as Host>⟧.has_told host begun.ios) }
    ensures did { IfOk result (λ host. did.new ≡ did.old) }
    ensures fault { IfErr result (λ number. is_unready number ≡ true) }
    ensures unready { IfErr result (λ number.
        TellsUnready (stories_of S.HasStory.story S.HasRegisterStory.story) (done_of did.new) number) }
    ensures stays { IfErr result (λ number. OnlyTold
        (host_after (stories_of S.HasStory.story S.HasRegisterStory.story) way.now (done_of did.old))
        (host_after (stories_of S.HasStory.story S.HasRegisterStory.story) way.now (done_of did.new))) }
    ensures still_again { IfErr result (λ number.
        AtRegisters (stories_of S.HasStory.story S.HasRegisterStory.story) way.now (done_of did.new) IsNew) }
    ensures functions { way.now.by ≡ 0 → IsOk result }
{
    match given_by(way) {
        Given::Host(functions) => {
            let limits = functions.limits;
            let mut functions = functions;
            functions.set_ios(Ios {
                width: Width::One,
                timing: Timing::Default,
                is_identifying: true,
            });
            let host = StoryHost::new(functions).limited(limits);
            Ok(Way::Host(host.after(&did.calls)))
        }
        Given::Registers(registers) => {
            let registers = StoryRegisters::new(registers).after(&did.accesses);
            match Sdhci::new(registers, most_by(way)) {
                Ok(driver) => Ok(Way::Registers(driver)),
                Err((registers, fault)) => {
                    let (_, accesses) = registers.ended(false);
                    did.accesses = accesses;
                    Err(start_number(fault))
                }
            }
        }
    }
}

/// The host that such a card is behind, which goes on after what was done in earlier calls.
///
/// # Errors
/// The number of why its controller isn't ready.
pub fn go_back<S: HasStory + HasRegisterStory>(
    way: &WayRecord,
    stands: &Stands,
    did: &mut Did,
) -> Result<CHost<S>, i32>
    requires wired { IsWired (stories_of S.HasStory.story S.HasRegisterStory.story) way.now }
    requires ready { AtRegisters (stories_of S.HasStory.story S.HasRegisterStory.story) way.now (done_of did.old) IsReady }
    ensures comes { IfOk result (λ host. OnlyTold
        (host_after (stories_of S.HasStory.story S.HasRegisterStory.story) way.now (done_of did.old)) (⟦<CHost<S> as Host>⟧.view host)) }
    ensures between { IfOk result (λ host. Where (⟦<CHost<S> as Host>⟧.view host) (IsBetween (⟦<CHost<S> as Host>⟧.view host).state)) }
    ensures did { IfOk result (λ host. did.new ≡ did.old) }
    ensures fault { IfErr result (λ number. number ≡ pos 0 → ⊥) }
    ensures unmade { IfErr result (λ number. is_attempted number ≡ false) }
    ensures no_clock { IfErr result (λ number. number ≡ minus 23) }
    ensures unready { IfErr result (λ number.
        TellsUnready (stories_of S.HasStory.story S.HasRegisterStory.story) (done_of did.new) number) }
    ensures stays { IfErr result (λ number. OnlyTold
        (host_after (stories_of S.HasStory.story S.HasRegisterStory.story) way.now (done_of did.old))
        (host_after (stories_of S.HasStory.story S.HasRegisterStory.story) way.now (done_of did.new))) }
    ensures ready_again { IfErr result (λ number.
        AtRegisters (stories_of S.HasStory.story S.HasRegisterStory.story) way.now (done_of did.new) IsReady) }
    ensures functions { way.now.by ≡ 0 → IsOk result }
{
    let info = stands.info();
    let lines = Lines {
        width: info.width,
        timing: info.timing,
    };
    match given_by(way) {
        Given::Host(functions) => {
            let limits = functions.limits;
            let host = StoryHost::resume(functions, lines).limited(limits);
            Ok(Way::Host(host.after(&did.calls)))
        }
        Given::Registers(registers) => {
            let registers = StoryRegisters::new(registers).after(&did.accesses);
            match Sdhci::resume(registers, most_by(way), lines) {
                Ok(driver) => Ok(Way::Registers(driver)),
                Err((registers, fault)) => {
                    let (_, accesses) = registers.ended(false);
                    did.accesses = accesses;
                    Err(start_number(fault))
                }
            }
        }
    }
}

/// Ends the use of a host for now, so that the next call can go on: of a controller nothing is under way, and nothing is lent. Functions
/// are told nothing: what they were told to do has ended.
///
/// Contracts of a bus don't say that its host is still of the kind that it was: so what one of the other kind did counts as misuse, of
/// which no story is true. So does data that is still under way though nothing has failed, which they don't exclude either.
pub fn end<S: HasStory + HasRegisterStory>(
    host: CHost<S>,
    is_misused: bool,
    has_failed: bool,
    did: &mut Did,
)
    ensures left { (way : WayRecord) → Where (host_after (stories_of S.HasStory.story S.HasRegisterStory.story) way (done_of did.new))
        ((is_misused ≡ false) × IsLeft (has_failed ≡ false) (⟦<CHost<S> as Host>⟧.view host)
        (host_after (stories_of S.HasStory.story S.HasRegisterStory.story) way (done_of did.new))) }
    ensures ready { IsReady (S.HasRegisterStory.story.controller did.new.accesses.past) }
{
    match host {
        Way::Host(host) => {
            did.calls = ended::<S>(host.diary(), is_misused);
            did.accesses = did.accesses.then(&Note::Misused);
        }
        Way::Registers(driver) => {
            let mut driver = driver;
            let is_moving = driver.is_moving();
            driver.end(has_failed);
            let registers = driver.into_registers();
            let (_, accesses) = registers.ended(is_misused || (!has_failed && is_moving));
            did.accesses = accesses;
            did.calls = ended::<S>(&did.calls, true);
        }
    }
}

/// Ends the use of the host of a bus.
pub fn end_over<S: HasStory + HasRegisterStory>(
    bus: HostBus<CHost<S>>,
    has_failed: bool,
    did: &mut Did,
)
    ensures left { (way : WayRecord) → Where (host_after (stories_of S.HasStory.story S.HasRegisterStory.story) way (done_of did.new))
        ((bus.is_misused ≡ false) × IsLeft (has_failed ≡ false) (⟦<CHost<S> as Host>⟧.view bus.host)
        (host_after (stories_of S.HasStory.story S.HasRegisterStory.story) way (done_of did.new))) }
    ensures ready { IsReady (S.HasRegisterStory.story.controller did.new.accesses.past) }
{
    let is_misused = bus.is_misused();
    end::<S>(bus.into_host(), is_misused, has_failed, did);
}

/// Gives the card power, where functions can. A driver does so by itself.
pub fn switch_on(way: &WayRecord) {
    if let Given::Host(functions) = given_by(way) {
        let mut functions = functions;
        functions.set_power(true);
    }
}

/// Takes the card's power, where that can be switched.
pub fn switch_off<S: HasStory + HasRegisterStory>(way: &WayRecord, did: &mut Did)
    requires still { AtRegisters (stories_of S.HasStory.story S.HasRegisterStory.story) way.now (done_of did.old) IsNew }
    ensures stays { OnlyTold (host_after (stories_of S.HasStory.story S.HasRegisterStory.story) way.now (done_of did.old))
        (host_after (stories_of S.HasStory.story S.HasRegisterStory.story) way.now (done_of did.new)) }
    ensures unpowered { AtRegisters (stories_of S.HasStory.story S.HasRegisterStory.story) way.now (done_of did.new)
        (λ controller. WhereKept controller (controller.settings.power ≡ 0)) }
    ensures still_again { AtRegisters (stories_of S.HasStory.story S.HasRegisterStory.story) way.now (done_of did.new) IsNew }
{
    match given_by(way) {
        Given::Host(functions) => {
            let mut functions = functions;
            functions.set_power(false);
        }
        Given::Registers(registers) => {
            let mut registers = StoryRegisters::<CRegisters, S>::new(registers).after(
                &did.accesses,
            );
            registers.write8(POWER, 0);
            let (_, accesses) = registers.ended(false);
            did.accesses = accesses;
        }
    }
}
