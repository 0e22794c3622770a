ghost use Rattle.std.specs.Prelude.{◌≡◌, ◌↔◌, [], true};
ghost use Rattle.mmc_block.specs.Device.{unanswered_of, work_of};

use crate::call::{Call, Cancellation, Shown, Submission, Turned, View};
use ghost_diary::{Diary, Seen};
use mmc_block::laws::{an_execution_has_its_laws, clients_see_no_groups};
use mmc_block::{BlockDev, Bus, CancelFault, Completions, OpenFault, Refused, Request, Ticket};
use std::alloc::Global;
use std::marker::Model;

/// A block device over the bus of one card, with the history of its calls.
#[derive(Drop)]
pub struct Device<B: Bus> {
    device: BlockDev<B>,
    // the bus as the card was opened, and the calls since
    opened: Seen<View>,
    calls: Diary<Call>,
}

impl<B: Bus> Model for Device<B> {
    ghost use Rattle.std.specs.Prelude.{◌≡◌, reverse, true};
    ghost use Rattle.mmc_block.specs.Device.{work_of};
    ghost use Rattle.mmc_history.specs.History.{DeviceHistory};
    ghost use Rattle.mmc_history.specs.Serving.{IsServing};

    ghost Value = { DeviceHistory B };

    ghost view = { λ d. record { bus = d.device.bus; info = d.device.info; opened = d.opened; calls = reverse d.calls.past; work_left = work_of d.device } };

    ghost invariant = { λ d. (B.view d.device.bus).is_kept ≡ true → IsServing B.view d.opened d.device (reverse d.calls.past) };
}

// What the device says of the work that is left, as proofs need it.
fn nothing_is_left_where_all_is_answered<B: Bus>(device: &BlockDev<B>)
    ensures { (work_of device.now ≡ 0) ↔ (unanswered_of device.now ≡ 0) }
{
    let _left = device.work_left();
}

impl<B: Bus> Device<B> {
    ghost use Rattle.std.specs.Prelude.{◌<◌, ◌+◌, ◌≤◌, IfErr, IfOk, MatchResult};
    ghost use Rattle.mmc_card.specs.Card.{holds};
    ghost use Rattle.mmc_card.specs.Profile.{InProfile};
    ghost use Rattle.mmc_card.specs.Sectors.{Within};
    ghost use Rattle.mmc_switch.specs.Info.{IsInfo};
    ghost use Rattle.mmc_block.specs.Clients.Told.{Answered, Cancelled, Submitted};
    ghost use Rattle.mmc_history.specs.Beside.{HoldsBeside};
    ghost use Rattle.mmc_history.specs.History.{Continues, HasServed};

    /// Opens the card of a bus, as `BlockDev::open` does: no sector may hold more after it than before.
    ///
    /// # Errors
    /// As `BlockDev::open`, with the bus; of a card in profile only where three faults fell.
    pub fn open(alloc: Global, bus: B) -> Result<Device<B>, (B, OpenFault)>
        ensures opened { IfOk result (λ d. (d.calls ≡ []) × (d.opened ≡ B.view d.bus)) }
        ensures info { IfOk result (λ d. (B.view d.bus).is_kept ≡ true → IsInfo (B.view bus).limits d.opened.card.made d.info) }
        ensures served { IfOk result (λ d. (B.view d.bus).is_kept ≡ true → HasServed d.info d.opened.card (B.view d.bus).card d.calls d.work_left) }
        ensures beside { IfOk result (λ d. (B.view d.bus).is_kept ≡ true → HoldsBeside d.info d.opened (B.view d.bus) d.calls) }
        ensures narrows { MatchResult result
            (λ d. (B.view d.bus).is_kept ≡ true → Within (holds (B.view d.bus).card) (holds (B.view bus).card))
            (λ e. (B.view e.0).is_kept ≡ true → Within (holds (B.view e.0).card) (holds (B.view bus).card)) }
        ensures refused { IfErr result (λ e. (B.view e.0).is_kept ≡ true → InProfile (B.view bus).card.made
            → (B.view bus).faults + 3 ≤ (B.view e.0).faults) }
    {
        an_execution_has_its_laws();
        clients_see_no_groups();
        let device = BlockDev::open(alloc, bus)?;
        nothing_is_left_where_all_is_answered(&device);
        let opened = Seen::of(&Shown { bus: device.bus() });
        Ok(Device {
            device,
            opened,
            calls: Diary::new(),
        })
    }

    /// Accepts a request of a client, or hands it back, as `BlockDev::submit` does.
    ///
    /// # Errors
    /// As `BlockDev::submit`: the first refusal that holds, with the request.
    pub fn submit(
        &mut self,
        alloc: Global,
        client: u32,
        request: Request,
    ) -> Result<Ticket, (Request, Refused)>
        ensures continues { Continues B.view self.old (Submitted client request result) self.new }
        ensures beside { (B.view self.new.bus).is_kept ≡ true → HoldsBeside self.new.info self.new.opened (B.view self.new.bus) self.new.calls }
        ensures handed_back { IfErr result (λ e. e.0 ≡ request) }
    {
        an_execution_has_its_laws();
        clients_see_no_groups();
        let asked = Seen::of(&request);
        let reply = self.device.submit(alloc, client, request);
        nothing_is_left_where_all_is_answered(&self.device);
        self.calls = self.calls.then(&Submission {
            client,
            request: &asked,
            reply: &reply,
        });
        reply
    }

    /// Gives back a request that waits, as `BlockDev::cancel` does.
    ///
    /// # Errors
    /// As `BlockDev::cancel`.
    pub fn cancel(&mut self, ticket: u64) -> Result<Request, CancelFault>
        ensures continues { Continues B.view self.old (Cancelled ticket result) self.new }
        ensures beside { (B.view self.new.bus).is_kept ≡ true → HoldsBeside self.new.info self.new.opened (B.view self.new.bus) self.new.calls }
    {
        an_execution_has_its_laws();
        clients_see_no_groups();
        let reply = self.device.cancel(ticket);
        nothing_is_left_where_all_is_answered(&self.device);
        self.calls = self.calls.then(&Cancellation {
            ticket,
            reply: &reply,
        });
        reply
    }

    /// A turn, as `BlockDev::turn` takes it: a little of the work that is left, with the answers that came of it.
    pub fn turn(&mut self) -> Completions
        ensures continues { Continues B.view self.old (Answered result.items) self.new }
        ensures beside { (B.view self.new.bus).is_kept ≡ true → HoldsBeside self.new.info self.new.opened (B.view self.new.bus) self.new.calls }
        ensures lowers { 0 < self.old.work_left → self.new.work_left < self.old.work_left }
    {
        an_execution_has_its_laws();
        clients_see_no_groups();
        let answers = self.device.turn();
        nothing_is_left_where_all_is_answered(&self.device);
        self.calls = self.calls.then(&Turned { answers: &answers });
        answers
    }

    /// The device, to be asked what is left, what is known of the card, and what was healed.
    pub fn device(&self) -> &BlockDev<B>
        ensures bus { result.now.bus ≡ self.now.bus }
        ensures info { result.now.info ≡ self.now.info }
        ensures work_left { work_of result.now ≡ self.now.work_left }
    {
        &self.device
    }

    /// The bus, for another use of the card. A request without an answer gets none.
    pub fn close(self) -> B
        ensures bus { result ≡ self.bus }
        ensures served { (B.view result).is_kept ≡ true → HasServed self.info self.opened.card (B.view result).card self.calls self.work_left }
        ensures beside { (B.view result).is_kept ≡ true → HoldsBeside self.info self.opened (B.view result) self.calls }
    {
        an_execution_has_its_laws();
        clients_see_no_groups();
        nothing_is_left_where_all_is_answered(&self.device);
        let Device {
            device,
            opened: _,
            calls: _,
        } = self;
        device.close()
    }
}
