ghost use Rattle.std.specs.Prelude.{◌≡◌, ◌∷◌, [], false, true};
ghost use Rattle.mmc_host.specs.HostStates.{begun, resting};

use crate::diary::{Call, Diary, HostStep, Note, Seen, SeenState};
use crate::story::HasStory;
use mmc_bus::{Blocks, BlocksMut, Moved};
use mmc_card::{DataIn, DataOut, Lines};
use mmc_host::{Heard, Host, HostBus, HostCommand, HostState, Ios, ResponseFault, Work};
use std::marker::PhantomData;

/// A driver with a diary of what it did, which exists only in proofs.
///
/// It is kept as long as the story is true of the diary. Nothing can bind the diary to the wire, so its calls are to be read:
/// each makes the driver's own once, notes the very answer, and gives it back.
#[derive(Drop)]
pub struct StoryHost<H: Host, S: HasStory> {
    host: H,
    // what it can
    limits: Lines,
    // what it has been told, which only proofs see
    told: SeenState,
    diary: Diary,
    of: PhantomData<S>,
    // nothing is proved of the driver itself
    ghost unkept: { (H.view host).is_kept ≡ true → ⊥ },
}

/// The bus over such a host.
pub type StoryBus<H, S> = HostBus<StoryHost<H, S>>;

impl<H: Host, S: HasStory> StoryHost<H, S> {
    ghost use Rattle.mmc_story.specs.Noted.{event_of};
    ghost use Rattle.mmc_story.specs.Story.{IsTrueOf};

    /// A host over a driver of which nothing is proved, as of one with the view `unkept_host`. It was sent no command so far, and
    /// its lines and clock are as before the first one: one line, at most 400 kHz.
    pub fn new(host: H) -> StoryHost<H, S>
        requires { (H.view host).is_kept ≡ false }
        ensures host { result.host ≡ host }
        ensures past { result.diary.past ≡ [] }
        ensures state { result.told.state ≡ begun }
    {
        let limits = host.limits();
        StoryHost {
            host,
            limits,
            told: SeenState::of(&HostState::new()),
            diary: Diary::new(),
            of: PhantomData,
        }
    }

    /// The same over a driver that is between two commands to a card that is selected, on these lines. The diary begins anew: its
    /// story is that of one call.
    pub fn resume(host: H, lines: Lines) -> StoryHost<H, S>
        requires { (H.view host).is_kept ≡ false }
        ensures host { result.host ≡ host }
        ensures past { result.diary.past ≡ [] }
        ensures state { result.told.state ≡ resting lines }
    {
        let limits = host.limits();
        StoryHost {
            host,
            limits,
            told: SeenState::of(&HostState::resting(lines)),
            diary: Diary::new(),
            of: PhantomData,
        }
    }

    /// The same, of which it is known otherwise what it can.
    pub fn limited(self, limits: Lines) -> StoryHost<H, S>
        ensures { result ≡ record self { limits = limits } }
    {
        let mut host = self;
        host.limits = limits;
        host
    }

    /// The same, which goes on after what was done in earlier calls: then the story is that of all of them.
    pub fn after(self, did: &Diary) -> StoryHost<H, S>
        ensures past { result.diary.past ≡ did.now.past }
        ensures same { result ≡ record self { diary = result.diary } }
    {
        let mut host = self;
        host.diary = did.again();
        host
    }

    /// What it did so far.
    pub fn diary(&self) -> &Diary
        ensures { result.now ≡ self.now.diary }
    {
        &self.diary
    }

    /// The driver of a bus that is used no more, and what was done. Of that no story is true where something was asked for that no
    /// controller can do.
    pub fn ended(bus: StoryBus<H, S>) -> (H, Diary)
        ensures host { result.0 ≡ bus.host.host }
        ensures did { IsTrueOf S.story result.1.past → (bus.is_misused ≡ false) × (result.1.past ≡ bus.host.diary.past) }
    {
        let is_misused = bus.is_misused();
        let mut host = bus.into_host();
        if is_misused {
            host.note(Call::Misused);
        }
        (host.host, host.diary)
    }

    /// The driver.
    pub fn host(&self) -> &H
        ensures { result.now ≡ self.now.host }
    {
        &self.host
    }

    /// The driver again.
    pub fn into_host(self) -> H
        ensures { result ≡ self.host }
    {
        self.host
    }

    // Notes a call with its answer.
    fn note(&mut self, call: Call<'_>)
        ensures past { self.new.diary.past ≡ record {
          told = self.old.told.state;
          limits = self.old.limits;
          event = event_of call.entry;
        } ∷ self.old.diary.past }
        ensures state { self.new.told.state ≡ self.old.told.state }
        ensures limits { self.new.limits ≡ self.old.limits }
        ensures host { self.new.host ≡ self.old.host }
    {
        self.diary = self.diary.then(&Note {
            told: &self.told,
            limits: self.limits,
            call,
        });
    }
}

impl<H: Host, S: HasStory> Host for StoryHost<H, S> {
    ghost use Rattle.mmc_story.specs.Story.{host_with};

    ghost view = { λ s. host_with (S.story.outcome s.diary.past) s.told.state s.limits };

    // The driver has told its controller so.
    ghost has_told = { λ s ios. H.has_told s.host ios };

    fn limits(&self) -> Lines {
        self.limits
    }

    fn set_ios(&mut self, ios: Ios) {
        self.host.set_ios(ios);
        self.told = self.told.after(&HostStep::Set(ios));
    }

    fn send(&mut self, command: HostCommand) -> Result<Heard, ResponseFault> {
        let heard = self.host.send(command);
        self.note(Call::Send { command, heard });
        let is_answered = heard.is_ok();
        self.told = self.told.after(&HostStep::Sent {
            command,
            is_answered,
        });
        heard
    }

    fn read_with<D: BlocksMut>(
        &mut self,
        command: HostCommand,
        blocks: &mut D,
    ) -> (Result<Heard, ResponseFault>, Moved<DataIn>) {
        let (heard, came) = self.host.read_with(command, blocks);
        let places = &Seen::of(blocks);
        self.note(Call::ReadWith {
            command,
            heard,
            moved: came,
            places,
        });
        let is_answered = heard.is_ok();
        let sent = self.told.after(&HostStep::Sent {
            command,
            is_answered,
        });
        self.told = sent.after(&HostStep::Read(came));
        (heard, came)
    }

    fn write_with<D: Blocks>(
        &mut self,
        command: HostCommand,
        blocks: &D,
    ) -> (Result<Heard, ResponseFault>, Moved<DataOut>) {
        let (heard, went) = self.host.write_with(command, blocks);
        let offered = &Seen::of(blocks);
        self.note(Call::WriteWith {
            command,
            heard,
            offered,
            moved: went,
        });
        let is_answered = heard.is_ok();
        let sent = self.told.after(&HostStep::Sent {
            command,
            is_answered,
        });
        self.told = sent.after(&HostStep::Written(went));
        (heard, went)
    }

    fn read_block(&mut self, block: &mut [u8]) -> DataIn {
        let length = block.len();
        let got = self.host.read_block(block);
        self.note(Call::ReadBlock { length, got, block });
        let is_good = got == DataIn::Good;
        self.told = self.told.after(&HostStep::Passed { is_good });
        got
    }

    fn write_block(&mut self, block: &[u8; 512]) -> DataOut {
        let got = self.host.write_block(block);
        self.note(Call::WriteBlock { block, got });
        let is_good = got == DataOut::Accepted;
        self.told = self.told.after(&HostStep::Passed { is_good });
        got
    }

    fn is_busy(&mut self, work: Work) -> bool {
        let is_busy = self.host.is_busy(work);
        self.note(Call::Look { is_busy });
        is_busy
    }

    fn pause(&mut self, micros: u32) {
        self.host.pause(micros);
        self.told = self.told.after(&HostStep::Paused(micros));
    }
}
