ghost use Rattle.std.specs.Prelude.{[], IfOk, ◌≡◌, false, true};
ghost use Rattle.mmc_host.specs.Hosts.{IsUnused};
ghost use Rattle.mmc_sdhci.specs.Driver.{IsNew};
ghost use Rattle.sdhci_model.specs.Shown.{controller};
ghost use Rattle.sdhci_model.specs.Waiting.{beside_of};

use crate::engine::Engine;
use crate::manner::Manner;
use crate::waited::Waited;
use mmc_bus::Blocks;
use mmc_card::Width;
use mmc_host::Host;
use mmc_sdhci::{Registers, Sdhci, StartFault, Table};
use mmc_story::HasStory;

/// A controller over a host of which nothing is proved, whose answers are noted.
///
/// It is kept as long as the story is true of what was noted, and the driver keeps to the rules of the definition.
#[derive(Drop)]
pub struct Model<D: Host, S: HasStory> {
    engine: Engine<D, S>,
    waited: Waited,
}

impl<D: Host, S: HasStory> Model<D, S> {
    /// A controller with these Capabilities over a host, before any access. Where its driver asks for memory that is lent, that stands at
    /// this bus address; at one that is no multiple of 4, or in the last 4 GiB of 64 bits, none is.
    pub fn new(host: D, capabilities: u32, version: u8, memory: u64, manner: Manner) -> Model<D, S>
        requires { (D.view host).is_kept ≡ false }
        ensures past { result.engine.diary.past ≡ [] }
        ensures capabilities { result.engine.state.capabilities ≡ capabilities }
        ensures version { result.engine.state.version ≡ version }
        ensures new { IsNew (controller S.story result.engine.diary.past result.engine.state) }
        ensures sound { result.engine.state.is_sound ≡ true }
    {
        Model {
            engine: Engine::new(host, capabilities, version, memory, manner),
            waited: Waited::new(),
        }
    }

    /// Whether the driver has kept to the rules so far.
    pub fn is_sound(&self) -> bool
        ensures { result ≡ self.now.engine.state.is_sound }
    {
        self.engine.state.is_sound
    }

    /// How many exchanges there were: commands, blocks and polls, also those that were lost.
    pub fn exchanges(&self) -> u64 {
        self.engine.exchanges
    }

    /// How many commands and blocks were lost by resets.
    pub fn lost(&self) -> u64 {
        self.engine.lost
    }

    /// How many blocks were moved by DMA.
    pub fn moved(&self) -> u64 {
        self.engine.moved
    }

    /// The host.
    pub fn host(&self) -> &D
        ensures { result.now ≡ self.now.engine.host }
    {
        &self.engine.host
    }
}

impl<D: Host, S: HasStory> Registers for Model<D, S> {
    ghost view = { λ s. controller S.story s.engine.diary.past s.engine.state };

    ghost beside = { λ s. beside_of s.waited };

    ghost kept = { λ s. s.engine.manner.kept };

    fn read32(&mut self, offset: u8) -> u32 {
        let value = self.engine.read32(offset);
        match self.waited.read(offset, value) {
            Some(waited) => self.waited = waited,
            None => self.engine.break_off(),
        }
        value
    }

    fn write32(&mut self, offset: u8, value: u32) {
        self.engine.write32(offset, value);
        self.waited = self.waited.written();
    }

    fn read8(&mut self, offset: u8) -> u8 {
        self.engine.read8(offset)
    }

    fn write8(&mut self, offset: u8, value: u8) {
        self.engine.write8(offset, value);
        self.waited = self.waited.written();
    }

    fn lend_room(&mut self, count: usize) -> Option<u64> {
        self.engine.state.lend_room(count)
    }

    fn lend_blocks<B: Blocks>(&mut self, blocks: &B) -> Option<u64> {
        self.engine.state.lend_blocks(blocks)
    }

    fn lend_table(&mut self, table: &Table) -> Option<u64> {
        match self.engine.state.lend_table(table) {
            Some(address) => Some(address),
            None => {
                self.engine.break_off();
                None
            }
        }
    }

    fn take_place(&mut self, index: usize, block: &mut [u8; 512]) {
        if !self.engine.state.is_at_rest() || !self.engine.state.fill(index, block) {
            self.engine.break_off();
        }
    }

    fn take_back(&mut self) {
        if !self.engine.state.take_back() {
            self.engine.break_off();
        }
    }

    fn pause(&mut self, micros: u32) {
        let Some(waited) = self.waited.pause(micros) else {
            self.engine.break_off();
            return;
        };
        self.waited = waited;
        self.engine.pause(micros);
    }

    fn kept_interrupts(&self) -> u32 {
        self.engine.manner.kept
    }

    fn can_wait(&self) -> bool {
        self.engine.manner.line.is_some()
    }

    fn wait(&mut self, interrupts: u32, micros: u32) {
        self.engine.manner.wake();
        self.waited = self.waited.wait(interrupts, micros);
    }
}

/// The driver over such a controller, with memory at this bus address: a host that conforms where the story is true and the driver keeps to the rules.
///
/// # Errors
/// What `Sdhci::new` says.
pub fn driver<D: Host, S: HasStory>(
    host: D,
    capabilities: u32,
    version: u8,
    memory: u64,
    manner: Manner,
) -> Result<Sdhci<Model<D, S>>, (Model<D, S>, StartFault)>
    requires { (D.view host).is_kept ≡ false }
    ensures unused { IfOk result (λ host. IsUnused (⟦<Sdhci<Model<D, S>> as Host>⟧.view host)) }
{
    Sdhci::new(
        Model::new(host, capabilities, version, memory, manner),
        Width::Eight,
    )
}
