// What the registers of a controller hold, and what it is at.
ghost use Rattle.std.specs.Prelude.{◌≡◌, None, true};
ghost use Rattle.mmc_host.specs.declared.data.Data.TheVariants.{Nothing};
ghost use Rattle.mmc_sdhci.specs.Controller.{is_still};
ghost use Rattle.mmc_story.specs.Story.{Outcome};
ghost use Rattle.sdhci_model.specs.Shown.{shown};

use crate::commands::Run;
use crate::lent::Loan;
use arrayvec::ArrayVec;
use mmc_host::Data;

/// The registers of a controller, and what it is at.
#[derive(Drop)]
pub struct State {
    /// Capabilities, its first word.
    pub capabilities: u32,
    /// The version of the specification: 0 is 1.00, 1 is 2.00, 2 is 3.00.
    pub version: u8,
    /// Host Control 1.
    pub control: u8,
    /// Power Control.
    pub power: u8,
    /// Clock Control.
    pub clock: u32,
    /// Timeout Control.
    pub timeout: u8,
    /// Normal and Error Interrupt Status Enable.
    pub shown: u32,
    /// The internal clock was set, so many microseconds ago, and hasn't been seen to be stable since.
    pub stabilizing: Option<u64>,
    /// The card starts: it was given power, and since its clock was set it has run for so many
    /// microseconds, which isn't enough yet.
    pub starting: Option<u64>,
    /// Block Size, and Block Count above it.
    pub sizes: u32,
    /// Argument.
    pub argument: u32,
    /// A reset was begun, so many microseconds ago, and hasn't been seen to be over since.
    pub resetting: Option<u64>,
    /// The command that runs.
    pub running: Option<Run>,
    /// Response, the lowest word first.
    pub response: [u32; 4],
    /// Normal Interrupt Status, and Error Interrupt Status above it.
    pub status: u32,
    /// A command has failed, and the command line hasn't been reset since.
    pub is_stuck: bool,
    /// The data that is still to come or to go.
    pub transfer: Data,
    /// Data was broken off, and the data line hasn't been reset since.
    pub is_stale: bool,
    /// The block in `block` has come, and isn't judged yet.
    pub is_unjudged: bool,
    /// The last look at Present State found a block in the buffer, or room for one.
    pub is_ready: bool,
    /// The block that came last.
    pub block: ArrayVec<u8, 512>,
    /// So many bytes of it were taken.
    pub taken: usize,
    /// What is in the buffer of a block that is to go.
    pub outgoing: ArrayVec<u8, 512>,
    /// The bus address of memory that is lent, which is never elsewhere.
    pub memory: u64,
    /// Memory that is lent.
    pub loan: Loan,
    /// The bus address of its descriptor table by addresses of 32 bits.
    pub table: Option<u32>,
    /// And of that by addresses of 64 bits.
    pub wide_table: Option<u64>,
    /// SDMA System Address, as it was written since the last command.
    pub sdma_address: Option<u32>,
    /// ADMA System Address, its lower 32 bits.
    pub address: u32,
    /// Its upper ones.
    pub upper: u32,
    /// The data of the command that was begun last is moved by DMA.
    pub is_moving: bool,
    /// The driver has kept to the rules.
    pub is_sound: bool,
}

impl State {
    /// Before any access: Capabilities and the version, the bus address of memory that will be lent, and no power.
    pub fn new(capabilities: u32, version: u8, memory: u64) -> State
        ensures still { (outcome : Outcome) → is_still (shown outcome result) ≡ true }
        ensures running { result.running ≡ None }
        ensures transfer { result.transfer ≡ Nothing }
        ensures capabilities { result.capabilities ≡ capabilities }
        ensures version { result.version ≡ version }
        ensures sound { result.is_sound ≡ true }
    {
        State {
            capabilities,
            version,
            control: 0,
            power: 0,
            clock: 0,
            timeout: 0,
            shown: 0,
            stabilizing: None,
            starting: None,
            sizes: 0,
            argument: 0,
            resetting: None,
            running: None,
            response: [0; 4],
            status: 0,
            is_stuck: false,
            transfer: Data::Nothing,
            is_stale: false,
            is_unjudged: false,
            is_ready: false,
            block: ArrayVec::new(),
            taken: 0,
            outgoing: ArrayVec::new(),
            memory,
            loan: Loan::Nothing,
            table: None,
            wide_table: None,
            sdma_address: None,
            address: 0,
            upper: 0,
            is_moving: false,
            is_sound: true,
        }
    }
}
