// Commands and their responses.
ghost use Rattle.std.specs.Prelude.{◌%◌, ◌≡◌, IfSome, None, Some, false, true};
ghost use Rattle.mmc_host.specs.HostStates.{AreMovable};
ghost use Rattle.mmc_host.specs.declared.data.Data.TheVariants.{Nothing};
ghost use Rattle.mmc_sdhci.specs.CommandLooks.{blocks_asked, bytes_shown, command_errors, data_asked};
ghost use Rattle.mmc_sdhci.specs.Commands.{response_flags};
ghost use Rattle.sdhci_model.specs.Moves.{WritesTo};
ghost use Rattle.sdhci_model.specs.Shown.{Fits, command_of};

use crate::state::State;
use mmc_host::{Data, Heard, HostCommand, Response, ResponseFault};
use mmc_sdhci::{has_data, register_in};

/// A command that runs: what its registers held when Command was written.
#[derive(Clone, Copy, Debug, PartialEq, Eq)]
pub struct Run {
    pub index: u8,
    pub argument: u32,
    /// The lower byte of Command.
    pub flags: u8,
    pub transfer: Data,
}

impl Run {
    /// The command as a host is told it, with this response.
    pub fn command(self, response: Response) -> HostCommand
        ensures { result ≡ command_of self response }
    {
        HostCommand {
            index: self.index,
            argument: self.argument,
            response,
            transfer: self.transfer,
        }
    }
}

/// What was heard, and the words of Response that show it.
#[derive(Clone, Copy)]
pub struct Told {
    pub response: Response,
    pub heard: Heard,
    pub words: [u32; 4],
}

// The blocks that Transfer Mode asks for, with Block Count.
fn blocks_asked(sizes: u32, mode: u32) -> u16
    ensures { result ≡ blocks_asked sizes mode }
{
    if mode / 32 % 2 == 0 {
        1
    } else {
        (sizes / 0x1_0000) as u16
    }
}

/// The data that Transfer Mode and Command ask for.
pub fn data_asked(sizes: u32, word: u32) -> Data
    ensures { result ≡ data_asked sizes word }
{
    if word / 0x20_0000 % 2 == 0 {
        Data::Nothing
    } else if word / 16 % 2 == 1 {
        Data::Read {
            length: (sizes % 4096) as u16,
            blocks: blocks_asked(sizes, word),
        }
    } else {
        Data::Write {
            blocks: blocks_asked(sizes, word),
        }
    }
}

/// Whether a controller can move it: 1 to 65,535 blocks of whole words, of 512 bytes at most.
pub fn is_movable(transfer: Data) -> bool
    ensures { result ≡ true → AreMovable transfer }
{
    match transfer {
        Data::Nothing => true,
        Data::Read { length, blocks } => length <= 512 && length % 4 == 0 && blocks >= 1,
        Data::Write { blocks } => blocks >= 1,
    }
}

/// The type of response, by the flags of a command; `None` where no card sends such a one.
pub fn response_in(flags: u8) -> Option<Response>
    ensures { IfSome result (λ response. flags % 32 ≡ response_flags response) }
{
    match flags % 32 {
        0x00 => Some(Response::Nothing),
        0x02 => Some(Response::R3),
        0x09 => Some(Response::R2),
        0x1a => Some(Response::R1),
        _ => None,
    }
}

// The words of a register whose bytes are these, the lowest word first.
fn words_of(bytes: [u8; 15]) -> [u32; 4] {
    let [a, b, c, d, e, f, g, h, i, j, k, l, m, n, o] = bytes;
    [
        u32::from_be_bytes([l, m, n, o]),
        u32::from_be_bytes([h, i, j, k]),
        u32::from_be_bytes([d, e, f, g]),
        u32::from_be_bytes([0, a, b, c]),
    ]
}

// What Response shows of a register. That it does is tried and not proved, so there is a `None` that never comes.
fn words_showing(bytes: [u8; 15]) -> Option<[u32; 4]>
    ensures { IfSome result (λ words. bytes_shown words ≡ bytes) }
{
    let words = words_of(bytes);
    if register_in(words) == bytes {
        Some(words)
    } else {
        None
    }
}

/// What Response shows of what was heard; `None` where it is no such response.
pub fn words_in(response: Response, heard: Heard) -> Option<[u32; 4]>
    ensures { IfSome result (λ words. Fits response heard words) }
{
    match (response, heard) {
        (Response::Nothing, _) => Some([0; 4]),
        (Response::R1 | Response::R3, Heard::Word(word)) => Some([word, 0, 0, 0]),
        (Response::R2, Heard::Register(bytes)) => words_showing(bytes),
        _ => None,
    }
}

/// The interrupts that tell that no response was heard: the error of the command, and Error Interrupt.
pub fn bits_of(fault: ResponseFault) -> u32
    ensures { command_errors result ≡ 0 → ⊥ }
{
    match fault {
        ResponseFault::Timeout => 0x0001_8000,
        ResponseFault::Check => 0x0002_8000,
        ResponseFault::EndBit => 0x0004_8000,
        ResponseFault::Index => 0x0008_8000,
    }
}

impl State {
    /// Block Size and Block Count are written.
    pub fn set_sizes(&mut self, value: u32)
        ensures { WritesTo self.old 0x04 value self.new }
    {
        self.sizes = value;
    }

    /// Argument is written.
    pub fn set_argument(&mut self, value: u32)
        ensures { WritesTo self.old 0x08 value self.new }
    {
        self.argument = value;
    }

    /// Transfer Mode and Command are written: the command runs.
    pub fn begin(&mut self, value: u32)
        ensures { WritesTo self.old 0x0c value self.new }
    {
        self.running = Some(Run {
            index: (value / 0x100_0000 % 64) as u8,
            argument: self.argument,
            flags: (value / 0x1_0000 % 256) as u8,
            transfer: data_asked(self.sizes, value),
        });
        self.is_stale = self.is_stale || has_data(self.transfer);
        self.sdma_address = None;
        self.is_moving = value % 2 == 1;
    }

    /// The command that ran is over.
    pub fn complete(&mut self, words: [u32; 4], transfer: Data)
        ensures { self.new ≡ record self.old { running = None; response = words; status = 1; transfer = transfer } }
    {
        self.running = None;
        self.response = words;
        self.status = 1;
        self.transfer = transfer;
    }

    /// The command that ran has failed.
    pub fn fail_command(&mut self, bits: u32)
        ensures { self.new ≡ record self.old { running = None; status = bits; is_stuck = true; transfer = Nothing } }
    {
        self.running = None;
        self.status = bits;
        self.is_stuck = true;
        self.transfer = Data::Nothing;
    }

    /// Software Reset For CMD Line, by which the command that ran is lost.
    pub fn drop_command(&mut self)
        ensures { self.new ≡ record self.old {
          running = None;
          status = 0xffffffff;
          is_stuck = false;
          transfer = Nothing;
          resetting = Some 0;
        } }
    {
        self.running = None;
        self.status = 0xffff_ffff;
        self.is_stuck = false;
        self.transfer = Data::Nothing;
        self.resetting = Some(0);
    }
}
