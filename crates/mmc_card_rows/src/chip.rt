// The card in memory: where it is, what it remembers, and what it does with a command.
ghost use Rattle.std.specs.Prelude.{◌&&◌, ◌*◌, ◌/◌, ◌<◌, ◌^◌, ◌≡◌, ◌≤◌, false, if◌then◌else◌};
ghost use Rattle.mmc_frame.specs.Status.{bits_in, state_number};
ghost use Rattle.mmc_card.specs.Card.{AreAmong, patience};
ghost use Rattle.mmc_card.specs.ErrorBits.{command_error_bits, error_bits, execution_error_bits};
ghost use Rattle.mmc_card.specs.Made.{erase_unit_of_card, first_rca, is_read_only, is_sd, named_block_length};
ghost use Rattle.mmc_card_rows.specs.Registers.{made_of};

use crate::answer::Answer;
use crate::command::command_of;
use crate::delays::Delays;
use crate::fault::FIRST_ERROR;
use crate::registers::Registers;
use crate::status_bits::bits_if;
use crate::store::Store;
use arrayvec::ArrayVec;
use bitflags::Flags;
use mmc_card::{Command, Part, Timing, Width, is_addressed, leaves_erase};
use mmc_frame::{Kind, State, Status, read_command};

/// How often at most the card says without a fault that it isn't ready, and in one busy time that it is busy or at work.
pub const PATIENCE: u8 = 15;

// CURRENT_STATE in a status, from bit 9 on.
const CURRENT_STATE: u32 = 0x200;

/// The addresses that an erase is to go by.
#[derive(Clone, Copy, Debug)]
pub enum Addresses {
    /// No address.
    None,
    /// That of CMD32 or CMD35.
    First(u32),
    /// That, and the one of CMD33 or CMD36.
    Both(u32, u32),
}

/// What the card sends to a host that reads.
#[derive(Debug, Drop)]
pub enum Source {
    /// Sectors.
    Sectors,
    /// This block alone, and then it has this timing.
    Block(ArrayVec<u8, 512>, Timing),
}

/// A card as it is.
#[derive(Debug, Drop)]
pub struct Chip {
    /// Its registers.
    pub registers: Registers,
    /// The erase unit in sectors, as the registers say it, read once.
    pub erase_unit: usize,
    /// Whether they say that it is write protected.
    pub is_protected: bool,
    /// The block length that they name, in bytes.
    pub named_length: u32,
    /// Its sectors, and what is unfinished in them.
    pub store: Store,
    /// Its state.
    pub state: State,
    /// Its RCA.
    pub rca: u16,
    /// The partition that is accessed.
    pub part: Part,
    /// How many lines it uses.
    pub width: Width,
    /// Its timing.
    pub timing: Timing,
    /// Byte 175 of the EXT_CSD.
    pub erase_group_def: u8,
    /// The block length in bytes.
    pub block_length: u32,
    /// The count that CMD23 has preset for the next command; 0 is none.
    pub count: u32,
    /// Whether the next command is an application command.
    pub is_app: bool,
    /// The addresses that an erase is to go by.
    pub addresses: Addresses,
    /// COM_CRC_ERROR and ILLEGAL_COMMAND, as far as the status is to show them.
    pub command_errors: u32,
    /// So the other error bits of the status, from bit 13 on.
    pub errors: u32,
    /// So SWITCH_ERROR.
    pub has_switch_error: bool,
    /// Whether an SD card has accepted a CMD8 since CMD0.
    pub has_accepted_cmd8: bool,
    /// How many readiness inquiries have come since CMD0, counted up to 15.
    pub inquiries: u8,
    /// Whether it is busy.
    pub is_busy: bool,
    /// How many polls of this busy time were answered yes, counted up to 15.
    pub polled: u8,
    /// Whether its programming or a transfer has ended, or it was selected, and its statuses may lag behind.
    pub lags: bool,
    /// What it sends.
    pub source: Source,
    /// The next sector that it sends.
    pub next: usize,
    /// How many blocks are to come; of an uncounted transfer none.
    pub left: Option<u32>,
    /// Whether the transfer is one of a single block.
    pub is_single: bool,
    /// Whether it programs a switch by CMD6 of eMMC.
    pub is_switching: bool,
    pub ghost unit: { erase_unit ≡ erase_unit_of_card (made_of registers) },
    pub ghost some_unit: { 1 ≤ erase_unit },
    pub ghost small_unit: { erase_unit ≤ 2 ^ 20 },
    pub ghost protected: { is_protected ≡ is_read_only (made_of registers) },
    pub ghost named: { named_length ≡ named_block_length (made_of registers) },
    pub ghost ocr: { registers.ocr < 2 ^ 31 },
    pub ghost known: { AreAmong command_errors (2 ^ 13 * command_error_bits) },
    pub ghost raised: { AreAmong errors (2 ^ 13 * error_bits) },
    pub ghost asked: { inquiries ≤ patience },
    pub ghost waited: { polled ≤ patience },
}

/// The number of a state in a status.
pub fn number_of(state: State) -> u32
    ensures { result ≡ state_number state }
{
    match state {
        State::Idle => 0,
        State::Ready => 1,
        State::Ident => 2,
        State::Stby => 3,
        State::Tran => 4,
        State::Data => 5,
        State::Rcv => 6,
        State::Prg => 7,
        State::Dis => 8,
    }
}

/// The RCA while none was published or assigned: 0 of SD, 1 of eMMC.
pub fn first_rca(kind: Kind) -> u16
    ensures { result ≡ first_rca kind }
{
    match kind {
        Kind::Sd => 0,
        Kind::Mmc => 1,
    }
}

// The block length after power on, by the one that the registers name.
fn first_block_length(kind: Kind, named_length: u32) -> u32
    ensures { result ≡ (if is_sd kind then 512 else named_length) }
{
    match kind {
        Kind::Sd => 512,
        Kind::Mmc => named_length,
    }
}

impl Chip {
    ghost use Rattle.mmc_frame.specs.Frame.{command_in};
    ghost use Rattle.mmc_card.specs.CardAnswer.{Checked, Silent, done, raised, refused, shown, status};
    ghost use Rattle.mmc_card.specs.Card.{is_identified, is_in, powered_on};
    ghost use Rattle.mmc_card_rows.specs.Chip.{Answers, card_of, choice_of, command_choice};
    ghost use Rattle.mmc_card_rows.specs.Store.{parts_of, values_of};
    ghost use Rattle.std.specs.Prelude.{[], None};
    ghost use Rattle.mmc_card.specs.Rows.{answered, hindered, is_foreign, is_legal, obeyed, reached, respond, row};
    ghost use Rattle.mmc_card.specs.RowsSwitch.{switch_row};
    ghost use Rattle.mmc_card.specs.declared.command.Command.TheVariants.{Switch};

    /// A card after power on. What its registers say is given beside them: the erase unit in sectors, write protection,
    /// and the block length that they name, in bytes.
    pub fn powered_on(
        registers: Registers,
        erase_unit: usize,
        is_protected: bool,
        named_length: u32,
        store: Store,
    ) -> Chip
        requires unit { erase_unit ≡ erase_unit_of_card (made_of registers) }
        requires some_unit { 1 ≤ erase_unit }
        requires small_unit { erase_unit ≤ 2 ^ 20 }
        requires protected { is_protected ≡ is_read_only (made_of registers) }
        requires named_length { named_length ≡ named_block_length (made_of registers) }
        requires ocr { registers.ocr < 2 ^ 31 }
        requires start { store.start ≡ 0 }
        requires values { values_of store ≡ [] }
        ensures card { card_of result ≡ powered_on (made_of registers) (parts_of store) }
    {
        let kind = registers.kind();
        Chip {
            rca: first_rca(kind),
            registers,
            erase_unit,
            is_protected,
            named_length,
            store,
            state: State::Idle,
            part: Part::User,
            width: Width::One,
            timing: Timing::Default,
            erase_group_def: 0,
            block_length: first_block_length(kind, named_length),
            count: 0,
            is_app: false,
            addresses: Addresses::None,
            command_errors: 0,
            errors: 0,
            has_switch_error: false,
            has_accepted_cmd8: false,
            inquiries: 0,
            is_busy: false,
            polled: 0,
            lags: false,
            source: Source::Sectors,
            next: 0,
            left: None,
            is_single: false,
            is_switching: false,
        }
    }

    /// Whether the card is in this state.
    pub fn is_in(&self, state: State) -> bool
        ensures { result ≡ is_in self.now.state state }
    {
        number_of(self.state) == number_of(state)
    }

    /// The card status.
    #[tactic(auto, using(crate::proofs::ChipLemmas::command_errors_few, crate::proofs::ChipLemmas::errors_few))]
    pub fn status(&self, is_app: bool) -> u32
        ensures { result ≡ status is_app (card_of self.now) }
    {
        self.command_errors
            + self.errors
            + bits_if(Status::CARD_IS_LOCKED, self.registers.is_locked)
            + CURRENT_STATE * number_of(self.state)
            + bits_if(Status::READY_FOR_DATA, !self.is_busy)
            + bits_if(Status::SWITCH_ERROR, self.has_switch_error)
            + bits_if(Status::APP_CMD, is_app)
    }

    /// Raises error bits, which stay until they are shown.
    pub fn raise(&mut self, errors: Status)
        requires { AreAmong (bits_in errors) (2 ^ 13 * error_bits) }
        ensures { card_of self.new ≡ raised (bits_in errors / 2 ^ 13) (card_of self.old) }
    {
        self.raise_bits(errors.bits());
    }

    /// Raises error bits by their places in a status.
    #[tactic(auto, using(mmc_card::proofs::Cards::among_more, crate::proofs::ChipLemmas::or_held))]
    pub fn raise_bits(&mut self, bits: u32)
        requires { AreAmong bits (2 ^ 13 * error_bits) }
        ensures { card_of self.new ≡ raised (bits / 2 ^ 13) (card_of self.old) }
    {
        self.errors |= bits;
    }

    /// All error bits are shown in a response, and cleared.
    pub fn clear_errors(&mut self)
        ensures { card_of self.new ≡ shown (card_of self.old) }
    {
        self.finish();
        self.errors = 0;
        self.has_switch_error = false;
    }

    /// The response with the status, in which all error bits are shown and cleared.
    pub fn respond_status(&mut self, index: u8, is_app: bool) -> Answer
        requires { index < 64 }
        ensures { Answers (shown (card_of self.old), Checked index (status is_app (card_of self.old))) self.new result }
    {
        let argument = self.status(is_app);
        self.clear_errors();
        Answer::Checked { index, argument }
    }

    /// A command is carried out that has no status in its response.
    pub fn finish(&mut self)
        ensures { card_of self.new ≡ done (card_of self.old) }
    {
        self.is_app = false;
        self.count = 0;
        self.command_errors = 0;
        self.lags = false;
    }

    /// A command that isn't carried out.
    #[tactic(auto, using(mmc_card::proofs::Cards::among_more, crate::proofs::ChipLemmas::or_held))]
    pub fn refuse(&mut self) -> Answer
        ensures { Answers (refused (card_of self.old), Silent) self.new result }
    {
        self.is_app = false;
        self.count = 0;
        self.command_errors |= Status::ILLEGAL_COMMAND.bits();
        Answer::Silent
    }

    // Any command but those of the erase sequence and CMD13 drops held addresses.
    #[tactic(auto, using(mmc_card::proofs::Cards::among_more, crate::proofs::ChipLemmas::or_held))]
    fn drop_erase_addresses(&mut self, command: Command)
        ensures card { card_of self.new ≡ reached (choice_of false) command (card_of self.old) }
        ensures inquiries { self.new.inquiries ≡ self.old.inquiries }
        ensures polled { self.new.polled ≡ self.old.polled }
        ensures registers { self.new.registers ≡ self.old.registers }
    {
        if leaves_erase(command) || matches!(self.addresses, Addresses::None) {
            return;
        }
        self.errors |= Status::ERASE_RESET.bits();
        self.addresses = Addresses::None;
    }

    // Whether the card has its RCA.
    fn is_identified(&self) -> bool
        ensures { result ≡ is_identified self.now.state }
    {
        number_of(self.state) >= 3 && !self.is_in(State::Dis)
    }

    /// Whether the card's state and registers let a command be carried out.
    pub fn is_legal(&self, command: Command) -> bool
        ensures { result ≡ is_legal command (card_of self.now) }
    {
        match command {
            Command::GoIdleState => true,
            Command::SendOpCond | Command::SdSendOpCond => self.is_in(State::Idle),
            Command::AllSendCid => self.is_in(State::Ready),
            Command::SendRelativeAddr => self.is_in(State::Ident) || self.is_in(State::Stby),
            Command::SetRelativeAddr => {
                matches!(self.registers.kind(), Kind::Mmc) && self.is_in(State::Ident)
            }
            Command::SelectCard | Command::SendCsd => self.is_in(State::Stby),
            Command::SendIfCond => self.is_in(State::Idle) && self.registers.answers_cmd8(),
            Command::StopTransmission => {
                self.is_in(State::Tran) || self.is_in(State::Data) || self.is_in(State::Rcv)
            }
            Command::SendStatus => self.is_identified() && !self.is_app,
            Command::SetBlockCount => self.is_in(State::Tran) && self.registers.has_cmd23(),
            Command::SwitchFunc => self.is_in(State::Tran) && self.registers.has_switch_function(),
            Command::AppCmd => {
                matches!(self.registers.kind(), Kind::Sd)
                    && (self.is_in(State::Idle) || self.is_identified())
            }
            Command::Unknown => false,
            _ => self.is_in(State::Tran),
        }
    }

    // Carries a command out.
    fn carry_out(&mut self, delays: Delays, command: Command, index: u8, argument: u32) -> Answer
        requires { index < 64 }
        ensures { Answers (row (command_choice delays (card_of self.old)) command (card_of self.old) index argument)
            self.new result }
    {
        match command {
            Command::GoIdleState => self.go_idle_state(delays),
            Command::SendOpCond => self.send_op_cond(delays),
            Command::SdSendOpCond => self.sd_send_op_cond(delays, argument),
            Command::AllSendCid => self.all_send_cid(),
            Command::SendRelativeAddr => self.send_relative_addr(delays),
            Command::SetRelativeAddr => self.set_relative_addr(argument),
            Command::SelectCard => self.select_card(),
            Command::SendIfCond => self.send_if_cond(argument),
            Command::SendExtCsd => self.send_ext_csd(delays),
            Command::SendCsd => self.send_csd(),
            Command::StopTransmission => self.stop_transmission(delays),
            Command::SendStatus => self.send_status(delays),
            Command::SetBlocklen => self.set_blocklen(argument),
            Command::ReadSingleBlock => self.read_single_block(argument),
            Command::ReadMultipleBlock => self.read_multiple_block(argument),
            Command::SetBlockCount => self.set_block_count(argument),
            Command::WriteBlock => self.write_block(argument),
            Command::WriteMultipleBlock => self.write_multiple_block(argument),
            Command::EraseStart => self.hold_first(index, argument),
            Command::EraseEnd => self.hold_last(index, argument),
            Command::Erase => self.erase(argument),
            Command::Switch => self.switch_byte(argument),
            Command::SwitchFunc => self.switch_func(delays, argument),
            Command::SetBusWidth => self.set_bus_width(argument),
            Command::SendScr => self.send_scr(),
            Command::AppCmd => self.app_cmd(),
            Command::Unknown => self.refuse(),
        }
    }

    // A command isn't carried out, and its response shows these errors, in units of bit 13.
    #[tactic(auto, using(crate::proofs::ChipLemmas::found_few, crate::proofs::ChipLemmas::found_known))]
    fn hinder(&mut self, found: u32, index: u8) -> Answer
        requires index { index < 64 }
        requires execution { AreAmong found execution_error_bits }
        ensures { Answers (hindered found (card_of self.old) index) self.new result }
    {
        self.raise_bits(FIRST_ERROR * found);
        self.respond_status(index, false)
    }

    // A legal command of the card: it is carried out, or finds an error.
    fn obey(&mut self, delays: Delays, command: Command, index: u8, argument: u32) -> Answer
        requires { index < 64 }
        ensures { Answers (obeyed (command_choice delays (card_of self.old)) command (card_of self.old) index argument)
            self.new result }
    {
        let found = delays.found(command);
        if found == 0 {
            self.carry_out(delays, command, index, argument)
        } else {
            self.hinder(found, index)
        }
    }

    /// Whether a command names another card.
    pub fn is_foreign(&self, command: Command, argument: u32) -> bool
        ensures { result ≡ is_foreign command (card_of self.now) argument }
    {
        is_addressed(command) && argument / 0x1_0000 != u32::from(self.rca)
    }

    // The answer to a sound command. One that names another card changes nothing.
    fn respond(&mut self, delays: Delays, index: u8, argument: u32) -> Answer
        requires { index < 64 }
        ensures { Answers (respond (command_choice delays (card_of self.old)) (card_of self.old) index argument)
            self.new result }
    {
        let command = command_of(self.registers.kind(), self.is_app, index);
        if self.is_foreign(command, argument) {
            return Answer::Silent;
        }
        let is_legal = self.is_legal(command);
        self.drop_erase_addresses(command);
        if is_legal {
            self.obey(delays, command, index, argument)
        } else {
            self.refuse()
        }
    }

    /// The answer to a switch that fails.
    pub fn fail_switch(&mut self, says_late: bool) -> Answer
        ensures { Answers (switch_row says_late (reached (choice_of false) Switch (card_of self.old)) None) self.new result }
    {
        self.drop_erase_addresses(Command::Switch);
        self.leave_byte(says_late)
    }

    /// The answer to a command. Where the check of the command is wrong, the card notes that, drops a preset count, and is
    /// silent.
    pub fn command(&mut self, delays: Delays, frame: &[u8; 6]) -> Answer
        ensures { Answers (answered (command_choice delays (card_of self.old)) (card_of self.old) (command_in frame.now))
            self.new result }
    {
        match read_command(frame) {
            Some((index, argument)) => self.respond(delays, index, argument),
            None => {
                self.garble();
                Answer::Silent
            }
        }
    }
}
