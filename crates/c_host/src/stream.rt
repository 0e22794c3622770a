// A stream with a number: records go to C, and answers come from it. A block goes and comes as it is: no record has its length.
// `c/kelifandro.c` has the other end.
ghost use Rattle.std.specs.Prelude.{◌≡◌, ◌∷◌, [], length};
ghost use Rattle.std.specs.Int.{from_le_bytes, to_le_bytes, w32, w64};
ghost use Rattle.c_host.specs.Talk.Talk.{Asked, Came, Told};
ghost use Rattle.c_host.specs.Talk.{last_answer};
ghost use Rattle.c_host.specs.Records.{command_record, failed_by, good_by};
ghost use Rattle.c_host.specs.Records.{heard_by, ios_record, is_word, moved_by};
ghost use Rattle.c_host.specs.Records.{after_record, power_record, refused_by, touched_by, with_record};
ghost use Rattle.c_host.specs.Told.{TellsCommand, TellsIos, TellsLook, TellsPause, TellsPort, TellsRead, TellsReadWith, TellsWait, TellsWrite};
ghost use Rattle.c_host.specs.Told.{TellsWriteWith};
ghost use Rattle.c_host.specs.Lending.{back_record, lending_record, with_lines};
ghost use Rattle.mmc_sdhci.specs.Tables.{bytes_of, lines_for};
ghost use Rattle.mmc_host.specs.Hosts.{unkept_host};
ghost use Rattle.mmc_host.specs.Together.{ReadsWith, WritesWith};
ghost use Rattle.mmc_card.specs.declared.response.Response.TheVariants.{R1};

use crate::diary::{Call, Diary, Note};
use crate::lending::Lent;
use crate::records::{
    AFTER, Answer, LEND_TABLE, LOOK, PAUSE, POWER, READ_REGISTER, READ_WITH, WRITE_REGISTER,
    WRITE_WITH, back_record, command_record, failed_by, good_by, heard_by, ios_record, is_word,
    lending_record, moved_by, refused_by, status_by, touched_by, wait_record,
};
use mmc_bus::{BlocksMut, Moved};
use mmc_card::{DataIn, DataOut};
use mmc_host::{Data, Heard, HostCommand, Ios, Response, ResponseFault};
use mmc_sdhci::{Line, Table};

/// A stream, with a diary of what went over it, which exists only in proofs.
///
/// Nothing can bind the diary to the stream, so `tell`, `ask` and `take` are to be read: each writes the record that it notes, and
/// notes the bytes that were read.
#[derive(Drop)]
pub struct Stream {
    /// Its number, by which C tells the calls apart that are made at the same time.
    pub number: i32,
    /// What went over it.
    pub diary: Diary,
}

impl Stream {
    /// The stream with this number, over which nothing has gone.
    pub fn new(number: i32) -> Stream
        ensures number { result.number ≡ number }
        ensures past { result.diary.past ≡ [] }
    {
        Stream {
            number,
            diary: Diary::new(),
        }
    }

    // Puts a record.
    fn tell(&mut self, put: &[u8])
        ensures past { self.new.diary.past ≡ Told put.now ∷ self.old.diary.past }
        ensures same { self.new.number ≡ self.old.number }
    {
        let _ = io::write_all(self.number, put);
        self.diary = self.diary.then(&Note {
            call: Call::Tell { put },
        });
    }

    // Puts a record, and takes as many bytes as there is room for; where fewer come the others stay.
    fn ask(&mut self, put: &[u8], answer: &mut [u8])
        ensures past { self.new.diary.past ≡ Asked put.now answer.new ∷ self.old.diary.past }
        ensures length { length answer.new ≡ length answer.old }
        ensures same { self.new.number ≡ self.old.number }
    {
        let _ = io::write_all(self.number, put);
        let _ = io::read_full(self.number, answer);
        self.diary = self.diary.then(&Note {
            call: Call::Ask { put, answer },
        });
    }

    // Takes what comes of a block, and tells how many bytes.
    fn take(&mut self, bytes: &mut [u8]) -> usize
        ensures past { self.new.diary.past ≡ Came result bytes.new ∷ self.old.diary.past }
        ensures length { length bytes.new ≡ length bytes.old }
        ensures same { self.new.number ≡ self.old.number }
    {
        let count = io::read_full(self.number, bytes);
        self.diary = self.diary.then(&Note {
            call: Call::Take { count, bytes },
        });
        count
    }

    /// Sends a command, and takes its response.
    pub fn send(&mut self, command: HostCommand) -> Result<Heard, ResponseFault>
        ensures told { TellsCommand command result self.old.diary.past self.new.diary.past }
        ensures same { self.new.number ≡ self.old.number }
    {
        let mut answer = [0; 24];
        self.ask(&command_record(command), &mut answer);
        heard_by(command.response, &answer)
    }

    /// Sends a command, takes its response, and the blocks that C has read with it into their places.
    pub fn read_with<D: BlocksMut>(
        &mut self,
        command: HostCommand,
        blocks: &mut D,
    ) -> (Result<Heard, ResponseFault>, Moved<DataIn>)
        ensures reads { ReadsWith D.blocks D.with unkept_host command blocks.old result.0 result.1 blocks.new unkept_host }
        ensures tells { TellsReadWith command (D.blocks blocks.new) result.0 result.1 self.old.diary.past self.new.diary.past }
        ensures same { self.new.number ≡ self.old.number }
    {
        let count = blocks.len();
        let answer = self.send_with(READ_WITH, command, count);
        let heard = heard_by(command.response, &answer);
        let moved = moved_by(failed_by(answer[18]), good_by(&answer), count);
        let touched = touched_by(moved, count);
        let mut done = 0;
        while done < touched {
            let piece = blocks.blocks_mut(done, touched - done);
            let some = piece.len() / 512;
            let _ = self.take(piece);
            done += some;
        }
        (heard, moved)
    }

    /// Sends a command that has an R1, takes its response, and tells what C has written of the blocks with it. Where no response was
    /// heard none was.
    pub fn write_with<D: mmc_bus::Blocks>(
        &mut self,
        command: HostCommand,
        blocks: &D,
    ) -> (Result<Heard, ResponseFault>, Moved<DataOut>)
        requires { command.response ≡ R1 }
        ensures writes { WritesWith unkept_host command (D.blocks blocks.now) result.0 result.1 unkept_host }
        ensures tells { TellsWriteWith command (length (D.blocks blocks.now)) result.0 result.1 self.old.diary.past
            self.new.diary.past }
        ensures same { self.new.number ≡ self.old.number }
    {
        let count = blocks.len();
        let answer = self.send_with(WRITE_WITH, command, count);
        let heard = heard_by(command.response, &answer);
        if !is_word(heard) {
            return (heard, Moved::Good(0));
        }
        (
            heard,
            moved_by(refused_by(answer[18]), good_by(&answer), count),
        )
    }

    // Sends a command with so many blocks after it, and takes the answer: of its response, how many blocks C moved, and what became of
    // one that failed.
    fn send_with(&mut self, operation: u8, command: HostCommand, count: usize) -> Answer
        ensures told { self.new.diary.past ≡ Asked (with_record operation command count) result ∷ self.old.diary.past }
        ensures same { self.new.number ≡ self.old.number }
    {
        let [_, index, response, direction, a, b, c, d, e, f, g, h] = command_record(command);
        let [i, j, ..] = count.to_le_bytes();
        let mut answer = [0; 24];
        self.ask(
            &[
                operation, index, response, direction, a, b, c, d, e, f, g, h, i, j,
            ],
            &mut answer,
        );
        answer
    }

    /// Reads a block: a good one comes whole, a bad one as a single byte.
    pub fn read_block(&mut self, block: &mut [u8]) -> DataIn
        ensures told { TellsRead (length block.old) result block.new self.old.diary.past self.new.diary.past }
        ensures same { self.new.number ≡ self.old.number }
    {
        let length = block.len();
        let came = self.take(block);
        if came == length {
            DataIn::Good
        } else if came == 0 {
            DataIn::Nothing
        } else {
            DataIn::Bad
        }
    }

    /// Writes a block.
    pub fn write_block(&mut self, block: &[u8; 512]) -> DataOut
        ensures told { TellsWrite block.now result self.old.diary.past self.new.diary.past }
        ensures same { self.new.number ≡ self.old.number }
    {
        let mut answer = [2, 0, 0, 0];
        self.ask(block, &mut answer);
        status_by(answer)
    }

    /// Whether the card is busy after so many microseconds.
    pub fn is_busy(&mut self, micros: u32) -> bool
        ensures told { TellsLook micros result self.old.diary.past self.new.diary.past }
        ensures same { self.new.number ≡ self.old.number }
    {
        let [a, b, c, d] = micros.to_le_bytes();
        let mut answer = [0; 4];
        self.ask(&[LOOK, a, b, c, d], &mut answer);
        u32::from_le_bytes(answer) != 0
    }

    /// Sets lines, timing and clock.
    pub fn set_ios(&mut self, ios: Ios)
        ensures told { TellsIos ios self.old.diary.past self.new.diary.past }
        ensures same { self.new.number ≡ self.old.number }
    {
        self.tell(&ios_record(ios));
    }

    /// Switches the card's power.
    pub fn set_power(&mut self, is_on: bool)
        ensures told { self.new.diary.past ≡ Told (power_record is_on) ∷ self.old.diary.past }
        ensures same { self.new.number ≡ self.old.number }
    {
        self.tell(&[POWER, u8::from(is_on)]);
    }

    /// Goes on with a request's memory after so many sectors.
    pub fn go_on_after(&mut self, count: u32)
        ensures told { self.new.diary.past ≡ Told (after_record count) ∷ self.old.diary.past }
        ensures same { self.new.number ≡ self.old.number }
    {
        let [a, b, c, d] = count.to_le_bytes();
        self.tell(&[AFTER, a, b, c, d]);
    }

    /// Waits for so many microseconds.
    pub fn pause(&mut self, micros: u32)
        ensures told { TellsPause micros self.old.diary.past self.new.diary.past }
        ensures same { self.new.number ≡ self.old.number }
    {
        let [a, b, c, d] = micros.to_le_bytes();
        self.tell(&[PAUSE, a, b, c, d]);
    }

    /// Waits for one of these bits of Interrupt Status, or so many microseconds.
    pub fn wait(&mut self, interrupts: u32, micros: u32)
        ensures told { TellsWait interrupts micros self.old.diary.past self.new.diary.past }
        ensures same { self.new.number ≡ self.old.number }
    {
        self.tell(&wait_record(interrupts, micros));
    }

    /// Reads a register of so many bytes, 1 or 4.
    pub fn read_register(&mut self, size: u8, offset: u8) -> u32
        ensures told { let past = self.new.diary.past in
            past ≡ Asked (8 ∷ size ∷ offset ∷ []) (last_answer past) ∷ self.old.diary.past }
        ensures read { result ≡ from_le_bytes w32 (last_answer self.new.diary.past) }
        ensures same { self.new.number ≡ self.old.number }
    {
        let mut answer = [0; 4];
        self.ask(&[READ_REGISTER, size, offset], &mut answer);
        u32::from_le_bytes(answer)
    }

    /// Writes a register of so many bytes, 1 or 4.
    pub fn write_register(&mut self, size: u8, offset: u8, value: u32)
        ensures told { self.new.diary.past ≡ Told (9 ∷ size ∷ offset ∷ to_le_bytes w32 value) ∷ self.old.diary.past }
        ensures same { self.new.number ≡ self.old.number }
    {
        let [a, b, c, d] = value.to_le_bytes();
        self.tell(&[WRITE_REGISTER, size, offset, a, b, c, d]);
    }

    /// Reads a block from the Buffer Data Port.
    pub fn read_port(&mut self, block: &mut [u8])
        ensures length { length block.new ≡ length block.old }
        ensures tells { TellsPort block.new self.old.diary.past self.new.diary.past }
        ensures same { self.new.number ≡ self.old.number }
    {
        let _ = self.take(block);
    }

    /// Asks for memory for so many blocks, to be written to or read, and tells its bus address, 0 where there is none.
    pub fn lend(&mut self, is_room: bool, count: usize) -> u64
        ensures told { let past = self.new.diary.past in
            past ≡ Asked (lending_record is_room count) (last_answer past) ∷ self.old.diary.past }
        ensures address { result ≡ from_le_bytes w64 (last_answer self.new.diary.past) }
        ensures same { self.new.number ≡ self.old.number }
    {
        let mut answer = [0; 8];
        self.ask(&lending_record(is_room, count), &mut answer);
        u64::from_le_bytes(answer)
    }

    // Tells a line of a table, as it is: no record begins with its attributes.
    fn tell_line(&mut self, line: Line)
        ensures told { self.new.diary.past ≡ Told (bytes_of line) ∷ self.old.diary.past }
        ensures same { self.new.number ≡ self.old.number }
    {
        match line {
            Line::Narrow(bytes) => self.tell(&bytes),
            Line::Wide(bytes) => self.tell(&bytes),
        }
    }

    /// Tells the lines of a descriptor table, asks for its memory, and tells its bus address, 0 where there is none.
    pub fn lend_table(&mut self, table: &Table) -> u64
        ensures told { let past = self.new.diary.past in
            past ≡ Asked (18 ∷ []) (last_answer past) ∷ with_lines table.now (lines_for table.now.size) self.old.diary.past }
        ensures address { result ≡ from_le_bytes w64 (last_answer self.new.diary.past) }
        ensures same { self.new.number ≡ self.old.number }
    {
        for i in 0..table.len() {
            self.tell_line(table.line(i));
        }
        let mut answer = [0; 8];
        self.ask(&[LEND_TABLE], &mut answer);
        u64::from_le_bytes(answer)
    }

    /// Tells that this is taken back, which was lent.
    pub fn take_back(&mut self, lent: Lent)
        ensures told { self.new.diary.past ≡ Told (back_record lent) ∷ self.old.diary.past }
        ensures same { self.new.number ≡ self.old.number }
    {
        self.tell(&back_record(lent));
    }

    /// Takes blocks that have come into their places, which were lent.
    pub fn take_places(&mut self, blocks: &mut [u8])
        ensures tells { TellsPort blocks.new self.old.diary.past self.new.diary.past }
        ensures length { length blocks.new ≡ length blocks.old }
        ensures same { self.new.number ≡ self.old.number }
    {
        let _ = self.take(blocks);
    }

    /// Writes a block to the Buffer Data Port.
    pub fn write_port(&mut self, block: &[u8; 512])
        ensures told { self.new.diary.past ≡ Told block.now ∷ self.old.diary.past }
        ensures same { self.new.number ≡ self.old.number }
    {
        self.tell(block);
    }
}
