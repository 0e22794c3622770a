// Requests of the client that wait for the device, each by its cookie.
ghost use Rattle.std.specs.Prelude.{◌≡◌, ◌≢◌, ◌≤◌, IfErr, IsPermutation, ◌<◌, ◌+◌, ◌++◌, ◌∷◌, [], List, None, OnErr, OnOk, Some, length};
ghost use Rattle.text_out.specs.Writing.{Writes};
ghost use Rattle.mmc_block.specs.Device.{unanswered_of, work_of};
ghost use Rattle.mmc_block.specs.declared.completion.Completion.{Completion};
ghost use Rattle.nbd_messages.specs.Replies.{reply_header};
ghost use Rattle.mmc_block.specs.Execution.{Reply};
ghost use Rattle.mmc_block.specs.Turn.{IsTurn};
ghost use Rattle.mmc_queue.specs.declared.queue.TheConstants.{MAX_WAITING};
ghost use Rattle.nbd_server.specs.Acts.{Act, AreOfParts, AreTurns, answer_bytes, answers_bytes, cookie_under, error_of, reply_to};
ghost use Rattle.nbd_server.specs.Acts.Act.{Asks, Gathers, Turns};
ghost use Rattle.nbd_server.specs.Desk.{AnswersEach, Does, Leads};
ghost use Rattle.nbd_server.specs.Parts.{AreGathered, accepted, gathered};
ghost use Rattle.nbd_messages.specs.declared.error.ReplyError.TheVariants.{Failed};

use crate::answers::{Gathered, keep_all};
use crate::fault::OutputFault;
use arrayvec::ArrayVec;
use mmc_block::{Answer, BlockDev, Completion, Completions, MAX_WAITING, Refused, Request, Ticket};
use mmc_bus::Bus;
use mmc_transfer::Pace;
use nbd_messages::{ReplyError, simple_reply};
use std::alloc::Global;
use std::io::Write;
use std::marker::Model;
use text_out::put::put;

/// A device, and the cookies of the requests that it has accepted since nothing was without an answer: the client number of a
/// request is its place among them.
#[derive(Drop)]
pub struct Desk<B: Bus> {
    device: BlockDev<B>,
    pace: Pace,
    cookies: ArrayVec<u64, MAX_WAITING>,
    given: Completions,
}

impl<B: Bus> Model for Desk<B> {
    ghost use Rattle.nbd_server.specs.Desk.{DeskView, IsKeptDesk};

    ghost Value = { DeskView B };

    ghost view = { λ d. record { device = d.device; cookies = d.cookies.items } };

    ghost invariant = { λ d. IsKeptDesk d.device d.cookies.items d.given.items };
}

// Why a request that the device refuses isn't carried out.
fn error_of(refused: Refused) -> ReplyError
    ensures { result ≡ error_of refused }
{
    match refused {
        Refused::NoSuchPartition
        | Refused::Empty
        | Refused::TooLong
        | Refused::OutOfRange
        | Refused::WrongLength
        | Refused::Unaligned => ReplyError::Invalid,
        Refused::ReadOnly => ReplyError::NotPermitted,
        Refused::NotInPartition | Refused::NoTrim => ReplyError::NotSupported,
        Refused::Full | Refused::NoMemory => ReplyError::NoMemory,
    }
}

/// Writes a reply without data.
pub fn put_reply<W: Write>(
    out: &mut W,
    error: Option<ReplyError>,
    cookie: u64,
) -> Result<(), OutputFault>
    ensures { Writes (W.contents out.old) (W.contents out.new) result (reply_header error cookie) }
{
    put_bytes(out, &simple_reply(error, cookie))
}

/// Writes bytes.
pub fn put_bytes<W: Write>(out: &mut W, bytes: &[u8]) -> Result<(), OutputFault>
    ensures { Writes (W.contents out.old) (W.contents out.new) result bytes.now }
{
    match put(out, bytes) {
        Ok(()) => Ok(()),
        Err(_) => Err(OutputFault),
    }
}

/// Writes a reply with these data.
pub fn put_data<W: Write>(out: &mut W, cookie: u64, bytes: &[u8]) -> Result<(), OutputFault>
    ensures { Writes (W.contents out.old) (W.contents out.new) result (reply_header None cookie ++ bytes.now) }
{
    put_reply(out, None, cookie)?;
    put_bytes(out, bytes)
}

// Writes the reply that an answer is, under this cookie.
fn put_answer<W: Write>(out: &mut W, answer: &Answer, cookie: u64) -> Result<(), OutputFault>
    ensures { Writes (W.contents out.old) (W.contents out.new) result (answer_bytes cookie answer.now) }
{
    match answer {
        Answer::Done => put_reply(out, None, cookie),
        Answer::Failed(_) => put_reply(out, Some(ReplyError::Failed), cookie),
        Answer::Data(bytes) => put_data(out, cookie, bytes.as_slice()),
    }
}

// The cookie of the client with this number.
fn cookie_under(cookies: &[u64], client: u32) -> u64
    ensures { result ≡ cookie_under cookies.now client }
{
    match cookies.get(client as usize) {
        Some(cookie) => *cookie,
        None => 0,
    }
}

// Writes the replies that these are, each under the cookie of its client number.
fn put_answers<W: Write>(
    out: &mut W,
    cookies: &[u64],
    given: &[Completion],
) -> Result<(), OutputFault>
    ensures { Writes (W.contents out.old) (W.contents out.new) result (answers_bytes cookies.now given.now) }
{
    for completion in given {
        let cookie = cookie_under(cookies, completion.client);
        put_answer(out, &completion.answer, cookie)?;
    }
    Ok(())
}

// A turn of the device at this pace.
fn turn_at<B: Bus>(device: &mut BlockDev<B>, pace: Pace, given: &mut Completions)
    requires { given.old.items ≡ [] }
    ensures { IsTurn B.view pace device.old given.new.items device.new }
{
    match pace {
        Pace::Exchange => device.turn_into(given),
        Pace::Transfer => device.long_turn_into(given),
    }
}

impl<B: Bus> Desk<B> {
    /// A desk without a request. Each turn of its device is one exchange.
    pub fn new(device: BlockDev<B>) -> Desk<B>
        requires { unanswered_of device ≡ 0 }
        ensures device { result.device ≡ device }
        ensures cookies { result.cookies ≡ [] }
    {
        Desk {
            device,
            pace: Pace::Exchange,
            cookies: ArrayVec::new(),
            given: ArrayVec::new(),
        }
    }

    /// The same, but that each turn is a command and all blocks that the bus moves with it. No client waits longer for that: it is
    /// answered once its run is done, and what it sends is looked at once nothing is without an answer, at either pace. But the
    /// call of the bus is longer, as long as the blocks of 1,024 sectors take.
    pub fn with_long_turns(device: BlockDev<B>) -> Desk<B>
        requires { unanswered_of device ≡ 0 }
        ensures device { result.device ≡ device }
        ensures cookies { result.cookies ≡ [] }
    {
        Desk {
            device,
            pace: Pace::Transfer,
            cookies: ArrayVec::new(),
            given: ArrayVec::new(),
        }
    }

    /// The device.
    pub fn device(&self) -> &BlockDev<B>
        ensures { result.now ≡ self.now.device }
    {
        &self.device
    }

    /// The bus, for another use of the card.
    pub fn close(self) -> B
        ensures { result ≡ self.device.bus }
    {
        let Desk {
            device,
            pace: _,
            cookies: _,
            given: _,
        } = self;
        device.close()
    }

    // A turn, and the replies that its answers are.
    fn turn<W: Write>(&mut self, out: &mut W) -> Result<(), OutputFault>
        ensures does { (given : List Completion) × Does B.view self.old self.new (W.contents out.old) (W.contents out.new) result (Turns given ∷ []) }
        ensures falls { 0 < work_of self.old.device → work_of self.new.device < work_of self.old.device }
    {
        turn_at(&mut self.device, self.pace, &mut self.given);
        let put = put_answers(out, self.cookies.as_slice(), self.given.as_slice());
        self.given.clear();
        put
    }

    /// Turns until nothing is without an answer.
    pub fn drain<W: Write>(&mut self, out: &mut W) -> Result<(), OutputFault>
        ensures does { (acts : List Act) × AreTurns acts × Does B.view self.old self.new (W.contents out.old) (W.contents out.new) result acts }
        ensures none { OnOk result (unanswered_of self.new.device ≡ 0) }
        ensures cleared { OnOk result (self.new.cookies ≡ []) }
    {
        while self.device.work_left() > 0 {
            self.turn(out)?;
        }
        self.cookies.clear();
        Ok(())
    }

    // Turns until nothing is without an answer, where there is no room for another request.
    fn make_room<W: Write>(&mut self, out: &mut W) -> Result<(), OutputFault>
        ensures does { (acts : List Act) × AreTurns acts × Does B.view self.old self.new (W.contents out.old) (W.contents out.new) result acts }
        ensures room { OnOk result (length self.new.cookies < MAX_WAITING) }
    {
        if self.cookies.is_full() {
            self.drain(out)
        } else {
            Ok(())
        }
    }

    // Submits a request under the next client number, where there is room for its cookie.
    fn submit(&mut self, alloc: Global, cookie: u64, request: Request) -> Result<Ticket, Refused>
        requires { length self.old.cookies < MAX_WAITING }
        ensures leads { Leads B.view self.old (Asks cookie request (reply_to result) ∷ []) self.new }
        ensures once { AnswersEach self.old (Asks cookie request (reply_to result) ∷ []) self.new }
        ensures refused { OnErr result (self.new ≡ self.old) }
    {
        let client = self.cookies.len() as u32;
        match self.device.submit(alloc, client, request) {
            Ok(ticket) => {
                self.cookies.push(cookie);
                Ok(ticket)
            }
            Err((_, refused)) => Err(refused),
        }
    }

    // The same, with a reply where it is refused.
    fn submit_or_reply<W: Write>(
        &mut self,
        alloc: Global,
        cookie: u64,
        request: Request,
        out: &mut W,
    ) -> Result<(), OutputFault>
        requires { length self.old.cookies < MAX_WAITING }
        ensures { (reply : Reply) × Does B.view self.old self.new (W.contents out.old) (W.contents out.new) result (Asks cookie request reply ∷ []) }
    {
        match self.submit(alloc, cookie, request) {
            Ok(_) => Ok(()),
            Err(refused) => put_reply(out, Some(error_of(refused)), cookie),
        }
    }

    /// Submits a request that came under this cookie, or replies why not.
    pub fn ask<W: Write>(
        &mut self,
        alloc: Global,
        cookie: u64,
        request: Request,
        out: &mut W,
    ) -> Result<(), OutputFault>
        ensures { (acts : List Act) × Does B.view self.old self.new (W.contents out.old) (W.contents out.new) result acts
            × OnOk result ((turns : List Act) × (reply : Reply) × AreTurns turns × (acts ≡ turns ++ Asks cookie request reply ∷ [])) }
    {
        self.make_room(out)?;
        self.submit_or_reply(alloc, cookie, request, out)
    }

    /// Submits a part of a long request. Its number is how many parts were accepted before it.
    pub fn ask_part(&mut self, alloc: Global, request: Request) -> Result<(), ReplyError>
        ensures leads { (acts : List Act) × AreOfParts acts × Leads B.view self.old acts self.new × (gathered acts ≡ [])
            × OnOk result (accepted acts ≡ request ∷ []) }
        ensures refused { IfErr result (λ error. error ≢ Failed) }
    {
        if self.cookies.is_full() {
            return Err(ReplyError::NoMemory);
        }
        match self.submit(alloc, 0, request) {
            Ok(_) => Ok(()),
            Err(refused) => Err(error_of(refused)),
        }
    }

    // A turn whose answers are kept with those before it.
    fn gather_turn(&mut self, all: &mut Gathered)
        requires room { length all.old.items + unanswered_of self.old.device ≤ MAX_WAITING }
        ensures leads { (given : List Completion) × Leads B.view self.old (Gathers given ∷ []) self.new
            × IsPermutation (all.old.items ++ given) all.new.items }
        ensures falls { 0 < work_of self.old.device → work_of self.new.device < work_of self.old.device }
        ensures leaves { length all.new.items + unanswered_of self.new.device ≡ length all.old.items + unanswered_of self.old.device }
    {
        turn_at(&mut self.device, self.pace, &mut self.given);
        keep_all(all, &mut self.given);
    }

    /// Turns until nothing is without an answer, and gives the answers.
    pub fn gather(&mut self) -> Gathered
        ensures leads { (acts : List Act) × AreOfParts acts × Leads B.view self.old acts self.new × AreGathered acts result.items }
        ensures none { unanswered_of self.new.device ≡ 0 }
        ensures cleared { self.new.cookies ≡ [] }
    {
        // the struct's invariant: no more are without an answer than there is room for
        let _ = &self.device;
        let mut all = Gathered::new();
        while self.device.work_left() > 0 {
            self.gather_turn(&mut all);
        }
        self.cookies.clear();
        all
    }
}
