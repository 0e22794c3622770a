// Reads a card file.
ghost use Rattle.std.specs.Prelude.{◌≡◌, IfErr, IfOk, length};
ghost use Rattle.card_text.specs.CardFile.{AreCardLines, IsBadCard, IsCardFile, IsLineFault, has_room, is_repeated, kind_in};
ghost use Rattle.card_text.specs.CardFile.{kind_said, may_have, may_stand, plan_of, planned_of_line};
ghost use Rattle.card_text.specs.CardLines.{card_line_of};
ghost use Rattle.card_text.specs.Planning.{CanBePlanned};
ghost use Rattle.card_text.specs.Script.{lines};

use crate::card_line::{CardLine, card_line};
use crate::card_spec::card_spec;
use crate::cut::cut;
use crate::fault::CardFault;
use crate::text_line::Line;
use mmc_card_sim::{CardSpec, Fault, MAX_PLANNED};
use mmc_frame::Kind;
use std::alloc::{AllocError, Global};

/// The most bytes of a card file.
pub const MAX_CARD_FILE: usize = 65_536;

/// What a card file says.
#[derive(Debug, Drop)]
pub struct CardFile {
    /// What the card is built by, without an image.
    pub spec: CardSpec,
    /// The faults that are planned, each with its exchange: at most `MAX_PLANNED`, for different exchanges below 2^64 - 1,
    /// in the order of the file.
    pub plan: Vec<(u64, Fault)>,
}

// The kind that a line gives.
fn kind_said(line: &[u8]) -> Option<Kind>
    ensures { result ≡ kind_said (card_line_of line.now) }
{
    match card_line(line) {
        Line::Says(CardLine::Kind(kind)) => Some(kind),
        _ => None,
    }
}

/// The kind that the first well-formed line `kind` gives.
#[tactic(auto, unfolding(crate::specs::CardFile::kind_in))]
pub fn kind_given(text: &[u8]) -> Option<Kind>
    ensures { result ≡ kind_in (lines text.now) }
{
    let mut rest = Some(text);
    while let Some(text) = rest {
        let (first, others) = cut(text, b'\n');
        if let Some(kind) = kind_said(first) {
            return Some(kind);
        }
        rest = others;
    }
    None
}

/// Whether a card may have a line. Without a kind every line may stand.
pub fn may_have(kind: Option<Kind>, line: &CardLine) -> bool
    ensures { result ≡ may_have kind line.now }
{
    match kind {
        None => true,
        Some(kind) => line.is_of(kind),
    }
}

/// Whether a line gives again what one of those above gives.
pub fn is_repeated(above: &[CardLine], line: &CardLine) -> bool
    ensures { result ≡ is_repeated above.now line.now }
{
    above.iter().any(|other| line.repeats(other))
}

// The fault that a line plans.
fn planned(line: &CardLine) -> Option<(u64, Fault)>
    ensures { result ≡ planned_of_line line.now }
{
    match *line {
        CardLine::Fault { exchange, fault } => Some((exchange, fault)),
        _ => None,
    }
}

// How many faults the lines plan.
fn count_of_faults(lines: &[CardLine]) -> usize
    ensures { result ≡ length (plan_of lines.now) }
{
    lines.iter().filter_map(planned).count()
}

/// Whether one more fault may be planned, where the line plans one.
pub fn has_room(above: &[CardLine], line: &CardLine) -> bool
    ensures { result ≡ has_room above.now line.now }
{
    match *line {
        CardLine::Fault { .. } => count_of_faults(above) < MAX_PLANNED,
        _ => true,
    }
}

// Whether a line may stand below others.
fn may_stand(kind: Option<Kind>, above: &[CardLine], line: &CardLine) -> bool
    ensures { result ≡ may_stand kind above.now line.now }
{
    may_have(kind, line) && !is_repeated(above, line) && has_room(above, line)
}

// What the lines of a card of this kind say, in order: those that are skipped say nothing.
fn read_lines(alloc: Global, kind: Option<Kind>, text: &[u8]) -> Result<Vec<CardLine>, CardFault>
    ensures ok { IfOk result (λ ls. AreCardLines kind (lines text.now) ls.items) }
    ensures err { IfErr result (λ fault. IsLineFault kind (lines text.now) fault) }
{
    let mut said = Vec::new(alloc);
    let mut rest = Some(text);
    let mut number = 0u64;
    while let Some(text) = rest {
        let (first, others) = cut(text, b'\n');
        number += 1;
        match card_line(first) {
            Line::Bad => return Err(CardFault::BadLine { line: number }),
            Line::Skipped => {}
            Line::Says(line) => {
                if !may_stand(kind, said.as_slice(), &line) {
                    return Err(CardFault::BadLine { line: number });
                }
                said.push(line)?;
            }
        }
        rest = others;
    }
    Ok(said)
}

// The planned faults, in order.
fn plan(alloc: Global, lines: &[CardLine]) -> Result<Vec<(u64, Fault)>, AllocError>
    ensures { IfOk result (λ planned. planned.items ≡ plan_of lines.now) }
{
    lines.iter().filter_map(planned).collect(alloc)
}

/// What a card file says. Its lines may stand in any order.
///
/// # Errors
/// `BadLine` with the first line that isn't of the grammar, is of the other kind of card, gives again what one above
/// it gives, or plans one more than `MAX_PLANNED` faults. Where there is no such line, `Incomplete` if a required
/// key is missing. `NoMemory` for want of memory.
pub fn read_card(alloc: Global, text: &[u8]) -> Result<CardFile, CardFault>
    ensures ok { IfOk result (λ file. IsCardFile (lines text.now) file.spec file.plan.items) }
    ensures plan { IfOk result (λ file. CanBePlanned file.plan.items) }
    ensures err { IfErr result (λ fault. IsBadCard (lines text.now) fault) }
{
    let said = read_lines(alloc, kind_given(text), text)?;
    let spec = match card_spec(said.as_slice()) {
        Some(spec) => spec,
        None => return Err(CardFault::Incomplete),
    };
    let plan = plan(alloc, said.as_slice())?;
    Ok(CardFile { spec, plan })
}
