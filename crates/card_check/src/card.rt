// Whatever is wrong with a card file.
ghost use Rattle.std.specs.Prelude.{◌≡◌, ◌++◌, IfNone, IfOk, IfSome, IsSome, List, None, OnErr, OnOk, map};
ghost use Rattle.std.specs.Io.KnownBytes.{Appends};
ghost use Rattle.std.specs.List.{flat_map};
ghost use Rattle.text_out.specs.Writing.{AppendsFront, Writes};
ghost use Rattle.card_text.specs.CardFile.{IsCardFile};
ghost use Rattle.card_text.specs.CardLines.{card_line_of};
ghost use Rattle.card_text.specs.Planning.{PlannedFault};
ghost use Rattle.card_text.specs.Script.{lines};
ghost use Rattle.card_check.specs.Checks.{AreListed, IsNoCardFile, all_findings};
ghost use Rattle.card_check.specs.Missing.{is_sd};
ghost use Rattle.card_check.specs.WrongLines.{findings_text, good_with, numbered, shown, wrong_lines, wrong_text};

use crate::cause::{Cause, wrong_with};
use crate::fault::CheckFault;
use crate::finding::{Finding, put_finding};
use crate::missing::put_missing;
use card_text::card_file::{CardFile, kind_given, read_card};
use card_text::card_line::{CardLine, card_line};
use card_text::cut::cut;
use card_text::fault::CardFault;
use card_text::text_line::Line;
use mmc_card_sim::CardSpec;
use mmc_frame::Kind;
use std::alloc::{AllocError, Global};
use std::io::Write;

// A finding, where something is wrong with the line of this number.
fn push_wrong<'a>(
    found: &mut Vec<Finding<'a>>,
    line: u64,
    text: &'a [u8],
    wrong: Option<Cause>,
) -> Result<(), AllocError>
    ensures { OnOk result (map shown found.new.items ≡ map shown found.old.items ++ numbered line text.now wrong) }
{
    match wrong {
        Some(cause) => {
            found.push(Finding {
                line,
                found: text,
                cause,
            })?;
            Ok(())
        }
        None => Ok(()),
    }
}

// What a good line says.
fn push_good(good: &mut Vec<CardLine>, said: Line<CardLine>) -> Result<(), AllocError>
    ensures { OnOk result (good.new.items ≡ good_with good.old.items None said) }
{
    match said {
        Line::Says(line) => {
            good.push(line)?;
            Ok(())
        }
        Line::Bad => Ok(()),
        Line::Skipped => Ok(()),
    }
}

// What a line says, where nothing is wrong with it.
fn push_said(good: &mut Vec<CardLine>, wrong: Option<Cause>, line: &[u8]) -> Result<(), AllocError>
    ensures { OnOk result (good.new.items ≡ good_with good.old.items wrong (card_line_of line.now)) }
{
    match wrong {
        Some(_) => Ok(()),
        None => push_good(good, card_line(line)),
    }
}

// Whatever is wrong with the lines of a card file, in order: each is judged below the good ones above it.
fn findings(alloc: Global, text: &[u8]) -> Result<Vec<Finding<'_>>, AllocError>
    ensures { IfOk result (λ found. map shown found.items ≡ wrong_lines (lines text.now)) }
{
    let kind = kind_given(text);
    let mut found = Vec::new(alloc);
    let mut good: Vec<CardLine> = Vec::new(alloc);
    let mut rest = Some(text);
    let mut number = 0u64;
    while let Some(text) = rest {
        let (first, others) = cut(text, b'\n');
        number += 1;
        let wrong = wrong_with(kind, good.as_slice(), first);
        push_wrong(&mut found, number, first, wrong)?;
        push_said(&mut good, wrong, first)?;
        rest = others;
    }
    Ok(found)
}

// A line for each finding.
fn put_found<W: Write>(alloc: Global, found: &[Finding<'_>], out: &mut W) -> Result<(), CheckFault>
    ensures { Writes (W.contents out.old) (W.contents out.new) result (flat_map wrong_text (map shown found.now)) }
{
    for finding in found {
        put_finding(alloc, out, finding)?;
    }
    Ok(())
}

// A line for each line that is wrong.
fn put_findings<W: Write>(alloc: Global, text: &[u8], out: &mut W) -> Result<(), CheckFault>
    ensures { Writes (W.contents out.old) (W.contents out.new) result (findings_text (lines text.now)) }
{
    let found = findings(alloc, text)?;
    put_found(alloc, found.as_slice(), out)
}

// Whether a card file is of an SD card.
fn is_sd(kind: Option<Kind>) -> bool
    ensures { result ≡ is_sd kind }
{
    matches!(kind, Some(Kind::Sd))
}

/// Writes a line for each line of a card file that is wrong, with its number, what was found and what was expected; where
/// none is, a line for each key that is missing. What the card is built by comes back where nothing is wrong.
///
/// # Errors
/// `NoMemory`; `Write` where a write failed, and a front of the lines went out then.
pub fn check_card<W: Write>(
    alloc: Global,
    text: &[u8],
    out: &mut W,
) -> Result<Option<CardSpec>, CheckFault>
    ensures good { IfOk result (λ checked. IfSome checked (λ spec. (plan : List PlannedFault) × IsCardFile (lines text.now) spec plan)) }
    ensures bad { IfOk result (λ checked. IfNone checked (IsNoCardFile (lines text.now))) }
    ensures clean { IfOk result (λ checked. IsSome checked
        → Appends (W.contents out.old) (W.contents out.new) (findings_text (lines text.now))) }
    ensures listed { IfOk result (λ checked. IfNone checked
        (AreListed (W.contents out.old) (W.contents out.new) (lines text.now))) }
    ensures err { OnErr result (AppendsFront (W.contents out.old) (W.contents out.new) (all_findings (lines text.now))) }
{
    put_findings(alloc, text, out)?;
    match read_card(alloc, text) {
        Ok(CardFile { spec, plan: _ }) => Ok(Some(spec)),
        Err(CardFault::BadLine { .. }) => Ok(None),
        Err(CardFault::Incomplete) => {
            put_missing(out, text, is_sd(kind_given(text)))?;
            Ok(None)
        }
        Err(CardFault::NoMemory) => Err(CheckFault::NoMemory),
    }
}
