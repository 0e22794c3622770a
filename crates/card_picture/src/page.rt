// A page in HTML.
ghost use Rattle.std.specs.Prelude.{OnOk, ◌++◌, ◌≡◌, ◌≤◌, length};
ghost use Rattle.card_picture.specs.Page.{exchanges_text, page_text, part_text};
ghost use Rattle.card_picture.specs.declared.sequence.TheConstants.{MAX_ROWS};

use crate::escape::put_escaped;
use crate::message::Message;
use crate::sequence::put_sequence;
use crate::table::put_table_rows;
use crate::words::say;
use card_explain::{KnownCard, Step};
use std::alloc::{AllocError, Global};
use text_out::Piece;

/// What a page shows.
#[derive(Clone, Copy, Debug, PartialEq, Eq)]
pub struct Page<'a> {
    /// The lines of the answers.
    pub answers: &'a [u8],
    /// The exchanges, which follow each other.
    pub steps: &'a [Step],
    /// What clients and the driver said to each other meanwhile.
    pub messages: &'a [Message<'a>],
    /// What happened, in a line.
    pub statistics: &'a [u8],
    /// What the card holds, in lines.
    pub contents: &'a [u8],
}

pub(crate) const BEFORE_ANSWERS: &[u8] = b"<!DOCTYPE html>
<html xmlns='http://www.w3.org/1999/xhtml' lang='en'>
<head><meta charset='utf-8'/><title>Requests on a card</title>
<style>
body{font:14px system-ui,sans-serif;color:#222;max-width:1100px;margin:24px auto;padding:0 16px}
h2{font-size:16px;margin:28px 0 8px}
pre{background:#f6f6f6;padding:8px;overflow:auto;font-size:12px}
svg{max-width:100%;height:auto}
table{border-collapse:collapse;font-size:12px}
th,td{text-align:left;vertical-align:top;padding:2px 10px;border-bottom:1px solid #eee}
td:nth-child(2){font-family:monospace;overflow-wrap:anywhere}
tr.settling{background:#fff0d6}
tr.identification{background:#e9f1f9}
tr.f td:last-child{color:#c00}
</style></head>
<body>
<h1>Requests on a card</h1>
<h2>Answers</h2>
<pre>
";

pub(crate) const BEFORE_PICTURE: &[u8] = b"</pre>
<h2>Exchanges</h2>
";

pub(crate) const BEFORE_TABLE: &[u8] = b"<h2>Exchanges in words</h2>
<table>
<tr><th>number</th><th>exchange</th><th>in words</th><th>fault</th></tr>
";

pub(crate) const BEFORE_STATISTICS: &[u8] = b"</table>
<h2>What happened</h2>
<p>";

pub(crate) const BEFORE_CONTENTS: &[u8] = b"</p>
<h2>What the card holds at the end</h2>
<pre>
";

pub(crate) const END: &[u8] = b"</pre>
</body></html>
";

// These words.
fn put_words(out: &mut Vec<u8>, words: &'static [u8]) -> Result<(), AllocError>
    ensures { OnOk result (out.new.items ≡ out.old.items ++ words.now) }
{
    say(out, &[Piece::Text(words)])
}

// A text in a part of the page that begins so.
#[tactic(auto, unfolding(crate::specs::Page::part_text))]
fn put_part(out: &mut Vec<u8>, front: &'static [u8], text: &[u8]) -> Result<(), AllocError>
    ensures { OnOk result (out.new.items ≡ out.old.items ++ part_text front.now text.now) }
{
    put_words(out, front)?;
    put_escaped(out, text)
}

// The exchanges as a sequence diagram, and in words.
#[tactic(auto, unfolding(crate::specs::Page::exchanges_text))]
fn put_exchanges(
    alloc: Global,
    out: &mut Vec<u8>,
    card: KnownCard,
    steps: &[Step],
    messages: &[Message<'_>],
) -> Result<(), AllocError>
    requires steps { length steps.now ≤ MAX_ROWS }
    requires messages { length messages.now ≤ MAX_ROWS }
    ensures { OnOk result (out.new.items ≡ out.old.items ++ exchanges_text card steps.now messages.now) }
{
    put_words(out, BEFORE_PICTURE)?;
    put_sequence(alloc, out, card, steps, messages)?;
    put_words(out, BEFORE_TABLE)?;
    put_table_rows(alloc, out, card, steps)
}

/// Writes a page in HTML, which is well-formed XML too: the answers, the exchanges as a sequence diagram and in a table, what
/// happened, and what the card holds.
///
/// # Errors
/// `AllocError` where memory is refused.
#[tactic(auto, unfolding(crate::specs::Page::page_text))]
pub fn put_page(
    alloc: Global,
    out: &mut Vec<u8>,
    card: KnownCard,
    page: &Page<'_>,
) -> Result<(), AllocError>
    requires steps { length page.now.steps.now ≤ MAX_ROWS }
    requires messages { length page.now.messages.now ≤ MAX_ROWS }
    ensures { OnOk result (out.new.items ≡ out.old.items ++ page_text card page.now) }
{
    put_part(out, BEFORE_ANSWERS, page.answers)?;
    put_exchanges(alloc, out, card, page.steps, page.messages)?;
    put_part(out, BEFORE_STATISTICS, page.statistics)?;
    put_part(out, BEFORE_CONTENTS, page.contents)?;
    put_words(out, END)
}
