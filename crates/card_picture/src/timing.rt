// A timing diagram.
ghost use Rattle.std.specs.Prelude.{OnOk, ◌++◌, ◌≡◌, ◌≤◌, length};
ghost use Rattle.card_picture.specs.Timing.{columns_from, timing_front, timing_text};
ghost use Rattle.card_picture.specs.declared.sequence.TheConstants.{MAX_ROWS};

use crate::column::{LEFT, WIDTH, put_column};
use crate::sequence::MAX_ROWS;
use crate::words::say;
use card_explain::{KnownCard, Step};
use std::alloc::{AllocError, Global};
use text_out::Piece;

// The element of the picture, up to its width.
pub(crate) const TIMING_HEAD: &[u8] =
    b"<svg xmlns='http://www.w3.org/2000/svg' role='img' height='130' width='";

// What the columns draw with: CMD is high at 32 and low at 54, DAT at 70 and 92.
pub(crate) const TIMING_SYMBOLS: &[u8] =
    b" 130' font-family='system-ui,sans-serif' font-size='12' fill='#222'>
<title>Exchanges on the lines CMD and DAT, not to scale</title>
<style>use,.l{fill:none;stroke:#222}.f>use{stroke:#c00}.n,.w{fill:#777}.f>.w{fill:#c00}.t{stroke:none;fill:#222}</style>
<defs>
<rect id='t-settling' y='4' width='150' height='118' style='stroke:none;fill:#fb4;fill-opacity:.27'/>
<rect id='t-identification' y='4' width='150' height='118' style='stroke:none;fill:#48c;fill-opacity:.12'/>
<rect id='t-command' x='6' y='32' width='70' height='22' fill='#fff'/>
<rect id='t-response' x='86' y='32' width='58' height='22' fill='#e4efe4'/>
<g id='t-lost'><path d='M86 43h58' stroke-dasharray='2 3'/><path d='m109 37 12 12m0-12-12 12'/></g>
<g id='t-in'><rect x='6' y='70' width='138' height='22' fill='#e4efe4'/><path d='M108 70v22'/><text class='t' x='14' y='85'>block</text><text class='t' x='113' y='85'>CRC</text></g>
<g id='t-bad'><rect x='6' y='70' width='138' height='22' fill='#e4efe4'/><path d='M108 70v22m6-17 24 12m0-12-24 12'/><text class='t' x='14' y='85'>block</text></g>
<g id='t-missing'><path d='M6 81h138' stroke-dasharray='2 3'/><path d='m69 75 12 12m0-12-12 12'/></g>
<g id='t-out'><rect x='6' y='70' width='92' height='22' fill='#fff'/><path d='M66 70v22'/><text class='t' x='14' y='85'>block</text><text class='t' x='69' y='85'>CRC</text></g>
<g id='t-accepted'><rect x='108' y='70' width='36' height='22' fill='#e4efe4'/><text class='t' x='115' y='85'>010</text></g>
<g id='t-rejected'><rect x='108' y='70' width='36' height='22' fill='#f6dcdc'/><text class='t' x='115' y='85'>101</text></g>
<g id='t-unsaid'><path d='M106 81h38' stroke-dasharray='2 3'/><path d='m119 75 12 12m0-12-12 12'/></g>
<g id='t-busy'><path d='M0 70h6l6 22h126l6-22h6'/><text class='t' x='58' y='88'>busy</text></g>
<g id='t-idle'><path d='M0 70h150'/><text class='t' x='50' y='88'>not busy</text></g>
</defs>
<rect width='100%' height='100%' fill='#fff'/>
<path d='M52 32H9999999M52 70H9999999' stroke='#ccc'/>
<text x='10' y='47' font-weight='bold'>CMD</text><text x='10' y='85' font-weight='bold'>DAT</text>
";

// The element of the picture, with its size, and what the columns draw with.
#[tactic(auto, unfolding(crate::specs::Timing::timing_front))]
fn put_front(out: &mut Vec<u8>, columns: u64) -> Result<(), AllocError>
    requires { columns ≤ MAX_ROWS }
    ensures { OnOk result (out.new.items ≡ out.old.items ++ timing_front columns) }
{
    let width = LEFT + (WIDTH * columns + 8);
    say(
        out,
        &[
            Piece::Text(TIMING_HEAD),
            Piece::Number(width),
            Piece::Text(b"' viewBox='0 0 "),
            Piece::Number(width),
            Piece::Text(TIMING_SYMBOLS),
        ],
    )
}

// A column for each exchange.
#[tactic(auto, unfolding(crate::specs::Timing::columns_from))]
fn put_columns(
    alloc: Global,
    out: &mut Vec<u8>,
    card: KnownCard,
    steps: &[Step],
) -> Result<(), AllocError>
    requires { length steps.now ≤ MAX_ROWS }
    ensures { OnOk result (out.new.items ≡ out.old.items ++ columns_from card 0 steps.now) }
{
    for (place, step) in steps.iter().enumerate() {
        put_column(alloc, out, card, place as u64, step)?;
    }
    Ok(())
}

/// Draws exchanges, which follow each other, as a timing diagram in SVG 2, which isn't to scale: a column for each, in order, with
/// its number, and what it shows of CMD and the data lines; its words show where a viewer's pointer is over it.
///
/// # Errors
/// `AllocError` where memory is refused.
#[tactic(auto, unfolding(crate::specs::Timing::timing_text))]
pub fn put_timing(
    alloc: Global,
    out: &mut Vec<u8>,
    card: KnownCard,
    steps: &[Step],
) -> Result<(), AllocError>
    requires { length steps.now ≤ MAX_ROWS }
    ensures { OnOk result (out.new.items ≡ out.old.items ++ timing_text card steps.now) }
{
    put_front(out, steps.len() as u64)?;
    put_columns(alloc, out, card, steps)?;
    say(out, &[Piece::Text(b"</svg>\n")])
}
