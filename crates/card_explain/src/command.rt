// Names of commands.
ghost use Rattle.std.specs.Prelude.{OnOk, ◌++◌, ◌≡◌};
ghost use Rattle.card_explain.specs.Commands.{command_words, prefix, row_words};
ghost use Rattle.mmc_card.specs.CommandRows.{told};

use crate::words::say;
use mmc_card::{Command, CommandRow, row_of};
use mmc_frame::Kind;
use std::alloc::AllocError;
use text_out::Piece;

// What stands in front of the number of a command.
fn prefix(is_app: bool) -> &'static [u8]
    ensures { result.now ≡ prefix is_app }
{
    if is_app { b"ACMD" } else { b"CMD" }
}

// The number and the name in a command's row.
#[tactic(auto, unfolding(crate::specs::Commands::row_words))]
fn put_row(out: &mut Vec<u8>, kind: Kind, row: CommandRow) -> Result<(), AllocError>
    ensures { OnOk result (out.new.items ≡ out.old.items ++ row_words kind (told row)) }
{
    let (index, name) = match kind {
        Kind::Sd => (row.index, row.name),
        Kind::Mmc => (row.mmc_index, row.mmc_name),
    };
    let prefix = prefix(row.is_app);
    say(
        out,
        &[
            Piece::Text(prefix),
            Piece::Number(u64::from(index)),
            Piece::Text(b" "),
            Piece::Text(name),
        ],
    )
}

/// Writes the number and the name of a command, as `CMD17 READ_SINGLE_BLOCK`; of an unknown one its number alone, which is the
/// index in its frame (SD Physical Layer 6.00, section 4.7.4; JESD84-B51, section 6.10.4).
///
/// # Errors
/// `AllocError` where memory is refused.
#[tactic(auto, unfolding(crate::specs::Commands::command_words))]
pub fn put_command(
    out: &mut Vec<u8>,
    kind: Kind,
    command: Command,
    is_app: bool,
    index: u8,
) -> Result<(), AllocError>
    ensures { OnOk result (out.new.items ≡ out.old.items ++ command_words kind command is_app index) }
{
    match command {
        Command::Unknown => {
            let prefix = prefix(is_app);
            say(out, &[Piece::Text(prefix), Piece::Number(u64::from(index))])
        }
        _ => put_row(out, kind, row_of(command)),
    }
}
