// `help` and `version`.
ghost use Rattle.std.specs.Prelude.{◌≡◌, IfErr};
ghost use Rattle.card_commands.specs.declared.fault.CommandFault.TheVariants as Fault;

use crate::commands::CommandName;
use crate::fault::CommandFault;
use crate::texts;
use std::io::Write;
use text_out::put::put;

// The project's one number, as `c/kelifandro.h` has it.
const VERSION: &[u8] = b"cardtool 0.2.0\n";

// The text that the words ask for.
fn help_text(words: &[&str]) -> Option<&'static str> {
    match words {
        ["help"] => Some(texts::OVERVIEW),
        ["help", "serve"] => Some(texts::SERVE),
        ["help", name] => CommandName::by(name).map(|command| command.text()),
        _ => None,
    }
}

/// Prints what the program does, or with the name of a command after `help` what that does.
///
/// # Errors
/// `Usage` where there is no such command; `Write`, where a front of the text went out.
pub fn help<W: Write>(words: &[&str], out: &mut W) -> Result<(), CommandFault>
    ensures unprinted { IfErr result (λ fault. (fault ≡ Fault.Write → ⊥) → W.contents out.new ≡ W.contents out.old) }
{
    match help_text(words) {
        Some(text) => {
            put(out, text.as_bytes())?;
            Ok(())
        }
        None => Err(CommandFault::Usage),
    }
}

/// Prints the version.
///
/// # Errors
/// `Usage` for further words; `Write`, where a front of the text went out.
pub fn version<W: Write>(words: &[&str], out: &mut W) -> Result<(), CommandFault>
    ensures unprinted { IfErr result (λ fault. (fault ≡ Fault.Write → ⊥) → W.contents out.new ≡ W.contents out.old) }
{
    let ["version" | "--version"] = words else {
        return Err(CommandFault::Usage);
    };
    put(out, VERSION)?;
    Ok(())
}
