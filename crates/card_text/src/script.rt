// Reads a script.
ghost use Rattle.std.specs.Prelude.{◌≡◌, ◌++◌, [], IfErr, IfNone, IfOk, List, Some, option_to_list};
ghost use Rattle.card_text.specs.declared.event.ScriptEvent.{ScriptEvent};
ghost use Rattle.card_text.specs.Script.{IsBadLine, events_in, line_of, lines};

use crate::cut::cut;
use crate::event::ScriptEvent;
use crate::fault::ScriptFault;
use crate::line::event;
use crate::text_line::Line;
use std::alloc::{AllocError, AllocFailed, Global};
use std::collections::VecDeque;
use std::marker::Model;

/// The most bytes of a script.
pub const MAX_SCRIPT: usize = 1_048_576;

/// The events of a script, in order.
#[derive(Drop)]
pub struct Script {
    events: VecDeque<ScriptEvent>,
}

impl Model for Script {
    ghost Value = { List ScriptEvent };

    ghost view = { λ s. s.events.items };
}

impl Script {
    /// Takes the first event that is left.
    pub fn take_first(&mut self) -> Option<ScriptEvent>
        ensures first { self.old ≡ option_to_list result ++ self.new }
        ensures none { IfNone result (self.old ≡ []) }
    {
        self.events.pop_front()
    }
}

/// What a line of a script says.
#[tactic(auto, unfolding(crate::specs::Script::line_of))]
pub fn script_line(alloc: Global, line: &[u8]) -> Result<Line<ScriptEvent>, AllocError>
    ensures { IfOk result (λ said. said ≡ line_of line.now) }
{
    match line {
        [] | [b'#', ..] => Ok(Line::Skipped),
        _ => Ok(Line::by(event(alloc, line)?)),
    }
}

/// The events of a script.
pub fn read_script(alloc: Global, text: &[u8]) -> Result<Script, ScriptFault>
    ensures ok { IfOk result (λ script. events_in (lines text.now) ≡ Some script) }
    ensures err { IfErr result (λ fault. IsBadLine (lines text.now) fault) }
{
    let mut events = VecDeque::new(alloc);
    let mut rest = Some(text);
    let mut number = 0u64;
    while let Some(text) = rest {
        let (first, others) = cut(text, b'\n');
        number += 1;
        match script_line(alloc, first)? {
            Line::Bad => return Err(ScriptFault::BadLine { line: number }),
            Line::Skipped => {}
            Line::Says(event) => events.push_back(event)?,
        }
        rest = others;
    }
    Ok(Script { events })
}
