// An object on a line.
ghost use Rattle.std.specs.Prelude.{◌++◌, ◌≡◌, IfOk, OnOk, string_bytes};
ghost use Rattle.serde_json.specs.Data.{no_members, object};
ghost use Rattle.serde_json.specs.View.{members_view, view};
ghost use Rattle.serde_json.specs.Written.{compact_text};
ghost use Rattle.card_json.specs.Objects.{data_of, members_from, named, object_line, with_said};

use crate::said::{Member, value_of};
use serde_json::{Map, Value, put};
use std::alloc::{AllocError, Global};

// Gives an object one more member, where that says something.
fn put_member(
    alloc: Global,
    map: &mut Map<String, Value>,
    member: Member<'_>,
) -> Result<(), AllocError>
    ensures { OnOk result (members_view map.new.entries
        ≡ with_said member.entry.name.now (data_of member.entry.said) (members_view map.old.entries)) }
{
    match value_of(alloc, member.said)? {
        Some(value) => put(map, alloc, member.name, value),
        None => Ok(()),
    }
}

// The object of these members.
#[tactic(auto, unfolding(crate::specs::Objects::members_from))]
fn object_of(alloc: Global, members: &[Member<'_>]) -> Result<Value, AllocError>
    ensures { IfOk result (λ v. view v ≡ object (members_from no_members (named members.now))) }
{
    let mut map = Map::new(alloc);
    for member in members {
        put_member(alloc, &mut map, *member)?;
    }
    Ok(Value::Object(map))
}

// The text of the object of these members.
fn text_of(alloc: Global, members: &[Member<'_>]) -> Result<String, AllocError>
    ensures { IfOk result (λ text. string_bytes text ≡ compact_text (object (members_from no_members (named members.now)))) }
{
    let object = object_of(alloc, members)?;
    object.to_string(alloc)
}

/// Writes an object of these members on a line, in the order of their names; one that says nothing is left out, and of two with one
/// name the last one counts.
///
/// # Errors
/// `AllocError` where memory is refused.
pub fn put_object(
    alloc: Global,
    out: &mut Vec<u8>,
    members: &[Member<'_>],
) -> Result<(), AllocError>
    ensures { OnOk result (out.new.items ≡ out.old.items ++ object_line (named members.now)) }
{
    let text = text_of(alloc, members)?;
    out.extend_from_slice(text.as_bytes())?;
    out.push(b'\n')?;
    Ok(())
}
