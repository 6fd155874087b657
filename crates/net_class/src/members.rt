//! The members of the objects in a project.

ghost use Rattle.std.specs.Prelude.{◌≡◌, IfOk};
ghost use Rattle.json_exact.specs.Json.{begins_at, is_object};
ghost use Rattle.json_exact.specs.Handles.{json_of};
ghost use Rattle.plain_types.specs.Lengths.{IsLength, IsLengthIfSome};
ghost use Rattle.net_class.specs.ProjectMembers.{unless_null, read_if, of_kind, member_in, object_in, list_in, entry_of, text_in, nanometres_at, length_at, length_in, length_or_none_at, length_or_none_in};
ghost use Rattle.net_class.specs.ClassValues.{json_if, json_in, Gives};

use crate::error::ProjectError;
use crate::lengths::Nm;
use drc_io::Name;
use exact_dec::mm_near;
use json_exact::Value;
use plain_types::is_length;
use std::alloc::Global;

/// The value is of no kind that is wanted here.
fn shape(v: Value<'_, '_>) -> ProjectError
    ensures { result ≡ ProjectError.Shape (begins_at (json_of v.entry)) }
{
    ProjectError::Shape { at: v.span().at }
}

/// The number is refused.
fn bad_number(v: Value<'_, '_>) -> ProjectError
    ensures { result ≡ ProjectError.BadNumber (begins_at (json_of v.entry)) }
{
    ProjectError::BadNumber { at: v.span().at }
}

/// What is there and not null.
fn unless_null<'j, 't>(v: Option<Value<'j, 't>>) -> Option<Value<'j, 't>>
    ensures { json_if result ≡ unless_null (json_if v.entry) }
{
    match v {
        Some(v) if v.is_null() => None,
        _ => v,
    }
}

/// The member of an object, where there is an object, and such a member that is not null.
#[tactic(auto, unfolding(crate::specs::ProjectMembers::member_in))]
fn member_in<'j, 't>(object: Option<Value<'j, 't>>, name: &[u8]) -> Option<Value<'j, 't>>
    ensures { json_if result ≡ member_in name.now (json_if object.entry) }
{
    match object {
        None => None,
        Some(v) => unless_null(v.get(name)),
    }
}

/// A value that is to be an object, if there is one.
fn object_if<'j, 't>(v: Option<Value<'j, 't>>) -> Result<Option<Value<'j, 't>>, ProjectError>
    ensures { json_in result ≡ read_if (of_kind is_object) (json_if v.entry) }
{
    match v {
        Some(v) if !v.is_object() => Err(shape(v)),
        _ => Ok(v),
    }
}

/// The object of a member.
#[tactic(auto, unfolding(crate::specs::ProjectMembers::object_in))]
pub(crate) fn object_in<'j, 't>(
    object: Option<Value<'j, 't>>,
    name: &[u8],
) -> Result<Option<Value<'j, 't>>, ProjectError>
    ensures { json_in result ≡ object_in name.now (json_if object.entry) }
{
    object_if(member_in(object, name))
}

/// The value of the member of this name where it is a list, `None` without such a member; another value is refused.
#[tactic(auto, unfolding(crate::specs::ProjectMembers::list_in))]
pub(crate) fn list_in<'j, 't>(
    object: Option<Value<'j, 't>>,
    name: &[u8],
) -> Result<Option<Value<'j, 't>>, ProjectError>
    ensures { json_in result ≡ list_in name.now (json_if object.entry) }
{
    match member_in(object, name) {
        None => Ok(None),
        Some(v) => {
            if v.is_list() {
                Ok(Some(v))
            } else {
                Err(shape(v))
            }
        }
    }
}

/// An entry of a list of objects, which may be null.
#[tactic(auto, unfolding(crate::specs::ProjectMembers::entry_of))]
pub(crate) fn entry_of<'j, 't>(v: Value<'j, 't>) -> Result<Option<Value<'j, 't>>, ProjectError>
    ensures { json_in result ≡ entry_of (json_of v.entry) }
{
    object_if(unless_null(Some(v)))
}

// ---- texts and lengths

/// The text of a member.
#[tactic(auto, unfolding(crate::specs::ProjectMembers::text_in))]
pub(crate) fn text_in(
    alloc: Global,
    object: Option<Value<'_, '_>>,
    name: &[u8],
) -> Result<Option<Name>, ProjectError>
    ensures { Gives result (text_in name.now (json_if object.entry)) }
{
    let Some(member) = member_in(object, name) else {
        return Ok(None);
    };
    let mut bytes = Vec::new(alloc);
    if member.text(&mut bytes)? {
        Ok(Some(Name::of(bytes)))
    } else {
        Err(shape(member))
    }
}

/// A number in millimetres, to the nearest nanometre.
#[tactic(auto, unfolding(crate::specs::ProjectMembers::nanometres_at))]
fn nanometres_at(v: Value<'_, '_>) -> Result<Nm, ProjectError>
    ensures { result ≡ nanometres_at (json_of v.entry) }
{
    let Some(digits) = v.number() else {
        return Err(shape(v));
    };
    match mm_near(digits) {
        Ok(n) => Ok(n),
        Err(_) => Err(bad_number(v)),
    }
}

/// A length from 0 to 500 mm.
#[tactic(auto, unfolding(crate::specs::ProjectMembers::length_at))]
fn length_at(v: Value<'_, '_>) -> Result<Nm, ProjectError>
    ensures length { result ≡ length_at (json_of v.entry) }
    ensures in_range { IfOk result IsLength }
{
    let n = nanometres_at(v)?;
    if is_length(n) {
        Ok(n)
    } else {
        Err(bad_number(v))
    }
}

/// The length of a member.
#[tactic(auto, unfolding(crate::specs::ProjectMembers::length_in))]
pub(crate) fn length_in(
    object: Option<Value<'_, '_>>,
    name: &[u8],
) -> Result<Option<Nm>, ProjectError>
    ensures length { result ≡ length_in name.now (json_if object.entry) }
    ensures in_range { IfOk result IsLengthIfSome }
{
    match member_in(object, name) {
        None => Ok(None),
        Some(v) => {
            let n = length_at(v)?;
            Ok(Some(n))
        }
    }
}

/// A length from 0 to 500 mm, or none for a number below 0.
#[tactic(auto, unfolding(crate::specs::ProjectMembers::length_or_none_at))]
fn length_or_none_at(v: Value<'_, '_>) -> Result<Option<Nm>, ProjectError>
    ensures length { result ≡ length_or_none_at (json_of v.entry) }
    ensures in_range { IfOk result IsLengthIfSome }
{
    let n = nanometres_at(v)?;
    if n < 0 {
        Ok(None)
    } else if is_length(n) {
        Ok(Some(n))
    } else {
        Err(bad_number(v))
    }
}

/// The length of a member, or none for a number below 0.
#[tactic(auto, unfolding(crate::specs::ProjectMembers::length_or_none_in))]
pub(crate) fn length_or_none_in(
    object: Option<Value<'_, '_>>,
    name: &[u8],
) -> Result<Option<Nm>, ProjectError>
    ensures length { result ≡ length_or_none_in name.now (json_if object.entry) }
    ensures in_range { IfOk result IsLengthIfSome }
{
    match member_in(object, name) {
        None => Ok(None),
        Some(v) => length_or_none_at(v),
    }
}
