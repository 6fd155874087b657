//! The classes of a project while it is read.

ghost use Rattle.std.specs.Prelude.{◌≡◌, Some, map, find, IfOk};
ghost use Rattle.std.specs.Option.{option_map};
ghost use Rattle.net_class.specs.ClassesOf.{is_named, default_clearance, class_from};
ghost use Rattle.net_class.specs.ProjectWalk.{with_written};
ghost use Rattle.plain_types.specs.Lengths.{IsLengthIfSome};
ghost use Rattle.std.specs.String.{string_bytes};
ghost use Rattle.net_class.specs.ClassValues.{written_class, plain_class};

use crate::lengths::{Class, Draft, Nm};
use drc_io::Name;
use plain_types::Length;
use std::alloc::{AllocError, Global};
use std::collections::HashSet;
use std::marker::Model;

/// The classes that were read, no two of one name, and all their names.
#[derive(Drop)]
pub(crate) struct Drafts {
    list: Vec<Draft>,
    names: HashSet<String>,
}

impl Model for Drafts {
    ghost use Rattle.std.specs.Prelude.{List, map};
    ghost use Rattle.net_class.specs.ClassesOf.{Written};
    ghost use Rattle.net_class.specs.ClassValues.{written_class, HasNames};

    ghost Value = { List Written };

    ghost view = { λ drafts. map written_class drafts.list.items };

    ghost invariant = { λ drafts. HasNames drafts.names (map written_class drafts.list.items) };
}

/// The class of this name, if it was read.
fn find<'d>(drafts: &'d [Draft], name: &[u8]) -> Option<&'d Draft>
    ensures { option_map (λ d. written_class d.now) result
        ≡ find (is_named name.now) (map written_class drafts.now) }
{
    for draft in drafts {
        if draft.name.bytes() == name {
            return Some(draft);
        }
    }
    None
}

/// The name as a key.
fn key_of(alloc: Global, name: &Name) -> Result<String, AllocError>
    ensures { IfOk result (λ key. string_bytes key ≡ name.now) }
{
    String::from_utf8_lossy(alloc, name.bytes())
}

/// The clearance of the class Default, which is 0.2 mm where none is written.
#[tactic(auto, unfolding(crate::specs::ClassesOf::default_clearance))]
fn default_clearance(drafts: &[Draft]) -> Length
    ensures { result.nm ≡ default_clearance (map written_class drafts.now) }
{
    match find(drafts, b"Default") {
        Some(
            Draft {
                clearance: Some(nm),
                ..
            },
        ) => Length { nm: *nm },
        _ => Length { nm: 200_000 },
    }
}

/// A class as it is written, which has this clearance where it says none.
fn class_from(draft: Draft, default: Length) -> Class
    ensures { plain_class result ≡ class_from default.nm (written_class draft) }
{
    match draft.clearance {
        Some(clearance) => Class {
            name: draft.name,
            clearance,
        },
        None => Class {
            name: draft.name,
            clearance: default.nm,
        },
    }
}

/// The classes, where one that says no clearance has this one.
fn classes_from(
    alloc: Global,
    drafts: Vec<Draft>,
    default: Length,
) -> Result<Vec<Class>, AllocError>
    ensures { IfOk result
        (λ classes. map plain_class classes.items
        ≡ map (class_from default.nm) (map written_class drafts.items)) }
{
    let mut classes = Vec::with_capacity(alloc, drafts.len())?;
    for draft in drafts {
        classes.push(class_from(draft, default))?;
    }
    Ok(classes)
}

impl Drafts {
    ghost use Rattle.std.specs.Prelude.{[]};

    /// No class.
    pub(crate) fn new(alloc: Global) -> Drafts
        ensures { result ≡ [] }
    {
        Drafts {
            list: Vec::new(alloc),
            names: HashSet::new(alloc),
        }
    }

    /// Adds a class, if it has a name that none has.
    #[tactic(auto, unfolding(crate::specs::ProjectWalk::with_written))]
    pub(crate) fn with(
        self,
        alloc: Global,
        name: Option<Name>,
        clearance: Option<Nm>,
    ) -> Result<Drafts, AllocError>
        requires { IsLengthIfSome clearance }
        ensures { IfOk result (λ drafts. drafts ≡ with_written self name clearance) }
    {
        match name {
            None => Ok(self),
            Some(name) => self.with_named(alloc, name, clearance),
        }
    }

    /// Adds a class, if none has its name.
    fn with_named(
        self,
        alloc: Global,
        name: Name,
        clearance: Option<Nm>,
    ) -> Result<Drafts, AllocError>
        requires { IsLengthIfSome clearance }
        ensures { IfOk result (λ drafts. drafts ≡ with_written self (Some name) clearance) }
    {
        let Drafts {
            mut list,
            mut names,
        } = self;
        let key = key_of(alloc, &name)?;
        let added = names.insert(key)?;
        if !added {
            return Ok(Drafts { list, names });
        }
        list.push(Draft { name, clearance })?;
        Ok(Drafts { list, names })
    }

    /// The clearance of the class Default, which is 0.2 mm where none is written.
    pub(crate) fn default_clearance(&self) -> Length
        ensures { result.nm ≡ default_clearance self.now }
    {
        default_clearance(&self.list)
    }

    /// The classes, where one that says no clearance has this one.
    pub(crate) fn into_classes(
        self,
        alloc: Global,
        default: Length,
    ) -> Result<Vec<Class>, AllocError>
        ensures { IfOk result
            (λ classes. map plain_class classes.items ≡ map (class_from default.nm) self) }
    {
        classes_from(alloc, self.list, default)
    }
}
