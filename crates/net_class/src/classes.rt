//! The classes of a project, and the class of a net.

ghost use Rattle.std.specs.Prelude.{◌≡◌, map, IfOk};
ghost use Rattle.std.specs.Option.{option_map};
ghost use Rattle.plain_types.specs.Lengths.{IsLength};
ghost use Rattle.json_exact.specs.Handles.{json_of};
ghost use Rattle.net_class.specs.NetClasses.{class_named, pattern_of, class_by, class_of, greatest_of, greatest_clearance, plain_classes, plain_default};
ghost use Rattle.net_class.specs.ClassesOf.{classes_of, with_rest};
ghost use Rattle.net_class.specs.ClassValues.{plain_class, plain_pattern, mins_of, json_if, Gives};

use crate::drafts::Drafts;
use crate::error::ProjectError;
use crate::lengths::{Class, Mins, Nm, Pattern};
use crate::members::object_in;
use crate::mins::{PLAIN, rules_in};
use crate::patterns::wild;
use crate::reading::{patterns_in, written_in};
use drc_io::Name;
use json_exact::Value;
use plain_types::Length;
use std::alloc::{AllocError, Global};
use std::marker::Model;

/// What a project says of nets: its classes, the patterns that give nets their classes, and the least sizes of the board.
#[derive(Debug, Drop)]
pub struct Classes {
    default: Class,
    named: Vec<Class>,
    patterns: Vec<Pattern>,
    mins: Mins,
}

impl Model for Classes {
    ghost use Rattle.std.specs.Prelude.{map};
    ghost use Rattle.net_class.specs.NetClasses.{PlainClasses};
    ghost use Rattle.net_class.specs.ClassValues.{plain_class, plain_pattern, mins_of};

    ghost Value = { PlainClasses };

    ghost view = { λ c. record {
      default = plain_class c.default;
      named = map plain_class c.named.items;
      patterns = map plain_pattern c.patterns.items;
      mins = mins_of c.mins;
    } };
}

/// The class of this name, or the other.
#[tactic(auto, unfolding(crate::specs::NetClasses::class_named))]
fn class_named<'c>(default: &'c Class, named: &'c [Class], name: &Name) -> &'c Class
    ensures { plain_class result.now
        ≡ class_named (plain_class default.now) (map plain_class named.now) name.now }
{
    for class in named {
        if class.name.bytes() == name.bytes() {
            return class;
        }
    }
    default
}

/// The first pattern that matches the whole name.
#[tactic(auto, unfolding(crate::specs::NetClasses::pattern_of))]
fn pattern_of<'c>(patterns: &'c [Pattern], name: &Name) -> Option<&'c Pattern>
    ensures { option_map (λ p. plain_pattern p.now) result
        ≡ pattern_of (map plain_pattern patterns.now) name.now }
{
    for pattern in patterns {
        if wild(pattern.pattern.bytes(), name.bytes(), false) {
            return Some(pattern);
        }
    }
    None
}

/// The class of a net.
fn class_of<'c>(
    default: &'c Class,
    named: &'c [Class],
    patterns: &[Pattern],
    name: &Name,
) -> &'c Class
    ensures { plain_class result.now
        ≡ class_by (plain_class default.now) (map plain_class named.now)
        (pattern_of (map plain_pattern patterns.now) name.now) }
{
    match pattern_of(patterns, name) {
        None => default,
        Some(pattern) => class_named(default, named, &pattern.class),
    }
}

/// A class with the greatest clearance.
fn greatest_of<'c>(default: &'c Class, named: &'c [Class]) -> &'c Class
    ensures { result.now.clearance ≡ greatest_of default.now.clearance (map plain_class named.now) }
{
    let mut greatest = default;
    for class in named {
        if greatest.clearance < class.clearance {
            greatest = class;
        }
    }
    greatest
}

/// An equal class.
fn copy_class(class: &Class) -> Result<Class, AllocError>
    ensures { IfOk result (λ copy. plain_class copy ≡ plain_class class.now) }
{
    Ok(Class {
        name: class.name.copy()?,
        clearance: class.clearance,
    })
}

/// Equal classes, in their order.
fn copy_named(alloc: Global, named: &[Class]) -> Result<Vec<Class>, AllocError>
    ensures { IfOk result (λ copy. map plain_class copy.items ≡ map plain_class named.now) }
{
    let mut list = Vec::new(alloc);
    for class in named {
        list.push(copy_class(class)?)?;
    }
    Ok(list)
}

/// An equal pattern.
fn copy_pattern(pattern: &Pattern) -> Result<Pattern, AllocError>
    ensures { IfOk result (λ copy. plain_pattern copy ≡ plain_pattern pattern.now) }
{
    Ok(Pattern {
        class: pattern.class.copy()?,
        pattern: pattern.pattern.copy()?,
    })
}

/// Equal patterns, in their order.
fn copy_patterns(alloc: Global, patterns: &[Pattern]) -> Result<Vec<Pattern>, AllocError>
    ensures { IfOk result (λ copy. map plain_pattern copy.items ≡ map plain_pattern patterns.now) }
{
    let mut list = Vec::new(alloc);
    for pattern in patterns {
        list.push(copy_pattern(pattern)?)?;
    }
    Ok(list)
}

impl Classes {
    /// Equal classes.
    pub fn copy(&self) -> Result<Classes, AllocError>
        ensures { IfOk result (λ copy. copy ≡ self.now) }
    {
        let alloc = *self.named.allocator();
        Ok(Classes {
            default: copy_class(&self.default)?,
            named: copy_named(alloc, &self.named)?,
            patterns: copy_patterns(alloc, &self.patterns)?,
            mins: self.mins,
        })
    }

    /// What holds without a project: the class Default alone, with 0.2 mm.
    pub fn plain(alloc: Global) -> Result<Classes, AllocError>
        ensures { IfOk result (λ classes. classes ≡ plain_classes) }
    {
        Ok(Classes {
            default: default_class(alloc, Length { nm: 200_000 })?,
            named: Vec::new(alloc),
            patterns: Vec::new(alloc),
            mins: PLAIN,
        })
    }

    /// The class of a net. The first pattern that matches the whole name tells the class; it is Default without such
    /// a pattern, and where the project has no class of the name that the pattern tells. It takes no memory.
    #[tactic(auto, unfolding(crate::specs::NetClasses::class_of))]
    pub fn of_net(&self, name: &Name) -> &Class
        ensures { plain_class result.now ≡ class_of self.now name.now }
    {
        class_of(&self.default, &self.named, &self.patterns, name)
    }

    /// The class Default, which no net has too.
    pub fn of_none(&self) -> &Class
        ensures { plain_class result.now ≡ self.now.default }
    {
        &self.default
    }

    /// The least sizes of the board.
    pub fn mins(&self) -> &Mins
        ensures { mins_of result.now ≡ self.now.mins }
    {
        &self.mins
    }

    /// The greatest clearance of all classes, in nanometres, from 0 to 500 mm.
    #[tactic(auto, unfolding(crate::specs::NetClasses::greatest_clearance))]
    pub fn greatest(&self) -> Nm
        ensures value { result ≡ greatest_clearance self.now }
        ensures in_range { IsLength result }
    {
        greatest_of(&self.default, &self.named).clearance
    }
}

/// The class Default.
fn default_class(alloc: Global, clearance: Length) -> Result<Class, AllocError>
    ensures { IfOk result
        (λ class. plain_class class
        ≡ record { name = plain_default.name; clearance = clearance.nm }) }
{
    let name = Name::from_slice(alloc, b"Default")?;
    Ok(Class {
        name,
        clearance: clearance.nm,
    })
}

/// The classes, once those that are written were read.
fn with_rest(
    alloc: Global,
    written: Drafts,
    settings: Option<Value<'_, '_>>,
    root: Value<'_, '_>,
) -> Result<Classes, ProjectError>
    ensures { Gives result (with_rest written (json_if settings.entry) (json_of root.entry)) }
{
    let patterns = patterns_in(alloc, settings)?;
    let mins = rules_in(Some(root))?;
    let clearance = written.default_clearance();
    let named = written.into_classes(alloc, clearance)?;
    let default = default_class(alloc, clearance)?;
    Ok(Classes {
        default,
        named,
        patterns,
        mins,
    })
}

/// The classes of the value of a project's text.
#[tactic(auto, unfolding(crate::specs::ClassesOf::classes_of))]
pub(crate) fn classes_of(alloc: Global, root: Value<'_, '_>) -> Result<Classes, ProjectError>
    ensures { Gives result (classes_of (json_of root.entry)) }
{
    let settings = object_in(Some(root), b"net_settings")?;
    let written = written_in(alloc, settings)?;
    with_rest(alloc, written, settings, root)
}
