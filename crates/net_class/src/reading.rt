//! The classes and the patterns of a project, read in their order.

ghost use Rattle.std.specs.Prelude.{◌≡◌, [], map, OnOk};
ghost use Rattle.json_exact.specs.Json.{items};
ghost use Rattle.json_exact.specs.Handles.{json_of};
ghost use Rattle.net_class.specs.ClassesOf.{written_in, patterns_in};
ghost use Rattle.net_class.specs.ProjectWalk.{with_class, with_classes, with_texts, with_pattern, with_patterns};
ghost use Rattle.net_class.specs.ClassValues.{plain_pattern, json_if, Gives, GivesPatterns, Leaves};

use crate::drafts::Drafts;
use crate::error::ProjectError;
use crate::lengths::Pattern;
use crate::members::{entry_of, length_in, list_in, text_in};
use drc_io::Name;
use json_exact::Value;
use std::alloc::{AllocError, Global};

// ---- classes

/// One entry of the list of classes.
#[tactic(auto, unfolding(crate::specs::ProjectWalk::with_class))]
fn with_class(alloc: Global, drafts: Drafts, v: Value<'_, '_>) -> Result<Drafts, ProjectError>
    ensures { Gives result (with_class drafts (json_of v.entry)) }
{
    let object = entry_of(v)?;
    let name = text_in(alloc, object, b"name")?;
    let clearance = length_in(object, b"clearance")?;
    let drafts = drafts.with(alloc, name, clearance)?;
    Ok(drafts)
}

/// The entries of the list of classes.
fn read_classes(alloc: Global, list: Value<'_, '_>) -> Result<Drafts, ProjectError>
    ensures { Gives result (with_classes [] (items (json_of list.entry))) }
{
    let mut drafts = Drafts::new(alloc);
    for v in list.items() {
        drafts = with_class(alloc, drafts, v)?;
    }
    Ok(drafts)
}

/// The classes of `net_settings`.
#[tactic(auto, using(crate::proofs::InOrder::classes_in_order), unfolding(crate::specs::ClassesOf::written_in))]
pub(crate) fn written_in(
    alloc: Global,
    settings: Option<Value<'_, '_>>,
) -> Result<Drafts, ProjectError>
    ensures { Gives result (written_in (json_if settings.entry)) }
{
    match list_in(settings, b"classes")? {
        None => Ok(Drafts::new(alloc)),
        Some(list) => read_classes(alloc, list),
    }
}

// ---- patterns

/// The pattern goes last, where it has both its texts.
fn add_pattern(
    patterns: &mut Vec<Pattern>,
    class: Option<Name>,
    pattern: Option<Name>,
) -> Result<(), AllocError>
    ensures { OnOk result
        (map plain_pattern patterns.new.items
        ≡ with_texts (map plain_pattern patterns.old.items) class pattern) }
{
    let Some(class) = class else {
        return Ok(());
    };
    let Some(pattern) = pattern else {
        return Ok(());
    };
    patterns.push(Pattern { class, pattern })?;
    Ok(())
}

/// One entry of the list of patterns.
#[tactic(auto, unfolding(crate::specs::ProjectWalk::with_pattern))]
fn read_pattern(
    alloc: Global,
    patterns: &mut Vec<Pattern>,
    v: Value<'_, '_>,
) -> Result<(), ProjectError>
    ensures { Leaves result (map plain_pattern patterns.new.items)
        (with_pattern (map plain_pattern patterns.old.items) (json_of v.entry)) }
{
    let object = entry_of(v)?;
    let class = text_in(alloc, object, b"netclass")?;
    let pattern = text_in(alloc, object, b"pattern")?;
    add_pattern(patterns, class, pattern)?;
    Ok(())
}

/// The entries of the list of patterns.
fn read_patterns(alloc: Global, list: Value<'_, '_>) -> Result<Vec<Pattern>, ProjectError>
    ensures { GivesPatterns result (with_patterns [] (items (json_of list.entry))) }
{
    let mut patterns = Vec::new(alloc);
    for v in list.items() {
        read_pattern(alloc, &mut patterns, v)?;
    }
    Ok(patterns)
}

/// The patterns of `net_settings`.
#[tactic(auto, using(crate::proofs::InOrder::patterns_in_order), unfolding(crate::specs::ClassesOf::patterns_in))]
pub(crate) fn patterns_in(
    alloc: Global,
    settings: Option<Value<'_, '_>>,
) -> Result<Vec<Pattern>, ProjectError>
    ensures { GivesPatterns result (patterns_in (json_if settings.entry)) }
{
    match list_in(settings, b"netclass_patterns")? {
        None => Ok(Vec::new(alloc)),
        Some(list) => read_patterns(alloc, list),
    }
}
