//! A list of rules that stands in another text.

ghost use Rattle.std.specs.Prelude.{◌≡◌};
ghost use Rattle.plain_types.specs.Limits.{IsInText};
ghost use Rattle.sexpr_read.specs.Tree.{parts};
ghost use Rattle.sexpr_read.specs.TreeViews.{tree_of};
ghost use Rattle.list_read.specs.RefusalPlaces.{IsNearText};
ghost use Rattle.rule_text.specs.ListText.{list_of, moved_text, moved_error};
ghost use Rattle.rule_text.specs.RuleRefusalPlaces.{IsPlaceInText};
ghost use Rattle.rule_text.specs.ShortRuleTrees.{AllShort};
ghost use Rattle.rule_text.specs.RuleValues.{plain_rules, Gives};

use crate::error::RuleError;
use crate::forms::bad;
use crate::reading::rules_of;
use crate::rules::Rules;
use list_read::{behind_head, has_word_head};
use sexpr_read::{Node, TextError};
use std::alloc::Global;

/// The rules of a text of this length that is one list `(rules ..)`, its head a word, by its own places.
#[tactic(auto, using(crate::proofs::Shortness::behind_head_few, crate::proofs::Shortness::behind_head_short, crate::proofs::Shortness::first_short), unfolding(crate::specs::ListText::list_of))]
pub(crate) fn list_of(alloc: Global, size: u32, root: Node<'_, '_>) -> Result<Rules, RuleError>
    requires { AllShort (parts (tree_of root)) }
    ensures { Gives plain_rules result (list_of size (tree_of root.entry)) }
{
    let mut forms = root.children();
    let Some(list) = forms.next() else {
        return Err(RuleError::Bad { at: 0 });
    };
    if !has_word_head(list, b"rules") {
        return Err(RuleError::Bad { at: 0 });
    }
    match forms.next() {
        None => rules_of(alloc, RuleError::Version { at: size }, behind_head(list)),
        Some(more) => {
            drop(rules_of(alloc, bad(more), behind_head(list))?);
            Err(bad(more))
        }
    }
}

fn moved_text(by: u32, error: TextError) -> TextError
    requires by { IsInText by }
    requires near { IsNearText error }
    ensures { result ≡ moved_text by error }
{
    match error {
        TextError::NotUtf8 { at } => TextError::NotUtf8 { at: by + at },
        TextError::CloseWithoutOpen { at } => TextError::CloseWithoutOpen { at: by + at },
        TextError::EndInside { at } => TextError::EndInside { at: by + at },
        TextError::TooDeep { at } => TextError::TooDeep { at: by + at },
        TextError::ExtraText { at } => TextError::ExtraText { at: by + at },
        TextError::EmptyText => TextError::EmptyText,
        TextError::OutOfMemory => TextError::OutOfMemory,
    }
}

/// The refusal, by the places of the text in which the list begins at `by`.
pub(crate) fn moved(by: u32, error: RuleError) -> RuleError
    requires by { IsInText by }
    requires near { IsPlaceInText error }
    ensures { result ≡ moved_error by error }
{
    match error {
        RuleError::Text(error) => RuleError::Text(moved_text(by, error)),
        RuleError::Version { at } => RuleError::Version { at: by + at },
        RuleError::Bad { at } => RuleError::Bad { at: by + at },
        RuleError::Cond { at, inner } => RuleError::Cond { at: by + at, inner },
        RuleError::BadNumber { at } => RuleError::BadNumber { at: by + at },
        RuleError::OutOfMemory => RuleError::OutOfMemory,
    }
}
