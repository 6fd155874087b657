//! What a text is read as, and why it is refused.

ghost use Rattle.std.specs.Prelude.{ℕ, List, ◌≡◌, ◌≢◌, ◌⊎◌, length, IfOk, IfErr, MatchResult};
ghost use Rattle.plain_types.specs.Limits.{IsReadable};
ghost use Rattle.json_exact.specs.Json.{Json as JsonValue};
ghost use Rattle.json_exact.specs.JsonText.{SpelledWithin};
ghost use Rattle.json_exact.specs.JsonRefusals.{IsRefused, depth_limit};
ghost use Rattle.json_exact.specs.ValueSpans.{IsPlaced};
ghost use Rattle.json_exact.specs.Handles.{value_of};

use crate::error::JsonError;
use crate::handles::Json;
use crate::reader;
use std::alloc::Global;

/// Reads the one value of a text (RFC 8259, in UTF-8), with brackets at most 64 deep. The text has at most
/// 33,554,432 bytes, so that its places fit. It is read once, and nothing of it is copied.
pub fn parse<'t>(alloc: Global, text: &'t [u8]) -> Result<Json<'t>, JsonError>
    requires { IsReadable text.now }
    // What is read is the value that the text spells,
    ensures value { IfOk result (λ j. SpelledWithin depth_limit text.now (value_of j)) }
    // what the text spells is read, and there is no other value,
    ensures only { (v : JsonValue) → SpelledWithin depth_limit text.now v
        → MatchResult result (λ j. value_of j ≡ v) (λ e. e ≡ JsonError.OutOfMemory) }
    // spans are in order and inside those around them, and a number is the slice of its span,
    ensures spans { IfOk result (λ j. IsPlaced text.now 0 (value_of j) (length text.now)) }
    // a refusal is that of the text,
    ensures refusal { IfErr result (λ e. IsRefused text.now e) }
    // and a text that is to be refused so is refused so.
    ensures refused { (e : JsonError) → IsRefused text.now e → e ≢ JsonError.OutOfMemory
        → MatchResult result (λ _. ⊥) (λ f. (f ≡ e) ⊎ (f ≡ JsonError.OutOfMemory)) }
{
    match reader::read(alloc, text) {
        Ok(cells) => Ok(Json { text, cells }),
        Err(refused) => Err(refused),
    }
}

/// No text has two values, however deep brackets may nest: a law of the definitions alone.
pub fn one_value()
    ensures { (levels more : ℕ) (text : List ℕ) (v w : JsonValue) → SpelledWithin levels text v
        → SpelledWithin more text w → v ≡ w }
{}
