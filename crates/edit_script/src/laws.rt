//! Laws of what scripts say. The functions do nothing: each clause holds for all texts.

ghost use Rattle.std.specs.Prelude.{◌≡◌, ◌↔◌, ℕ, true, false, List, ◌∷◌, ◌++◌, All, map, Result, Ok};
ghost use Rattle.std.specs.List.{AllZip};
ghost use Rattle.sexpr_read.specs.Tree.{Tree, parts};
ghost use Rattle.list_read.specs.FirstRefusals.{each_of};
ghost use Rattle.edit_script.specs.declared.error.ScriptError.{ScriptError};
ghost use Rattle.sexpr_read.specs.Spelling.{SpellsAll};
ghost use Rattle.edit_script.specs.Commands.{PlainCommand, PlainStep, edit, as_steps};
ghost use Rattle.edit_script.specs.CommandsOf.{is_turn, bad_behind, step_of, commands_of, steps_of};
ghost use Rattle.edit_script.specs.CommandGrammar.{IsCommand, IsStep};
ghost use Rattle.edit_script.specs.ScriptText.{ScriptSays, SaysSteps};

use sexpr_read::laws::one_tree;

/// No text says two things.
pub fn one_reading()
    ensures commands { (text : List ℕ) (a b : Result (List PlainCommand) ScriptError)
        → ScriptSays text a → ScriptSays text b → a ≡ b }
    ensures steps { (text : List ℕ) (a b : Result (List PlainStep) ScriptError) → SaysSteps text a
        → SaysSteps text b → a ≡ b }
{
    one_tree();
}

/// A script is accepted exactly where each of its forms is a command, and then its commands are those; so are its steps.
pub fn accepted_forms()
    ensures commands { (script : List ℕ) (root : Tree) (commands : List PlainCommand)
        → (commands_of script root ≡ Ok commands)
        ↔ AllZip (IsCommand script) (parts root) commands }
    ensures steps { (script : List ℕ) (root : Tree) (steps : List PlainStep)
        → (steps_of script root ≡ Ok steps) ↔ AllZip (IsStep script) (parts root) steps }
{}

/// Steps are read as commands are, with `(undo)` and `(redo)` beside them: a script in which no form begins with these words says the
/// same to both readers, a refusal too; what is accepted as commands is accepted as the steps that carry them out, and the other way; and
/// where a form begins with one of the words, the first such form is bad among commands, unless a form before it is refused.
pub fn steps_and_commands()
    ensures alike { (text : List ℕ)
        → ((tree : Tree) → SpellsAll text tree → All (λ form. is_turn form ≡ false) (parts tree))
        → (answer : Result (List PlainCommand) ScriptError)
        → ScriptSays text answer ↔ SaysSteps text (as_steps answer) }
    ensures accepted { (text : List ℕ) (commands : List PlainCommand)
        → ScriptSays text (Ok commands)
        ↔ SaysSteps text (Ok (map (λ command. edit command) commands)) }
    ensures turned { (script : List ℕ) (root : Tree) (prefix rest : List Tree) (turn : Tree)
        → parts root ≡ prefix ++ turn ∷ rest → All (λ form. is_turn form ≡ false) prefix
        → is_turn turn ≡ true
        → commands_of script root ≡ bad_behind turn (each_of (step_of script) prefix) }
{}
