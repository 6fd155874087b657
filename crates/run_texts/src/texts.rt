//! The texts that the words name: they are fetched and read in their order, each before the next.

ghost use Rattle.std.specs.Prelude.{◌≡◌, ◌≤◌, ℕ, List, [], Option, Some, IfOk, IfErr, MatchResult};
ghost use Rattle.std.specs.Prelude.{MatchOption, Ok, Err, length, map, All, option_map, slice_get};
ghost use Rattle.plain_types.specs.Limits.{IsInText, IsReadable, most_trials};
ghost use Rattle.drc_io.specs.Files.{IsWholeFile};
ghost use Rattle.net_class.specs.NetClasses.{plain_classes};
ghost use Rattle.rule_text.specs.RulesOf.{no_rules};
ghost use Rattle.rule_text.specs.RuleValues.{plain_rules};
ghost use Rattle.edit_script.specs.Commands.{PlainCommand, place_of, plain_command, plain_step};
ghost use Rattle.edit_script.specs.Fits.{Fits, StepFits, AreShallow};
ghost use Rattle.made_board.specs.MadeBoard.{made_text};
ghost use Rattle.run_words.specs.Calls.{PlainCall, check};
ghost use Rattle.run_words.specs.CallValues.{source_in, reading_in, SourceFits, RequestFits};
ghost use Rattle.run_texts.specs.OpenedValues.{opened_in};
ghost use Rattle.run_texts.specs.NamedTexts.{named, word_of, texts_of, a_board, a_project, a_rules};
ghost use Rattle.run_texts.specs.NamedTexts.{a_script, some_steps, accepted, ReaderSays, AreBytesOf, SourceSays};
ghost use Rattle.run_texts.specs.RunFindings.{StopsReading, StopsText, StopsTexts, StopsOption};
ghost use Rattle.run_texts.specs.RunFindings.{StopsReadingOption, AreBytesOfOption, Gives, GivesReading};
ghost use Rattle.run_texts.specs.RunFindings.{AreOpened, IsStopOf, only_board, board_and_script};

use board_items::Board;
use drc_io::{FetchError, Shelf, fetch};
use edit_script::laws::accepted_forms;
use edit_script::{Command, Step, read_script, read_steps};
use made_board::made_text;
use net_class::{Classes, read_project};
use pcb_read::read_board_by;
use plain_types::{Causes, HasReason, MOST_TEXT, MOST_TRIALS, Reason};
use rule_text::{RuleList, RuleNotes, Rules, read_rules};
use run_words::{BoardSource, Request, Scripted};
use sexpr_read::laws::spans_in_order;
use std::alloc::Global;
use std::thread::Threads;

/// The most bytes of a text.
const LIMIT: u32 = MOST_TEXT as u32;

/// Which text, in the order in which they are read.
#[derive(Clone, Copy, Debug, PartialEq, Eq)]
pub enum Which {
    Board,
    Project,
    Rules,
    /// A script of commands.
    Script,
    /// A script of steps, among which undo and redo are.
    Steps,
    /// A script of commands that are tried: at most 15,625.
    Trials,
    /// A board whose own text is wanted.
    Text,
}

impl Which {
    /// What lines call the text.
    pub fn word(self) -> &'static [u8]
        ensures { result.now ≡ word_of self }
    {
        match self {
            Which::Board | Which::Text => b"board",
            Which::Project => b"project",
            Which::Rules => b"rules",
            Which::Script | Which::Steps | Which::Trials => b"script",
        }
    }
}

/// Why a text is refused, and where.
#[derive(Clone, Copy)]
pub struct Refusal {
    pub which: Which,
    /// What the reason is called, and its numbers.
    pub causes: Causes,
    /// The byte of the text.
    pub at: u32,
    /// For a condition, the byte of what its text stands for.
    pub inner: Option<u32>,
}

/// Why there is no report.
#[derive(Clone, Copy)]
pub enum Stop {
    /// A text is refused.
    Refused(Refusal),
    /// The file of the text was not read.
    Unread(Which),
    /// Memory ran out.
    OutOfMemory,
}

/// What the texts stand for: a board, the classes of its nets, and the rules of its design.
#[derive(Drop)]
pub struct Texts {
    pub board: Board,
    pub classes: Classes,
    pub rules: Rules,
}

/// The refusal of a text for this reason. Running out of memory has no place.
fn refused_for(which: Which, why: &Reason) -> Stop
    ensures { IsStopOf which why.now result }
{
    match why.place() {
        None => Stop::OutOfMemory,
        Some(at) => Stop::Refused(Refusal {
            which,
            causes: why.causes(),
            at,
            inner: why.inner_place(),
        }),
    }
}

/// The refusal of a text by its reader. Running out of memory has no place.
pub fn refused<E: HasReason>(which: Which, error: &E) -> Stop
    ensures { IsStopOf which (E.reason_of error.now) result }
{
    refused_for(which, &error.reason())
}

/// Fetches a text of at most 33,554,432 bytes. One that is longer is refused, and one whose file is not read, or for
/// which there is no memory, stops the run too.
pub fn fetch_text<F: Shelf>(
    alloc: Global,
    which: Which,
    name: &str,
    shelf: &mut F,
) -> Result<Vec<u8>, Stop>
    ensures whole { IfOk result (λ text. IsWholeFile (F.files shelf.old) name.now text.items) }
    ensures short { IfOk result (λ text. IsReadable text.items) }
    ensures stop { IfErr result (StopsText (F.files shelf.old) (F.faults shelf.old)
        (F.faults shelf.new) (named which name.now)) }
    ensures same { F.files shelf.new ≡ F.files shelf.old }
    ensures counts { (other : List ℕ) → F.faults shelf.old other ≤ F.faults shelf.new other }
{
    match fetch(alloc, shelf, name, LIMIT) {
        Ok(text) => Ok(text),
        Err(FetchError::TooLong) => {
            Err(refused_for(which, &Reason::new("TooLong", 0, Some(LIMIT))))
        }
        Err(FetchError::Failed) => Err(Stop::Unread(which)),
        Err(FetchError::OutOfMemory) => Err(Stop::OutOfMemory),
    }
}

/// The text of the generated board of so many, from 1 to 90,000.
fn generated_text(
    rt: &(impl Threads + Sync),
    alloc: Global,
    workers: u32,
    count: u32,
) -> Result<Vec<u8>, Stop>
    requires { (1 ≤ count) × (count ≤ 90_000) }
    ensures text { IfOk result (λ text. text.items ≡ made_text count) }
    ensures short { IfOk result (λ text. IsReadable text.items) }
    ensures stop { IfErr result (λ stop. stop ≡ Stop.OutOfMemory) }
{
    match made_text(rt, alloc, workers, count) {
        Ok(text) => Ok(text),
        Err(_) => Err(Stop::OutOfMemory),
    }
}

/// The text of the board, which is fetched or generated.
fn board_text<R: Threads + Sync, F: Shelf>(
    rt: &R,
    alloc: Global,
    workers: u32,
    source: BoardSource<'_>,
    shelf: &mut F,
) -> Result<Vec<u8>, Stop>
    requires { SourceFits source }
    ensures whole { IfOk result (λ text. AreBytesOf (F.files shelf.old) (source_in source.entry)
        text.items) }
    ensures short { IfOk result (λ text. IsReadable text.items) }
    ensures stop { IfErr result (StopsText (F.files shelf.old) (F.faults shelf.old)
        (F.faults shelf.new) (record { which = Which.Board; source = source_in source.entry })) }
    ensures same { F.files shelf.new ≡ F.files shelf.old }
    ensures counts { (other : List ℕ) → F.faults shelf.old other ≤ F.faults shelf.new other }
{
    match source {
        BoardSource::File(name) => fetch_text(alloc, Which::Board, name, shelf),
        BoardSource::Made(count) => generated_text(rt, alloc, workers, count),
    }
}

/// The board of a text.
fn board_in(
    rt: &(impl Threads + Sync),
    alloc: Global,
    workers: u32,
    text: &[u8],
) -> Result<Board, Stop>
    requires { IsReadable text.now }
    ensures { MatchResult result (λ board. ReaderSays Which.Board text.now
        (accepted (a_board board))) (StopsReading Which.Board text.now) }
{
    match read_board_by(rt, alloc, workers, text) {
        Ok(board) => Ok(board),
        Err(e) => Err(refused(Which::Board, &e)),
    }
}

/// The classes of the text of a project.
fn classes_in(alloc: Global, text: &[u8]) -> Result<Classes, Stop>
    requires { IsReadable text.now }
    ensures { MatchResult result (λ classes. ReaderSays Which.Project text.now
        (accepted (a_project classes))) (StopsReading Which.Project text.now) }
{
    match read_project(alloc, text) {
        Ok(classes) => Ok(classes),
        Err(e) => Err(refused(Which::Project, &e)),
    }
}

/// The rules of the text of a rule file.
fn rules_in(alloc: Global, text: &[u8]) -> Result<Rules, Stop>
    requires { IsReadable text.now }
    ensures says { MatchResult result (λ rules. ReaderSays Which.Rules text.now
        (accepted (a_rules (plain_rules rules)))) (StopsReading Which.Rules text.now) }
    ensures few { IfOk result (λ rules. IsInText (length rules.rules)) }
{
    // A text has no more rules than bytes.
    spans_in_order();
    match read_rules(alloc, text) {
        Ok(rules) => Ok(rules),
        Err(e) => Err(refused(Which::Rules, &e)),
    }
}

/// The commands of the text of a script, which they borrow.
pub fn script_in<'t>(alloc: Global, text: &'t [u8]) -> Result<Vec<Command<'t>>, Stop>
    requires { IsReadable text.now }
    ensures says { MatchResult result (λ commands. ReaderSays Which.Script text.entry.now
        (accepted (a_script (map plain_command commands.items))))
        (StopsReading Which.Script text.entry.now) }
    ensures fit { IfOk result (λ commands. All Fits (map plain_command commands.items)) }
    ensures shallow { IfOk result (λ commands. AreShallow (map plain_command commands.items)) }
    ensures few { IfOk result (λ commands. IsInText (length commands.items)) }
{
    // A script has no more commands than bytes.
    spans_in_order();
    accepted_forms();
    match read_script(alloc, text) {
        Ok(commands) => Ok(commands),
        Err(e) => Err(refused(Which::Script, &e)),
    }
}

/// The steps of the text of a script, which they borrow.
pub fn steps_in<'t>(alloc: Global, text: &'t [u8]) -> Result<Vec<Step<'t>>, Stop>
    requires { IsReadable text.now }
    ensures says { MatchResult result (λ steps. ReaderSays Which.Steps text.entry.now
        (accepted (some_steps (map plain_step steps.items))))
        (StopsReading Which.Steps text.entry.now) }
    ensures fit { IfOk result (λ steps. All StepFits (map plain_step steps.items)) }
{
    match read_steps(alloc, text) {
        Ok(steps) => Ok(steps),
        Err(e) => Err(refused(Which::Steps, &e)),
    }
}

/// The place of the first command that is too many to be tried.
fn first_too_many(commands: &[Command<'_>]) -> Option<u32>
    ensures { MatchOption result (length commands.now ≤ most_trials)
        (λ at. (command : PlainCommand) × (slice_get (map plain_command commands.now) most_trials ≡
        Some command) × (at ≡ place_of command)) }
{
    match commands.get(MOST_TRIALS) {
        Some(command) => Some(command.at()),
        None => None,
    }
}

/// The commands of the text of a script that are tried, which they borrow.
pub fn trials_in<'t>(alloc: Global, text: &'t [u8]) -> Result<Vec<Command<'t>>, Stop>
    requires { IsReadable text.now }
    ensures says { MatchResult result (λ commands. ReaderSays Which.Trials text.entry.now
        (accepted (a_script (map plain_command commands.items))))
        (StopsReading Which.Trials text.entry.now) }
    ensures fit { IfOk result (λ commands. All Fits (map plain_command commands.items)) }
    ensures few { IfOk result (λ commands. length commands.items ≤ most_trials) }
{
    let commands = match read_script(alloc, text) {
        Ok(commands) => commands,
        Err(e) => return Err(refused(Which::Trials, &e)),
    };
    match first_too_many(&commands) {
        Some(at) => { Err(refused_for(Which::Trials, &Reason::new("TooMany", 9, Some(at)))) }
        None => Ok(commands),
    }
}

/// Fetches or makes the board's text and reads it.
fn board_of<R: Threads + Sync, F: Shelf>(
    rt: &R,
    alloc: Global,
    workers: u32,
    source: BoardSource<'_>,
    shelf: &mut F,
) -> Result<Board, Stop>
    requires { SourceFits source }
    ensures ok { IfOk result (λ board. SourceSays (F.files shelf.old)
        (record { which = Which.Board; source = source_in source.entry })
        (accepted (a_board board))) }
    ensures stop { IfErr result (StopsText (F.files shelf.old) (F.faults shelf.old)
        (F.faults shelf.new) (record { which = Which.Board; source = source_in source.entry })) }
    ensures same { F.files shelf.new ≡ F.files shelf.old }
    ensures counts { (other : List ℕ) → F.faults shelf.old other ≤ F.faults shelf.new other }
{
    match board_text(rt, alloc, workers, source, shelf) {
        Ok(text) => board_in(rt, alloc, workers, &text),
        Err(stop) => Err(stop),
    }
}

/// Fetches the project's text and reads it.
fn project_of<F: Shelf>(alloc: Global, name: &str, shelf: &mut F) -> Result<Classes, Stop>
    ensures ok { IfOk result (λ classes. SourceSays (F.files shelf.old)
        (named Which.Project name.now) (accepted (a_project classes))) }
    ensures stop { IfErr result (StopsText (F.files shelf.old) (F.faults shelf.old)
        (F.faults shelf.new) (named Which.Project name.now)) }
    ensures same { F.files shelf.new ≡ F.files shelf.old }
    ensures counts { (other : List ℕ) → F.faults shelf.old other ≤ F.faults shelf.new other }
{
    match fetch_text(alloc, Which::Project, name, shelf) {
        Ok(text) => classes_in(alloc, &text),
        Err(stop) => Err(stop),
    }
}

/// Fetches the text of the rule file and reads it.
fn rule_file_of<F: Shelf>(alloc: Global, name: &str, shelf: &mut F) -> Result<Rules, Stop>
    ensures ok { IfOk result (λ rules. SourceSays (F.files shelf.old) (named Which.Rules name.now)
        (accepted (a_rules (plain_rules rules)))) }
    ensures few { IfOk result (λ rules. IsInText (length rules.rules)) }
    ensures stop { IfErr result (StopsText (F.files shelf.old) (F.faults shelf.old)
        (F.faults shelf.new) (named Which.Rules name.now)) }
    ensures same { F.files shelf.new ≡ F.files shelf.old }
    ensures counts { (other : List ℕ) → F.faults shelf.old other ≤ F.faults shelf.new other }
{
    match fetch_text(alloc, Which::Rules, name, shelf) {
        Ok(text) => rules_in(alloc, &text),
        Err(stop) => Err(stop),
    }
}

/// The classes of the project, or without one the plain ones.
fn classes_of<F: Shelf>(alloc: Global, name: Option<&str>, shelf: &mut F) -> Result<Classes, Stop>
    ensures ok { IfOk result (λ classes. Gives (F.files shelf.old) Which.Project
        (option_map (λ file. file.now) name.entry) (a_project plain_classes) (a_project classes)) }
    ensures stop { IfErr result (StopsOption (F.files shelf.old) (F.faults shelf.old)
        (F.faults shelf.new) Which.Project (option_map (λ file. file.now) name.entry)) }
    ensures same { F.files shelf.new ≡ F.files shelf.old }
    ensures counts { (other : List ℕ) → F.faults shelf.old other ≤ F.faults shelf.new other }
{
    match name {
        Some(name) => project_of(alloc, name, shelf),
        None => match Classes::plain(alloc) {
            Ok(classes) => Ok(classes),
            Err(_) => Err(Stop::OutOfMemory),
        },
    }
}

/// No rules.
fn no_rules(alloc: Global) -> Rules
    ensures none { plain_rules result ≡ no_rules }
    ensures few { IsInText (length result.rules) }
{
    Rules {
        rules: RuleList::of(Vec::new(alloc)),
        notes: RuleNotes::of(Vec::new(alloc)),
    }
}

/// The rules of the rule file, or without one none.
fn rules_of<F: Shelf>(alloc: Global, name: Option<&str>, shelf: &mut F) -> Result<Rules, Stop>
    ensures ok { IfOk result (λ rules. Gives (F.files shelf.old) Which.Rules
        (option_map (λ file. file.now) name.entry) (a_rules no_rules)
        (a_rules (plain_rules rules))) }
    ensures few { IfOk result (λ rules. IsInText (length rules.rules)) }
    ensures stop { IfErr result (StopsOption (F.files shelf.old) (F.faults shelf.old)
        (F.faults shelf.new) Which.Rules (option_map (λ file. file.now) name.entry)) }
    ensures same { F.files shelf.new ≡ F.files shelf.old }
    ensures counts { (other : List ℕ) → F.faults shelf.old other ≤ F.faults shelf.new other }
{
    match name {
        Some(name) => rule_file_of(alloc, name, shelf),
        None => Ok(no_rules(alloc)),
    }
}

/// Fetches and reads the texts but for the script, each where those before it are accepted.
pub fn texts_of<R: Threads + Sync, F: Shelf>(
    rt: &R,
    alloc: Global,
    request: Request<'_>,
    shelf: &mut F,
) -> Result<Texts, Stop>
    requires { RequestFits request }
    ensures ok { IfOk result (λ texts. AreOpened (F.files shelf.old) (reading_in request.entry)
        (opened_in texts)) }
    ensures few { IfOk result (λ texts. IsInText (length texts.rules.rules)) }
    ensures stop { IfErr result (StopsTexts (F.files shelf.old) (check (reading_in request.entry))
        (F.faults shelf.old) (F.faults shelf.new)) }
    ensures same { F.files shelf.new ≡ F.files shelf.old }
    ensures counts { (other : List ℕ) → F.faults shelf.old other ≤ F.faults shelf.new other }
{
    let board = match board_of(rt, alloc, request.workers, request.board, shelf) {
        Ok(board) => board,
        Err(stop) => return Err(stop),
    };
    let classes = match classes_of(alloc, request.project, shelf) {
        Ok(classes) => classes,
        Err(stop) => return Err(stop),
    };
    match rules_of(alloc, request.rules, shelf) {
        Ok(rules) => Ok(Texts {
            board,
            classes,
            rules,
        }),
        Err(stop) => Err(stop),
    }
}

/// Fetches the script's text, which is empty where there is no script.
pub fn script_text<F: Shelf>(
    alloc: Global,
    name: Option<&str>,
    shelf: &mut F,
) -> Result<Vec<u8>, Stop>
    ensures whole { IfOk result (λ text. AreBytesOfOption (F.files shelf.old)
        (option_map (λ file. file.now) name.entry) text.items) }
    ensures short { IfOk result (λ text. IsReadable text.items) }
    ensures stop { IfErr result (StopsOption (F.files shelf.old) (F.faults shelf.old)
        (F.faults shelf.new) Which.Script (option_map (λ file. file.now) name.entry)) }
    ensures same { F.files shelf.new ≡ F.files shelf.old }
    ensures counts { (other : List ℕ) → F.faults shelf.old other ≤ F.faults shelf.new other }
{
    match name {
        Some(name) => fetch_text(alloc, Which::Script, name, shelf),
        None => Ok(Vec::new(alloc)),
    }
}

/// The commands of the script with this text, or without a script none.
pub fn commands_of<'t>(
    alloc: Global,
    name: Option<&str>,
    text: &'t [u8],
) -> Result<Vec<Command<'t>>, Stop>
    requires { IsReadable text.now }
    ensures says { IfOk result (λ commands. GivesReading Which.Script
        (option_map (λ file. file.now) name.entry) text.entry.now (a_script [])
        (a_script (map plain_command commands.items))) }
    ensures stop { IfErr result (StopsReadingOption Which.Script
        (option_map (λ file. file.now) name.entry) text.entry.now) }
    ensures fit { IfOk result (λ commands. All Fits (map plain_command commands.items)) }
{
    match name {
        Some(_) => script_in(alloc, text),
        None => Ok(Vec::new(alloc)),
    }
}

/// A board alone, under the plain classes and no rules, as one worker checks it.
pub fn board_alone(name: &str) -> Request<'_>
    ensures reading { reading_in result ≡ only_board name.entry.now }
    ensures fits { RequestFits result }
{
    Request {
        board: BoardSource::File(name),
        project: None,
        rules: None,
        script: None,
        workers: 1,
    }
}

/// Fetches and reads the board's text, and then fetches the script's, which is of this sort.
pub fn scripted_texts<R: Threads + Sync, F: Shelf>(
    rt: &R,
    alloc: Global,
    which: Which,
    files: Scripted<'_>,
    shelf: &mut F,
) -> Result<(Texts, Vec<u8>), Stop>
    ensures ok { IfOk result (λ r. AreOpened (F.files shelf.old) (only_board files.entry.board.now)
        (opened_in r.0)) }
    ensures few { IfOk result (λ r. IsInText (length r.0.rules.rules)) }
    ensures whole { IfOk result (λ r. IsWholeFile (F.files shelf.old) files.entry.script.now
        r.1.items) }
    ensures short { IfOk result (λ r. IsReadable r.1.items) }
    ensures stop { IfErr result (λ stop. (call : PlainCall) → texts_of call ≡ board_and_script which
        files.entry.board.now files.entry.script.now → StopsTexts (F.files shelf.old) call
        (F.faults shelf.old) (F.faults shelf.new) stop) }
    ensures same { F.files shelf.new ≡ F.files shelf.old }
    ensures counts { (other : List ℕ) → F.faults shelf.old other ≤ F.faults shelf.new other }
{
    let texts = match texts_of(rt, alloc, board_alone(files.board), shelf) {
        Ok(texts) => texts,
        Err(stop) => return Err(stop),
    };
    match fetch_text(alloc, which, files.script, shelf) {
        Ok(script) => Ok((texts, script)),
        Err(stop) => Err(stop),
    }
}
