//! What is asked for: a check, or what the first word names.

ghost use Rattle.std.specs.Prelude.{◌≡◌, ◌≤◌, [], ◌∷◌, IfOk, IfSome, option_map};
ghost use Rattle.plain_types.specs.Limits.{most_workers};
ghost use Rattle.run_words.specs.Calls.{check_call, names_file, two_files, undo_if, try_if, try_call};
ghost use Rattle.run_words.specs.Calls.{call_of, words_of, file_and_number, steal_if, write_if};
ghost use Rattle.run_words.specs.CallValues.{files_in, call_in, CallFits, numbered_in};

use crate::words::{MOST_WORKERS, Request, number_in, request_of};
use std::alloc::{AllocError, Global};

/// The most workers of trials, since each of them holds a copy of all that is checked.
const MOST_TRYING: u32 = 8;

/// The file of a board, and that of a script.
#[derive(Clone, Copy)]
pub struct Scripted<'a> {
    pub board: &'a str,
    pub script: &'a str,
}

/// The file of a board, and a number of workers.
#[derive(Clone, Copy)]
pub struct Numbered<'a> {
    pub board: &'a str,
    pub number: u32,
}

/// What the words ask for.
#[derive(Clone, Copy)]
pub enum Call<'a> {
    /// Nothing: this line says how the program is called.
    Nothing(&'static [u8]),
    /// A check, and one after each command of a script.
    Check(Request<'a>),
    /// A check after each step of a script that may undo commands and do them again.
    Undo(Scripted<'a>),
    /// What each command of a script would do alone, by so many workers, from 1 to 8.
    Try { files: Scripted<'a>, workers: u32 },
    /// The rows of a board, by workers that steal tiles from each other.
    Steal(Numbered<'a>),
    /// The text of a board after the commands of a script.
    Write(Scripted<'a>),
}

/// The call of a check, whatever the first word is. Words that call for nothing give the line that says how the
/// program is called. The one error is running out of memory.
pub fn check_call<'a>(alloc: Global, words: &'a [&'a str]) -> Result<Call<'a>, AllocError>
    ensures call { IfOk result (λ call. call_in call ≡ check_call (words_of words.entry.now)) }
    ensures fits { IfOk result CallFits }
{
    match request_of(alloc, words)? {
        Some(request) => Ok(Call::Check(request)),
        None => Ok(Call::Nothing(
            b"usage: drc [BOARD] [--project FILE] [--rules FILE] [--script FILE] [--workers N] [--make N]\n",
        )),
    }
}

/// Whether a word may name a file: it does not begin with a dash.
fn names_file(word: &str) -> bool
    ensures { result ≡ names_file word.now }
{
    match word.as_bytes() {
        [first, ..] => *first != b'-',
        [] => true,
    }
}

/// The files of a board and of a script: two words.
fn two_files<'a>(words: &'a [&'a str]) -> Option<Scripted<'a>>
    ensures { option_map files_in result ≡ two_files (words_of words.entry.now) }
{
    match words {
        [board, script] if names_file(board) && names_file(script) => {
            Some(Scripted { board, script })
        }
        _ => None,
    }
}

/// The call of the words behind `undo`.
fn undo_call<'a>(words: &'a [&'a str]) -> Call<'a>
    ensures call { call_in result ≡ undo_if (two_files (words_of words.entry.now)) }
    ensures fits { CallFits result }
{
    match two_files(words) {
        Some(files) => Call::Undo(files),
        None => Call::Nothing(b"usage: drc undo BOARD SCRIPT\n"),
    }
}

/// The call of trials, where the words name two files and so many workers.
fn try_if<'a>(files: Option<Scripted<'a>>, workers: Option<u32>) -> Call<'a>
    requires { IfSome workers (λ number. (1 ≤ number) × (number ≤ 8)) }
    ensures call { call_in result ≡ try_if (option_map files_in files.entry) workers }
    ensures fits { CallFits result }
{
    match (files, workers) {
        (Some(files), Some(workers)) => Call::Try { files, workers },
        _ => Call::Nothing(b"usage: drc try BOARD SCRIPT N\n"),
    }
}

/// The two files of trials.
fn files_of<'a>(board: &'a str, script: &'a str) -> Option<Scripted<'a>>
    ensures { option_map files_in result
        ≡ two_files (board.entry.now ∷ script.entry.now ∷ []) }
{
    if names_file(board) && names_file(script) {
        Some(Scripted { board, script })
    } else {
        None
    }
}

/// The call of the words behind `try`.
fn try_call<'a>(words: &'a [&'a str]) -> Call<'a>
    ensures call { call_in result ≡ try_call (words_of words.entry.now) }
    ensures fits { CallFits result }
{
    match words {
        [board, script, number] => {
            try_if(files_of(board, script), number_in(number, MOST_TRYING))
        }
        _ => Call::Nothing(b"usage: drc try BOARD SCRIPT N\n"),
    }
}

/// The file of a board, and a number from 1 to `most`: two words.
fn file_and_number<'a>(most: u32, words: &'a [&'a str]) -> Option<Numbered<'a>>
    ensures found { option_map numbered_in result
        ≡ file_and_number most (words_of words.entry.now) }
    ensures fits { IfSome result (λ found. (1 ≤ found.number) × (found.number ≤ most)) }
{
    match words {
        [board, number] => {
            let number = number_in(number, most)?;
            if names_file(board) {
                Some(Numbered { board, number })
            } else {
                None
            }
        }
        _ => None,
    }
}

/// The call of the words behind `steal`.
fn steal_call<'a>(words: &'a [&'a str]) -> Call<'a>
    ensures call { call_in result
        ≡ steal_if (file_and_number most_workers (words_of words.entry.now)) }
    ensures fits { CallFits result }
{
    match file_and_number(MOST_WORKERS, words) {
        Some(found) => Call::Steal(found),
        None => Call::Nothing(b"usage: drc steal BOARD N\n"),
    }
}

/// The call of the words behind `write`.
fn write_call<'a>(words: &'a [&'a str]) -> Call<'a>
    ensures call { call_in result ≡ write_if (two_files (words_of words.entry.now)) }
    ensures fits { CallFits result }
{
    match two_files(words) {
        Some(files) => Call::Write(files),
        None => Call::Nothing(b"usage: drc write BOARD SCRIPT\n"),
    }
}

/// The call of the words, by the first of them: `undo`, `try`, `steal` and `write` have calls of their own, and all
/// else calls for a check. Words that call for nothing give the line that says how the program is called. The one error
/// is running out of memory.
pub fn call_of<'a>(alloc: Global, words: &'a [&'a str]) -> Result<Call<'a>, AllocError>
    ensures call { IfOk result (λ call. call_in call ≡ call_of (words_of words.entry.now)) }
    ensures fits { IfOk result CallFits }
{
    match words {
        [first, behind @ ..] if *first == "undo" => Ok(undo_call(behind)),
        [first, behind @ ..] if *first == "try" => Ok(try_call(behind)),
        [first, behind @ ..] if *first == "steal" => Ok(steal_call(behind)),
        [first, behind @ ..] if *first == "write" => Ok(write_call(behind)),
        _ => check_call(alloc, words),
    }
}
