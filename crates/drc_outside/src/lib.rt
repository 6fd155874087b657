//! The outside of the program: the files and the output of the system, and the words of the command line.
//!
//! [`FileShelf`] reads files by their names, from where it is told to open them, and [`StdoutSink`] writes a text. Both are proved for
//! every system that tells what it holds. What is trusted is [`SystemFiles`], which opens a file, and that the words are those that were given.
#![tactic(auto)]

mod files;
mod output;
#[cfg(test)]
mod tests;
mod words;

pub use files::{FileShelf, Opens, SystemFiles};
pub use output::StdoutSink;
pub use words::command_line;
