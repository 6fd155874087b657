//! The texts that the words name: they are fetched and read in their order, each before the next.
#![tactic(auto)]

mod texts;

pub use texts::{
    Refusal, Stop, Texts, Which, board_alone, commands_of, fetch_text, refused, script_in,
    script_text, scripted_texts, steps_in, texts_of, trials_in,
};
