//! The lines of a report. They are put into a [`ReportBuffer`], which goes out to a sink in as few writes as their
//! length asks for. The calls `write_*` make a buffer, put their lines into it and let it go out; who has more to
//! write makes one buffer and hands it to the calls `push_*`. No call takes memory.
#![tactic(auto)]

mod buffer;
mod digits;
mod items;
mod millimetres;
mod net;
mod notes;
mod pieces;
mod report;

pub use buffer::ReportBuffer;
pub use net::{push_net, write_net};
pub use notes::{count_notes, push_notes, write_notes};
pub use pieces::push_all;
pub use report::{push_line, push_rows, write_line, write_pieces, write_rows};
