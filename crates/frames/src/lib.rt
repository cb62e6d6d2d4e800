// Lines of hexadecimal: a line parsed to a frame, an answer printed to its line, a line served.
#![tactic(auto)]

mod answer;
mod frame;
mod line;
mod serving;

pub use answer::print;
pub use frame::Frame;
pub use line::parse;
pub use serving::serve;
