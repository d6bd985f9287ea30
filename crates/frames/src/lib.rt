// Lines in, an answer line out for each (document 01, "Frames").
#![tactic(auto)]

mod digits;
mod lines;
mod printing;
mod reading;
mod session;
mod text;

pub use printing::{answer_line, answer_values};
pub use session::{Standing, new_queue, new_standing};
pub use text::{Walked, walk};
