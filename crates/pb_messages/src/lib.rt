//! Messages that several commands print: the word of a fault, `line N: bad`, and the reason for which a frame was
//! dropped. Also writes a whole text, and reads the arguments of a line. Uses pb_lan and pb_lines. Begin with
//! [`CommandFault`].
#![tactic(auto)]

mod bad;
mod fault;
mod reason;
mod words;
mod writing;

pub use bad::{MAX_LINE, put_bad};
pub use fault::CommandFault;
pub use reason::{drop_word, put_reason};
pub use words::{cut, local_port, read_port};
pub use writing::write_whole;
