//! Lines that ask for codes to be packed or a packet to be unpacked, and the lines that answer them.
#![tactic(auto)]

mod answers;
mod laws;
mod reading;
mod reasons;
mod texts;

pub use answers::answer;
pub use laws::{one_answer_to_each_line, pack_line_reads_back, unpack_line_reads_back};
pub use reading::{Request, read_line};
pub use reasons::{ReadError, Unreadable};
pub use texts::{codes_text, packet_text};

#[cfg(test)]
mod tests;
