//! All lines of a transcript, and the words that they are made of; what the hosts have in the end of a script, and the report on that
//! as a definition (specs/Report.antt; rds_report makes it). The lines are this project's own; docs/SCRIPT.md has them.
//!
//! Each function whose name ends with `_line` appends one text line, with its line feed, to a text. It fails only where
//! memory runs out, and the text then has a beginning of that line. Hosts are numbers from 0, printed as letters from A;
//! lengths, queues and limits are bytes.
#![tactic(auto)]

mod addresses;
mod command_lines;
mod digits;
mod entry_lines;
mod entry_words;
mod final_state;
mod host;
mod list;
mod ports;
mod refusal;

pub use addresses::{FIRST_ADDRESS, address, host_of};
pub use command_lines::{
    bind_line, close_line, cut_line, drained_line, mark_line, move_line, recv_line, recv_none_line,
    spent_line,
};
pub use digits::{Hex, HexByte};
pub use entry_lines::{accept_line, cancel_line, open_line, pull_line, read_line, shut_line};
pub use final_state::{HostEnd, Kept};
pub use host::{HostName, MAX_HOSTS, SlotName};
pub use list::Numbers;
pub use ports::PortSet;
pub use refusal::{Refusal, pair_refused_line, send_refused_line, socket_refused_line};
