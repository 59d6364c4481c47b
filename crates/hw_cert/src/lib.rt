//! The text of a certificate's lines, and the reader that takes them from a feed.
#![tactic(auto)]

mod fitting;
mod laws;
mod log;
mod memory_log;
mod pending;
mod putting;
mod reader;
mod sending;
mod spelling;
mod stop;
mod taking;
mod tolling;
mod tray_log;
mod version;
mod words;

pub use fitting::{are_cheap, tolls_ascend};
pub use hw_cert_lines::{CheckWord, Hints, Line, Refusal, Verdict};
pub use hw_price_laws::{Block, Blocks, Due, Dues, Tariff, Toll, Weights};
pub use laws::{
    cert_spelled, form_spelled, header_spelled, line_spelled, overlong_passes, plain_forms,
    plain_read, read_forms, stream_reads, stream_steps, text_rows, text_told, third_forms,
    third_reads, third_streams, valid_reads, valid_streams,
};
pub use log::{Log, LogStop};
pub use memory_log::MemoryLog;
pub use reader::{LineReader, Next};
pub use sending::{send_cert, send_header};
pub use stop::{FormWord, LineStop};
pub use tray_log::{HeaderFailed, TrayLog};
pub use version::Version;
