//! What the program reads from and writes to, as traits that count their failures.
#![tactic(auto)]

mod fault;
mod files;
mod filling;
mod gate;
mod give;
mod mem;
mod mem_file;
mod mem_files;
mod named;
mod opening;
mod put;
mod sink;
mod source;
mod sure;
mod sure_file;
mod sure_files;
mod system;

pub use fault::{Failed, IoFault};
pub use files::Files;
pub use filling::fill;
pub use gate::{Gate, OpenGate};
pub use mem::{MemSink, MemSource};
pub use mem_file::MemFile;
pub use mem_files::MemFiles;
pub use opening::Opening;
pub use put::put_all;
pub use sink::Sink;
pub use source::Source;
pub use sure::{SureSink, SureSource};
pub use sure_file::SureFile;
pub use sure_files::SureFiles;
pub use system::{StdFiles, StdSink, StdSource};
