//! What reaches outside of the program: a keeper of files and an end for output, each with its faults counted.
#![tactic(auto)]

pub mod answers;
pub mod depot;
pub mod file_map;
pub mod folder;
pub mod mem_depot;
pub mod mem_sink;
pub mod numbers;
pub mod room;
pub mod sink;
pub mod stdout;
pub mod streams;
pub mod sure;

pub use answers::{ReadAnswer, SinkFault, WriteFault};
pub use depot::Depot;
pub use file_map::FileMap;
pub use folder::FolderDepot;
pub use mem_depot::MemDepot;
pub use mem_sink::MemSink;
pub use numbers::NumberList;
pub use room::ByteRoom;
pub use sink::Sink;
pub use stdout::StdoutSink;
pub use sure::{SureDepot, SureSink};
