// The outside: files that are read whole and written whole or part by part, and sinks that bytes are put on.
//
// A `Files` or a `Sink` shows a moment: its contents, where it tells them, and counts of its faults that never fall.
// The contract: an answer is Ok only with the whole told file, or once the bytes were put, and raises no count;
// `Failed` comes only where the object's own count of that kind of call rose, for a read also that of the file's name;
// `Long` only for a file past the limit; a refused call changes nothing but what its clause says. After a flush that is
// Ok none of the bytes that were put waits in a buffer. A count that a `u64` keeps stands still at its greatest value.
//
// `MemFiles` and `MemSink` tell everything and fail exactly where they were told to. A `StreamSink` stands over any writer
// and tells what that tells; `StdoutSink` and `StderrSink` are those over the streams of the system, which tell nothing.
// `FolderFiles` has the files of the system, which tell nothing either: its reading and its writing are proved of any
// reader and writer, and so is what it reads of a file ahead of the call that asks for it. What the system's streams and files do with the bytes is the edge that is trusted.
#![tactic(auto)]

mod calls;
mod file_ahead;
mod files;
mod folder_files;
mod mem_files;
mod mem_sink;
mod parts;
mod read_front;
mod sink;
mod stream;
mod stream_sink;
mod streams;
mod write_front;

pub use files::{FileFault, Files};
pub use folder_files::FolderFiles;
pub use mem_files::MemFiles;
pub use mem_sink::MemSink;
pub use parts::{PART_ROOM, Parts};
pub use sink::{Sink, SinkFault};
pub use stream::Stream;
pub use stream_sink::StreamSink;
pub use streams::{StderrSink, StdoutSink};
