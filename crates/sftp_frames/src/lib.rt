//! Frames between a server of several clients and the program that passes their bytes on.
#![tactic(auto)]

mod fronts;
mod input;
pub mod laws;
mod stream_input;
mod writing;

pub use fronts::{FRAME_LIMIT, Front, front_frame};
pub use input::FrameInput;
pub use stream_input::StreamInput;
pub use writing::{end_stream, put_frame, put_stream};
