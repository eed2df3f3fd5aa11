//! What `frames` prints: a line for each frame of the bytes that a source gives, and a last line.
//!
//! `print_frames` meets `PrintsFrames` (specs/PrintedFrames), one case an ending: at the end of the source exactly
//! `frames_text` of the bytes was written; with a frame fault the same, or a beginning where the sink failed; where
//! the source failed, or more than 268,435,456 bytes came, the lines of all frames up to there; where the sink failed,
//! a beginning; where memory ran out, the lines of the first frames, or a beginning of them where the sink had failed.
//! It holds one frame, the bytes of one read and 64 KiB of lines.
#![tactic(auto)]

mod ending_text;
mod frame_text;
mod hexadecimal;
mod lines;
mod output;
mod piece;
mod print;
mod view;

pub use print::{PrintFault, StreamEnd, print_frames};
