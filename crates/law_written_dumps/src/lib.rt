//! What the files come to that are written of an image: a dump that is read as the image. Definitions and a law, for
//! all formats; nothing here is called for what it does.
#![tactic(auto)]

mod laws;

pub use laws::written_dumps_are_read;
