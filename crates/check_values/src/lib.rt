//! The check values of recorded sectors: the cyclic redundancy check of the IBM formats, and the
//! exclusive or of the Commodore, Apple and Amiga formats. No answer is for want of memory.
#![tactic(auto)]

mod message;
mod register;
mod sums;
mod table;

pub use message::crc16;
pub use register::Crc16;
pub use sums::{amiga_xor, xor_bytes};
