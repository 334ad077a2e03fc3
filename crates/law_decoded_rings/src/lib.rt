//! What decoding makes of a written track whose cells were recovered in pieces: which sectors are good, and with which
//! bytes. Definitions and laws, for every recording; nothing here is called for what it does.
#![tactic(auto)]

mod laws;

pub use laws::{no_others_in_pieces, own_sectors_are_right};
