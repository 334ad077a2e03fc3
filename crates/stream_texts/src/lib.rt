//! Info blocks with a text in front of streams (KryoFlux stream protocol): what they change for a reader, which is
//! nothing but the number of bytes. Definitions and a law; nothing here is called for what it does.
#![tactic(auto)]

mod laws;

pub use laws::texts_are_passed;
