//! Streams that are read, blocks that are written, tracks of SCP files, byte by byte: tests alone, of public calls.
//! They stand apart from `kryo_stream`, whose proof a check of tests in it would make once more.
#![tactic(auto)]

#[cfg(test)]
mod tests;
