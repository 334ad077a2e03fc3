mod decoding;
mod disturbance;
mod names;
mod plans;
mod streams;
mod writing;
