//! A picture of a disk, as SVG: a grid for each head, cylinders across and sectors down, and in it a field for each
//! sector, whose colour and shape are its verdict and whose title is its line of the report.
//!
//! A disk is read by the engine's loop (`flux_engine`), by the plan of its report, and the fields of a track are
//! written as soon as it is read. What is written depends on the format and on the verdicts alone. Dumps of a disk are
//! read as `dump_reading` reads them; what else is told of their tracks can be written beside the picture (`LineWriter`).
#![tactic(auto)]

mod disk;
mod dumps;
mod field_writer;
mod kind;
mod laws;
mod layout;
mod text;
mod texts;

pub use disk::map_disk;
pub use dumps::{begin_drawing, end_drawing, map_dumps};
pub use field_writer::{FieldWriter, LineWriter};
pub use kind::{Kind, kind_of, name_of};
pub use laws::{
    dumps_are_drawn_as_reported, each_sector_has_its_field, fields_tell_verdicts,
    maps_are_of_reports,
};
pub use layout::Layout;
pub use text::Text;
pub use texts::{field_text, foot_text};
