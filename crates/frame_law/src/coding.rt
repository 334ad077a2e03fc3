/// How a recording codes its cells: how far ones lie from one another, and what each header begins with.
#[derive(Clone, Copy, Debug)]
pub struct Coding {
    /// The least distance of neighbouring ones of a ring, in cells.
    pub shortest: u8,
    /// The greatest distance of neighbouring ones of a ring, in cells, at most 4.
    pub longest: u8,
    /// The cells with which each header begins, as a number, high bit first.
    pub sync: u32,
    /// How many cells these are, 1 to 32.
    pub sync_cells: u8,
}
