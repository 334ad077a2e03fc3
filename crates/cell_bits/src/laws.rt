//! What the constants come to.

ghost use Rattle.std.specs.Prelude.{◌≡◌};
ghost use Rattle.cell_bits.specs.Marks.{mark};

use crate::marks::{
    FM_DATA_MARK, FM_DELETED_DATA_MARK, FM_ID_MARK, FM_INDEX_MARK, MFM_A1_MARK, MFM_C2_MARK,
};

/// Each mark is the 16 cells of its byte with the clock bits that its standard gives it (IBM 3740 for FM, IBM
/// System 34 for MFM). MFM's rule gives A1 the clock 0E and C2 the clock 1C; each mark lacks a one of it.
#[tactic(auto, unfolding(crate::specs::Marks::mark, crate::specs::Marks::woven, crate::specs::Word::number_of, crate::specs::Word::word_cells))]
pub fn marks_law()
    ensures fm_id { mark 0xC7 0xFE ≡ FM_ID_MARK }
    ensures fm_data { mark 0xC7 0xFB ≡ FM_DATA_MARK }
    ensures fm_deleted_data { mark 0xC7 0xF8 ≡ FM_DELETED_DATA_MARK }
    ensures fm_index { mark 0xD7 0xFC ≡ FM_INDEX_MARK }
    ensures mfm_a1 { mark 0x0A 0xA1 ≡ MFM_A1_MARK }
    ensures mfm_c2 { mark 0x14 0xC2 ≡ MFM_C2_MARK }
{}
