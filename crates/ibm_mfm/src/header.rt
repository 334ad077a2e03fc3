ghost use Rattle.std.specs.Prelude.{◌≡◌, ◌≤◌, length, IfNone, IfSome};
ghost use Rattle.flux_base.specs.declared.header_name.HeaderName.{HeaderName};
ghost use Rattle.ibm_mfm.specs.Sectors.{Names};

use crate::layout::{
    ADDRESS_CHECK_PLACE, ADDRESS_PLACE, FIRST_BYTE_PLACE, MARK_CELLS, THIRD_MARK_PLACE,
};
use crate::rows::field_check;
use cell_bits::MFM_A1_MARK;
use flux_base::HeaderName;
use frame_law::CellsFrom;
use ibm_fields::{ID_BYTE, address_at, name_of, number_at};

/// What the header at the front of the cells, which are as many as one has, names. None where it is none, or its check
/// value is another.
pub(crate) fn header_name(frame: &CellsFrom) -> Option<HeaderName>
    requires { 160 ≤ length frame.now }
    ensures named { IfSome result (λ name. Names frame.now name) }
    ensures none { IfNone result ((name : HeaderName) → ¬ Names frame.now name) }
{
    if !frame.stands_at(THIRD_MARK_PLACE, MFM_A1_MARK, MARK_CELLS) {
        return None;
    }
    if frame.byte_at(FIRST_BYTE_PLACE) != ID_BYTE {
        return None;
    }
    let address = address_at(frame, ADDRESS_PLACE);
    if number_at(frame, ADDRESS_CHECK_PLACE) != field_check(ID_BYTE, &address) {
        return None;
    }
    Some(name_of(address))
}
