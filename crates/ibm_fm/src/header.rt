ghost use Rattle.std.specs.Prelude.{◌≡◌, ◌≤◌, length, IfNone, IfSome};
ghost use Rattle.flux_base.specs.declared.header_name.HeaderName.{HeaderName};
ghost use Rattle.ibm_fm.specs.Sectors.{Names};

use crate::layout::{ADDRESS_CHECK_PLACE, ADDRESS_PLACE};
use crate::rows::field_check;
use flux_base::HeaderName;
use frame_law::CellsFrom;
use ibm_fields::{ID_BYTE, address_at, name_of, number_at};

/// What the header at the front of the cells, which are as many as one has, names. None where its check value is
/// another.
pub(crate) fn header_name(frame: &CellsFrom) -> Option<HeaderName>
    requires { 112 ≤ length frame.now }
    ensures named { IfSome result (λ name. Names frame.now name) }
    ensures none { IfNone result ((name : HeaderName) → ¬ Names frame.now name) }
{
    let address = address_at(frame, ADDRESS_PLACE);
    if number_at(frame, ADDRESS_CHECK_PLACE) != field_check(ID_BYTE, &address) {
        return None;
    }
    Some(name_of(address))
}
