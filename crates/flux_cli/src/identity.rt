//! Which disk a dump is of.

ghost use Rattle.std.specs.Prelude.{◌≡◌};
ghost use Rattle.flux_cli.specs.IdentityRuns.{identity_status};

use dump_identity::Identity;
use flux_base::Status;

/// Whether a file failed, and else whether one disk explains all of the dump, and no headers name other heads than the
/// drive's.
pub(crate) fn status_of(identity: &Identity) -> Status
    ensures { result ≡ identity_status identity.now }
{
    if identity.failed {
        return Status::ShelfFault;
    }
    if identity.foreign {
        return Status::NotAllGood;
    }
    match &identity.best {
        Some(finding) if finding.is_complete() => Status::AllGood,
        _ => Status::NotAllGood,
    }
}
