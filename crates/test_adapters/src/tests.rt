mod files;
mod kinds;
mod maker;
mod shelf;
mod streams;

use std::io::ErrorKind;

/// How calls of the system fail, for good: neither is the file only missing, nor was the call only interrupted.
const FAULTS: [ErrorKind; 8] = [
    ErrorKind::PermissionDenied,
    ErrorKind::IsADirectory,
    ErrorKind::NotADirectory,
    ErrorKind::InvalidInput,
    ErrorKind::BrokenPipe,
    ErrorKind::StorageFull,
    ErrorKind::WouldBlock,
    ErrorKind::Other,
];
