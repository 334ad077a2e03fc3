/// The byte with which a header begins (IBM 3740 and System 34).
pub const ID_BYTE: u8 = 0xFE;

/// The byte with which data begin.
pub const DATA_BYTE: u8 = 0xFB;

/// The byte with which deleted data begin, which are read like data.
pub const DELETED_DATA_BYTE: u8 = 0xF8;

/// The register of a check value before its field.
pub const CHECK_START: u16 = 0xFFFF;
