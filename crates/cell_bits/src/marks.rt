/// The FM ID address mark: byte FE with clock C7 (IBM 3740). Like all marks a word of 16 cells, high bit first.
pub const FM_ID_MARK: u32 = 0xF57E;

/// The FM data mark: byte FB with clock C7 (IBM 3740).
pub const FM_DATA_MARK: u32 = 0xF56F;

/// The FM deleted data mark: byte F8 with clock C7 (IBM 3740).
pub const FM_DELETED_DATA_MARK: u32 = 0xF56A;

/// The FM index mark: byte FC with clock D7 (IBM 3740).
pub const FM_INDEX_MARK: u32 = 0xF77A;

/// The MFM mark A1 with a missing clock (IBM System 34).
pub const MFM_A1_MARK: u32 = 0x4489;

/// The MFM mark C2 with a missing clock (IBM System 34).
pub const MFM_C2_MARK: u32 = 0x5224;
