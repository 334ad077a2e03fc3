//! What the lines come to.

ghost use Rattle.sector_report.specs.DumpLines.{DumpsHaveLines, PassedLinesTell};
ghost use Rattle.sector_report.specs.LineLaws.{SectorLinesTell, SectorsHaveOneLine, TotalsAreNoSectors};
ghost use Rattle.sector_report.specs.LineLaws.{TotalsHaveOneLine};

/// The line of a sector is one line of a text: its last byte is a line end, and it has no other.
pub fn sectors_have_one_line()
    ensures { SectorsHaveOneLine }
{}

/// So is the total line.
pub fn totals_have_one_line()
    ensures { TotalsHaveOneLine }
{}

/// So has each other line of a disk that is read of several dumps. One of a stream that was passed over tells its
/// track, its dump and the reason, where their numbers fit.
pub fn dumps_have_lines()
    ensures lines { DumpsHaveLines }
    ensures tell { PassedLinesTell }
{}

/// A sector's line tells its track, its sector and its verdict, where their numbers fit: no two have the same
/// line, and none has a total line.
pub fn sector_lines_tell()
    ensures sectors { SectorLinesTell }
    ensures totals { TotalsAreNoSectors }
{}
