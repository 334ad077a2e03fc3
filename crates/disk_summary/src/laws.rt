//! What a summary is.

ghost use Rattle.disk_summary.specs.Dumps.{DrawingsAreNoted};
ghost use Rattle.disk_summary.specs.Laws.{SummariesParse};

/// A summary whose numbers fit in 64 bits is JSON: it parses to its value.
pub fn summaries_parse()
    ensures { SummariesParse }
{}

/// What a `NoteWriter` wrote beside a picture is the text of some notes.
pub fn drawings_are_noted()
    ensures { DrawingsAreNoted }
{}
