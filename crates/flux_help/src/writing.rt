ghost use Rattle.std.specs.Prelude.{◌++◌};
ghost use Rattle.flux_base.specs.Moments.{Puts};
ghost use Rattle.flux_base.specs.World.{sink_at};
ghost use Rattle.flux_help.specs.Pages.{about_text, formats_text, help_text, page_text, verbs_text};

use crate::page::Page;
use crate::texts::{CODES, HEADING, INTRO, VERSION, format_line};
use crate::verb::{Verb, all_verbs};
use flux_base::{Failed, Sink, write_whole};
use sector_images::all_formats;
use sector_report::write_line;

/// Writes what the program says of itself. After `Failed` a part of it was written.
pub fn write_page<W: Sink>(page: Page, sink: &mut W) -> Result<(), Failed>
    ensures { Puts (sink_at W.Sink sink.old) (sink_at W.Sink sink.new) (page_text page) result }
{
    match page {
        Page::Help => write_help(sink),
        Page::Version => write_whole(sink, VERSION.as_bytes()),
        Page::About(verb) => write_about(verb, sink),
    }
}

/// Writes what is said of one command.
fn write_about<W: Sink>(verb: Verb, sink: &mut W) -> Result<(), Failed>
    ensures { Puts (sink_at W.Sink sink.old) (sink_at W.Sink sink.new) (about_text verb) result }
{
    let texts = verb.texts();
    match write_whole(sink, texts.usage.as_bytes()) {
        Ok(()) => write_whole(sink, texts.about.as_bytes()),
        Err(failed) => Err(failed),
    }
}

/// Writes what the program is, the commands, the formats and the exit codes.
fn write_help<W: Sink>(sink: &mut W) -> Result<(), Failed>
    ensures { Puts (sink_at W.Sink sink.old) (sink_at W.Sink sink.new) help_text result }
{
    match write_whole(sink, INTRO.as_bytes()) {
        Ok(()) => write_lists(sink),
        Err(failed) => Err(failed),
    }
}

/// Writes the commands, the formats and the exit codes.
fn write_lists<W: Sink>(sink: &mut W) -> Result<(), Failed>
    ensures { Puts (sink_at W.Sink sink.old) (sink_at W.Sink sink.new)
        (verbs_text ++ (HEADING.now ++ (formats_text ++ CODES.now))) result }
{
    match write_verbs(sink) {
        Ok(()) => write_headed_tables(sink),
        Err(failed) => Err(failed),
    }
}

/// Writes the formats and the exit codes, and what stands before them.
fn write_headed_tables<W: Sink>(sink: &mut W) -> Result<(), Failed>
    ensures { Puts (sink_at W.Sink sink.old) (sink_at W.Sink sink.new) (HEADING.now ++ (formats_text ++ CODES.now))
        result }
{
    match write_whole(sink, HEADING.as_bytes()) {
        Ok(()) => write_tables(sink),
        Err(failed) => Err(failed),
    }
}

/// Writes the formats and the exit codes.
fn write_tables<W: Sink>(sink: &mut W) -> Result<(), Failed>
    ensures { Puts (sink_at W.Sink sink.old) (sink_at W.Sink sink.new) (formats_text ++ CODES.now) result }
{
    match write_formats(sink) {
        Ok(()) => write_whole(sink, CODES.as_bytes()),
        Err(failed) => Err(failed),
    }
}

/// Writes a line for each format.
fn write_formats<W: Sink>(sink: &mut W) -> Result<(), Failed>
    ensures { Puts (sink_at W.Sink sink.old) (sink_at W.Sink sink.new) formats_text result }
{
    for format in all_formats() {
        match write_line(sink, &format_line(*format)) {
            Ok(()) => {}
            Err(failed) => return Err(failed),
        }
    }
    Ok(())
}

/// Writes a line for each command.
fn write_verbs<W: Sink>(sink: &mut W) -> Result<(), Failed>
    ensures { Puts (sink_at W.Sink sink.old) (sink_at W.Sink sink.new) verbs_text result }
{
    for verb in all_verbs() {
        match write_whole(sink, verb.texts().line.as_bytes()) {
            Ok(()) => {}
            Err(failed) => return Err(failed),
        }
    }
    Ok(())
}
