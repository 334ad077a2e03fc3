//! The texts of a picture. Nothing in them has to be escaped: they have letters, digits, points, spaces and line ends.

ghost use Rattle.std.specs.Prelude.{◌≡◌, ◌+◌, ◌≤◌, ◌<◌, ◌++◌, length};
ghost use Rattle.arrayvec.specs.ArrayString.{array_string_len};
ghost use Rattle.disk_map.specs.Texts.{begin_text, count_of, counts_text, ending_text, field_by, field_text, foot_text};
ghost use Rattle.disk_map.specs.Texts.{grid_text, heading_text, legend_row, legend_text, mark_text};
ghost use Rattle.disk_map.specs.Texts.{row_labels_text, ground_text};

use crate::kind::{Kind, colour_of, kind_of, name_of, shape_of};
use crate::layout::Layout;
use crate::text::{Text, append, append_number};
use flux_base::TrackId;
use sector_images::Format;
use sector_report::{Line, Naming, Totals, named_line};
use turn_merge::Verdict;

/// The numbers at the sides of a grid, of which each grid shows those that it has: every fifth cylinder, and the
/// sectors of all formats that have a name, and up to 32.
pub(crate) const LABELS: &str = "\
<defs><g id=\"columns\" text-anchor=\"middle\">
<text x=\"5\" y=\"9\">0</text><text x=\"65\" y=\"9\">5</text><text x=\"125\" y=\"9\">10</text><text x=\"185\" y=\"9\">15</text>
<text x=\"245\" y=\"9\">20</text><text x=\"305\" y=\"9\">25</text><text x=\"365\" y=\"9\">30</text><text x=\"425\" y=\"9\">35</text>
<text x=\"485\" y=\"9\">40</text><text x=\"545\" y=\"9\">45</text><text x=\"605\" y=\"9\">50</text><text x=\"665\" y=\"9\">55</text>
<text x=\"725\" y=\"9\">60</text><text x=\"785\" y=\"9\">65</text><text x=\"845\" y=\"9\">70</text><text x=\"905\" y=\"9\">75</text>
<text x=\"965\" y=\"9\">80</text><text x=\"1025\" y=\"9\">85</text><text x=\"1085\" y=\"9\">90</text><text x=\"1145\" y=\"9\">95</text>
</g><g id=\"rows\" text-anchor=\"end\">
<text x=\"18\" y=\"9\">0</text><text x=\"18\" y=\"21\">1</text><text x=\"18\" y=\"33\">2</text><text x=\"18\" y=\"45\">3</text>
<text x=\"18\" y=\"57\">4</text><text x=\"18\" y=\"69\">5</text><text x=\"18\" y=\"81\">6</text><text x=\"18\" y=\"93\">7</text>
<text x=\"18\" y=\"105\">8</text><text x=\"18\" y=\"117\">9</text><text x=\"18\" y=\"129\">10</text><text x=\"18\" y=\"141\">11</text>
<text x=\"18\" y=\"153\">12</text><text x=\"18\" y=\"165\">13</text><text x=\"18\" y=\"177\">14</text><text x=\"18\" y=\"189\">15</text>
<text x=\"18\" y=\"201\">16</text><text x=\"18\" y=\"213\">17</text><text x=\"18\" y=\"225\">18</text><text x=\"18\" y=\"237\">19</text>
<text x=\"18\" y=\"249\">20</text><text x=\"18\" y=\"261\">21</text><text x=\"18\" y=\"273\">22</text><text x=\"18\" y=\"285\">23</text>
<text x=\"18\" y=\"297\">24</text><text x=\"18\" y=\"309\">25</text><text x=\"18\" y=\"321\">26</text><text x=\"18\" y=\"333\">27</text>
<text x=\"18\" y=\"345\">28</text><text x=\"18\" y=\"357\">29</text><text x=\"18\" y=\"369\">30</text><text x=\"18\" y=\"381\">31</text>
<text x=\"18\" y=\"393\">32</text><text x=\"18\" y=\"789\">65</text><text x=\"18\" y=\"801\">66</text><text x=\"18\" y=\"813\">67</text>
<text x=\"18\" y=\"825\">68</text><text x=\"18\" y=\"837\">69</text><text x=\"18\" y=\"849\">70</text><text x=\"18\" y=\"861\">71</text>
<text x=\"18\" y=\"873\">72</text><text x=\"18\" y=\"885\">73</text><text x=\"18\" y=\"2325\">193</text><text x=\"18\" y=\"2337\">194</text>
<text x=\"18\" y=\"2349\">195</text><text x=\"18\" y=\"2361\">196</text><text x=\"18\" y=\"2373\">197</text><text x=\"18\" y=\"2385\">198</text>
<text x=\"18\" y=\"2397\">199</text><text x=\"18\" y=\"2409\">200</text><text x=\"18\" y=\"2421\">201</text>
</g></defs>
";

/// The picture's begin: its size, its title, which names the command and the format, and its ground.
pub(crate) fn begin_text(command: &str, format: Format, layout: Layout) -> Text
    requires { length command.now ≤ 8 }
    ensures { result.bytes ≡ begin_text command.now format layout }
{
    let mut text = Text::new();
    append_number(
        &mut text,
        "<svg xmlns=\"http://www.w3.org/2000/svg\" viewBox=\"0 0 ",
        layout.width(),
    );
    append_number(&mut text, " ", layout.height());
    append(
        &mut text,
        "\" font-family=\"monospace\" font-size=\"9\">\n<title>flux ",
    );
    append(&mut text, command);
    append(&mut text, " ");
    append(&mut text, format.word().as_str());
    append(
        &mut text,
        "</title>\n<rect width=\"100%\" height=\"100%\" fill=\"#ffffff\"/>\n<text x=\"40\" y=\"20\" font-size=\"13\">",
    );
    append(&mut text, format.word().as_str());
    append(&mut text, "</text>\n");
    text
}

/// The empty grid of a head, with its name and the numbers at its sides.
pub(crate) fn grid_text(layout: Layout, head: u32) -> Text
    requires { head ≤ 255 }
    ensures { result.bytes ≡ grid_text layout head }
{
    let mut text = Text::new();
    append_heading(&mut text, layout, head);
    append_ground(&mut text, layout);
    append_row_labels(&mut text, layout);
    text
}

/// Appends the head's name, at its grid's place.
#[tactic(auto, unfolding(crate::specs::Texts::heading_text))]
fn append_heading(text: &mut Text, layout: Layout, head: u32)
    requires room { array_string_len text.old ≤ 300 }
    requires head { head ≤ 255 }
    ensures bytes { text.new.bytes ≡ text.old.bytes ++ heading_text layout head }
    ensures len { array_string_len text.new ≤ array_string_len text.old + 100 }
{
    append_number(text, "<g transform=\"translate(40 ", layout.top(head));
    append_number(text, ")\"><text y=\"-18\">head ", head);
    append(text, "</text>\n");
}

/// Appends the ground of a grid, and the numbers of cylinders above it.
#[tactic(auto, unfolding(crate::specs::Texts::ground_text))]
fn append_ground(text: &mut Text, layout: Layout)
    requires { array_string_len text.old ≤ 300 }
    ensures bytes { text.new.bytes ≡ text.old.bytes ++ ground_text layout }
    ensures len { array_string_len text.new ≤ array_string_len text.old + 200 }
{
    append_number(text, "<rect x=\"-1\" y=\"-1\" width=\"", layout.across());
    append_number(text, "\" height=\"", layout.down());
    append_number(
        text,
        "\" fill=\"#eeeeee\"/>\n<svg y=\"-14\" width=\"",
        layout.numbers_across(),
    );
    append(text, "\" height=\"12\"><use href=\"#columns\"/></svg>\n");
}

/// Appends the numbers of sectors beside a grid.
#[tactic(auto, unfolding(crate::specs::Texts::row_labels_text))]
fn append_row_labels(text: &mut Text, layout: Layout)
    requires { array_string_len text.old ≤ 300 }
    ensures bytes { text.new.bytes ≡ text.old.bytes ++ row_labels_text layout }
    ensures len { array_string_len text.new ≤ array_string_len text.old + 200 }
{
    append_number(text, "<svg x=\"-24\" width=\"20\" height=\"", layout.down());
    append_number(text, "\" viewBox=\"0 ", 12 * u32::from(layout.first));
    append_number(text, " 20 ", layout.down());
    append(text, "\"><use href=\"#rows\"/></svg></g>\n");
}

/// The field of a sector: colour and shape of its verdict, and as its title its line of the
/// report. The cylinder is below 100.
pub fn field_text(layout: Layout, track: TrackId, sector: u8, verdict: &Verdict) -> Text
    requires { track.cylinder < 100 }
    ensures { result.bytes ≡ field_text layout track sector verdict.now }
{
    field_by(Naming::Unnamed, layout, track, sector, verdict)
}

/// The same with a title that names a part of the source of each reading.
pub(crate) fn field_by(
    naming: Naming,
    layout: Layout,
    track: TrackId,
    sector: u8,
    verdict: &Verdict,
) -> Text
    requires { track.cylinder < 100 }
    ensures { result.bytes ≡ field_by naming layout track sector verdict.now }
{
    let mut text = Text::new();
    append_mark(
        &mut text,
        kind_of(verdict),
        layout.left(track),
        layout.field_top(track, sector),
    );
    append(&mut text, "\"><title>");
    append_line(&mut text, &named_line(naming, track, sector, verdict));
    append(&mut text, "</title></path>\n");
    text
}

/// Appends the colour and the shape of a verdict at a place.
#[tactic(auto, unfolding(crate::specs::Texts::mark_text))]
fn append_mark(text: &mut Text, kind: Kind, left: u32, top: u32)
    requires { array_string_len text.old ≤ 900 }
    ensures bytes { text.new.bytes ≡ text.old.bytes ++ mark_text kind left top }
    ensures len { array_string_len text.new ≤ array_string_len text.old + 120 }
{
    append(text, "<path fill=\"");
    append(text, colour_of(kind));
    append_number(text, "\" d=\"M", left);
    append_number(text, " ", top);
    append(text, shape_of(kind));
}

/// Appends a line of the report.
fn append_line(text: &mut Text, line: &Line)
    requires { array_string_len text.old ≤ 1000 }
    ensures bytes { text.new.bytes ≡ text.old.bytes ++ line.now.bytes }
    ensures len { array_string_len text.new ≤ array_string_len text.old + 192 }
{
    append(text, line.as_str());
}

/// The foot of a picture: the legend, with how many sectors each verdict has, and the last line, which is the report's
/// total line or says why the disk is refused.
pub fn foot_text(layout: Layout, totals: &Totals, last: &Line) -> Text
    ensures { result.bytes ≡ foot_text layout totals.now last.now.bytes }
{
    let mut text = Text::new();
    append_legend(&mut text, layout, Kind::Good, totals);
    append_legend(&mut text, layout, Kind::Contradictory, totals);
    append_legend(&mut text, layout, Kind::Bad, totals);
    append_legend(&mut text, layout, Kind::Missing, totals);
    append_ending(&mut text, layout, last);
    text
}

/// A line to the right of the legend.
#[tactic(auto, unfolding(crate::specs::Texts::counts_text))]
pub(crate) fn counts_text(layout: Layout, line: &Line) -> Text
    ensures { result.bytes ≡ counts_text layout line.now.bytes }
{
    let mut text = Text::new();
    append_number(&mut text, "<text x=\"240\" y=\"", layout.foot_top() + 9);
    append(&mut text, "\">");
    append_line(&mut text, line);
    append(&mut text, "</text>\n");
    text
}

/// Appends what a verdict looks like, its name, and how many sectors have it.
#[tactic(auto, unfolding(crate::specs::Texts::legend_text))]
fn append_legend(text: &mut Text, layout: Layout, kind: Kind, totals: &Totals)
    requires { array_string_len text.old ≤ 600 }
    ensures bytes { text.new.bytes ≡ text.old.bytes ++ legend_text layout totals.now kind }
    ensures len { array_string_len text.new ≤ array_string_len text.old + 200 }
{
    let top = layout.foot_top() + legend_row(kind);
    append_mark(text, kind, 40, top);
    append_number(text, "\"/><text x=\"58\" y=\"", top + 9);
    append(text, "\">");
    append(text, name_of(kind));
    append_number(text, " ", count_of(totals, kind));
    append(text, "</text>\n");
}

/// How far below the legend's top a verdict stands.
fn legend_row(kind: Kind) -> u32
    ensures { result ≡ legend_row kind }
{
    match kind {
        Kind::Good => 0,
        Kind::Contradictory => 16,
        Kind::Bad => 32,
        Kind::Missing => 48,
    }
}

/// How many sectors have a verdict.
fn count_of(totals: &Totals, kind: Kind) -> u32
    ensures { result ≡ count_of totals.now kind }
{
    match kind {
        Kind::Good => totals.good,
        Kind::Contradictory => totals.contradictory,
        Kind::Bad => totals.bad,
        Kind::Missing => totals.missing,
    }
}

/// Appends the last line and the picture's end.
#[tactic(auto, unfolding(crate::specs::Texts::ending_text))]
fn append_ending(text: &mut Text, layout: Layout, last: &Line)
    requires { array_string_len text.old ≤ 900 }
    ensures { text.new.bytes ≡ text.old.bytes ++ ending_text layout last.now.bytes }
{
    append_number(text, "<text x=\"40\" y=\"", layout.foot_top() + 76);
    append(text, "\">");
    append_line(text, last);
    append(text, "</text>\n</svg>\n");
}
