// The text of a verdict: a line that says it, and a line for each station that shows it.
ghost use Rattle.std.specs.Prelude.{◌≡◌, ◌≤◌, length, take};
ghost use Rattle.book.specs.Tables.{names_in};
ghost use Rattle.report.specs.Lines.{Wrote};
ghost use Rattle.report.specs.Texts.{HasRoom, Extends};
ghost use Rattle.report.specs.Verdicts.{Named, ShowsVerdict, station_line, station_lines, shown, verdict_text};

use crate::text::Text;
use book::Names;
use search::Verdict;

// Adds the mark, the name and the end of the line.
fn push_station(text: &mut Text<'_>, mark: &[u8], name: &[u8])
    requires { HasRoom text.old (station_line mark.now name.now) }
    ensures { Extends text.old (station_line mark.now name.now) text.new }
{
    text.push(mark);
    text.push(name);
    text.push(b"\n");
}

// Adds a line for each of the stations, with the mark and its name. Book and names stay two: a pair of them, made for three private
// functions, would be no plainer.
fn push_stations(text: &mut Text<'_>, mark: &[u8], book: &[u8], names: &Names, stations: &[u8])
    requires named { Named book.now names.now stations.now }
    requires room { HasRoom text.old (station_lines mark.now (names_in book.now names.now) stations.now) }
    ensures { Extends text.old (station_lines mark.now (names_in book.now names.now) stations.now) text.new }
{
    for &station in stations {
        let Some(name) = names.name(book, station as usize) else {
            unreachable()
        };
        push_station(text, mark, name);
    }
}

// Adds the verdict and the stations that show it, with which the strip begins.
fn push_verdict(text: &mut Text<'_>, book: &[u8], names: &Names, strip: &[u8], verdict: Verdict)
    requires shown { ShowsVerdict book.now names.now strip.now verdict }
    requires room { HasRoom text.old (verdict_text (names_in book.now names.now) (take (shown names.now.count verdict) strip.now) verdict) }
    ensures { Extends text.old (verdict_text (names_in book.now names.now) (take (shown names.now.count verdict) strip.now) verdict) text.new }
{
    match verdict {
        Verdict::Chordal => {
            text.push(b"chordal\n");
            push_stations(text, b"> ", book, names, &strip[..names.count()]);
        }
        Verdict::Ring(length) => {
            text.push_labelled(b"ring ", length);
            text.push(b"\n");
            push_stations(text, b"o ", book, names, &strip[..length]);
        }
    }
}

// Writes the verdict and the stations that show it at the start of the area; how many bytes that is.
pub(crate) fn write_verdict(
    out: &mut [u8],
    book: &[u8],
    names: &Names,
    strip: &[u8],
    verdict: Verdict,
) -> usize
    requires room { 65536 ≤ length out.old }
    requires shown { ShowsVerdict book.now names.now strip.now verdict }
    ensures { Wrote (verdict_text (names_in book.now names.now) (take (shown names.now.count verdict) strip.now) verdict) out.old out.new result }
{
    let mut text = Text::at_start(out);
    push_verdict(&mut text, book, names, strip, verdict);
    text.len()
}
