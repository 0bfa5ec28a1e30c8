//! Histograms as bars, for people who would rather look than read.

ghost use Rattle.std.specs.Prelude.{◌≡◌, ◌++◌, codes, string_bytes, IsFalse, IsTrue, OnOk};

use std::alloc::{AllocError, Global};

/// The columns of the longest bar of a table, that of its greatest number.
const MOST_COLUMNS: u128 = 60;

/// What the bars of a table show, as the line of its trigger says.
#[derive(Clone, Copy)]
struct Drawing<'a> {
    /// The value that the table is sorted by; else how often an entry was hit.
    value: &'a str,
    /// It is sorted by its only key, whose entries are ranges, so that a gap between two is seen.
    has_ranges: bool,
}

/// What the line of an entry shows of it.
#[derive(Clone, Copy)]
struct Entry<'a> {
    /// Its keys, as they are printed.
    keys: &'a str,
    /// The number that its bar shows, as it is printed.
    shown: &'a str,
    number: i128,
}

/// A list in the first word of a trigger's line, as that after `sort=`.
fn list_of<'a>(line: &'a str, attribute: &str) -> &'a str {
    let word = line.split(' ').next().unwrap_or("");
    for part in word.split(':') {
        if let Some(list) = part.strip_prefix(attribute) {
            return list;
        }
    }
    ""
}

/// What comes before the first such character of a text, and what follows it; the text and nothing, if it has none.
fn halves(text: &str, end: char) -> (&str, &str) {
    text.split_once(end).unwrap_or((text, ""))
}

/// What bars show, if the first name of `sort=` is a value's, or if it isn't.
fn value_shown(name: &str, is_value: bool) -> &str
    ensures value { IsTrue is_value → result.now ≡ name.now }
    ensures hits { IsFalse is_value → result.now ≡ codes "hitcount" }
{
    if is_value { name } else { "hitcount" }
}

/// What the bars of the table show that a trigger of this line counts in.
fn drawing_of(line: &str) -> Drawing<'_> {
    let (first, _) = halves(list_of(line, "sort="), ',');
    let (name, _) = halves(first, '.');
    let is_value = list_of(line, "vals=").split(',').any(|value| value == name);
    let (key, modifier) = halves(list_of(line, "keys="), '.');
    Drawing {
        value: value_shown(name, is_value),
        has_ranges: !is_value
            && key == name
            && !modifier.contains(',')
            && (modifier == "log2" || modifier.starts_with("buckets=")),
    }
}

/// The number after a name in what follows the keys of an entry: the first, of `hitcount`, has none.
fn number_of<'a>(rest: &'a str, name: &str) -> Option<&'a str> {
    let mut is_it = name == "hitcount";
    for word in rest.split_whitespace() {
        if is_it {
            return Some(word);
        }
        is_it = word.strip_suffix(':') == Some(name);
    }
    None
}

/// The entry that a line shows, if it shows one. A string key may have a brace in it too, but only names and numbers follow the keys: so the last
/// brace is the one that ends them.
fn entry_of<'a>(line: &'a str, value: &str) -> Option<Entry<'a>> {
    let (keys, rest) = line.strip_prefix("{ ")?.rsplit_once(" } hitcount: ")?;
    let shown = number_of(rest, value)?;
    let number = shown.parse::<i128>().ok()?;
    Some(Entry {
        keys,
        shown,
        number,
    })
}

/// The first and the last number of the range `A-B`, either of which may be below 0; of `2^K`, K twice.
fn range_in(text: &str) -> Option<(i128, i128)> {
    if let Some(power) = text.strip_prefix("2^") {
        let power = power.parse::<i128>().ok()?;
        return Some((power, power));
    }
    let digits = text.strip_prefix('-').unwrap_or(text);
    let (first, last) = digits.split_once('-')?;
    let first = first.parse::<i128>().ok()?;
    let is_below = digits.len() < text.len();
    let first = if is_below {
        0_i128.saturating_sub(first)
    } else {
        first
    };
    Some((first, last.parse::<i128>().ok()?))
}

/// The range of the only key of an entry.
fn range_of(entry: &Entry<'_>) -> Option<(i128, i128)> {
    range_in(entry.keys.rsplit_once("~ ")?.1.trim_end())
}

/// Whether ranges without entries are between those of two entries.
fn has_gap(entry: &Entry<'_>, next: &Entry<'_>) -> bool {
    match (range_of(entry), range_of(next)) {
        (Some((first, last)), Some((next_first, next_last))) => {
            last.saturating_add(1) < next_first || next_last.saturating_add(1) < first
        }
        _ => false,
    }
}

/// The length of the bar of a number: its share of the columns that the greatest of its table has, rounded down, and at least 1, but of 0.
fn columns_of(size: u128, greatest: u128) -> usize {
    if greatest == 0 || size == 0 {
        return 0;
    }
    let columns = MOST_COLUMNS.saturating_mul(size) / greatest;
    columns.clamp(1, MOST_COLUMNS) as usize
}

/// Appends two blanks and the bar of a number, which is of `-` below 0; nothing, if it is 0.
fn push_bar(
    alloc: Global,
    number: i128,
    greatest: u128,
    out: &mut String,
) -> Result<(), AllocError> {
    let columns = columns_of(number.unsigned_abs(), greatest);
    if columns == 0 {
        return Ok(());
    }
    // An empty string, filled up.
    let bar = if number < 0 {
        format!(in alloc; "{:-<columns$}", "")?
    } else {
        format!(in alloc; "{:#<columns$}", "")?
    };
    write!(out, "  {bar}")
}

/// Appends the line of an entry: its keys, its number and its bar.
fn push_entry(
    alloc: Global,
    entry: &Entry<'_>,
    widths: (usize, usize),
    greatest: u128,
    out: &mut String,
) -> Result<(), AllocError> {
    let (keys_width, width) = widths;
    let Entry {
        keys,
        shown,
        number,
    } = *entry;
    write!(out, "  {keys:<keys_width$}  {shown:>width$}")?;
    push_bar(alloc, number, greatest, out)?;
    out.push('\n')
}

/// Appends the line `..`, if it is to be shown.
fn push_gap(is_shown: bool, out: &mut String) -> Result<(), AllocError>
    ensures shown { IsTrue is_shown → OnOk result (string_bytes out.new ≡ string_bytes out.old ++ codes "  ..\n") }
    ensures same { IsFalse is_shown → OnOk result (string_bytes out.new ≡ string_bytes out.old) }
{
    if is_shown {
        return out.push_str("  ..\n");
    }
    Ok(())
}

/// Appends what a table has: what its bars show, and a line for each entry, one below the other. A line `..` is in place of ranges without entries.
fn push_table(
    alloc: Global,
    drawing: Drawing<'_>,
    entries: &[Entry<'_>],
    out: &mut String,
) -> Result<(), AllocError> {
    let sizes = entries.iter().map(|entry| entry.number.unsigned_abs());
    let greatest = sizes.max().unwrap_or(0);
    let shown = entries.iter().map(|entry| entry.shown.len());
    let value = drawing.value;
    let width = shown.max().unwrap_or(0).max(value.len());
    let keys = entries.iter().map(|entry| entry.keys.len());
    let keys_width = keys.max().unwrap_or(0);
    writeln!(out, "  {:<keys_width$}  {value:>width$}", "")?;
    let mut before: Option<Entry<'_>> = None;
    for entry in entries {
        if let Some(before) = before {
            push_gap(drawing.has_ranges && has_gap(&before, entry), out)?;
        }
        push_entry(alloc, entry, (keys_width, width), greatest, out)?;
        before = Some(*entry);
    }
    Ok(())
}

/// The line of the trigger in a section of what a `hist` file shows, if it has one.
fn trigger_in(section: &str) -> Option<&str> {
    section
        .lines()
        .find_map(|line| line.strip_prefix("# trigger info: "))
}

/// The bars of what a `hist` file shows: a line for each entry of its tables below what the bars show, with an empty line between two tables. In the
/// file itself an empty line comes before and after the entries of each table.
pub fn bars_of(alloc: Global, shown: &str) -> Result<String, AllocError> {
    let mut out = String::new(alloc);
    let mut drawing = drawing_of("");
    for section in shown.split("\n\n") {
        if let Some(line) = trigger_in(section) {
            drawing = drawing_of(line);
        }
        let lines = section.lines();
        let entries: Vec<Entry<'_>> = lines
            .filter_map(|line| entry_of(line, drawing.value))
            .collect(alloc)?;
        if !entries.is_empty() {
            if !out.is_empty() {
                out.push('\n')?;
            }
            push_table(alloc, drawing, &entries, &mut out)?;
        }
    }
    Ok(out)
}
