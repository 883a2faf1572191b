//! Places in an input, and how bytes of it are shown.

ghost use Rattle.std.specs.Prelude.{◌≡◌, ◌==◌, ◌+◌, ℕ, count_by, take};

use resil_heads::forms::Key;
use std::fmt;

// How many bytes of a text are shown.
const SHOWN_LEN: usize = 80;

/// A line of an input, written as the beginning of a report.
#[derive(Clone, Copy)]
pub(crate) struct Line<'a> {
    /// Its number, from 1.
    pub number: usize,
    /// The column of the fault, in bytes from 1, if the text is shown from there on since it is far from the start; else 0.
    pub column: usize,
    /// Its text from some byte on, without its end.
    pub text: &'a [u8],
}

// The number of line ends in a text.
fn ended_lines(text: &[u8]) -> usize
    ensures { result ≡ count_by (λ byte. byte == 10) text.now }
{
    text.iter().filter(|byte| **byte == b'\n').count()
}

// The number of the line of a place.
fn number_at(input: &[u8], place: usize) -> usize
    ensures { result ≡ count_by (λ byte. byte == 10) (take place input.now) + 1 }
{
    let before = input.get(..place).unwrap_or(input);
    ended_lines(before).saturating_add(1)
}

// The rest of a line, from a place on.
fn text_from(input: &[u8], place: usize) -> &[u8] {
    let rest = input.get(place..).unwrap_or(&[]);
    let text = rest.split(|byte| *byte == b'\n' || *byte == b'\r').next();
    text.unwrap_or(rest)
}

impl<'a> Line<'a> {
    /// The line of a place of the input, with its text from there on.
    pub(crate) fn from(input: &'a [u8], place: usize) -> Line<'a>
        ensures number { result.number ≡ count_by (λ byte. byte == 10) (take place input.entry.now) + 1 }
    {
        Line {
            number: number_at(input, place),
            column: 0,
            text: text_from(input, place),
        }
    }

    /// The line of a place of the input, with all its text if what is shown of that has the place.
    pub(crate) fn around(input: &'a [u8], place: usize) -> Line<'a>
        ensures number { result.number ≡ count_by (λ byte. byte == 10) (take place input.entry.now) + 1 }
    {
        let before = input.get(..place).unwrap_or(input);
        let end = before.iter().rposition(|byte| *byte == b'\n');
        let start = end.map_or(0, |end| end.saturating_add(1));
        let column = place.saturating_sub(start).saturating_add(1);
        let is_far = column > SHOWN_LEN;
        Line {
            number: number_at(input, place),
            column: if is_far { column } else { 0 },
            text: text_from(input, if is_far { place } else { start }),
        }
    }
}

impl<'a> fmt::Display for Line<'a> {
    fn fmt<W: fmt::Write>(&self, f: &mut fmt::Formatter<W>) -> fmt::Result {
        let (number, column) = (self.number, self.column);
        write!(f, "line {number}")?;
        if column > 0 {
            write!(f, ", column {column}")?;
        }
        let text = ShownBytes(self.text);
        write!(f, ", `{text}`: ")
    }
}

/// The first line that is nearly the separator, with all bytes before its newline: apart from blanks, it begins with two dashes.
pub(crate) fn near_separator(input: &[u8]) -> Option<Line<'_>> {
    let mut lines = input.split(|byte| *byte == b'\n').enumerate();
    let (index, text) = lines.find(|(_, text)| text.trim_ascii_start().starts_with(b"--"))?;
    Some(Line {
        number: index.saturating_add(1),
        column: 0,
        text,
    })
}

/// Bytes as they are shown: at most 80, and those that aren't printable ASCII as `\xNN`.
#[derive(Clone, Copy)]
pub(crate) struct ShownBytes<'a>(pub &'a [u8]);

impl fmt::Display for ShownBytes<'_> {
    fn fmt<W: fmt::Write>(&self, f: &mut fmt::Formatter<W>) -> fmt::Result {
        for byte in self.0.iter().take(SHOWN_LEN) {
            match *byte {
                b' '..=b'~' => f.write_char(char::from(*byte))?,
                other => write!(f, "\\x{other:02x}")?,
            }
        }
        if self.0.len() > SHOWN_LEN {
            f.write_str("..")?;
        }
        Ok(())
    }
}

/// Something that a list shows by its name.
pub(crate) trait Named {
    /// The name.
    fn name(&self) -> &'static str;
}

impl Named for &'static str {
    fn name(&self) -> &'static str {
        self
    }
}

impl Named for Key {
    fn name(&self) -> &'static str {
        Key::name(*self)
    }
}

impl<T> Named for (&'static str, T) {
    fn name(&self) -> &'static str {
        self.0
    }
}

/// A list of names, and what separates them.
#[derive(Clone, Copy)]
pub(crate) struct NameList<'a, T>(pub &'a [T], pub &'static str);

impl<T: Named> fmt::Display for NameList<'_, T> {
    fn fmt<W: fmt::Write>(&self, f: &mut fmt::Formatter<W>) -> fmt::Result {
        for (index, word) in self.0.iter().enumerate() {
            if index > 0 {
                f.write_str(self.1)?;
            }
            f.write_str(word.name())?;
        }
        Ok(())
    }
}
