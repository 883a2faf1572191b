//! What heads and bodies may have: the keys of a table, the fields and the rows of a body, and the form of each value and field.
//!
//! Each command has its tables beside the code that reads by them. The code that explains what is wrong with an input reads the same tables.

ghost use Rattle.std.specs.Prelude.{◌≡◌};
ghost use Rattle.resil_heads.specs.Document.{name_of};

use resil_input::number::parse_number;
use resil_input::outcome_text::parse_outcome;
use std::fmt;

/// The permits of a configuration.
pub const PERMIT_COUNT: Form = Form::Integer(0, 65_535);

/// What a value of a head or a field of a row may be. Its text says what is wanted there.
#[derive(Clone, Copy)]
pub enum Form {
    /// An integer of a head, from the least to the greatest.
    Integer(i64, i64),
    /// An integer of a head that is read if it is from 0 to 4,294,967,295, and then taken from the least to the greatest.
    Count(i64, i64),
    /// An integer of a head from 0 on, above that of another key if this is there.
    Above(&'static str),
    /// One such integer, or an array of 1 to 8 of them.
    Sizes(u32, u32),
    AnyInteger,
    /// Milliseconds of a head, at most the longest wait of a retry.
    Wait,
    Flag,
    Text,
    /// A string of at most this many characters.
    ShortText(usize),
    /// How many of the first events recreate the state in which a record begins.
    Made,
    /// An offset date-time.
    Moment,
    /// How long a job runs that a history begins and doesn't finish.
    Unfinished,
    /// The kind of a layer.
    Layer,
    Backoff,
    /// Which values a retry tries again.
    ResultTest,
    /// Kinds of outcomes.
    Kinds,
    Fraction,
    Configurations,
    /// An array of tables, under this name.
    Tables(&'static str),
    /// The first field of a row, which decides what its other fields are.
    Word,
    /// A number of a row, from the least to the greatest.
    Number(u64, u64),
    /// A caller of `run`; the arguments of the command say how many there are.
    Caller,
    Reply,
    /// A reply by the whole rule.
    JdkReply,
    /// `on` or `off`.
    Switch,
    Script,
    Grants,
    /// Nothing, if a row doesn't use the field.
    Empty,
}

impl fmt::Display for Form {
    fn fmt<W: fmt::Write>(&self, f: &mut fmt::Formatter<W>) -> fmt::Result {
        let wanted = match *self {
            Form::Integer(least, greatest) | Form::Count(least, greatest) => {
                return write!(f, "an integer from {least} to {greatest}");
            }
            Form::Sizes(least, greatest) => {
                return write!(
                    f,
                    "an integer from {least} to {greatest}, or an array of 1 to 8 of them"
                );
            }
            Form::Above(key) => {
                return write!(
                    f,
                    "an integer from 0 to 9223372036854775807, above the value of `{key}`"
                );
            }
            Form::Number(least, greatest) => {
                return write!(
                    f,
                    "a number from {least} to {greatest}, without a sign or leading zeros"
                );
            }
            Form::ShortText(most) => return write!(f, "a string of at most {most} characters"),
            Form::Tables(name) => return write!(f, "an array of tables, each `[[{name}]]`"),
            Form::AnyInteger => "a 64-bit integer",
            Form::Wait => "an integer from 0 to 31536000000",
            Form::Flag => "true or false",
            Form::Text => "a string",
            Form::Made => "an integer from 0 to the number of events",
            Form::Moment => "an offset date-time such as `2026-05-27T07:32:00.250000Z`",
            Form::Unfinished => "`\"run\"` or `\"takes\"`",
            Form::Layer => "`\"retry\"`, `\"bulkhead\"` or `\"fallback\"`",
            Form::Backoff => "`\"fixed\"` or `\"exponential\"`",
            Form::ResultTest => {
                "`\"never\"`, or a string of `=`, `<` or `>=` and a 64-bit integer"
            }
            Form::Kinds => "an array of strings, each from `E0` to `E65535`, `FULL` or `EXCEEDED`",
            Form::Fraction => "an array `[p, q]` of two integers, 1 <= q <= p <= 1000",
            Form::Configurations => "a table with an integer from 0 to 65535 for each name",
            Form::Word => "a row of the command",
            Form::Caller => {
                "a caller of this run, from 1 to the number given by `--callers` (1 if absent), without a sign or leading zeros"
            }
            Form::Reply => "core, queued, extra, full or closed",
            Form::JdkReply => "core, first, queued, handed, extra, full or closed",
            Form::Switch => "on or off",
            Form::Script => {
                "outcomes separated by `;`, each of them V and an integer, E and a number from 0 to 65535, FULL or EXCEEDED, without leading zeros"
            }
            Form::Grants => "the letters y and n, or empty",
            Form::Empty => "empty in such a row",
        };
        f.write_str(wanted)
    }
}

impl Form {
    /// Whether a field of a row is of this form, with this many callers.
    pub fn has_field(self, field: &[u8], callers: u16) -> bool {
        match self {
            Form::Word => true,
            Form::Number(least, greatest) => is_number(field, least, greatest),
            Form::Caller => is_number(field, 1, u64::from(callers)),
            Form::Reply => matches!(field, b"core" | b"queued" | b"extra" | b"full" | b"closed"),
            Form::JdkReply => matches!(
                field,
                b"core" | b"first" | b"queued" | b"handed" | b"extra" | b"full" | b"closed"
            ),
            Form::Switch => matches!(field, b"on" | b"off"),
            Form::Script => field
                .split(|byte| *byte == b';')
                .all(|item| parse_outcome(item).is_some()),
            Form::Grants => field
                .iter()
                .all(|letter| *letter == b'y' || *letter == b'n'),
            Form::Empty => field.is_empty(),
            _ => false,
        }
    }
}

fn is_number(field: &[u8], least: u64, greatest: u64) -> bool {
    match parse_number(field) {
        Some(number) => number <= greatest,
        None => least == 0 && field == b"0".as_slice(),
    }
}

/// A key that a table may have, with what its value may be.
#[derive(Clone, Copy)]
pub enum Key {
    /// It is required.
    Required(&'static str, Form),
    /// It may be absent.
    Optional(&'static str, Form),
}

impl Key {
    /// Its name.
    pub fn name(self) -> &'static str
        ensures { result.now ≡ name_of self }
    {
        match self {
            Key::Required(name, _) | Key::Optional(name, _) => name,
        }
    }

    /// What its value may be.
    pub fn form(self) -> Form {
        match self {
            Key::Required(_, form) | Key::Optional(_, form) => form,
        }
    }
}

/// A row by its first field, and the fields that it uses, by their place.
pub type RowForm = (&'static str, &'static [usize]);

/// The bodies of a command.
#[derive(Clone, Copy)]
pub struct Body {
    /// The fields of the header.
    pub header: &'static [&'static str],
    /// What each field may be in a row that uses it.
    pub forms: &'static [Form],
    /// The rows, or none if there is one kind of row, which uses the first two fields. Fields beyond the header are ignored.
    pub rows: &'static [RowForm],
    /// Whether there is a shorter header too, without the last row and the last two fields, which are those of a resize.
    pub has_resizes: bool,
}

impl Body {
    /// The bodies without the last field, which is a time: these have a shorter header too.
    pub fn without_times(self) -> Body {
        let fields = self.header.len().saturating_sub(1);
        Body {
            header: self.header.get(..fields).unwrap_or(self.header),
            forms: self.forms.get(..fields).unwrap_or(self.forms),
            rows: self.rows,
            has_resizes: true,
        }
    }

    /// The bodies under the shorter header, if there are two headers.
    pub fn without_resizes(self) -> Body {
        if !self.has_resizes {
            return self;
        }
        let fields = self.header.len().saturating_sub(2);
        let rows = self.rows.len().saturating_sub(1);
        Body {
            header: self.header.get(..fields).unwrap_or(self.header),
            forms: self.forms.get(..fields).unwrap_or(self.forms),
            rows: self.rows.get(..rows).unwrap_or(self.rows),
            has_resizes: false,
        }
    }
}
