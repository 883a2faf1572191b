//! The fields of a record, and the words in them.

ghost use Rattle.std.specs.Prelude.{◌≡◌, [], get_or};
ghost use Rattle.csv.specs.Records.{fields_of};
ghost use Rattle.resil_input.specs.TextEquality.{is_same};

use csv::ByteRecord;

/// The field at an index, from 0; empty if the record has none there.
pub fn field_at(fields: &ByteRecord, index: usize) -> &[u8]
    ensures { result.now ≡ get_or (fields_of fields.now) index [] }
{
    fields.get(index).unwrap_or(&[])
}

/// Whether a field is this text.
pub fn is_text(field: &[u8], text: &str) -> bool
    ensures { result ≡ is_same field.now text.now }
{
    field == text.as_bytes()
}
