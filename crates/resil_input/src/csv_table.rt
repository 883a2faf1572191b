//! Tables of records, as `csv`'s default writer writes them.
//!
//! The fields of a record are joined by commas, and a newline ends it. No field that the program
//! writes has a comma, a quote or a line end in it, so none is quoted. The writer appends to a buffer
//! of its own, so writing takes time in proportion to the text's length.

ghost use Rattle.std.specs.Prelude.{◌≡◌, ◌++◌, ◌<◌, length, map, IfOk, OnOk};
ghost use Rattle.resil_input.specs.CsvTable.{ArePlain, HasColumns, record_text, text_so_far};

use csv::Writer;
use std::alloc::AllocError;

/// A table at the end of a text: a header, and records with as many fields as the header.
#[derive(Drop)]
pub struct CsvTable {
    writer: Writer<Vec<u8>>,
}

impl CsvTable {
    /// A table of this header, which has two fields or more, at the end of this text.
    ///
    /// # Errors
    ///
    /// `AllocError` when out of memory.
    pub fn new(text: Vec<u8>, header: &[&[u8]]) -> Result<CsvTable, AllocError>
        requires several { 1 < length header.now }
        requires plain { ArePlain (map (λ f. f.now) header.now) }
        ensures columns { IfOk result (λ table. HasColumns table (length header.now)) }
        ensures text { IfOk result (λ table. text_so_far table ≡ text.items ++ record_text (map (λ f. f.now) header.now)) }
    {
        let mut writer = Writer::from_writer(text);
        match writer.write_fields(header) {
            Ok(()) => Ok(CsvTable { writer }),
            Err(_) => Err(AllocError),
        }
    }

    /// Writes a record at the end.
    ///
    /// # Errors
    ///
    /// `AllocError` when out of memory; nothing is known of the table's text then.
    pub fn push(&mut self, fields: &[&[u8]]) -> Result<(), AllocError>
        requires columns { HasColumns self.old (length fields.now) }
        requires plain { ArePlain (map (λ f. f.now) fields.now) }
        ensures columns { OnOk result (HasColumns self.new (length fields.now)) }
        ensures text { OnOk result (text_so_far self.new ≡ text_so_far self.old ++ record_text (map (λ f. f.now) fields.now)) }
    {
        match self.writer.write_fields(fields) {
            Ok(()) => Ok(()),
            Err(_) => Err(AllocError),
        }
    }

    /// The text with the table at its end.
    ///
    /// # Errors
    ///
    /// `AllocError` when out of memory.
    pub fn into_text(self) -> Result<Vec<u8>, AllocError>
        ensures { IfOk result (λ text. text.items ≡ text_so_far self) }
    {
        let CsvTable { writer } = self;
        match writer.into_inner() {
            Ok(text) => Ok(text),
            Err(_) => Err(AllocError),
        }
    }
}
