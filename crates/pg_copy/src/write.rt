//! Writing: from lines of text to a binary COPY.
ghost use Rattle.std.specs.Prelude.{◌≡◌, ◌≢◌, ◌<◌, ◌∷◌, pos, ℕ, List, Some, true, IfErr, OnOk, OnErr, length};
ghost use Rattle.std.specs.Int.{w16};
ghost use Rattle.pg_base.specs.Cells.{be};
ghost use Rattle.streams.specs.Answers.{LinesAre};
ghost use Rattle.pg_tuples.specs.Tuples.{IsNoCopy};
ghost use Rattle.pg_copy.specs.Outputs.{Extends, Gains, WritesWhole};
ghost use Rattle.pg_copy.specs.TextLines.{LacksEscapes, fields_left, fields_of};
ghost use Rattle.pg_copy.specs.WrittenCells.{text_of};
ghost use Rattle.pg_copy.specs.WrittenRows.{BeginsCopy, CopyOf, CountFault, FieldFrame, FrameOf, LineFault, Stops};
ghost use Rattle.pg_copy.specs.WrittenRows.{StopsWith, TupleOf, ValueFault, fault_of, is_last};

use crate::columns::Column;
use crate::copy_fault::{CopyFault, Row, value_fault};
use crate::escapes::unescape;
use crate::parse::push_frame;
use bytes::ByteStr;
use memchr::memchr2;
use pg_text::no_value;
use pg_tuples::{HEADER, TRAILER};
use postgres_types::Fault;
use postgres_types::private::BytesMut;
use std::alloc::Global;
use std::io::{Read, Write};
use streams::blocks::write_whole;
use streams::lines::{AnswerLine, RunFault, answer_lines};
use streams::split::split_once;

/// What ends a binary COPY that a fault stopped: -32768 instead of a number of columns. A server
/// refuses it, and loads none of the rows before it. If only the trailer were missing, it would load
/// them.
const STOPPED: &[u8; 2] = b"\x80\0";

/// Reads lines with these columns in the text format of COPY, and writes a binary COPY with a tuple
/// for each. The last line counts without a line feed, if it is not empty.
///
/// After a fault, the header, complete tuples, those of the lines before it, and -32768 instead of
/// a number of columns are written, so that no server takes what is written for a COPY; after a
/// failed write, a prefix of them. The trailer is written only at the end of the lines. Memory
/// holds no more than the longest line, a block of input and its tuples.
pub fn write<R: Read, W: Write>(
    alloc: Global,
    columns: &[Column],
    input: &mut R,
    output: &mut W,
) -> Result<(), CopyFault>
    ensures ok { OnOk result ((lines : List (List ℕ)) × LinesAre (R.remaining input.old) lines
        × WritesWhole (CopyOf columns.now lines) (W.contents output.old) (W.contents output.new)) }
    ensures err { IfErr result (Stops columns.now (R.remaining input.old) (R.remaining input.new)
        (W.contents output.old) (W.contents output.new)) }
    ensures no_copy { IfErr result (λ e. e ≢ CopyFault.TooManyColumns → e ≢ CopyFault.Write
        → WritesWhole IsNoCopy (W.contents output.old) (W.contents output.new)) }
{
    let Err(fault) = write_tuples(alloc, columns, input, output) else {
        return Ok(());
    };
    if is_last(&fault) {
        return Err(fault);
    }
    if write_whole(output, STOPPED).is_err() {
        return Err(CopyFault::Write);
    }
    Err(fault)
}

/// Whether nothing was written before the fault, or nothing can be written after it.
fn is_last(fault: &CopyFault) -> bool
    ensures { result ≡ is_last fault.now }
{
    matches!(fault, CopyFault::TooManyColumns | CopyFault::Write)
}

/// Writes the header, the tuple of each line, and the trailer, or, up to a fault, the header and
/// complete tuples.
fn write_tuples<R: Read, W: Write>(
    alloc: Global,
    columns: &[Column],
    input: &mut R,
    output: &mut W,
) -> Result<(), CopyFault>
    ensures ok { OnOk result ((lines : List (List ℕ)) × LinesAre (R.remaining input.old) lines
        × WritesWhole (CopyOf columns.now lines) (W.contents output.old) (W.contents output.new)) }
    ensures err { IfErr result (StopsWith (BeginsCopy columns.now) columns.now (R.remaining input.old)
        (R.remaining input.new) (W.contents output.old) (W.contents output.new)) }
{
    let Ok(count) = i16::try_from(columns.len()) else {
        return Err(CopyFault::TooManyColumns);
    };
    if write_whole(output, HEADER).is_err() {
        return Err(CopyFault::Write);
    }
    let mut tuples = TupleWriter {
        columns,
        count: count.to_be_bytes(),
        line: 0,
        text: Vec::new(alloc),
    };
    answer_lines(alloc, &mut tuples, input, output)?;
    match write_whole(output, TRAILER) {
        Ok(()) => Ok(()),
        Err(_) => Err(CopyFault::Write),
    }
}

impl From<RunFault<CopyFault>> for CopyFault {
    ghost from_gives = { λ run fault. fault ≡ fault_of run };

    fn from(fault: RunFault<CopyFault>) -> CopyFault {
        match fault {
            RunFault::Read => CopyFault::Read,
            RunFault::Write => CopyFault::Write,
            RunFault::Refused(fault) => fault,
        }
    }
}

/// Writes the tuples of lines.
#[derive(Drop)]
struct TupleWriter<'a> {
    columns: &'a [Column],
    /// The number of columns in two bytes, with which each tuple begins.
    count: [u8; 2],
    /// The number of lines that were taken.
    line: u64,
    /// The text of an escaped field; the buffer is kept so that it is allocated once.
    text: Vec<u8>,
    ghost fits: { length columns.now < 32768 },
    ghost counted: { count ≡ be w16 (pos (length columns.now)) },
}

impl AnswerLine for TupleWriter<'_> {
    type Fault = CopyFault;

    ghost answers = { λ s. TupleOf s.columns.now };

    ghost refuses = { λ s. LineFault s.columns.now };

    fn answer(
        &mut self,
        alloc: Global,
        line: &[u8],
        pending: &mut BytesMut,
    ) -> Result<(), CopyFault> {
        self.line = self.line.saturating_add(1);
        let start = pending.len();
        let outcome = self.push_tuple(alloc, line, pending);
        if outcome.is_err() {
            pending.truncate(start);
        }
        outcome
    }
}

impl TupleWriter<'_> {
    /// Appends the tuple of the line. An error leaves a part of it.
    fn push_tuple(
        &mut self,
        alloc: Global,
        line: &[u8],
        pending: &mut BytesMut,
    ) -> Result<(), CopyFault>
        ensures columns { self.new.columns.now ≡ self.old.columns.now }
        ensures ok { OnOk result (Gains (TupleOf self.old.columns.now line.now) pending.old.items pending.new.items) }
        ensures err { OnErr result (Extends pending.old.items pending.new.items) }
        ensures refused { IfErr result (LineFault self.old.columns.now line.now) }
    {
        pending.extend_from_slice(&self.count)?;
        // Most lines have no escapes, so their fields are their texts.
        let is_plain = memchr2(b'\\', b'\r', line).is_none();
        let mut rest = Some(line);
        for (place, column) in self.columns.iter().enumerate() {
            let Some(fields) = rest else {
                return Err(self.count_fault(line));
            };
            let (field, after) = split_field(fields);
            if let Err(fault) = push_field(
                alloc,
                column,
                field,
                is_plain,
                &mut self.text,
                pending,
            ) {
                return Err(self.value_fault(alloc, place + 1, column, field, fault));
            }
            rest = after;
        }
        match rest {
            Some(_) => Err(self.count_fault(line)),
            None => Ok(()),
        }
    }

    /// Returns the fault of a field, whose text shows the field.
    // It is kept out of the loop over fields.
    #[inline(never)]
    fn value_fault(
        &self,
        alloc: Global,
        number: usize,
        column: &Column,
        field: &[u8],
        fault: Fault,
    ) -> CopyFault
        ensures number { ValueFault number result }
        ensures memory { fault ≡ Fault.Memory → result ≡ CopyFault.Memory }
    {
        let fault = with_field(alloc, fault, field);
        value_fault(Row::Line(self.line), number, column, fault)
    }

    /// Returns the fault of a line with another number of fields.
    fn count_fault(&self, line: &[u8]) -> CopyFault
        ensures { CountFault (length self.now.columns.now) (length (fields_of line.now)) result }
    {
        let tabs = line.iter().filter(|byte| **byte == b'\t').count();
        let fields = tabs.saturating_add(1);
        CopyFault::Columns {
            row: Row::Line(self.line),
            expected: self.columns.len(),
            got: i64::try_from(fields).unwrap_or(i64::MAX),
        }
    }
}

/// Returns the fault whose text is that of the fault and the field; the fault itself if the field is
/// not UTF-8, or memory runs out.
fn with_field(alloc: Global, fault: Fault, field: &[u8]) -> Fault
    ensures { fault ≡ Fault.Memory → result ≡ Fault.Memory }
{
    if matches!(fault, Fault::Memory) {
        return fault;
    }
    match text_with_field(alloc, &fault, field) {
        Some(text) => Fault::User(text),
        None => fault,
    }
}

/// Returns the text of the fault, and the field; of a long one 40 characters and `...`.
fn text_with_field(alloc: Global, fault: &Fault, field: &[u8]) -> Option<ByteStr> {
    let field = str::from_utf8(field).ok()?;
    let mut text = format!(in alloc; "{fault}: \"").ok()?;
    for c in field.chars().take(40) {
        match c {
            '\r' => text.push_str("\\r").ok()?,
            c if c.is_control() => text.push(char::REPLACEMENT_CHARACTER).ok()?,
            c => text.push(c).ok()?,
        }
    }
    let is_cut = field.chars().nth(40).is_some();
    text.push_str(if is_cut { "...\"" } else { "\"" }).ok()?;
    ByteStr::from_string(text).ok()
}

/// Returns the first of the fields, and those after it, if there are any.
fn split_field(fields: &[u8]) -> (&[u8], Option<&[u8]>)
    ensures { fields_of fields.now ≡ result.0.now ∷ fields_left (text_of result.1) }
{
    match split_once(fields, b'\t') {
        Some((field, after)) => (field, Some(after)),
        None => (fields, None),
    }
}

/// Appends the frame of the cell of a field. `is_plain` says that nothing in the line is escaped.
/// `text` is overwritten with the text of an escaped field.
fn push_field(
    alloc: Global,
    column: &Column,
    field: &[u8],
    is_plain: bool,
    text: &mut Vec<u8>,
    out: &mut BytesMut,
) -> Result<(), Fault>
    requires { is_plain ≡ true → LacksEscapes field.now }
    ensures ok { OnOk result (Gains (FieldFrame column.now field.now) out.old.items out.new.items) }
    ensures err { OnErr result (out.new.items ≡ out.old.items) }
{
    if field == b"\\N".as_slice() {
        return push_frame(alloc, column, None, out);
    }
    if is_plain || memchr2(b'\\', b'\r', field).is_none() {
        return push_utf8(alloc, column, field, out);
    }
    text.clear();
    if !unescape(field, text)? {
        return Err(no_value());
    }
    push_utf8(alloc, column, text.as_slice(), out)
}

/// Appends the frame of the cell for a text. Bytes that are not UTF-8 are refused with `Utf8`.
// A call would return a `Result` with a fault through memory.
#[inline(always)]
fn push_utf8(alloc: Global, column: &Column, text: &[u8], out: &mut BytesMut) -> Result<(), Fault>
    ensures ok { OnOk result (Gains (FrameOf column.now (Some text.now)) out.old.items out.new.items) }
    ensures err { OnErr result (out.new.items ≡ out.old.items) }
{
    match str::from_utf8(text) {
        Ok(text) => push_frame(alloc, column, Some(text), out),
        Err(_) => Err(Fault::Utf8),
    }
}
