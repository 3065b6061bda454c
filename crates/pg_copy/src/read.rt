//! Reading: from a binary COPY to lines of text.
ghost use Rattle.std.specs.Prelude.{◌≡◌, ◌≢◌, ◌+◌, ◌<◌, ℕ, List, [], ◌++◌, IfErr, IfOk, OnErr, OnOk, length};
ghost use Rattle.pg_copy.specs.Outputs.{EndsIn, Extends, WritesPart, WritesWhole};
ghost use Rattle.pg_copy.specs.ReadingSteps.{Advances, Awaits, AwaitsHeader, AwaitsMore, StopsAt, TakesField};
ghost use Rattle.pg_copy.specs.ReadingSteps.{AddsRow, TakesRow};
ghost use Rattle.pg_copy.specs.Refusals.{RefusesAt, RefusesRow, StopsAfter, UnlessMemory, ValueRefused, is_write};
ghost use Rattle.pg_copy.specs.Refusals.{next_row};
ghost use Rattle.pg_copy.specs.Rows.{IsCopyOf, IsFaultLine, OfInput, StartsCopyOf};
ghost use Rattle.pg_text.specs.Lists.{separator};
ghost use Rattle.pg_tuples.specs.Tuples.{FramesThen};

use crate::columns::Column;
use crate::copy_fault::{CopyFault, Row, refused_tuple, value_fault};
use crate::escapes::escape;
use crate::show::take_text;
use pg_tuples::{Front, front_of, take_header};
use std::alloc::{AllocError, Global};
use std::io::{self, Read, Write};
use std::mem;
use streams::blocks::{BLOCK, read_block, write_whole};

/// The part of a COPY that is to come.
#[derive(Clone, Copy)]
enum Place {
    /// The header.
    Header,
    /// This number of bytes of the header extension.
    Extension(usize),
    /// Tuples and the trailer.
    Tuples,
    /// Nothing.
    End,
}

/// A COPY that is being read.
#[derive(Drop)]
struct Reading<'a> {
    alloc: Global,
    columns: &'a [Column],
    place: Place,
    /// The number of rows that were read.
    row: u64,
    /// The text of a value that does not stand in its cell; the buffer is kept so that it is
    /// allocated once.
    value: Vec<u8>,
    /// The lines to be written.
    lines: Vec<u8>,
}

/// What begins the line of a fault.
const FAULT: &[u8; 7] = b"\\.fault";

/// The line of a fault, without its text: what is written where the text runs out of memory.
const FAULT_LINE: &[u8; 8] = b"\\.fault\n";

/// Reads a binary COPY with these columns, and writes a line for each row in the text format of
/// COPY: columns are separated by a tab, NULL is `\N`, and each value is its text in PostgreSQL.
///
/// After a fault, complete lines are written, those of the rows before it, and then a line of
/// `\.fault` and the fault's text, for which every server refuses the lines, and so loads none of
/// them; after a failed write, a prefix of these. A fault other than those of reading, writing and
/// memory is that of the bytes after these rows, and names the row after them. Memory holds no more
/// than the longest row, a block of input and its lines.
pub fn read<R: Read, W: Write>(
    alloc: Global,
    columns: &[Column],
    input: &mut R,
    output: &mut W,
) -> Result<(), CopyFault>
    ensures ok { OnOk result (OfInput (R.remaining input.old) (λ bytes.
        WritesWhole (IsCopyOf columns.now bytes) (W.contents output.old) (W.contents output.new))) }
    ensures whole { IfErr result (λ e. e ≢ CopyFault.Write → OfInput (R.remaining input.old) (λ bytes. WritesWhole
        (EndsIn (StartsCopyOf columns.now bytes) IsFaultLine) (W.contents output.old) (W.contents output.new))) }
    ensures part { OnErr result (OfInput (R.remaining input.old) (λ bytes. WritesPart
        (EndsIn (StartsCopyOf columns.now bytes) IsFaultLine) (W.contents output.old) (W.contents output.new))) }
    ensures stops { IfErr result (λ e. e ≢ CopyFault.Write → OfInput (R.remaining input.old) (λ bytes. WritesWhole
        (EndsIn (λ lines. StopsAfter columns.now bytes lines e) IsFaultLine)
        (W.contents output.old) (W.contents output.new))) }
{
    let Err(fault) = read_rows(alloc, columns, input, output) else {
        return Ok(());
    };
    if is_write(&fault) {
        return Err(CopyFault::Write);
    }
    if write_fault(alloc, &fault, output).is_err() {
        return Err(CopyFault::Write);
    }
    Err(fault)
}

/// Whether writing failed.
fn is_write(fault: &CopyFault) -> bool
    ensures { result ≡ is_write fault.now }
{
    matches!(fault, CopyFault::Write)
}

/// Writes the line of a fault. An error leaves a part of it.
fn write_fault<W: Write>(alloc: Global, fault: &CopyFault, output: &mut W) -> io::Result<()>
    ensures ok { OnOk result (WritesWhole IsFaultLine (W.contents output.old) (W.contents output.new)) }
    ensures err { OnErr result (WritesPart IsFaultLine (W.contents output.old) (W.contents output.new)) }
{
    match fault_line(alloc, fault) {
        Ok(line) => write_whole(output, line.as_slice()),
        Err(_) => write_whole(output, FAULT_LINE),
    }
}

/// Returns the line of a fault, whose text is escaped.
fn fault_line(alloc: Global, fault: &CopyFault) -> Result<Vec<u8>, AllocError>
    ensures { IfOk result (λ line. IsFaultLine line.items) }
{
    let text = format!(in alloc; ": {fault}")?;
    let mut line = Vec::from_slice(alloc, FAULT)?;
    escape(text.as_bytes(), &mut line)?;
    line.push(b'\n')?;
    Ok(line)
}

/// Reads a binary COPY, and writes a line for each row, up to a fault.
fn read_rows<R: Read, W: Write>(
    alloc: Global,
    columns: &[Column],
    input: &mut R,
    output: &mut W,
) -> Result<(), CopyFault>
    ensures ok { OnOk result (OfInput (R.remaining input.old) (λ bytes.
        WritesWhole (IsCopyOf columns.now bytes) (W.contents output.old) (W.contents output.new))) }
    ensures whole { IfErr result (λ e. e ≢ CopyFault.Write → OfInput (R.remaining input.old) (λ bytes.
        WritesWhole (StartsCopyOf columns.now bytes) (W.contents output.old) (W.contents output.new))) }
    ensures part { OnErr result (OfInput (R.remaining input.old) (λ bytes.
        WritesPart (StartsCopyOf columns.now bytes) (W.contents output.old) (W.contents output.new))) }
    ensures stops { IfErr result (λ e. e ≢ CopyFault.Write → OfInput (R.remaining input.old) (λ bytes.
        WritesWhole (λ lines. StopsAfter columns.now bytes lines e) (W.contents output.old) (W.contents output.new))) }
{
    let mut reading = Reading {
        alloc,
        columns,
        place: Place::Header,
        row: 0,
        value: Vec::new(alloc),
        lines: Vec::new(alloc),
    };
    let mut held = Vec::new(alloc);
    let mut spare = Vec::new(alloc);
    let mut block = [0; BLOCK];
    'reads: for _ in 0..u64::MAX {
        let Ok(len) = read_block(input, &mut block) else {
            return Err(CopyFault::Read);
        };
        if len == 0 {
            return reading.finish();
        }
        let taken = reading.take_block(&block[..len], &mut held, &mut spare);
        if write_whole(output, reading.lines.as_slice()).is_err() {
            return Err(CopyFault::Write);
        }
        taken?;
        reading.lines.clear();
    }
    Err(CopyFault::Read)
}

impl Reading<'_> {
    /// Appends the lines of the tuples that end in the block, and keeps the bytes after them.
    fn take_block(
        &mut self,
        block: &[u8],
        held: &mut Vec<u8>,
        spare: &mut Vec<u8>,
    ) -> Result<(), CopyFault>
        ensures columns { self.new.columns.now ≡ self.old.columns.now }
        ensures ok { OnOk result (Advances self.old.columns.now self.old.place self.old.row
            (held.old.items ++ block.now)
            self.old.lines.items self.new.place self.new.row held.new.items self.new.lines.items) }
        ensures end { OnOk result (self.new.place ≡ Place.End → held.new.items ≡ []) }
        ensures err { OnErr result ((rest : List ℕ) × Advances self.old.columns.now self.old.place self.old.row
            (held.old.items ++ block.now) self.old.lines.items self.new.place self.new.row rest self.new.lines.items) }
        ensures awaits { OnOk result (Awaits self.old.columns.now self.new.place held.new.items) }
        ensures refused { IfErr result (UnlessMemory (λ fault. (rest : List ℕ) × Advances self.old.columns.now
            self.old.place self.old.row (held.old.items ++ block.now) self.old.lines.items self.new.place self.new.row
            rest self.new.lines.items
            × StopsAt self.old.columns.now self.new.place self.new.row rest fault)) }
    {
        held.extend_from_slice(block)?;
        let mut rest = held.as_slice();
        self.take(&mut rest)?;
        // A row that is longer than a block stays where it is until it is complete.
        if rest.len() == held.len() {
            return Ok(());
        }
        spare.clear();
        spare.extend_from_slice(rest)?;
        mem::swap(held, spare);
        Ok(())
    }

    /// Takes the complete parts from the front of the bytes, and appends the lines of the tuples. A
    /// fault leaves the lines of the tuples before it.
    fn take(&mut self, bytes: &mut &[u8]) -> Result<(), CopyFault>
        ensures columns { self.new.columns.now ≡ self.old.columns.now }
        ensures steps { Advances self.old.columns.now self.old.place self.old.row bytes.old.now self.old.lines.items
            self.new.place self.new.row bytes.new.now self.new.lines.items }
        ensures end { OnOk result (self.new.place ≡ Place.End → bytes.new.now ≡ []) }
        ensures awaits { OnOk result (Awaits self.old.columns.now self.new.place bytes.new.now) }
        ensures refused { IfErr result (UnlessMemory (StopsAt self.old.columns.now self.new.place self.new.row
            bytes.new.now)) }
    {
        self.take_head(bytes)?;
        self.take_extension(bytes);
        self.take_tuples(bytes)?;
        let Place::End = self.place else {
            return Ok(());
        };
        if bytes.is_empty() {
            Ok(())
        } else {
            Err(CopyFault::Trailing)
        }
    }

    /// Takes the header up to its extension, if it is to come and complete.
    fn take_head(&mut self, bytes: &mut &[u8]) -> Result<(), CopyFault>
        ensures columns { self.new.columns.now ≡ self.old.columns.now }
        ensures steps { Advances self.old.columns.now self.old.place self.old.row bytes.old.now self.old.lines.items
            self.new.place self.new.row bytes.new.now self.new.lines.items }
        ensures awaits { OnOk result (AwaitsHeader self.new.place bytes.new.now) }
        ensures refused { IfErr result (StopsAt self.old.columns.now self.new.place self.new.row bytes.new.now) }
    {
        let Place::Header = self.place else {
            return Ok(());
        };
        let Some(len) = take_header(bytes)? else {
            return Ok(());
        };
        self.place = Place::Extension(len);
        Ok(())
    }

    /// Takes the available bytes of the header extension, if it is to come.
    fn take_extension(&mut self, bytes: &mut &[u8])
        ensures columns { self.new.columns.now ≡ self.old.columns.now }
        ensures steps { Advances self.old.columns.now self.old.place self.old.row bytes.old.now self.old.lines.items
            self.new.place self.new.row bytes.new.now self.new.lines.items }
        ensures awaits { AwaitsHeader self.old.place bytes.old.now → AwaitsMore self.new.place bytes.new.now }
    {
        let Place::Extension(len) = self.place else {
            return;
        };
        match bytes.split_at_checked(len) {
            Some((_, rest)) => {
                *bytes = rest;
                self.place = Place::Tuples;
            }
            None => {
                self.place = Place::Extension(len - bytes.len());
                *bytes = &[];
            }
        }
    }

    /// Takes the complete tuples, and the trailer, if they are to come. A fault leaves its tuple in
    /// place.
    fn take_tuples(&mut self, bytes: &mut &[u8]) -> Result<(), CopyFault>
        ensures columns { self.new.columns.now ≡ self.old.columns.now }
        ensures steps { Advances self.old.columns.now self.old.place self.old.row bytes.old.now self.old.lines.items
            self.new.place self.new.row bytes.new.now self.new.lines.items }
        ensures awaits { OnOk result (AwaitsMore self.old.place bytes.old.now
            → self.new.place ≢ Place.End → Awaits self.old.columns.now self.new.place bytes.new.now) }
        ensures refused { IfErr result (UnlessMemory (StopsAt self.old.columns.now self.new.place self.new.row
            bytes.new.now)) }
    {
        let Place::Tuples = self.place else {
            return Ok(());
        };
        // A tuple has at least two bytes.
        'tuples: for _turn in 0..bytes.len() {
            let row = self.row.saturating_add(1);
            match front_of(bytes, self.columns.len()) {
                Ok(Front::Part) => return Ok(()),
                Ok(Front::Trailer(rest)) => {
                    self.place = Place::End;
                    *bytes = rest;
                    return Ok(());
                }
                Ok(Front::Tuple { frames, rest }) => {
                    self.push_row(frames)?;
                    *bytes = rest;
                    self.row = row;
                }
                Err(fault) => return Err(refused_tuple(Row::Tuple(row), fault)),
            }
        }
        Ok(())
    }

    /// Appends the line of the row with these frames. An error leaves the lines as they were.
    fn push_row(&mut self, frames: &[u8]) -> Result<(), CopyFault>
        requires { FramesThen frames.now (length self.old.columns.now) [] }
        ensures columns { self.new.columns.now ≡ self.old.columns.now }
        ensures place { self.new.place ≡ self.old.place }
        ensures row { self.new.row ≡ self.old.row }
        ensures ok { OnOk result (AddsRow self.old.columns.now frames.now self.old.lines.items self.new.lines.items) }
        ensures err { OnErr result (self.new.lines.items ≡ self.old.lines.items) }
        ensures refused { IfErr result (UnlessMemory (RefusesRow (next_row self.old.row) self.old.columns.now
            frames.now)) }
    {
        let start = self.lines.len();
        let mut rest = frames;
        let outcome = self.push_line(&mut rest);
        if outcome.is_err() {
            self.lines.truncate(start);
        }
        outcome
    }

    /// Appends the line of the fields, and takes them. An error leaves a part of the line.
    fn push_line(&mut self, fields: &mut &[u8]) -> Result<(), CopyFault>
        requires { (rest : List ℕ) × FramesThen fields.old.now (length self.old.columns.now) rest }
        ensures columns { self.new.columns.now ≡ self.old.columns.now }
        ensures place { self.new.place ≡ self.old.place }
        ensures row { self.new.row ≡ self.old.row }
        ensures ok { OnOk result (TakesRow self.old.columns.now fields.old.now fields.new.now
            self.old.lines.items self.new.lines.items) }
        ensures err { OnErr result (Extends self.old.lines.items self.new.lines.items) }
        ensures refused { IfErr result (UnlessMemory (RefusesRow (next_row self.old.row) self.old.columns.now
            fields.old.now)) }
    {
        let columns = self.columns;
        'columns: for place in 0..columns.len() {
            self.push_tab(place)?;
            self.push_field(&columns[place], place, fields)?;
        }
        Ok(self.lines.push(b'\n')?)
    }

    /// Appends a tab if the field at this index is not the first one.
    fn push_tab(&mut self, place: usize) -> Result<(), CopyFault>
        ensures columns { self.new.columns.now ≡ self.old.columns.now }
        ensures place { self.new.place ≡ self.old.place }
        ensures row { self.new.row ≡ self.old.row }
        ensures ok { OnOk result (self.new.lines.items ≡ self.old.lines.items ++ separator 9 place) }
        ensures err { OnErr result (self.new.lines.items ≡ self.old.lines.items) }
        ensures memory { IfErr result (λ fault. fault ≡ CopyFault.Memory) }
    {
        if place > 0 {
            self.lines.push(b'\t')?;
        }
        Ok(())
    }

    /// Appends the field of the column at index `place`, and takes it from the front of the fields.
    /// An error leaves a part of it.
    fn push_field(
        &mut self,
        column: &Column,
        place: usize,
        fields: &mut &[u8],
    ) -> Result<(), CopyFault>
        requires { place < usize.MAX }
        ensures columns { self.new.columns.now ≡ self.old.columns.now }
        ensures place { self.new.place ≡ self.old.place }
        ensures row { self.new.row ≡ self.old.row }
        ensures ok { OnOk result (TakesField column.now fields.old.now fields.new.now
            self.old.lines.items self.new.lines.items) }
        ensures err { OnErr result (Extends self.old.lines.items self.new.lines.items) }
        ensures refused { IfErr result (UnlessMemory (ValueRefused (next_row self.old.row) (place + 1) column.now
            (RefusesAt column.now fields.old.now))) }
    {
        match take_text(self.alloc, column, fields, &mut self.value) {
            Ok(Some(text)) => Ok(escape(text, &mut self.lines)?),
            Ok(None) => Ok(self.lines.extend_from_slice(b"\\N")?),
            Err(fault) => {
                let number = self.row.saturating_add(1);
                Err(value_fault(Row::Tuple(number), place + 1, column, fault))
            }
        }
    }

    /// Returns the result at the end of the input: `Truncated`, unless the trailer was read.
    fn finish(&self) -> Result<(), CopyFault>
        ensures ok { OnOk result (self.now.place ≡ Place.End) }
        ensures err { IfErr result (λ fault. (fault ≡ CopyFault.Truncated) × (self.now.place ≢ Place.End)) }
    {
        match self.place {
            Place::End => Ok(()),
            _ => Err(CopyFault::Truncated),
        }
    }
}
