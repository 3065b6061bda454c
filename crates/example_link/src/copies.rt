//! Binary COPYs from the client, and to it.

use crate::link::Link;
use anyhow::{Result, bail};
use pg_client::{RowWriter, ToRow, push_copy_header, push_copy_trailer};
use pg_messages::frontend::{begin_copy_data, copy_done, end, query};
use pg_messages::message::Message;
use postgres_types::Type;
use std::io::{Read, Write};

impl<R: Read + Drop, W: Write + Drop> Link<R, W> {
    /// Appends the statement that begins a COPY from the client, and the header of the COPY.
    pub fn begin_copy(&mut self, text: &str) -> Result<()> {
        query(text, &mut self.out)?;
        let at = begin_copy_data(&mut self.out)?;
        push_copy_header(&mut self.out)?;
        Ok(end(at, &mut self.out)?)
    }

    /// Appends a row of the COPY in a message of its own, each value written for its type.
    pub fn copy_row<T: ToRow>(&mut self, types: &[Type], row: &T) -> Result<()> {
        let at = begin_copy_data(&mut self.out)?;
        RowWriter::tuple(&mut self.out, types)?.write(row)?;
        Ok(end(at, &mut self.out)?)
    }

    /// Appends the trailer of the COPY, and its end.
    pub fn end_copy(&mut self) -> Result<()> {
        let at = begin_copy_data(&mut self.out)?;
        push_copy_trailer(&mut self.out)?;
        end(at, &mut self.out)?;
        Ok(copy_done(&mut self.out)?)
    }

    /// Appends the next part of a COPY to the client, which ends anywhere in a row. Returns whether
    /// there was one; after the last one the server is ready.
    pub fn copy_part(&mut self, bytes: &mut Vec<u8>) -> Result<bool> {
        for _ in 0..u64::MAX {
            match self.next()? {
                Message::CopyData(part) => {
                    bytes.extend_from_slice(part)?;
                    return Ok(true);
                }
                Message::ReadyForQuery(_) => return Ok(false),
                _ => {}
            }
        }
        bail!("messages without end")
    }
}
