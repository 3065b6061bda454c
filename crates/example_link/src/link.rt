//! The connection.

use anyhow::{Result, bail};
use pg_client::catalog::Catalog;
use pg_client::{Column, FromRow, Row, columns, parameter_types};
use pg_messages::backend::{Front, Received, take_front, take_message};
use pg_messages::message::Message;
use pg_messages::notice::notice_field;
use postgres_types::{BytesMut, Type};
use std::alloc::Global;
use std::io::{BufReader, Read, Write};

/// The greatest length of a message that is taken.
const MOST: usize = 1 << 24;

/// The tag of a NoticeResponse.
const NOTICE: u8 = b'N';

/// A connection: messages are sent together, and received one by one.
#[derive(Drop)]
pub struct Link<R, W> {
    input: BufReader<R>,
    output: W,
    /// The messages that are to be sent.
    pub out: BytesMut,
    /// The message that was received last.
    received: Vec<u8>,
}

/// What the server answers: the types of parameters, and the columns and the bodies of rows.
#[derive(Drop)]
pub struct Answer {
    pub types: Vec<Type>,
    pub columns: Vec<Column>,
    bodies: Vec<Vec<u8>>,
}

impl Answer {
    /// Reads the rows.
    pub fn rows<'a, T: FromRow<'a> + Drop>(&'a self, alloc: Global) -> Result<Vec<T>> {
        let mut rows = Vec::new(alloc);
        for body in &self.bodies {
            rows.push(Row::new(body.as_slice(), self.columns.as_slice())?.read(alloc)?)?;
        }
        Ok(rows)
    }
}

impl<R: Read + Drop, W: Write + Drop> Link<R, W> {
    /// Creates a connection over the streams of a server. It sends nothing.
    pub fn new(alloc: Global, input: R, output: W) -> Result<Link<R, W>> {
        Ok(Link {
            input: BufReader::new(alloc, input)?,
            output,
            out: BytesMut::new(alloc),
            received: Vec::new(alloc),
        })
    }

    /// Sends the messages.
    pub fn send(&mut self) -> Result<()> {
        self.output.write_all(self.out.as_slice())?;
        self.output.flush()?;
        self.out.clear();
        Ok(())
    }

    /// Receives the next message that is no notice. An error of the server is an `Err`; what was sent
    /// after it, up to the next Sync, has no answer.
    pub fn next(&mut self) -> Result<Message<'_>> {
        for _ in 0..u64::MAX {
            self.receive()?;
            if self.received.first() != Some(&NOTICE) {
                break;
            }
        }
        match self.message()? {
            Message::ErrorResponse(fields) => {
                let text = notice_field(fields, b'M').unwrap_or(b"?");
                bail!("server: {}", std::str::from_utf8(text)?)
            }
            message => Ok(message),
        }
    }

    /// Sends the messages, and receives what the server answers.
    pub fn exchange(&mut self, alloc: Global, catalog: &Catalog) -> Result<Answer> {
        self.send()?;
        self.finish(alloc, catalog)
    }

    /// Receives what the server answers up to ReadyForQuery.
    pub fn finish(&mut self, alloc: Global, catalog: &Catalog) -> Result<Answer> {
        let mut answer = Answer {
            types: Vec::new(alloc),
            columns: Vec::new(alloc),
            bodies: Vec::new(alloc),
        };
        for _ in 0..u64::MAX {
            match self.next()? {
                Message::ParameterDescription { count, oids } => {
                    answer.types = parameter_types(alloc, count, oids, catalog)?;
                }
                Message::RowDescription {
                    count,
                    columns: descriptions,
                } => answer.columns = columns(alloc, count, descriptions, catalog)?,
                Message::DataRow(body) => answer.bodies.push(body.to_vec(alloc)?)?,
                Message::ReadyForQuery(_) => return Ok(answer),
                _ => {}
            }
        }
        bail!("messages without end")
    }

    /// Receives a message: its tag and its length, and then its body.
    fn receive(&mut self) -> Result<()> {
        self.received.clear();
        for _ in 0..2 {
            if let Front::Part(missing) = take_front(&mut self.received.as_slice(), MOST)? {
                let before = self.received.len();
                self.received.resize(before.saturating_add(missing), 0)?;
                let (_, part) = self.received.split_at_mut(before);
                self.input.read_exact(part)?;
            }
        }
        Ok(())
    }

    /// Returns the message that was received.
    fn message(&self) -> Result<Message<'_>> {
        match take_message(&mut self.received.as_slice(), MOST)? {
            Received::Message(message) => Ok(message),
            Received::Part(missing) => bail!("{missing} bytes are missing"),
        }
    }
}
