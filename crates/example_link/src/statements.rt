//! Statements, and what the server answers.

use crate::link::{Answer, Link};
use anyhow::{Result, bail};
use pg_client::catalog::Catalog;
use pg_client::{RowWriter, ToRow};
use pg_messages::authentication::Authentication;
use pg_messages::frontend::{
    begin_bind, describe_portal, describe_statement, end, execute, parse, query, startup_message,
    sync,
};
use pg_messages::message::Message;
use postgres_types::Type;
use std::alloc::Global;
use std::io::{Read, Write};

impl<R: Read + Drop, W: Write + Drop> Link<R, W> {
    /// Starts the session of a user who needs no password.
    pub fn start(
        &mut self,
        alloc: Global,
        user: &str,
        database: &str,
        catalog: &Catalog,
    ) -> Result<()> {
        let parameters = [("user", user), ("database", database)];
        startup_message(&parameters, &mut self.out)?;
        self.send()?;
        if !matches!(self.next()?, Message::Authentication(Authentication::Ok)) {
            bail!("the server asks for a password");
        }
        self.finish(alloc, catalog)?;
        Ok(())
    }

    /// Runs statements without rows, by a simple query.
    pub fn run(&mut self, alloc: Global, text: &str, catalog: &Catalog) -> Result<()> {
        query(text, &mut self.out)?;
        self.exchange(alloc, catalog)?;
        Ok(())
    }

    /// Runs a query without parameters.
    pub fn select(&mut self, alloc: Global, text: &str, catalog: &Catalog) -> Result<Answer> {
        self.ask(text)?;
        self.finish(alloc, catalog)
    }

    /// Sends a query without parameters. The server answers with the columns and the rows.
    pub fn ask(&mut self, text: &str) -> Result<()> {
        parse("", text, &[], &mut self.out)?;
        let at = begin_bind("", "", &mut self.out)?;
        RowWriter::bind(&mut self.out, &[])?.finish()?;
        end(at, &mut self.out)?;
        describe_portal("", &mut self.out)?;
        execute("", 0, &mut self.out)?;
        sync(&mut self.out)?;
        self.send()
    }

    /// Prepares a statement, and returns the types of its parameters.
    pub fn prepare(
        &mut self,
        alloc: Global,
        name: &str,
        text: &str,
        catalog: &Catalog,
    ) -> Result<Vec<Type>> {
        parse(name, text, &[], &mut self.out)?;
        describe_statement(name, &mut self.out)?;
        sync(&mut self.out)?;
        Ok(self.exchange(alloc, catalog)?.types)
    }

    /// Appends the messages that run a prepared statement without rows, with these parameters, each
    /// written for its type.
    pub fn execute<T: ToRow>(&mut self, name: &str, types: &[Type], parameters: &T) -> Result<()> {
        let at = begin_bind("", name, &mut self.out)?;
        RowWriter::bind(&mut self.out, types)?.write(parameters)?;
        end(at, &mut self.out)?;
        Ok(execute("", 0, &mut self.out)?)
    }
}
