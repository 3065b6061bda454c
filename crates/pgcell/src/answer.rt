//! The answer to a line.
ghost use Rattle.std.specs.Prelude.{◌≡◌, ◌++◌, ℕ, List, OnOk, OnErr};
ghost use Rattle.postgres_types.specs.Lsn.{lsn_of};
ghost use Rattle.pgcell.specs.Answer.{Answer, AnswersLine, AnswersType, lsn_answer};

use crate::norm::Rewriter;
use crate::request::Request;
use bytes::BytesMut;
use postgres_types::{Oid, PgLsn, Type};
use std::alloc::{AllocError, Global};
use std::fmt::Write;
use streams::lines::AnswerLine;

/// The buffers that are kept from line to line: the bytes of a cell, an answer that is a text, and
/// those of rewriting.
#[derive(Drop)]
pub struct Answerer {
    bytes: BytesMut,
    text: String,
    rewriter: Rewriter,
}

impl Answerer {
    /// Creates an answerer. Nothing is allocated before the first line.
    pub fn new(alloc: Global) -> Answerer {
        Answerer {
            bytes: BytesMut::new(alloc),
            text: String::new(alloc),
            rewriter: Rewriter::new(alloc),
        }
    }

    /// Appends the answer to a line, without its line end.
    fn append_answer(
        &mut self,
        alloc: Global,
        line: &[u8],
        pending: &mut BytesMut,
    ) -> Result<(), AllocError>
        ensures ok { OnOk result ((text : List ℕ)
            × Answer line.now text
            × (pending.new.items ≡ pending.old.items ++ text)) }
        ensures err { OnErr result (pending.new.items ≡ pending.old.items) }
    {
        match Request::parse(line, &mut self.bytes)? {
            None => pending.extend_from_slice(b"bad line"),
            Some(Request::Norm(name, cell)) => self.rewriter.norm(alloc, name, cell, pending),
            Some(Request::TypeOf(oid)) => append_type(oid, &mut self.text, pending),
            Some(Request::Lsn(lsn)) => append_lsn(lsn, &mut self.text, pending),
        }
    }
}

impl AnswerLine for Answerer {
    type Fault = AllocError;

    ghost answers = { λ _. AnswersLine };

    ghost refuses = { λ _ _ _. Unit {0} };

    fn answer(
        &mut self,
        alloc: Global,
        line: &[u8],
        pending: &mut BytesMut,
    ) -> Result<(), AllocError> {
        let start = pending.len();
        self.append_answer(alloc, line, pending)?;
        if pending.extend_from_slice(b"\n").is_err() {
            pending.truncate(start);
            return Err(AllocError);
        }
        Ok(())
    }
}

/// Appends the answer to `type OID`.
fn append_type(oid: Oid, text: &mut String, pending: &mut BytesMut) -> Result<(), AllocError>
    ensures ok { OnOk result ((text : List ℕ)
        × AnswersType oid text
        × (pending.new.items ≡ pending.old.items ++ text)) }
    ensures err { OnErr result (pending.new.items ≡ pending.old.items) }
{
    let Some(ty) = Type::from_oid(oid) else {
        return pending.extend_from_slice(b"none");
    };
    text.clear();
    write!(text, "ok {ty}")?;
    pending.extend_from_slice(text.as_bytes())
}

/// Appends the answer to `lsn TEXT`.
fn append_lsn(lsn: &str, text: &mut String, pending: &mut BytesMut) -> Result<(), AllocError>
    ensures ok { OnOk result (pending.new.items ≡ pending.old.items ++ lsn_answer (lsn_of lsn.now)) }
    ensures err { OnErr result (pending.new.items ≡ pending.old.items) }
{
    let Ok(lsn) = lsn.parse::<PgLsn>() else {
        return pending.extend_from_slice(b"bad lsn");
    };
    text.clear();
    write!(text, "ok {lsn}")?;
    pending.extend_from_slice(text.as_bytes())
}
