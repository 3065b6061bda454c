//! The answer to `norm NAME CELL`.
ghost use Rattle.std.specs.Prelude.{◌≡◌, ◌++◌, ℕ, List, IsTrue, OnOk, OnErr, IfSome, Some, Ok, option_map};
ghost use Rattle.hex.specs.Hex.{encode_lower};
ghost use Rattle.postgres_types.specs.Content.{content};
ghost use Rattle.postgres_types.specs.Cells.{cell_of};
ghost use Rattle.postgres_types.specs.Faults.{refusal_of};
ghost use Rattle.postgres_types.specs.ArrayTypes.{accepted_list};
ghost use Rattle.named_types.specs.Names.{picked};
ghost use Rattle.pgcell.specs.Norm.{AnswersIn, AnswersNorm, AppendsRefusal, WritesOf, norm_text};
ghost use Rattle.pgcell.specs.Rewritten.{RewrittenAs, accepted_as};

use crate::user_types::UserTypes;
use bytes::BytesMut;
use named_types::{Base, Form, Name, base_names};
use postgres_types::{Fault, IsNull, Paired, Type, rewrite};
use std::alloc::{AllocError, Global};

// A cell is rewritten as the Rust type of its row.
macro_rules! norm {
    (
        ($this:ident, $alloc:ident, $base:expr, $typed:ident, $pending:ident)
        $($letter:literal { $($of:ident $name:literal [$rust:ty, $($types:tt)*],)* })*
    ) => {
        match $base {
            $($(Base::$of => $this.norm_as::<$rust>($alloc, &$typed, $pending),)*)*
        }
    };
}

/// A cell, with the types of its name and the form in which it is rewritten.
#[derive(Drop)]
struct Typed<'a> {
    form: Form,
    own: Type,
    arrays: Option<Type>,
    cell: Option<&'a [u8]>,
}

impl<'a> Typed<'a> {
    /// Returns the type for the form; `None` if the form is one of arrays and there are none.
    #[tactic(auto, using(named_types::proofs::Picked::picked_map))]
    fn ty(&self) -> Option<&Type>
        ensures { option_map (λ ty. content ty.now) result
            ≡ picked self.now.form (content self.now.own) (option_map content self.now.arrays) }
    {
        self.form.pick(&self.own, self.arrays.as_ref())
    }
}

/// What is kept from cell to cell: the user-defined types that were made, and a buffer for the cell
/// that is written.
#[derive(Drop)]
pub struct Rewriter {
    types: UserTypes,
    written: BytesMut,
}

impl Rewriter {
    /// Creates a rewriter. No type is made, and nothing is allocated, before the first cell.
    pub fn new(alloc: Global) -> Rewriter {
        Rewriter {
            types: UserTypes::new(alloc),
            written: BytesMut::new(alloc),
        }
    }

    /// Rewrites the cell by the types of the name, and appends the result to `pending`. A name
    /// without types gets the answer of a line that is not well formed, `bad line`.
    pub fn norm(
        &mut self,
        alloc: Global,
        name: Name,
        cell: Option<&[u8]>,
        pending: &mut BytesMut,
    ) -> Result<(), AllocError>
        ensures ok { OnOk result ((text : List ℕ)
            × AnswersNorm name (cell_of cell.entry) text
            × (pending.new.items ≡ pending.old.items ++ text)) }
        ensures err { OnErr result (pending.new.items ≡ pending.old.items) }
    {
        let (own, arrays) = self.types.of(alloc, name.base)?;
        let typed = Typed {
            form: name.form,
            own,
            arrays,
            cell,
        };
        base_names!(norm(self, alloc, name.base, typed, pending))
    }

    /// Rewrites the cell as a `T` in its form, by the Postgres type or the type of its arrays. It is
    /// not inlined: else `norm` would clear the variables of every row.
    #[inline(never)]
    fn norm_as<'a, T: Paired<'a>>(
        &mut self,
        alloc: Global,
        typed: &Typed<'a>,
        pending: &mut BytesMut,
    ) -> Result<(), AllocError>
        requires own_type { IsTrue (T.FromSql.accepted (content typed.now.own)) }
        requires array_type { IfSome (option_map content typed.now.arrays)
            (λ ty. IsTrue (accepted_list T.FromSql.accepted ty)) }
        ensures ok { OnOk result ((text : List ℕ)
            × AnswersIn (content typed.now.own) (option_map content typed.now.arrays)
            (RewrittenAs T.reads T.wire) typed.now.form (cell_of typed.now.cell) text
            × (pending.new.items ≡ pending.old.items ++ text)) }
        ensures err { OnErr result (pending.new.items ≡ pending.old.items) }
    {
        let Some(ty) = typed.ty() else {
            return pending.extend_from_slice(b"bad line");
        };
        self.written.clear();
        match rewrite_as::<T>(alloc, typed.form, ty, typed.cell, &mut self.written) {
            Ok(IsNull::Yes) => pending.extend_from_slice(b"null"),
            Ok(IsNull::No) => append_bytes(&self.written, pending),
            Err(fault) => append_fault(alloc, &fault, pending),
        }
    }
}

/// Rewrites the cell as a `T` in that form.
fn rewrite_as<'a, T: Paired<'a>>(
    alloc: Global,
    form: Form,
    ty: &Type,
    cell: Option<&'a [u8]>,
    out: &mut BytesMut,
) -> Result<IsNull, Fault>
    requires { IsTrue (accepted_as T.FromSql.accepted form (content ty.now)) }
    ensures { WritesOf (RewrittenAs T.reads T.wire form (content ty.now) (cell_of cell.entry))
        out.old.items out.new.items result }
{
    match form {
        Form::Plain => rewrite::<T>(alloc, ty, cell, out),
        Form::Optional => rewrite::<Option<T>>(alloc, ty, cell, out),
        Form::Array => rewrite::<Vec<T>>(alloc, ty, cell, out),
        Form::OptionalArray => rewrite::<Vec<Option<T>>>(alloc, ty, cell, out),
    }
}

/// Appends the answer for a written cell.
fn append_bytes(bytes: &[u8], pending: &mut BytesMut) -> Result<(), AllocError>
    ensures ok { OnOk result (pending.new.items ≡ pending.old.items ++ norm_text (Ok (Some bytes.now))) }
    ensures err { OnErr result (pending.new.items ≡ pending.old.items) }
{
    if bytes.is_empty() {
        return pending.extend_from_slice(b"ok -");
    }
    let start = pending.len();
    pending.extend_from_slice(b"ok ")?;
    if append_digits(bytes, pending).is_err() {
        pending.truncate(start);
        return Err(AllocError);
    }
    Ok(())
}

/// Appends the bytes in hexadecimal, without another buffer.
fn append_digits(bytes: &[u8], text: &mut BytesMut) -> Result<(), AllocError>
    ensures ok { OnOk result (text.new.items ≡ text.old.items ++ encode_lower bytes.now) }
    ensures err { OnErr result (text.new.items ≡ text.old.items) }
{
    let start = text.len();
    if bytes.len() > (usize::MAX - start) / 2 {
        return Err(AllocError);
    }
    text.reserve(2 * bytes.len())?;
    text.advance_mut(2 * bytes.len());
    match hex::encode_to_slice(bytes, &mut text[start..]) {
        Ok(()) => Ok(()),
        Err(_) => unreachable!(),
    }
}

/// Appends the answer for a refusal, which has the number of the fault. Out of memory is not a
/// refusal, and is returned as an error.
fn append_fault(alloc: Global, fault: &Fault, pending: &mut BytesMut) -> Result<(), AllocError>
    ensures ok { OnOk result (AppendsRefusal (refusal_of fault.now) pending.old.items pending.new.items) }
    ensures err { OnErr result (pending.new.items ≡ pending.old.items) }
{
    if let Fault::Memory = fault {
        return Err(AllocError);
    }
    let code = fault.code();
    let text = format!(in alloc; "refused {code}")?;
    pending.extend_from_slice(text.as_bytes())
}
