//! The columns of a result.
ghost use Rattle.std.specs.Prelude.{◌≡◌, ◌<◌, None, IfSome, IfNone, length};

use arrayvec::ArrayString;
use postgres_types::Type;

/// The greatest length in bytes of a column's name: a server's names have at most `NAMEDATALEN - 1`
/// bytes.
pub const NAME_LEN: usize = 63;

/// The name of a column, stored in the column itself.
pub type ColumnName = ArrayString<NAME_LEN>;

/// A column of a result, as a RowDescription message describes it.
#[derive(Debug, Drop)]
pub struct Column {
    /// Its name, if it has one.
    pub name: Option<ColumnName>,
    /// The type of its values.
    pub ty: Type,
}

impl Column {
    /// Creates a column with this name and type. A name of more than [`NAME_LEN`] bytes, which no
    /// server sends, is left out.
    pub fn new(name: &str, ty: Type) -> Column
        ensures ty { result.ty ≡ ty }
        ensures name { IfSome result.name (λ own. own.bytes ≡ name.now) }
        ensures left_out { IfNone result.name (NAME_LEN < length name.now) }
    {
        let name = ColumnName::from(name).ok();
        Column { name, ty }
    }

    /// Creates a column of this type, without a name.
    pub fn unnamed(ty: Type) -> Column
        ensures { result ≡ record { name = None; ty = ty } }
    {
        Column { name: None, ty }
    }
}
