//! Building values of hstore.
ghost use Rattle.std.specs.Prelude.{◌≡◌, ◌≤◌, ◌++◌, MatchOption, Some, None, length, true, false};
ghost use Rattle.pg_base.specs.Cells.{max_length};
ghost use Rattle.pg_base.specs.Counts.{count_bytes};
ghost use Rattle.pg_cells_c.specs.Builders.{Closes, Pushes, count_width, entry_bytes, empty_builder, text_frame};

use super::records::{HEAD_LEN, close_count};
use super::{Builder, empty_builder, push_item};
use crate::buffers::NO_CELL;
use pg_base::protocol::MAX_LEN;

/// Begins an hstore (`hstore_send`).
#[unsafe(no_mangle)]
pub extern "C" fn pgc_hstore_open(builder: &mut Builder)
    ensures { builder.new ≡ empty_builder count_width }
{
    *builder = empty_builder(HEAD_LEN);
}

/// Returns the length prefix of a text. There is none if the text is not UTF-8 or has more than
/// 2,147,483,647 bytes.
#[inline(always)]
#[tactic(auto, using(crate::proofs::PushSteps::text_framed, crate::proofs::PushSteps::no_text_frame))]
fn text_prefix(text: &[u8]) -> Option<[u8; 4]>
    ensures { MatchOption result (text_frame (Some text.now) ≡ None)
        (λ prefix. (text_frame (Some text.now) ≡ Some (prefix ++ text.now)) × (length text.now ≤ max_length)) }
{
    if text.len() > MAX_LEN {
        return None;
    }
    match str::from_utf8(text) {
        Ok(_) => Some((text.len() as i32).to_be_bytes()),
        Err(_) => None,
    }
}

/// Pushes an entry: the frames of its key and its value. The entry is not pushed if one of them is
/// not UTF-8 or has more than 2,147,483,647 bytes.
#[unsafe(no_mangle)]
#[tactic(auto, using(crate::proofs::PushSteps::no_value, crate::proofs::PushSteps::entry_pushed))]
pub extern "C" fn pgc_push_entry(
    builder: &mut Builder,
    key: &[u8],
    value: &[u8],
    out: &mut [u8],
) -> usize
    ensures { Pushes (entry_bytes (key.now, Some value.now)) false builder.old builder.new out.old out.new result }
{
    let Some(key_len) = text_prefix(key) else {
        return NO_CELL;
    };
    let Some(value_len) = text_prefix(value) else {
        return NO_CELL;
    };
    push_item(builder, &key_len, key, &value_len, value, false, out)
}

/// Pushes an entry whose value is NULL: the frame of its key, and the frame of NULL. The entry is
/// not pushed if the key is not UTF-8 or has more than 2,147,483,647 bytes.
#[unsafe(no_mangle)]
#[tactic(auto, using(crate::proofs::PushSteps::null_entry_pushed))]
pub extern "C" fn pgc_push_null_entry(builder: &mut Builder, key: &[u8], out: &mut [u8]) -> usize
    ensures { Pushes (entry_bytes (key.now, None)) true builder.old builder.new out.old out.new result }
{
    let Some(key_len) = text_prefix(key) else {
        return NO_CELL;
    };
    push_item(
        builder,
        &key_len,
        key,
        &(-1i32).to_be_bytes(),
        &[],
        true,
        out,
    )
}

/// Writes the number of entries of an hstore. There is no cell of more than 2,147,483,647 entries.
#[unsafe(no_mangle)]
pub extern "C" fn pgc_hstore_close(builder: &Builder, out: &mut [u8]) -> usize
    ensures { Closes count_width (count_bytes builder.now.count) builder.now out.old out.new result }
{
    close_count(builder, out)
}
