//! The fields of ErrorResponse and NoticeResponse.
ghost use Rattle.std.specs.Prelude.{◌≡◌, false, option_map};
ghost use Rattle.pg_messages.specs.Notices.{field_in};

use streams::split::split_once;

/// Returns the text of the first field with this code; `None` if there is none. The fields are those
/// of an ErrorResponse or a NoticeResponse: each is a code, a text and a zero byte, and after the
/// last comes a zero byte. Among the codes are `V`, the severity, `C`, the SQLSTATE, `M`, the
/// message, `D`, its detail, `H`, a hint, and `P`, the position in the query. The text is in the
/// encoding of the client.
pub fn notice_field(fields: &[u8], code: u8) -> Option<&[u8]>
    ensures { option_map (λ text. text.now) result ≡ field_in code false fields.now }
{
    let mut left = fields;
    while let [first, rest @ ..] = left {
        if *first == 0 {
            return None;
        }
        let Some((text, after)) = split_once(rest, 0) else {
            return None;
        };
        if *first == code {
            return Some(text);
        }
        left = after;
    }
    None
}
