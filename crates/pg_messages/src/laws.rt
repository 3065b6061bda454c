//! Laws of messages, and what equality of their faults means, each as a function whose contract
//! states it.
ghost use Rattle.std.specs.Prelude.{◌≡◌, ◌↔◌, IsTrue};
ghost use Rattle.pg_messages.specs.Laws.{EndedIsMessage, OneMessage, SentIsTaken, StringIsRead};

use crate::backend::MessageFault;

/// Bytes begin with one tag and one length.
pub fn one_message()
    ensures { OneMessage }
{}

/// A message of [`frontend`](crate::frontend) has the tag, the length and the body with which it is
/// taken, whatever follows it.
pub fn sent_is_taken()
    ensures { SentIsTaken }
{}

/// A text that is sent is read, and the bytes after it are left.
pub fn string_is_read()
    ensures { StringIsRead }
{}

/// What was begun, with whatever was appended, is a message once [`end`](crate::frontend::end) set
/// its length.
pub fn ended_is_message()
    ensures { EndedIsMessage }
{}

/// Whether two faults of a message are equal: the same variant, with the same number.
pub fn same_message_fault(a: &MessageFault, b: &MessageFault) -> bool
    ensures { IsTrue result ↔ (a.now ≡ b.now) }
{
    *a == *b
}
