//! A client: messages, rows, Bind messages and its catalog. What is refused is in the contracts.

mod catalog;
mod copy_rows;
mod described;
mod fault_texts;
mod received_messages;
mod row_writer;
mod rows;
mod sent_messages;
mod tuple_rows;
