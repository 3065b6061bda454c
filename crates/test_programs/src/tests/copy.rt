//! COPY in both directions: its command lines, its calendar, and streams in memory that fail. The
//! values, their texts and what is refused are rows of `scripts/copy_rows.py`.

mod calendar;
mod command_lines;
mod failing_streams;
