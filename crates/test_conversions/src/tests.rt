//! The tests, by topic.

mod bind;
mod cells;
mod fixed_arrays;
mod frames;
mod known_frames;
mod list_refusals;
mod lists;
mod long_lists;
mod reading_back;
mod room;
mod user_types;
mod wrappers;
