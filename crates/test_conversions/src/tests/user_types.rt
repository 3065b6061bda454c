//! User-defined types, by what a conversion has of its own.

mod composites;
mod domains;
mod enumerated_types;
mod inventory_items;
mod odd;
mod percentages;
mod positions;
mod surveys;
mod user_defined;
