//! The order in which types are made, each one after its parts, which saves time: the same types are
//! made in any order. It also has the rows that contain themselves.

use super::TypeRow;
use super::kinds::parts;
use postgres_types::Oid;
use std::alloc::{AllocError, Global};
use std::collections::BTreeMap;

/// The order of rows, as indices.
#[derive(Drop)]
pub(super) struct Order {
    /// The rows that do not contain themselves, each after its parts.
    pub(super) places: Vec<usize>,
    /// For each row, how many of its parts are rows that contain themselves, or a row that does.
    counts: Vec<usize>,
}

impl Order {
    /// Whether the row at this index contains itself, or a row that does.
    pub(super) fn waits(&self, place: usize) -> bool {
        match self.counts.get(place) {
            Some(count) => *count > 0,
            None => false,
        }
    }
}

/// Returns the order of the rows, by the index of the first row of each OID.
pub(super) fn parts_first(
    alloc: Global,
    rows: &[TypeRow<'_>],
    firsts: &BTreeMap<Oid, usize>,
) -> Result<Order, AllocError> {
    let mut users = no_users(alloc, rows.len())?;
    let mut counts = count_parts(alloc, rows, firsts, &mut users)?;
    let mut places = ready(alloc, counts.as_slice())?;
    for next in 0..rows.len() {
        let Some(place) = places.get(next) else {
            break;
        };
        let Some(users) = users.get(*place) else {
            break;
        };
        release(users.as_slice(), counts.as_mut_slice(), &mut places)?;
    }
    Ok(Order { places, counts })
}

/// Returns an empty list for each of `rows` rows, for the indices of the rows of which it is a
/// part.
fn no_users(alloc: Global, rows: usize) -> Result<Vec<Vec<usize>>, AllocError> {
    let mut users = Vec::new(alloc);
    for _ in 0..rows {
        users.push(Vec::new(alloc))?;
    }
    Ok(users)
}

/// Returns for each row how many of its parts are rows, and adds the row to the users of each of
/// them.
fn count_parts(
    alloc: Global,
    rows: &[TypeRow<'_>],
    firsts: &BTreeMap<Oid, usize>,
    users: &mut Vec<Vec<usize>>,
) -> Result<Vec<usize>, AllocError> {
    let mut counts = Vec::new(alloc);
    for row in rows {
        let count = add_user(counts.len(), parts(row), firsts, users)?;
        counts.push(count)?;
    }
    Ok(counts)
}

/// Adds the row at index `place` to the users of those of its parts that are rows. Returns how many
/// they are.
fn add_user(
    place: usize,
    parts: &[Oid],
    firsts: &BTreeMap<Oid, usize>,
    users: &mut Vec<Vec<usize>>,
) -> Result<usize, AllocError> {
    let mut count = 0;
    for oid in parts {
        if let Some(part) = firsts.get(oid) {
            if let Some(users) = users.get_mut(*part) {
                users.push(place)?;
                count += 1;
            }
        }
    }
    Ok(count)
}

/// Returns the indices of the rows that wait for no part.
fn ready(alloc: Global, counts: &[usize]) -> Result<Vec<usize>, AllocError> {
    let mut places = Vec::new(alloc);
    for (place, count) in counts.iter().enumerate() {
        if *count == 0 {
            places.push(place)?;
        }
    }
    Ok(places)
}

/// Records that a part of these rows is made: those that wait for no other part are ready.
fn release(
    users: &[usize],
    counts: &mut [usize],
    ready: &mut Vec<usize>,
) -> Result<(), AllocError> {
    for user in users {
        release_one(*user, counts, ready)?;
    }
    Ok(())
}

/// Records that a part of this row is made: it is ready if it waits for no other part.
fn release_one(
    user: usize,
    counts: &mut [usize],
    ready: &mut Vec<usize>,
) -> Result<(), AllocError> {
    let Some(count) = counts.get(user) else {
        return Ok(());
    };
    let left = count.saturating_sub(1);
    counts[user] = left;
    if left > 0 {
        return Ok(());
    }
    Ok(ready.push(user)?)
}
