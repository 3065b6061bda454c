//! Arrays that are read element by element into slots on the stack, without allocating.
#![tactic(auto)]

ghost use Rattle.std.specs.Prelude.{◌≡◌, Ok, Err, Result, MatchOption, MatchResult, length};
ghost use Rattle.array_slots.specs.Sources.{AnswersArray, GivesAll, StopsBefore};

mod filling;
mod places;

use core::array::empty;
use filling::fill;
use places::with_places;

/// A source of the elements of an array, which it gives one after another.
pub trait ElementSource<T>: Drop {
    /// The source can be asked for an element.
    ghost ready: { Self → Type 0 };

    /// The source (the first argument) gave the element and became the third argument.
    ghost gives: { Self → T → Self → Type 0 };

    /// The source (the first argument) gave no element and became the second argument.
    ghost stops: { Self → Self → Type 0 };

    /// Returns the next element, or `None` if there is none.
    fn next(&mut self) -> Option<T>
        requires { ready self.old }
        ensures { MatchOption result (stops self.old self.new) (λ v. gives self.old v self.new × ready self.new) };
}

/// What a source reports when it stops early, or after the last element of an array.
pub trait Finish: Drop {
    /// The error that the source reports.
    type Fault: Drop;

    /// The source stopped with this fault.
    ghost stopped_at: { Self → Self.Fault → Type 0 };

    /// The rest of the source, after the elements of an array, is valid, or has this fault.
    ghost finishes: { Self → Result (Unit {0}) Self.Fault → Type 0 };

    /// Returns the fault with which the source stopped.
    fn into_fault(self) -> Self::Fault
        ensures { stopped_at self result };

    /// Checks the rest of the source, after the last element of an array.
    fn finish(self) -> Result<(), Self::Fault>
        ensures { finishes self result };
}

/// Reads the `N` elements of an array from the source, in their order, each once. If the source
/// stops before it has given `N` elements, or if `finish` refuses what is left after them, the
/// elements that were read are dropped and that fault is returned. It does not allocate.
pub fn try_from_source<T: Drop, S: ElementSource<T> + Finish, const N: usize>(
    source: S,
) -> Result<[T; N], S::Fault>
    requires { S.ready source }
    ensures { AnswersArray S.gives S.stops S.stopped_at S.finishes source N result }
{
    check_end(read_elements(source))
}

/// Returns the next `N` elements and the source after them, or, if it stops earlier, the source
/// alone.
fn read_elements<T: Drop, S: ElementSource<T>, const N: usize>(
    mut source: S,
) -> Result<([T; N], S), S>
    requires { S.ready source }
    ensures { MatchResult result (λ p. (length p.0 ≡ N) × GivesAll S.gives source p.0 p.1)
        (λ s. StopsBefore S.gives S.stops source N s) }
{
    if N == 0 {
        return both(empty(), source);
    }
    match source.next() {
        Some(first) => with_places(first, source, fill),
        None => Err(source),
    }
}

/// Returns both values.
fn both<A, S>(array: A, source: S) -> Result<(A, S), S>
    ensures { result ≡ Ok (array, source) }
{
    Ok((array, source))
}

/// Returns the array that was read, unless the rest of its source has a fault.
fn check_end<A: Drop, S: Finish>(read: Result<(A, S), S>) -> Result<A, S::Fault>
    ensures { MatchResult read (λ p. MatchResult result (λ a. (a ≡ p.0) × S.finishes p.1 (Ok tt))
        (λ e. S.finishes p.1 (Err e))) (λ s. MatchResult result (λ _. ⊥) (λ e. S.stopped_at s e)) }
{
    match read {
        Ok((array, source)) => match source.finish() {
            Ok(()) => Ok(array),
            Err(fault) => Err(fault),
        },
        Err(source) => Err(source.into_fault()),
    }
}
