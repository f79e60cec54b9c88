//! Who is told of leaves while a search goes on.

/// Who is told of each leaf as it is found. `explore` calls `leaf` once for each leaf that it lists, in the order of the list, before
/// it looks for the next one. No contract speaks of these calls, since what is told goes to a person.
pub trait Watch {
    /// A leaf was found. `count` is how many are found so far, with this one, from 1.
    fn leaf(&mut self, count: usize);

    /// No more leaves will be told. Who explores and then writes a report calls it between the two.
    fn end(&mut self);
}

/// Tells nobody.
#[derive(Clone, Copy)]
pub struct Unwatched;

impl Watch for Unwatched {
    fn leaf(&mut self, _count: usize) {}

    fn end(&mut self) {}
}
