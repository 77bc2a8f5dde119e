//! Where a cursor is.

/// How far a cursor's lines were given. It names no thousandth.
#[derive(Clone, Copy)]
pub struct Place {
    /// The route from which the next line comes, counted from 0 among the routes that the cursor's version sees, by name.
    pub route: u32,
    /// How many of that route's lines were given.
    pub given: u64,
}

impl Place {
    /// Before the first line.
    pub const START: Place = Place { route: 0, given: 0 };
}
