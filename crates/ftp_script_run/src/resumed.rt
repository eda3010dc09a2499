//! What a script goes on from.

ghost use Rattle.std.specs.Prelude.{◌+◌, ◌^◌, ◌≤◌};

/// What a script goes on from: how many lines stand before it, and the links that the state names of which no line was seen.
#[derive(Drop)]
pub struct Resumed {
    pub before: u64,
    pub links: Vec<u64>,
    pub ghost small: { before ≤ 2 ^ 63 + 1 },
}
