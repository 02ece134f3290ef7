// Where in a log bytes that are saved lie.
ghost use Rattle.std.specs.Prelude.{◌≤◌};

// The bytes from a place on, as many as can be saved.
#[derive(Clone, Copy)]
pub struct Span {
    pub at: usize,
    pub len: usize,
    ghost some: { 1 ≤ len },
    ghost fits: { len ≤ 3320 },
}
