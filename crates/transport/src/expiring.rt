// A layer over any transport that lets messages go out of date.
ghost use Rattle.std.specs.Prelude.{◌≡◌};

pub(crate) mod carrying;
mod readings;

// Each message below has in its first eight bytes the clock's reading at which it was posted.
#[derive(Drop)]
pub struct Expiring<T> {
    below: T,
    grace: u32,
}

impl<T> Expiring<T> {
    // A layer over a transport: a message goes out of date once its reading and the grace lie before the clock's reading.
    pub fn new(below: T, grace: u32) -> Expiring<T>
        ensures below { result.below ≡ below }
        ensures grace { result.grace ≡ grace }
    {
        Expiring { below, grace }
    }
}
