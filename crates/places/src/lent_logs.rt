// Logs in places that are lent to them: lists that change at their end alone.
ghost use Rattle.std.specs.Prelude.{◌≤◌, length};

// A log says nothing of what stands behind its records, and leaves that as it is. So it is set up without writing to its places,
// however many there are, and its records need no blank.
#[derive(Drop)]
pub struct LentLog<'a, T> {
    places: &'a mut [T],
    count: usize,
    // Of its places only the first ones count.
    ghost within: { count ≤ length places.now },
}

pub mod calls;
