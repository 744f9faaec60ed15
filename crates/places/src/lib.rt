// Lists in a fixed number of places, for every kind of record that has a blank one: the first places hold the records, in order.
//
// A new record goes to the first free place, or is lost where none is free. Taking a record off closes the gap and blanks
// the place that is vacated at the end. A `LentList` is such a list in places that somebody lends, or hands over for good,
// and a `ShortList` one of a few records within itself, which is copied as its records are. The functions of this file are
// what both are built on. They take any numbers: what is no list, or no place of it, is left alone.
//
// A `LentLog` is a list in lent places that changes at its end alone. It leaves what stands behind its records as it is, so that they
// need no blank.
#![tactic(auto)]

ghost use Rattle.std.specs.Prelude.{◌≡◌, ◌+◌, ◌<◌, ◌≤◌, length, replicate, if◌then◌else◌, nat_lt, slice_index_or, slice_set};
ghost use Rattle.places.specs.Lists.{closed, Removed};

pub mod lent_lists;
pub mod lent_logs;
pub mod short_lists;

// A kind of record that has a blank one. `Default` would not do: it says of a value whether it may be the default, and
// names none, so that two places that are vacated could differ.
pub trait Blank {
    ghost empty: { Self };

    fn blank() -> Self
        ensures { result ≡ empty };
}

impl Blank for u8 {
    ghost empty = { 0 };

    fn blank() -> u8 {
        0
    }
}

impl Blank for u32 {
    ghost empty = { 0 };

    fn blank() -> u32 {
        0
    }
}

// Another record in the place of the one at `at`, if there is such a place.
pub fn put<T: Copy>(places: &mut [T], at: usize, item: T)
    ensures { places.new ≡ slice_set places.old at item }
{
    if at < places.len() {
        places[at] = item;
    }
}

// One record more behind the others, lost where no place is free. Answers how many there are then.
pub fn append<T: Copy>(places: &mut [T], count: usize, item: T) -> usize
    ensures count { result ≡ (if nat_lt count (length places.old) then count + 1 else count) }
    ensures after { places.new ≡ slice_set places.old count item }
{
    if count < places.len() {
        places[count] = item;
        count + 1
    } else {
        count
    }
}

// Takes the record at `at` off, if the list has one there.
pub fn remove<T: Blank + Copy>(places: &mut [T], count: usize, at: usize) -> Option<T>
    ensures { Removed T.empty places.old count at result places.new }
{
    if at >= count || count > places.len() {
        return None;
    }
    Some(take_off(places, count, at))
}

// The record moves to the end of the list, as a blank.
fn take_off<T: Blank + Copy>(places: &mut [T], count: usize, at: usize) -> T
    requires { (at < count) × (count ≤ length places.old) }
    ensures value { result ≡ slice_index_or places.old at result }
    ensures after { places.new ≡ closed T.empty places.old count at }
{
    let taken = places[at];
    places[at] = T::blank();
    places[at..count].rotate_left(1);
    taken
}

// Blanks every place.
pub fn clear<T: Blank + Copy>(places: &mut [T])
    ensures { places.new ≡ replicate (length places.old) T.empty }
{
    // No `fill`: it wants a clone that cannot fail, which `Copy` alone does not promise.
    for place in places.iter_mut() {
        *place = T::blank();
    }
}
