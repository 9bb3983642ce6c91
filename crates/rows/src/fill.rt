// Tables of a fixed size, filled one by one.
ghost use Rattle.std.specs.Prelude.{◌≡◌, ◌+◌, length, if◌then◌else◌, nat_lt, slice_set};

// Puts a thing behind the `count` others, while there is room; how many there then are.
pub fn push<T: Copy>(places: &mut [T], count: usize, thing: T) -> usize
    ensures value { result ≡ (if nat_lt count (length places.old) then count + 1 else count) }
    ensures places { places.new ≡ (if nat_lt count (length places.old) then slice_set places.old count thing else places.old) }
{
    if count < places.len() {
        places[count] = thing;
        count + 1
    } else {
        count
    }
}
