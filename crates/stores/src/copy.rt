// Strings copied into areas.
ghost use Rattle.std.specs.Prelude.{◌≡◌, ◌+◌, ◌≤◌, length};
ghost use Rattle.symbols.specs.Answers.{answered, unless, over};
ghost use Rattle.stores.specs.Calls.{room_refusal};
ghost use Rattle.stores.specs.Parts.{written};

use crate::refusal::StoreRefusal;

// Copies a string into an area from `start` on.
pub fn copy_at<T: Copy>(area: &mut [T], start: usize, string: &[T])
    requires { start + length string.now ≤ length area.old }
    ensures { area.new ≡ written start string.now area.old }
{
    area[start..start + string.len()].copy_from_slice(string);
}

// Copies a string to the front of an area that takes it, and tells its length.
pub fn copy_front<T: Copy>(area: &mut [T], string: &[T]) -> Result<usize, StoreRefusal>
    ensures answer { result ≡ answered (room_refusal (length area.old) string.now) (length string.now) }
    ensures area { area.new ≡ unless (room_refusal (length area.old) string.now) area.old (over string.now area.old) }
{
    if string.len() > area.len() {
        return Err(StoreRefusal::ShortArea);
    }
    area[..string.len()].copy_from_slice(string);
    Ok(string.len())
}
