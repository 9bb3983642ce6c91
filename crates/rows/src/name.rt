// Names as the tables of a sheet keep them.
ghost use Rattle.std.specs.Prelude.{◌≡◌};
ghost use Rattle.rows.specs.Names.{name_of};

use tables::name::Name;

// A name of the first 16 characters.
pub fn name_of(chars: &[u8]) -> Name
    ensures { result ≡ name_of chars.now }
{
    let length = chars.len().min(16);
    let mut letters = [0; 16];
    letters[0..length].copy_from_slice(&chars[0..length]);
    Name { letters, length }
}
