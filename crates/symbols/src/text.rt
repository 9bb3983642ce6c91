// Whole texts: reading one as symbols of a kind, and writing symbols as one.
ghost use Rattle.std.specs.Prelude.{◌≡◌, ◌/◌, ◌≤◌, length, IsOk};
ghost use Rattle.std.specs.List.{flat_map};
ghost use Rattle.symbols.specs.Answers.{answered, over};
ghost use Rattle.symbols.specs.Kinds.{short_for, fronted};
ghost use Rattle.symbols.specs.Texts.{text_read, counted, symbols_in, read_answer, read_into, Tells};

use crate::fault::{AreaRefusal, SymbolFault, TextFault, TextRefusal};
use crate::kind::Kind;

// How many symbols a text means, or its fault.
pub fn check_text<K: Kind>(kind: &K, text: &[u8]) -> Result<usize, TextFault>
    ensures { result ≡ counted (text_read K.Kind.meant K.Kind.WIDTH text.now) }
{
    if text.len() % K::WIDTH != 0 {
        return Err(TextFault {
            fault: SymbolFault::NotWhole,
            at: 0,
        });
    }
    for (i, chars) in text.chunks_exact(K::WIDTH).enumerate() {
        kind.read(chars).map_err(|fault| TextFault {
            fault,
            at: i * K::WIDTH,
        })?;
    }
    Ok(text.len() / K::WIDTH)
}

// Writes the symbols of a text that has no fault to the front of an area.
fn fill<K: Kind>(kind: &K, text: &[u8], area: &mut [K::Symbol])
    requires read { IsOk (text_read K.Kind.meant K.Kind.WIDTH text.now) }
    requires room { length text.now / K.Kind.WIDTH ≤ length area.old }
    ensures { area.new ≡ over (symbols_in (text_read K.Kind.meant K.Kind.WIDTH text.now)) area.old }
{
    for (i, chars) in text.chunks_exact(K::WIDTH).enumerate() {
        area[i] = kind.read(chars).unwrap();
    }
}

// The symbols of a text, written to the front of an area; how many they are.
pub fn read_text<K: Kind>(
    kind: &K,
    text: &[u8],
    area: &mut [K::Symbol],
) -> Result<usize, TextRefusal>
    ensures answer { result ≡ read_answer (text_read K.Kind.meant K.Kind.WIDTH text.now) area.old }
    ensures area { area.new ≡ read_into (text_read K.Kind.meant K.Kind.WIDTH text.now) area.old }
    ensures tells { Tells K.Kind.chars K.Kind.WIDTH text.now (text_read K.Kind.meant K.Kind.WIDTH text.now) }
{
    let count = check_text(kind, text)?;
    if area.len() < count {
        return Err(TextRefusal::Area(AreaRefusal::ShortArea));
    }
    fill(kind, text, area);
    Ok(count)
}

// The characters of symbols, written to the front of an area; how many they are.
pub fn write_text<K: Kind>(
    kind: &K,
    symbols: &[K::Symbol],
    area: &mut [u8],
) -> Result<usize, AreaRefusal>
    ensures answer { result ≡ answered (short_for (flat_map K.Kind.chars symbols.now) area.old) (length (flat_map K.Kind.chars symbols.now)) }
    ensures area { area.new ≡ fronted (flat_map K.Kind.chars symbols.now) area.old }
{
    if symbols.len() > area.len() / K::WIDTH {
        return Err(AreaRefusal::ShortArea);
    }
    // By places: of parts that `chunks_exact_mut` lends, a proof knows the lengths but not what was written.
    for (i, symbol) in symbols.iter().enumerate() {
        let at = i * K::WIDTH;
        kind.write(*symbol, &mut area[at..at + K::WIDTH])?;
    }
    Ok(symbols.len() * K::WIDTH)
}
