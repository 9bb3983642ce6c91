// Symbols as their text.
#![tactic(auto)]

use std::{fmt, str};
use symbols::kind::Kind;
use symbols::text::write_text;

// How many characters are written at once.
const ROOM: usize = 256;

// Symbols one behind the other, as their kind writes them.
#[derive(Clone, Copy, Drop)]
pub struct Text<'a, K: Kind> {
    pub kind: &'a K,
    pub symbols: &'a [K::Symbol],
}

impl<'a, K: Kind> fmt::Display for Text<'a, K> {
    ghost use Rattle.std.specs.Prelude.{Some};
    ghost use Rattle.std.specs.List.{flat_map};

    ghost output = { λ text. Some (flat_map K.Kind.chars text.symbols.now) };

    fn fmt<W: fmt::Write>(&self, f: &mut fmt::Formatter<W>) -> fmt::Result {
        let mut chars = [0; ROOM];
        for symbols in self.symbols.chunks((ROOM / K::WIDTH).max(1)) {
            // Not `map_err`, whose closures the proof would have to speak of.
            let Ok(count) = write_text(self.kind, symbols, &mut chars) else {
                return Err(fmt::Error);
            };
            let Ok(text) = str::from_utf8(&chars[..count]) else {
                return Err(fmt::Error);
            };
            f.write_str(text)?;
        }
        Ok(())
    }
}

#[cfg(test)]
mod tests {
    use crate::Text;
    use symbols::bus::BusEvents;
    use symbols::kind::Kind;
    use symbols::log::LogChars;

    #[test]
    fn numbers(rt: HostRuntime) {
        let seven = LogChars.read(b"7").expect(&rt, "a symbol");
        let eight = LogChars.read(b"8").expect(&rt, "a symbol");
        let zero = LogChars.read(b"0").expect(&rt, "a symbol");
        let text = Text {
            kind: &LogChars,
            symbols: &[seven, eight, zero],
        };
        let shown = text.to_string(rt.alloc()).expect(&rt, "memory");
        assert_eq!(rt; shown.as_str(), "780");
        let request = BusEvents.read(b"7E0(1003").expect(&rt, "a symbol");
        let response = BusEvents.read(b"7E8)5003").expect(&rt, "a symbol");
        let text = Text {
            kind: &BusEvents,
            symbols: &[request, response],
        };
        let shown = text.to_string(rt.alloc()).expect(&rt, "memory");
        assert_eq!(rt; shown.as_str(), "7E0(10037E8)5003");
        let text = Text {
            kind: &LogChars,
            symbols: &[seven; 300],
        };
        let shown = text.to_string(rt.alloc()).expect(&rt, "memory");
        assert_eq!(rt; shown.as_str().len(), 300);
    }
}
