// Bus events as a kind of symbols.
ghost use Rattle.std.specs.Prelude.{◌≡◌};
ghost use Rattle.symbols.specs.Bus.{bus_meant, bus_chars, bus_equal, bus_role};
ghost use Rattle.symbols.specs.BusLaws.{bus_wide, bus_back, bus_means, bus_decides};
ghost use Rattle.std.proofs.Common.{rules};

use crate::bus_event::{BusEvent, Phase};
use crate::fault::{AreaRefusal, SymbolFault};
use crate::hex::hex_number;
use crate::kind::Kind;
use crate::role::Role;

// The event that characters mean, if they mean one.
fn event_meant(text: &[u8]) -> Option<BusEvent>
    ensures { result ≡ bus_meant text.now }
{
    if text.len() != 8 {
        return None;
    }
    let identifier = hex_number(&text[0..3])?;
    let phase = Phase::try_from(text[3]).ok()?;
    let value = hex_number(&text[4..8])?;
    if identifier >= 2048 {
        return None;
    }
    Some(BusEvent {
        identifier,
        phase,
        value,
    })
}

#[derive(Clone, Copy, Debug)]
pub struct BusEvents;

impl Kind for BusEvents {
    type Symbol = BusEvent;

    const WIDTH: usize = 8;

    ghost WIDTH = { 8 };

    ghost chars = { bus_chars };

    ghost meant = { bus_meant };

    ghost equal = { bus_equal };

    ghost acts = { λ _ x. bus_role x };

    ghost wide_some = { Prim.search rules };

    ghost all_wide = { bus_wide };

    ghost read_back = { bus_back };

    ghost means_them = { bus_means };

    ghost decides = { bus_decides };

    fn read(&self, text: &[u8]) -> Result<BusEvent, SymbolFault> {
        event_meant(text).ok_or(SymbolFault::NoMeaning)
    }

    #[tactic(auto, unfolding(crate::specs::Hex::hex_digits))]
    fn write(&self, symbol: BusEvent, area: &mut [u8]) -> Result<(), AreaRefusal> {
        if area.len() < Self::WIDTH {
            return Err(AreaRefusal::ShortArea);
        }
        area[..Self::WIDTH].copy_from_slice(&symbol.characters());
        Ok(())
    }

    fn same(&self, a: BusEvent, b: BusEvent) -> bool {
        a == b
    }

    fn role(&self, symbol: BusEvent) -> Role {
        match symbol.phase {
            Phase::Begin => Role::Opening,
            Phase::End => Role::Closing,
            Phase::Point => Role::Plain,
        }
    }
}
