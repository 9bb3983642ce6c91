// The bench, for now: what each line of a capture is, read as log characters and as bus events; the first `[ID]` of each log line; and the IDs found, kept in both stores.
#![tactic(auto)]

mod finding;
mod keeping;
mod roles;
mod survey;

use crate::finding::{Brackets, find_id};
use crate::keeping::{keep, show};
use crate::survey::survey;
use lines::text::Lines;
use packed::PackedStore;
use slots::SlotStore;
use std::io::Read;
use stores::limits::Limits;
use symbols::bus::BusEvents;
use symbols::kind::Kind;
use symbols::log::LogChars;
use symbols::log_char::LogChar;

const LIMITS: Limits = Limits {
    names: 64,
    longest: 1024,
    most: 65536,
};

// Both stores, and how many IDs were found.
#[derive(Drop)]
struct Kept<'a> {
    slots: SlotStore<'a, LogChar>,
    packed: PackedStore<'a, LogChar>,
    found: usize,
}

// Prints what a line is in both kinds, and keeps the ID of a log line.
fn take_line(
    rt: &HostRuntime,
    number: u64,
    line: &[u8],
    brackets: &Brackets,
    kept: &mut Kept,
) -> anyhow::Result<()> {
    let symbols = survey(rt, number, "log", &LogChars, brackets.opening, line)?;
    if let Some(symbols) = symbols {
        if let Some(id) = find_id(rt, number, symbols.as_slice(), brackets)? {
            kept.found = kept.found.saturating_add(1);
            keep(rt, "slot", &mut kept.slots, kept.found, id)?;
            keep(rt, "packed", &mut kept.packed, kept.found, id)?;
        }
    }
    let blank = BusEvents.read(b"000.0000")?;
    survey(rt, number, "bus", &BusEvents, blank, line)?;
    Ok(())
}

fn take_lines(
    rt: &HostRuntime,
    text: &[u8],
    brackets: &Brackets,
    kept: &mut Kept,
) -> anyhow::Result<()> {
    for (number, line) in (1..).zip(Lines::of(text)) {
        take_line(rt, number, line.characters, brackets, kept)?;
    }
    Ok(())
}

fn run(rt: &HostRuntime) -> anyhow::Result<()> {
    let mut input = Vec::new(rt.alloc());
    rt.stdin().read_to_end(&mut input)?;
    let brackets = Brackets::new()?;
    let mut slot_area = vec![in rt.alloc(); brackets.opening; LIMITS.most]?;
    let mut packed_area = vec![in rt.alloc(); brackets.opening; LIMITS.most]?;
    let mut kept = Kept {
        slots: SlotStore::new(slot_area.as_mut_slice(), LIMITS.names, LIMITS.longest),
        packed: PackedStore::new(packed_area.as_mut_slice(), LIMITS),
        found: 0,
    };
    take_lines(rt, input.as_slice(), &brackets, &mut kept)?;
    show(rt, "slot", &kept.slots, kept.found, brackets.opening)?;
    show(rt, "packed", &kept.packed, kept.found, brackets.opening)
}

fn main(rt: HostRuntime) -> anyhow::Result<()> {
    run(&rt)
}
