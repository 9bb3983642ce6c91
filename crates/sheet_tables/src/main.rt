// Loads sheets and shows what comes of each: its tables, or its refusal the way people like to see it.
#![tactic(auto)]

mod listing;

use crate::listing::show_tables;
use anyhow::{Context, ensure};
use load::load;
use refusals::Refused;
use rows::row::blank_row;
use std::{env, fs};
use symbols::bus::BusEvents;
use symbols::kind::Kind;
use symbols::log::LogChars;
use tables::sheet::Tables;

// Loads a sheet and shows its tables or its refusal; `blank` is some symbol, to fill the area of constants with.
fn show<K: Kind>(rt: &HostRuntime, kind: &K, blank: &[u8], text: &[u8]) -> anyhow::Result<()> {
    let symbol = kind.read(blank).context("no symbol to fill an area with")?;
    let mut rows = vec![in rt.alloc(); blank_row(); 128]?;
    let mut constants = vec![in rt.alloc(); symbol; 4096]?;
    match load(kind, text, rows.as_mut_slice(), constants.as_mut_slice()) {
        Ok(sheet) => show_tables(
            rt,
            kind,
            Tables {
                sheet: &sheet,
                rows: rows.as_slice(),
                constants: constants.as_slice(),
            },
        )?,
        Err(refusal) => println!(rt; "{}", Refused { text, refusal })?,
    }
    Ok(())
}

// Each argument is a file, or the kind of symbols of the files after it.
fn run(rt: &HostRuntime) -> anyhow::Result<()> {
    let mut bus = false;
    let mut shown = false;
    for word in env::args(rt)?.skip(1) {
        match word.as_str() {
            "bus" => bus = true,
            "log" => bus = false,
            path => {
                shown = true;
                let text = fs::read(rt, path)?;
                let text = text.as_slice();
                if bus {
                    show(rt, &BusEvents, b"000.0000", text)?;
                } else {
                    show(rt, &LogChars, b" ", text)?;
                }
            }
        }
    }
    ensure!(shown, "usage: sheet [log | bus] FILE ...");
    Ok(())
}

fn main(rt: HostRuntime) -> anyhow::Result<()> {
    run(&rt)
}
