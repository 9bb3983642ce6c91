// Shows whether a sheet is accepted: its counts, or its refusal the way people like to see it.
#![tactic(auto)]

use anyhow::Context;
use refusals::Refused;
use sheets::fault::Refusal;
use sheets::outline::{Outline, survey};
use std::{env, fs};
use symbols::bus::BusEvents;
use symbols::log::LogChars;

fn show(rt: &HostRuntime, text: &[u8], answer: Result<Outline, Refusal>) -> anyhow::Result<()> {
    match answer {
        Ok(outline) => {
            let carried = outline.carried;
            let (statements, names, constants) = (
                carried.statements,
                carried.names,
                carried.symbols,
            );
            println!(rt; "ok {statements} {names} {constants}")?;
        }
        Err(refusal) => println!(rt; "{}", Refused { text, refusal })?,
    }
    Ok(())
}

fn run(rt: &HostRuntime) -> anyhow::Result<()> {
    let mut args = env::args(rt)?.skip(1);
    let path = args.next().context("usage: sheet FILE [bus]")?;
    let text = fs::read(rt, path.as_str())?;
    let text = text.as_slice();
    let bus = args.next().is_some_and(|kind| kind.as_str() == "bus");
    let answer = if bus {
        survey(&BusEvents, text)
    } else {
        survey(&LogChars, text)
    };
    show(rt, text, answer)
}

fn main(rt: HostRuntime) -> anyhow::Result<()> {
    run(&rt)
}
