// What the bench prints.
use anyhow::Context;
use session::entry::Entry;
use stores::store::Store;
use symbols::log::LogChars;
use symbols::log_char::LogChar;
use tables::sheet::NameTable;
use texts::Text;

pub fn show_entries(rt: &HostRuntime, entries: &[Entry]) -> anyhow::Result<()> {
    for entry in entries {
        println!(rt; "{entry}")?;
    }
    Ok(())
}

// Each name of a sheet with the contents of its number, which are fetched to `area`.
pub fn show_names<S: Store<Symbol = LogChar>>(
    rt: &HostRuntime,
    names: &NameTable,
    store: &S,
    area: &mut [LogChar],
) -> anyhow::Result<()> {
    for (number, name) in (1..).zip(names.names()) {
        let length = store.fetch(number, area)?;
        let contents = area
            .get(..length)
            .context("contents that are longer than their area")?;
        let text = Text {
            kind: &LogChars,
            symbols: contents,
        };
        println!(rt; "{name}={text}")?;
    }
    Ok(())
}
