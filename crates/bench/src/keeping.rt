// Strings in a store, and their text.
use anyhow::Context;
use stores::store::Store;
use symbols::log::LogChars;
use symbols::log_char::LogChar;
use texts::Text;

// Puts a string under a number, and prints the refusal, if there is one.
pub fn keep<S: Store<Symbol = LogChar>>(
    rt: &HostRuntime,
    name: &str,
    store: &mut S,
    number: usize,
    string: &[LogChar],
) -> anyhow::Result<()> {
    if let Err(refusal) = store.put(number, string) {
        println!(rt; "{name} {number} refused {}", refusal.number())?;
    }
    Ok(())
}

// Prints the strings of the numbers from 1 to `last`, as far as the store has them.
pub fn show<S: Store<Symbol = LogChar>>(
    rt: &HostRuntime,
    name: &str,
    store: &S,
    last: usize,
    blank: LogChar,
) -> anyhow::Result<()> {
    let limits = store.tell();
    let mut area = vec![in rt.alloc(); blank; limits.longest]?;
    for number in 1..=last.min(limits.names) {
        let length = store.fetch(number, area.as_mut_slice())?;
        let string = area.as_slice().get(..length);
        let string = string.context("a string that is longer than its area")?;
        let text = Text {
            kind: &LogChars,
            symbols: string,
        };
        println!(rt; "{name} {number}={text}")?;
    }
    Ok(())
}
