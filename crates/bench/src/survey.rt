// What a line is, read as symbols of one kind.
use crate::roles::count_roles;
use symbols::kind::Kind;
use symbols::text::{check_text, read_text};

// Prints how many symbols a line has and how many of them open and close, or its fault; its symbols, where it has no fault.
pub fn survey<K: Kind>(
    rt: &HostRuntime,
    number: u64,
    name: &str,
    kind: &K,
    blank: K::Symbol,
    line: &[u8],
) -> anyhow::Result<Option<Vec<K::Symbol>>> {
    let count = match check_text(kind, line) {
        Ok(count) => count,
        Err(found) => {
            let (fault, column) = (found.fault.number(), found.at.saturating_add(1));
            println!(rt; "{number} {name} fault {fault} column {column}")?;
            return Ok(None);
        }
    };
    let mut symbols = vec![in rt.alloc(); blank; count]?;
    read_text(kind, line, symbols.as_mut_slice())?;
    let roles = count_roles(kind, symbols.as_slice());
    let (opening, closing) = (roles.opening, roles.closing);
    println!(rt; "{number} {name} symbols {count} opening {opening} closing {closing}")?;
    Ok(Some(symbols))
}
