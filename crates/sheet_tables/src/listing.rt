// The tables of a sheet, a line for each thing; names, statements and constants go by their numbers, as in the tables.
use std::fmt;
use symbols::kind::Kind;
use tables::row::Row;
use tables::sheet::Tables;
use texts::Text;

// How many symbols stand in a line of constants.
const SYMBOLS: usize = 8;

// A statement and its number, then its parts.
#[derive(Clone, Copy)]
struct Statement<'a> {
    number: usize,
    row: &'a Row,
}

impl<'a> fmt::Display for Statement<'a> {
    fn fmt<W: fmt::Write>(&self, f: &mut fmt::Formatter<W>) -> fmt::Result {
        write!(f, "statement {}", self.number)?;
        if let Some(label) = &self.row.label {
            write!(f, " {label}")?;
        }
        write!(f, "\nstring {}", self.row.reference)?;
        for item in self.row.pattern.items() {
            write!(f, "\nelement {item}")?;
        }
        if let Some(right_side) = &self.row.right_side {
            write!(f, "\nright side")?;
            for operand in right_side.operands() {
                write!(f, "\noperand {operand}")?;
            }
        }
        if let Some(target) = self.row.on_success {
            write!(f, "\nsuccess {target}")?;
        }
        if let Some(target) = self.row.on_failure {
            write!(f, "\nfailure {target}")?;
        }
        Ok(())
    }
}

// Prints tables: their counts and the start, the statements, the names, and the constants between quotes.
pub fn show_tables<K: Kind>(
    rt: &HostRuntime,
    kind: &K,
    tables: Tables<K::Symbol>,
) -> anyhow::Result<()> {
    let counts = tables.sheet.counts();
    let (statements, names, constants) = (counts.statements, counts.names, counts.constants);
    println!(rt; "ok {statements} {names} {constants}")?;
    println!(rt; "start {}", tables.sheet.start)?;
    for (number, row) in (1..).zip(tables.rows.iter().take(statements)) {
        println!(rt; "{}", Statement { number, row })?;
    }
    for (number, name) in (1..).zip(tables.sheet.names.names()) {
        println!(rt; "name {number} {name}")?;
    }
    let symbols = tables.constants;
    let lines = symbols[..constants.min(symbols.len())].chunks(SYMBOLS);
    for (from, symbols) in (0..).step_by(SYMBOLS).zip(lines) {
        println!(rt; "constants {from} \"{}\"", Text { kind, symbols })?;
    }
    Ok(())
}
