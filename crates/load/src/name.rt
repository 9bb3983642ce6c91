// The names of a sheet as its tables keep them.
ghost use Rattle.std.specs.Prelude.{◌≡◌};
ghost use Rattle.load.specs.Names.{name_table};
ghost use Rattle.rows.specs.Namings.{names_of};

use rows::fill::push;
use rows::name::name_of;
use rows::naming::Naming;
use sheets::part::part_of;
use tables::sheet::NameTable;

// The names of a sheet, in their order.
pub fn name_table(naming: &Naming) -> NameTable
    ensures { result ≡ name_table (names_of naming.now) }
{
    let mut names = [name_of(b""); 64];
    let mut count = 0;
    for part in naming.names {
        count = push(&mut names, count, name_of(part_of(naming.text, *part)));
    }
    NameTable { names, count }
}
