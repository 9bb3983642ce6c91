// The variable that a back reference means.
ghost use Rattle.std.specs.Prelude.{◌≡◌};
ghost use Rattle.patterns.specs.Nearest.{nearest};

use tables::row::Item;

// The place of the last variable of a name.
pub fn nearest_variable(items: &[Item], name: usize) -> Option<usize>
    ensures { result ≡ nearest name items.now }
{
    items.iter().rposition(|item| item.is_variable_of(name))
}
