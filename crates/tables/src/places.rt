// Fixed tables, of which the first places are used: the host supplies all memory, so no table grows.
ghost use Rattle.std.specs.Prelude.{◌≡◌, take};

// The first places of a table, as many as are counted.
pub fn first_places<T>(table: &[T], count: usize) -> &[T]
    ensures { result.now ≡ take count table.now }
{
    &table[..count.min(table.len())]
}
