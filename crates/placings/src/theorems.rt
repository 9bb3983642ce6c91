// The theorems on placings, for every type of symbols, every test of their equality, every assignment of roles, every mode, subject and pattern.
ghost use Rattle.placings.specs.Order.{StrictTotal};
ghost use Rattle.placings.specs.Theorems.{Answered, Counted, Decided, Determined, Enumerates, ForAll};

// Runs nothing: its contract is what it is for.
pub fn placings_stand<T>()
    ensures order { StrictTotal }
    ensures enumeration { ForAll T Enumerates }
    ensures verdict { ForAll T Decided }
    ensures trials { ForAll T Counted }
    ensures answer { ForAll T Answered }
    ensures only { ForAll T Determined }
{}
