// What a load owes to a session, for every kind, text and area.
ghost use Rattle.fitting.specs.Fitting.{Loaded-fits, Loaded-admitted};

use symbols::kind::Kind;

// Runs nothing: its contract is what it is for.
pub fn loaded_fits<K: Kind>(_kind: &K)
    ensures fits { Loaded-fits K.Kind.meant K.Kind.WIDTH }
    ensures admitted { Loaded-admitted K.Kind.meant K.Kind.WIDTH }
{}
