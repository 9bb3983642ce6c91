// The role of a symbol in a balanced part.
ghost use Rattle.std.specs.Prelude.{◌≡◌};
ghost use Rattle.symbols.specs.Roles.{opens, closes};

#[derive(Clone, Copy, PartialEq, Eq, Debug)]
pub enum Role {
    Opening,
    Closing,
    Plain,
}

impl Role {
    // How many a symbol of this role opens: one or none.
    pub fn opens(self) -> u8
        ensures { result ≡ opens self }
    {
        u8::from(self == Role::Opening)
    }

    // How many it closes: one or none.
    pub fn closes(self) -> u8
        ensures { result ≡ closes self }
    {
        u8::from(self == Role::Closing)
    }
}
