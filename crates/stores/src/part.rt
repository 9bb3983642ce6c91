// A part of an area.
ghost use Rattle.std.specs.Prelude.{◌≡◌, ◌+◌, ◌≤◌, length, take, drop};

#[derive(Clone, Copy)]
pub struct Part {
    pub start: usize,
    pub length: usize,
}

impl Part {
    // The symbols of an area that lie in the part.
    pub fn of<T>(self, area: &[T]) -> &[T]
        requires { self.start + self.length ≤ length area.now }
        ensures { result.now ≡ take self.length (drop self.start area.now) }
    {
        &area[self.start..self.start + self.length]
    }
}
