ghost use Rattle.std.specs.Prelude.{◌≡◌};
ghost use Rattle.rows.specs.Rows.{worth};

// A mark of a row: +1 or −1. The number of a case is the mark's value.
#[derive(Clone, Copy, Debug, Default, PartialEq, Eq)]
pub enum Mark {
    #[default]
    Plus = 1,
    Minus = -1,
}

impl Mark {
    pub fn value(self) -> i32
        ensures { result ≡ worth self }
    {
        self as i32
    }
}
