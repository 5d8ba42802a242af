ghost use Rattle.std.specs.Prelude.{◌≡◌};
ghost use Rattle.kssd_values.specs.Marks.{is_live};

/// Whether an entry names the page of a value.
#[derive(Clone, Copy, Debug, PartialEq, Eq)]
pub enum Mark {
    /// An entry of an open transaction names it.
    Pending,
    /// A visible entry names it.
    Visible,
    /// No entry names it.
    Dead,
}

impl Mark {
    /// Whether an entry names it.
    pub fn is_live(self) -> bool
        ensures { result ≡ is_live self }
    {
        match self {
            Mark::Pending | Mark::Visible => true,
            Mark::Dead => false,
        }
    }
}
