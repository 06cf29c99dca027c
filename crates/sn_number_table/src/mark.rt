//! What is known of a number.
ghost use Rattle.std.specs.Prelude.{◌≡◌, map};

/// Whether a number has a node or is kept back, and since when.
#[derive(Clone, Copy, PartialEq, Eq)]
pub(crate) enum Mark {
    /// A new node can get it.
    Free,
    /// A node has it.
    Taken,
    /// It is kept back since before the consistency point in progress began, but after the durable root's did.
    KeptBefore,
    /// It is kept back since the consistency point in progress began, or the durable root's where none is.
    KeptSince,
}

impl Mark {
    ghost use Rattle.sn_number_table.specs.Marks.{aged, forgotten, has_node, is_kept, is_used, released, without_node};

    /// Whether a node has it.
    pub fn has_node(self) -> bool
        ensures { result ≡ has_node self }
    {
        self == Mark::Taken
    }

    /// Whether it is kept back.
    pub fn is_kept(self) -> bool
        ensures { result ≡ is_kept self }
    {
        match self {
            Mark::KeptBefore | Mark::KeptSince => true,
            Mark::Free | Mark::Taken => false,
        }
    }

    /// Whether a search for a free number passes over it.
    pub fn is_used(self) -> bool
        ensures { result ≡ is_used self }
    {
        self != Mark::Free
    }

    /// What it is once its node has gone.
    pub fn without_node(self) -> Mark
        ensures { result ≡ without_node self }
    {
        match self {
            Mark::Taken => Mark::Free,
            other => other,
        }
    }

    fn aged(self) -> Mark
        ensures { result ≡ aged self }
    {
        match self {
            Mark::KeptSince => Mark::KeptBefore,
            other => other,
        }
    }

    fn forgotten(self) -> Mark
        ensures { result ≡ forgotten self }
    {
        match self {
            Mark::KeptBefore => Mark::Free,
            other => other,
        }
    }

    fn released(self) -> Mark
        ensures { result ≡ released self }
    {
        match self {
            Mark::Taken => Mark::Taken,
            _ => Mark::Free,
        }
    }
}

ghost use Rattle.sn_number_table.specs.Marks as change;

/// A consistency point begins.
pub(crate) fn age(marks: &mut [Mark])
    ensures { marks.new ≡ map change.aged marks.old }
{
    for mark in marks.iter_mut() {
        *mark = mark.aged();
    }
}

/// The root of the consistency point is durable.
pub(crate) fn forget(marks: &mut [Mark])
    ensures { marks.new ≡ map change.forgotten marks.old }
{
    for mark in marks.iter_mut() {
        *mark = mark.forgotten();
    }
}

/// No number is kept back any more.
pub(crate) fn release(marks: &mut [Mark])
    ensures { marks.new ≡ map change.released marks.old }
{
    for mark in marks.iter_mut() {
        *mark = mark.released();
    }
}
