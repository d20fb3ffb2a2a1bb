//! Up to which frame each connection sees.

ghost use Rattle.std.specs.Prelude.{◌≡◌, ℕ, Some, None, IsTrue, IfSome, IsNone, ◌↔◌};
ghost use Rattle.wal_index.specs.Lesser.{IsLesser};

/// How many connections there are.
const CONNECTIONS: usize = 16;

/// For each connection, from 1 to 16, the mark of its snapshot, where it has one: the number of the last frame that it sees.
#[derive(Drop)]
pub struct Marks {
    marks: [Option<u32>; CONNECTIONS],
}

/// The lesser of two marks, where both are there.
fn lesser(one: Option<u32>, other: Option<u32>) -> Option<u32>
    ensures { IsLesser one other result }
{
    match (one, other) {
        (Some(one), Some(other)) if other < one => Some(other),
        (None, other) => other,
        (one, _) => one,
    }
}

impl Marks {
    ghost use Rattle.wal_index.specs.Marks.{mark_of, SetsMark, IsLeast, HasNone, IsAlone};

    /// No connection has a mark.
    pub fn new() -> Marks
        ensures { HasNone result }
    {
        Marks {
            marks: [None; CONNECTIONS],
        }
    }

    /// Gives a connection this mark, in place of the one that it has; a number outside 1 to 16 changes nothing.
    pub fn begin(&mut self, connection: u32, mark: u32)
        ensures { SetsMark connection (Some mark) self.old self.new }
    {
        if connection >= 1 && connection as usize <= CONNECTIONS {
            self.marks[connection as usize - 1] = Some(mark);
        }
    }

    /// Takes the mark of a connection away, where it has one.
    pub fn end(&mut self, connection: u32)
        ensures { SetsMark connection None self.old self.new }
    {
        if connection >= 1 && connection as usize <= CONNECTIONS {
            self.marks[connection as usize - 1] = None;
        }
    }

    /// The least of all marks.
    pub fn least(&self) -> Option<u32>
        ensures some { IfSome result (λ mark. IsLeast self.now mark) }
        ensures none { IsNone result → HasNone self.now }
    {
        let mut least = None;
        'marks: for i in 0..CONNECTIONS {
            least = lesser(least, self.marks[i]);
        }
        least
    }

    /// Whether no other connection than this has a mark.
    pub fn is_alone(&self, connection: u32) -> bool
        ensures { IsTrue result ↔ IsAlone self.now connection }
    {
        'marks: for i in 0..CONNECTIONS {
            if i as u32 + 1 != connection && self.marks[i].is_some() {
                return false;
            }
        }
        true
    }
}
