// The path of a line: the names that the header before left, as numbers (name.rt).
ghost use Rattle.std.specs.Prelude.{◌≡◌, ◌-◌, ◌≤◌, ◌<◌, length, take, drop};
ghost use Rattle.interpreter.specs.NameParts.{most_names};

// How many names are held: no row has more than five nodes, so a header with more names has no row, and nothing is lost.
pub(crate) const MOST_NAMES: usize = 7;

// The first names are those of the path; the places after them are for the header that is read. An array and a length, as nothing is
// allocated.
#[derive(Drop)]
pub(crate) struct Path {
    pub(crate) names: [u64; MOST_NAMES],
    pub(crate) used: usize,
    ghost few: { used < most_names },
    ghost long: { length names ≡ most_names },
}

impl Path {
    ghost use Rattle.interpreter.specs.TableParts.{or_zero};
    ghost use Rattle.interpreter.specs.HeaderParts.{Entered};

    // Makes the path of a line's start, the root.
    pub(crate) fn root() -> Path
        ensures { result.used ≡ 0 }
    {
        Path {
            names: [0; MOST_NAMES],
            used: 0,
        }
    }

    // Adds a name after the first so many, unless all places are taken, and gives how many there are then.
    pub(crate) fn enter(&mut self, count: usize, key: u64) -> usize
        requires { count ≤ most_names }
        ensures entered { Entered self.old.names count key result self.new.names }
        ensures kept { self.new.used ≡ self.old.used }
    {
        if MOST_NAMES <= count {
            return count;
        }
        self.names[count] = key;
        count + 1
    }

    // Gives the names that a row has to spell, of the first so many: a common command's own, or all.
    pub(crate) fn searched(&self, star: bool, count: usize) -> &[u64]
        requires { (or_zero star self.now.used ≤ count) × (count ≤ most_names) }
        ensures { result.now ≡ drop (or_zero star self.now.used) (take count self.now.names) }
    {
        let first = if star { self.used } else { 0 };
        let held: &[u64] = &self.names;
        &held[first..count]
    }

    // Keeps the first so many names but the last of them: "the nodes before the last colon".
    pub(crate) fn leave(&mut self, count: usize)
        requires { (0 < count) × (count ≤ most_names) }
        ensures names { self.new.names ≡ self.old.names }
        ensures used { self.new.used ≡ count - 1 }
    {
        self.used = count - 1;
    }
}
