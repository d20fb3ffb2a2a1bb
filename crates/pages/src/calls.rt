//! The calls of numbered pages.

ghost use Rattle.std.specs.Prelude.{◌≡◌, ◌≤◌, ◌+◌, ◌++◌, ◌∷◌, [], ℕ, Bool, IsTrue, List, length, replicate, IfOk, IfErr, OnOk};
ghost use Rattle.sqlval.specs.Faults.{IsOutside};
ghost use Rattle.pages.specs.Map.{PageMap, page_at, with_page, written_over, IsThere};
ghost use Rattle.pages.specs.Calls.{Limits, Stays, Causes, IsOutsideOrFull};

use sqlval::R;

/// Numbered pages of one size, from page 1 on. They may be opaque (`tells` is false), as those of a
/// real file are: the contract then speaks of what stays, and of the causes of refusals, alone.
pub trait Pages {
    ghost Base: { Type 0 };

    /// What stands below these pages. No call of theirs changes it.
    ghost below: { Self → Base };

    /// Whether what stands below tells its bytes.
    ghost tells: { Base → Bool };

    /// How many bytes a page has, and how many pages there may be.
    ghost limits: { Base → Limits };

    /// The bytes of each page, page 1 first, and none where a page isn't there.
    ghost map: { Self → PageMap };

    /// How many pages there are.
    ghost count: { Self → ℕ };

    /// The bytes of the page that was loaded last.
    ghost held: { Self → List ℕ };

    /// How many calls of the two disks below have failed.
    ghost failures: { Self → ℕ × ℕ };

    /// How many pages there are.
    fn size(&self) -> u32
        ensures { result ≡ count self.now };

    /// How many bytes a page has.
    fn page_size(&self) -> usize
        ensures { result ≡ (limits (below self.now)).page };

    /// Fetches a page, so that `loaded` lends it. (`Damaged` for a number outside 1 to the size, or
    /// a page that isn't there; `Memory`; `Io`, and `Failed` where a call failed before.)
    fn load(&mut self, number: u32) -> R<()>
        ensures bytes { IsTrue (tells (below self.old))
            → OnOk result (held self.new ≡ page_at (map self.old) number) }
        ensures refusal { IsTrue (tells (below self.old))
            → IsThere (map self.old) (limits (below self.old)).page number
            → IfErr result IsOutside }
        ensures stays { Stays below map count failures result self.old self.new };

    /// The bytes of the page that was loaded last, until the next call that changes pages.
    fn loaded(&self) -> &[u8]
        ensures { result.now ≡ held self.now };
}

/// Pages that can be changed.
pub trait WritePages: Pages {
    /// Gives a page these bytes, as many as a page has. (`Damaged` for a number outside 1 to the
    /// size, or for another length; `Memory`, `Io`, `Failed`.)
    fn put(&mut self, number: u32, bytes: &[u8]) -> R<()>
        ensures kept { Self.below self.new ≡ Self.below self.old }
        ensures counted { Self.count self.new ≡ Self.count self.old }
        ensures done { IsTrue (Self.tells (Self.below self.old))
            → OnOk result (Self.map self.new ≡ with_page (Self.map self.old) number bytes.now) }
        ensures refusal { IsTrue (Self.tells (Self.below self.old))
            → IsThere (Self.map self.old) (Self.limits (Self.below self.old)).page number
            → length bytes.now ≡ (Self.limits (Self.below self.old)).page → IfErr result IsOutside }
        ensures causes { Causes result (Self.failures self.old) (Self.failures self.new) ⊥ };

    /// Writes these bytes over those of a page from an offset on; all others stay. (`Damaged` for a number outside 1 to the
    /// size, and where the page ends before; `Memory`, `Io`, `Failed`.)
    fn write_over(&mut self, number: u32, offset: usize, bytes: &[u8]) -> R<()>
        ensures kept { Self.below self.new ≡ Self.below self.old }
        ensures counted { Self.count self.new ≡ Self.count self.old }
        ensures done { IsTrue (Self.tells (Self.below self.old))
            → OnOk result (Self.map self.new ≡ with_page (Self.map self.old) number
            (written_over offset bytes.now (page_at (Self.map self.old) number))) }
        ensures refusal { IsTrue (Self.tells (Self.below self.old))
            → IsThere (Self.map self.old) (Self.limits (Self.below self.old)).page number
            → offset + length bytes.now ≤ (Self.limits (Self.below self.old)).page → IfErr result IsOutside }
        ensures causes { Causes result (Self.failures self.old) (Self.failures self.new) ⊥ };

    /// Adds a page of zeros at the end, and answers its number. (`Full` where there are as many
    /// pages as there may be; `Memory`, `Io`, `Failed`.)
    fn grow(&mut self) -> R<u32>
        ensures kept { Self.below self.new ≡ Self.below self.old }
        ensures number { IsTrue (Self.tells (Self.below self.old))
            → IfOk result (λ n. n ≡ length (Self.map self.old) + 1) }
        ensures done { IsTrue (Self.tells (Self.below self.old))
            → OnOk result (Self.map self.new ≡ Self.map self.old ++
            (replicate (Self.limits (Self.below self.old)).page 0 ∷ [])) }
        ensures counted { IfOk result (λ n. (n ≡ Self.count self.old + 1)
            × (Self.count self.new ≡ n)
            × (n ≤ (Self.limits (Self.below self.old)).most)) }
        ensures refusal { IsTrue (Self.tells (Self.below self.old)) → IfErr result IsOutsideOrFull }
        ensures causes { Causes result (Self.failures self.old) (Self.failures self.new)
            (Self.count self.new ≡ (Self.limits (Self.below self.new)).most) };
}
