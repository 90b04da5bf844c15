// Two byte strings of one length.
ghost use Rattle.std.specs.Prelude.{◌≡◌, ◌-◌, ◌≤◌, length, take, drop};

#[derive(Clone, Copy)]
pub(crate) struct Pair<'a> {
    pub(crate) old: &'a [u8],
    pub(crate) new: &'a [u8],
    ghost same: { length old.now ≡ length new.now },
}

impl<'a> Pair<'a> {
    // How long each of them is.
    pub(crate) fn len(self) -> usize
        ensures { result ≡ length self.entry.old.now }
    {
        self.old.len()
    }

    // The part of both from one index up to another.
    pub(crate) fn part(self, from: usize, to: usize) -> Pair<'a>
        requires { (from ≤ to) × (to ≤ length self.old.now) }
        ensures old { result.old.now ≡ take (to - from) (drop from self.entry.old.now) }
        ensures new { result.new.now ≡ take (to - from) (drop from self.entry.new.now) }
        ensures length { length result.old.now ≡ to - from }
    {
        Pair {
            old: &self.old[from..to],
            new: &self.new[from..to],
        }
    }

    // The first bytes of both, and the others.
    pub(crate) fn split_at(self, at: usize) -> (Pair<'a>, Pair<'a>)
        requires { at ≤ length self.old.now }
        ensures first { (result.0.old.now ≡ take at self.entry.old.now) × (result.0.new.now ≡ take at self.entry.new.now) }
        ensures behind { (result.1.old.now ≡ drop at self.entry.old.now) × (result.1.new.now ≡ drop at self.entry.new.now) }
    {
        let (old, old_behind) = self.old.split_at(at);
        let (new, new_behind) = self.new.split_at(at);
        (
            Pair { old, new },
            Pair {
                old: old_behind,
                new: new_behind,
            },
        )
    }
}
