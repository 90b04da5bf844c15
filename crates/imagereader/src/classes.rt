// The classes that the lines of a text name, line by line.
ghost use Rattle.std.specs.Prelude.{◌≡◌, ◌≤◌};
ghost use Rattle.flashrules.specs.Layout.{max_classes, no_classes};
ghost use Rattle.imagerules.specs.Candidate.{is_last, longer, another, add_line};

use flashrules::layout::{Layout, MAX_CLASSES};

// The layout of the lines so far. There is an entry for each of its classes.
#[derive(Clone, Copy)]
pub(crate) struct Classes {
    pub(crate) layout: Layout,
    ghost within: { layout.count ≤ max_classes },
}

impl Classes {
    // No classes, all zero.
    pub(crate) fn new() -> Classes
        ensures { result.layout ≡ no_classes }
    {
        Classes {
            layout: Layout {
                count: 0,
                ids: [0; MAX_CLASSES],
                lengths: [0; MAX_CLASSES],
            },
        }
    }

    // Whether this class is the last.
    fn is_last(&self, class: u8) -> bool
        ensures { result ≡ is_last self.now.layout class }
    {
        1 <= self.layout.count && self.layout.ids[self.layout.count - 1] == class
    }

    // So many bytes more for the last class.
    fn longer(&mut self, n: u16)
        requires { 1 ≤ self.old.layout.count }
        ensures { self.new.layout ≡ longer self.old.layout n }
    {
        let k = self.layout.count - 1;
        self.layout.lengths[k] = self.layout.lengths[k].wrapping_add(n);
    }

    // Another class, where there is an entry for it.
    fn another(&mut self, class: u8, n: u16)
        ensures { self.new.layout ≡ another self.old.layout class n }
    {
        let k = self.layout.count;
        if k < MAX_CLASSES {
            self.layout.count = k + 1;
            self.layout.ids[k] = class;
            self.layout.lengths[k] = n;
        }
    }

    // One line more.
    #[tactic(auto, using(crate::proofs::CandidateLaws::adds))]
    pub(crate) fn add_line(&mut self, class: u8, n: u16)
        ensures { self.new.layout ≡ add_line self.old.layout class n }
    {
        if self.is_last(class) {
            self.longer(n);
        } else {
            self.another(class, n);
        }
    }
}
