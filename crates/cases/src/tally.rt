// How many cases agree, and what differs.
use std::alloc::Global;
use std::fmt;

// How many of all agree.
#[derive(Clone, Copy, Default)]
pub struct Count {
    pub agree: u64,
    pub all: u64,
}

impl Count {
    // One more, which agrees or does not.
    pub fn add(&mut self, agrees: bool) {
        self.all = self.all.saturating_add(1);
        if agrees {
            self.agree = self.agree.saturating_add(1);
        }
    }

    // Whether all agree, and there are some.
    pub fn is_full(self) -> bool {
        self.agree == self.all && self.all > 0
    }
}

impl fmt::Display for Count {
    fn fmt<W: fmt::Write>(&self, f: &mut fmt::Formatter<W>) -> fmt::Result {
        write!(f, "{} of {}", self.agree, self.all)
    }
}

// The cases of a folder, the answers in them where there are several to a case, and a text for each difference.
#[derive(Drop)]
pub struct Tally {
    pub cases: Count,
    pub answers: Count,
    pub differences: Vec<String>,
}

impl Tally {
    pub fn new(heap: Global) -> Tally {
        Tally {
            cases: Count::default(),
            answers: Count::default(),
            differences: Vec::new(heap),
        }
    }
}
