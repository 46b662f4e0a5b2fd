// The sheets that a book keeps: the one that stands, and those that withdrawals bring back.
#![tactic(auto)]

ghost use Rattle.std.specs.Prelude.{◌≡◌, ◌≤◌, OnErr, length};
ghost use Rattle.ledger.specs.History.{no_posts, with_post, way_back};
ghost use Rattle.grounds.specs.Answers.{outcome_of};
ghost use Rattle.history.specs.Views.{longest, kept_bytes, as_history};

use grounds::Ground;

// No sheet that is accepted has more bytes, now or with a profile record before the others.
pub const LONGEST: usize = 117;

// So many ways back at most.
const DEEPEST: usize = 3;

// A sheet: the first bytes, as many as the length says; a length above 117 counts as 117.
#[derive(Clone, Copy)]
pub struct Kept {
    length: usize,
    bytes: [u8; 117],
}

// The sheet that stands, and as many ways back as the depth says, the latest first: each is the sheet that stood, if one did. A depth above 3 counts
// as 3. It is a number of its own, because a way back may be to no sheet, so that an Option can't count them.
#[derive(Clone, Copy)]
pub struct History {
    pub sheet: Option<Kept>,
    depth: usize,
    below: [Option<Kept>; 3],
}

impl Kept {
    fn of(sheet: &[u8]) -> Kept
        requires { length sheet.now ≤ longest }
        ensures { kept_bytes result ≡ sheet.now }
    {
        let mut bytes = [0u8; 117];
        bytes[..sheet.len()].copy_from_slice(sheet);
        Kept {
            length: sheet.len(),
            bytes,
        }
    }

    pub fn sheet(&self) -> &[u8]
        ensures { result.now ≡ kept_bytes self.now }
    {
        &self.bytes[..self.length.min(LONGEST)]
    }
}

impl History {
    pub fn no_posts() -> History
        ensures { as_history result ≡ no_posts }
    {
        History {
            sheet: None,
            depth: 0,
            below: [None; 3],
        }
    }

    // What stood is the first way back; where there were three, the oldest is forgotten.
    pub fn with_post(&mut self, sheet: &[u8])
        requires { length sheet.now ≤ longest }
        ensures { as_history self.new ≡ with_post sheet.now (as_history self.old) }
    {
        self.below = [self.sheet, self.below[0], self.below[1]];
        self.depth = self.depth.min(DEEPEST - 1) + 1;
        self.sheet = Some(Kept::of(sheet));
    }

    // 18 where no way back is left.
    pub fn way_back(&mut self) -> Result<(), Ground>
        ensures outcome { outcome_of (λ _. as_history self.new) result ≡ way_back (as_history self.old).below }
        ensures kept { OnErr result (self.new ≡ self.old) }
    {
        if self.depth == 0 {
            return Err(Ground::NoPostLeft);
        }
        self.sheet = self.below[0];
        self.below = [self.below[1], self.below[2], None];
        self.depth = self.depth.min(DEEPEST) - 1;
        Ok(())
    }
}
