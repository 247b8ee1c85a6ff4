// The record of reports, for every kind of board that keeps its own.
ghost use Rattle.std.specs.Prelude.{◌≡◌, ◌≤◌};
ghost use Rattle.arrayvec.specs.ArrayVec.{array_vec_len};

use arrayvec::ArrayVec;
use refusal::{Reason, Refusal};

const MOST: usize = 64;

// The reports filed so far, and how many are allowed in all.
#[derive(Drop)]
pub struct Reports {
    list: ArrayVec<i32, MOST>,
    allowance: usize,
    ghost allowance_most: { allowance ≤ 64 },
    ghost reports_most: { array_vec_len list ≤ allowance },
}

impl Reports {
    ghost use Rattle.std.specs.Prelude.{[], ◌∷◌, ◌++◌, if◌then◌else◌, nat_le, slice_get, not};
    ghost use Rattle.refusal.specs.Told.{told, accepted, refused};
    ghost use Rattle.boards.specs.Meaning.{ReportKeepsSound};
    ghost use Rattle.boards.specs.Making.{Made};
    ghost use Rattle.boards.specs.Kept.{filed, allowed, takes_more};

    // A record that takes so many reports in all.
    pub fn new(allowance: u32) -> Result<Reports, Refusal>
        ensures { Made result (if nat_le allowance 64 then accepted tt else refused 26 0) (λ s. (filed s ≡ []) × (allowed s ≡ allowance)) }
    {
        let allowance = allowance as usize;
        if allowance > MOST {
            return Err(Reason::AllowanceTooLarge.into());
        }
        Ok(Reports {
            list: ArrayVec::new(),
            allowance,
        })
    }

    // Puts `v` at the end, if the allowance permits.
    pub fn file(&mut self, v: i32) -> Result<(), Refusal>
        ensures answer { told result ≡ (if takes_more self.old then accepted tt else refused 24 0) }
        ensures after { filed self.new ≡ (if takes_more self.old then filed self.old ++ (v ∷ []) else filed self.old) }
        ensures allowance { allowed self.new ≡ allowed self.old }
        ensures law { ReportKeepsSound v }
    {
        if self.is_full() {
            return Err(Reason::ReportsFull.into());
        }
        self.list.push(v);
        Ok(())
    }

    // Whether no further report is taken.
    fn is_full(&self) -> bool
        ensures { result ≡ not (takes_more self.now) }
    {
        self.list.len() >= self.allowance
    }

    // Report `k`, from 0.
    pub fn kept(&self, k: usize) -> Option<i32>
        ensures { result ≡ slice_get (filed self.now) k }
    {
        self.list.get(k).copied()
    }
}
