// How many calls of each operation there were, and how many of them agreed.
ghost use Rattle.std.specs.Prelude.{◌≡◌, replicate};

use protocol::names::{COUNT, OPS};
use std::io;

#[derive(Clone, Copy)]
struct Row {
    calls: u64,
    agreed: u64,
}

const NONE: Row = Row {
    calls: 0,
    agreed: 0,
};

// A row for each operation of the list, and one for all other names.
#[derive(Drop)]
pub struct Tally {
    rows: [Row; COUNT],
    others: Row,
}

impl Row {
    fn with(self, is_good: bool) -> Row {
        Row {
            calls: self.calls.wrapping_add(1),
            agreed: self.agreed.wrapping_add(u64::from(is_good)),
        }
    }

    fn print(self, rt: &impl Print, name: &str) -> io::Result<()> {
        let Row { calls, agreed } = self;
        println!(rt; "{name} {agreed} of {calls} agree")
    }
}

impl Tally {
    pub fn new() -> Tally
        ensures rows { result.rows ≡ replicate 65 result.others }
        ensures others { (result.others.calls ≡ 0) × (result.others.agreed ≡ 0) }
    {
        Tally {
            rows: [NONE; COUNT],
            others: NONE,
        }
    }

    // One more call of the operation at that place in the list, or of another name.
    pub fn add(&mut self, place: Option<usize>, is_good: bool) {
        match place {
            Some(k) => if k < COUNT {
                self.rows[k] = self.rows[k].with(is_good);
            },
            None => self.others = self.others.with(is_good),
        }
    }

    pub fn report(&self, rt: &impl Print) -> io::Result<()> {
        for ((name, _), row) in OPS.iter().zip(self.rows.iter()) {
            row.print(rt, name)?;
        }
        self.others.print(rt, "others")
    }
}
