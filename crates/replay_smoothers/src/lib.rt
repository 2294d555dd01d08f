// The operations of src/estimator/rts_smoother.rs replayed through their C functions. A slot is two pairs of a state and a covariance:
// filtered and predicted.
#![tactic(auto)]

ghost use Rattle.std.specs.Prelude.{◌<◌, ◌≤◌, IfSome};
ghost use Rattle.protocol.specs.Left.{left};

use answer::Refusal;
use estimators::smoothers;
use protocol::given::Answer;
use protocol::names::Smoothing;
use protocol::values::Values;
use protocol::words::cells;

// The numbers of that many pairs of a state and a covariance; 0 for more than 4 states or 128 pairs.
fn pairs(n: usize, count: usize) -> usize
    ensures { result ≤ 2560 }
{
    if n <= 4 && count <= 128 {
        count * (n + n * n)
    } else {
        0
    }
}

// A smoother of n states with room for that many slots, of which `count` are stored.
#[derive(Drop)]
struct Smoother<'a> {
    n: usize,
    room: usize,
    count: usize,
    slots: &'a mut [f64],
}

impl Smoother<'_> {
    // Stores the slot of the next words, or says why not; none, if the words end before.
    fn store(&mut self, words: &mut Values<'_>) -> Option<Result<(), Refusal>> {
        let filtered = words.take(pairs(self.n, 1))?;
        let predicted = words.take(pairs(self.n, 1))?;
        Some(smoothers::estimators_rts_smoother_store_forward(
            self.n,
            self.room,
            &mut self.count,
            &mut *self.slots,
            filtered,
            predicted,
        ))
    }

    fn store_all(&mut self, offered: usize, words: &mut Values<'_>) -> Option<()> {
        // A turn takes a slot's words; whether it is stored is not told.
        for _ in 0..offered {
            let _ = self.store(words)?;
        }
        Some(())
    }

    // Each store's refusal, or 0; then how many slots there are, whether there is none, and the slots.
    fn listed<'a>(
        &mut self,
        offered: usize,
        words: &mut Values<'_>,
        given: Answer<'a>,
    ) -> Option<Answer<'a>>
        ensures { IfSome result (λ a. left a < left given.entry) }
    {
        let mut left = given.text(b"ok")?;
        // A turn takes a slot's words, and a word of the answer.
        for _ in 0..offered {
            left = left.status(self.store(words)?)?;
        }
        let counted = left.text(b"|")?.count(self.count as u64)?;
        let listed = counted.count(u64::from(self.count == 0))?;
        let end = pairs(self.n, self.count.wrapping_add(self.count)).min(self.slots.len());
        listed.numbers(&self.slots[..end])
    }

    // Slot k, in as many numbers as two pairs.
    fn slot<'a>(&self, k: usize, out: &mut [f64], given: Answer<'a>) -> Option<Answer<'a>>
        ensures { IfSome result (λ a. left a < left given.entry) }
    {
        let outcome = smoothers::estimators_rts_smoother_get_state(
            self.n,
            self.room,
            self.count,
            &*self.slots,
            k,
            out,
        );
        given.told(outcome, out)
    }

    // How many slots were smoothed, and the pairs; or a refusal.
    fn smoothed<'a>(
        &self,
        transition: &[f64],
        out: &mut [f64],
        given: Answer<'a>,
    ) -> Option<Answer<'a>>
        ensures { IfSome result (λ a. left a < left given.entry) }
    {
        let outcome = smoothers::estimators_rts_smoother_smooth(
            self.n,
            self.room,
            self.count,
            &*self.slots,
            transition,
            out,
        );
        let told = given.told(outcome, &[])?;
        if outcome.is_err() {
            return Some(told);
        }
        told.count(self.count as u64)?.text(b"|")?.numbers(out)
    }
}

// The last slots of the words stored, and the answer for what is there then.
fn on_slots<'a>(
    op: Smoothing,
    mut all: Smoother<'_>,
    words: &mut Values<'_>,
    out: &mut [f64],
    given: Answer<'a>,
) -> Option<Answer<'a>>
    ensures { IfSome result (λ a. left a < left given.entry) }
{
    let offered = words.count()?;
    let square = cells(all.n, all.n);
    let left = match op {
        Smoothing::Store => all.listed(offered, words, given)?,
        Smoothing::Get => {
            let k = words.size()?;
            all.store_all(offered, words)?;
            all.slot(k, out, given)?
        }
        Smoothing::Smooth => {
            let transition = words.take(square)?;
            all.store_all(offered, words)?;
            all.smoothed(transition, out, given)?
        }
        Smoothing::Stale => {
            let kept = words.count()?;
            let transition = words.take(square)?;
            all.store_all(offered, words)?;
            all.count = 0;
            all.store_all(kept, words)?;
            all.smoothed(transition, out, given)?
        }
    };
    if words.is_end() { Some(left) } else { None }
}

pub fn answer<'a>(op: Smoothing, mut words: Values<'_>, given: Answer<'a>) -> Option<Answer<'a>>
    ensures { IfSome result (λ a. left a < left given.entry) }
{
    let mut room_of_slots = [0.0; 2560];
    let mut output = [0.0; 2560];
    let n = words.size()?;
    let room = words.size()?;
    let answered = match op {
        Smoothing::Store => 0,
        Smoothing::Get => pairs(n, 2),
        Smoothing::Smooth | Smoothing::Stale => pairs(n, room),
    };
    let slots = &mut room_of_slots[..pairs(n, room.wrapping_add(room))];
    let all = Smoother {
        n,
        room,
        count: 0,
        slots,
    };
    on_slots(op, all, &mut words, &mut output[..answered], given)
}
