// Two laws: of the functions that change what their caller lends, as the contract of `lent`, and of a caller by value that lends a
// local, as that of `by_lending`. `Gauge` is their smallest instance. `into_place` makes a step by value one on a lent record.
#![tactic(auto)]

ghost use Rattle.std.specs.Prelude.{◌≡◌};
ghost use Rattle.std.specs.Fn.{FnOnceReturnsAtMut};
ghost use Rattle.lent.specs.Gauge.{moved_of};

use answer::{Refusal, Step};

// The law: what is told, and what stands in the place, are what the step by value makes of what stood there.
fn lent<S: Copy, A, F: FnOnce(S) -> (A, S)>(place: &mut S, step: F) -> A
    requires { F.pre step place.old }
    ensures { F.post step place.old (result, place.new) }
{
    let (answer, left) = step(*place);
    *place = left;
    answer
}

// The caller's side: by value, with a local lent to the step for the call.
fn by_lending<S: Copy, A, F: FnOnce(&mut S) -> A>(value: S, step: F) -> (A, S)
    requires { F.IsAlwaysCallable step }
    ensures { FnOnceReturnsAtMut F.FnOnce step value result.0 result.1 }
{
    let mut local = value;
    let answer = step(&mut local);
    (answer, local)
}

// What a step by value answers is told, and the record that it leaves stands in the place that was lent.
pub fn into_place<R, S: Copy>(step: Step<R, S>, place: &mut S) -> Result<R, Refusal>
    ensures { (result ≡ step.answer) × (place.new ≡ step.left) }
{
    *place = step.left;
    step.answer
}

#[derive(Clone, Copy)]
pub struct Gauge {
    pub level: f64,
}

impl Gauge {
    // The level before, and the gauge after.
    pub fn moved(self, by: f64, times: f64) -> (f64, Gauge)
        ensures { result ≡ moved_of self by times }
    {
        (
            self.level,
            Gauge {
                level: self.level + by * times,
            },
        )
    }

    pub fn moved_lent(&mut self, by: f64, times: f64) -> f64
        ensures { (result ≡ (moved_of self.old by times).0) × (self.new ≡ (moved_of self.old by times).1) }
    {
        lent(self, |g: Gauge| g.moved(by, times))
    }
}

// By value, with a local lent for the call.
pub fn moved_by_lending(g: Gauge, by: f64, times: f64) -> (f64, Gauge)
    ensures { result ≡ moved_of g by times }
{
    by_lending(g, |local: &mut Gauge| local.moved_lent(by, times))
}
