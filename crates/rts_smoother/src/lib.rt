// src/estimator/rts_smoother.rs at f64: the smoother of Rauch, Tung and Striebel. Its slots lie in a buffer that the
// caller lends, slot k as 2n + 2n² numbers: state, covariance by rows, predicted state, predicted covariance. Here are the
// records and the methods; the pass itself is crates/rts_pass.
#![tactic(auto)]

ghost use Rattle.std.specs.Prelude.{◌≡◌, ◌+◌, ◌≤◌, length};
ghost use Rattle.answer.specs.Answer.{where_sized};
ghost use Rattle.sizes.specs.Size.{count, size_of};
ghost use Rattle.layout.specs.Layout.{placed, stride as stride_of};
ghost use Rattle.duty.specs.Buffer.{slot_numbers};
ghost use Rattle.smoothing.specs.Demand3.{Demand3};
ghost use Rattle.rts_smoother.specs.Call.{duty, run, StoredDuty};
ghost use Rattle.rts_smoother.specs.Record.{slot_of, storable, state_from, room_of, stored, new_of, emptied, reset_of, len_of, is_empty_of, store_in, store_of, get_state_refusal, get_state, place_of, smooth_with};

use answer::{Refusal, Step};
use duty::{Room, pair_length, stride};
use sizes::{Size, fits};

// One slot: the filtered state x and covariance p, n by n, and the predicted pair. A matrix stands flat, four
// numbers a row; what stands outside its sizes is ignored.
#[derive(Clone, Copy)]
pub struct FilteredState {
    pub n: usize,
    pub x: [f64; 4],
    pub p: [f64; 16],
    pub x_pred: [f64; 4],
    pub p_pred: [f64; 16],
}

// Room for `room` slots of state size n, of which the first `count` are stored. The slots are in a lent buffer.
#[derive(Clone, Copy)]
pub struct RtsSmoother {
    pub n: usize,
    pub room: usize,
    pub count: usize,
}

// A slot into a buffer, from number k on: its filtered pair, then its predicted pair. Every other number stays.
fn put_slot(b: &mut [f64], k: usize, s: FilteredState, n: Size)
    requires { (count n ≡ s.n) × (k + stride_of s.n ≤ length b.old) }
    ensures { b.new ≡ placed k (slot_numbers (slot_of s)) b.old }
{
    let p = kernel::from_flat(&s.p);
    let q = kernel::from_flat(&s.p_pred);
    layout::put_pair(b, k, s.x, &p, n);
    layout::put_pair(b, k + pair_length(n), s.x_pred, &q, n);
}

impl FilteredState {
    // The slot given by the used parts of arrays of rows. Refused with 1: n is no size.
    pub fn new(
        n: usize,
        x: [f64; 4],
        p: [[f64; 4]; 4],
        x_pred: [f64; 4],
        p_pred: [[f64; 4]; 4],
    ) -> Result<FilteredState, Refusal>
        ensures { result ≡ state_from n x p x_pred p_pred }
    {
        let size = Size::try_from(n)?;
        Ok(FilteredState {
            n,
            x: rows::leading(x, size),
            p: kernel::flat_part(&p, size, size),
            x_pred: rows::leading(x_pred, size),
            p_pred: kernel::flat_part(&p_pred, size, size),
        })
    }
}

impl RtsSmoother {
    // Room for `room` slots of state size n, none stored. Refused with 1: n is no size, or room is not 1 to 64.
    pub fn new(n: usize, room: usize) -> Result<RtsSmoother, Refusal>
        ensures { result ≡ new_of n room }
    {
        Room { n, room, count: 0 }.counted()?;
        Ok(RtsSmoother { n, room, count: 0 })
    }

    fn sizes(self) -> Room
        ensures { result ≡ room_of self }
    {
        let RtsSmoother { n, room, count } = self;
        Room { n, room, count }
    }

    // The step to the smoother after it; a refusal leaves this one.
    fn step(self, next: Result<RtsSmoother, Refusal>) -> Step<(), RtsSmoother>
        ensures { result ≡ stored self next }
    {
        match next {
            Ok(left) => Step {
                answer: Ok(()),
                left,
            },
            Err(refusal) => Step {
                answer: Err(refusal),
                left: self,
            },
        }
    }

    fn emptied(self) -> Result<RtsSmoother, Refusal>
        ensures { result ≡ emptied self }
    {
        self.sizes().counted()?;
        Ok(RtsSmoother { count: 0, ..self })
    }

    // Afterwards no slot is stored; the buffer is not touched. Refused with 1: a size of the record, or its count.
    pub fn reset(self) -> Step<(), RtsSmoother>
        ensures { result ≡ reset_of self }
    {
        self.step(self.emptied())
    }

    // How many slots are stored. Refused with 1: a size of the record, or its count.
    pub fn len(self) -> Result<usize, Refusal>
        ensures { result ≡ len_of self }
    {
        self.sizes().counted()?;
        Ok(self.count)
    }

    // Whether no slot is stored. Refused with 1: a size of the record, or its count.
    pub fn is_empty(self) -> Result<bool, Refusal>
        ensures { result ≡ is_empty_of self }
    {
        Ok(self.len()? == 0)
    }

    // The state size, where a buffer of len numbers is just room slots long and a slot has that size.
    #[tactic(auto, unfolding(crate::specs::Record::storable))]
    fn storable(self, len: usize, size: usize) -> Result<Size, Refusal>
        ensures { result ≡ where_sized (storable len self.n self.room self.count size) (size_of self.n) }
    {
        let n = self.sizes().buffered(len)?;
        fits(self.n == size)?;
        Ok(n)
    }

    fn store(self, slots: &mut [f64], state: FilteredState) -> Result<RtsSmoother, Refusal>
        ensures { (result, slots.new) ≡ store_in self slots.old state }
    {
        let n = self.storable(slots.len(), state.n)?;
        if self.room <= self.count {
            return Err(Refusal::BufferFull);
        }
        put_slot(slots, self.count * stride(n), state, n);
        Ok(RtsSmoother {
            count: self.count + 1,
            ..self
        })
    }

    // One slot more, after those stored. Refused with 1: a size or the count of the record, a slot of another
    // size, a buffer that is not just room slots long; with 5: the count is the room. Then nothing changes.
    pub fn store_forward(self, slots: &mut [f64], state: FilteredState) -> Step<(), RtsSmoother>
        ensures { (result.answer, (result.left, slots.new)) ≡ store_of self slots.old state }
    {
        self.step(self.store(slots, state))
    }

    // Why slot k cannot be handed out: refused with 1 for a size, the count or the buffer's length, with 6 where k is not below
    // the count.
    pub fn get_state_refusal(self, slots: &[f64], k: usize) -> Result<(), Refusal>
        ensures { result ≡ get_state_refusal self slots.now k }
    {
        self.sizes().slot(slots, k)?;
        Ok(())
    }

    // Slot k, as that part of the buffer itself; an empty part where it cannot be handed out.
    pub fn get_state(self, slots: &[f64], k: usize) -> &[f64]
        ensures value { result.now ≡ get_state self slots.now k }
        ensures place { result.ref_ptr ≡ place_of self slots.now k slots.entry.ref_ptr }
    {
        match self.sizes().slot(slots, k) {
            Ok(slot) => slot,
            Err(_) => &slots[..0],
        }
    }

    // The stored slots smoothed into output with a transition of k rows and columns, as rts_pass::smooth
    // does it. Refused with 1 also where k is not n.
    pub fn smooth(
        self,
        slots: &[f64],
        transition: [[f64; 4]; 4],
        k: usize,
        output: &mut [f64],
    ) -> Result<(), Refusal>
        ensures { (result, output.new) ≡ smooth_with self slots.now transition k output.old }
    {
        fits(self.n == k)?;
        rts_pass::smooth(slots, self.sizes(), transition, output)
    }
}

// ---- promises: nothing is done, and the crate is not proved without them

// Demand 3 of the method `smooth`.
pub fn demand3_of_method()
    ensures { Demand3 duty run }
{}

// What a store leaves: the duty with one slot more.
pub fn stored_duty()
    ensures { StoredDuty }
{}
