// The sizes of a duty in lent buffers: how many states, slots and numbers. Slot k is 2n + 2n² numbers: state, covariance by rows,
// predicted state, predicted covariance; a smoothed pair is n + n² numbers.
#![tactic(auto)]

ghost use Rattle.std.specs.Prelude.{◌≡◌, ◌+◌, ◌*◌, ◌≤◌, ◌&&◌, cond, drop, leb, length, take, IfOk};
ghost use Rattle.answer.specs.Answer.{mapped, where_sized};
ghost use Rattle.sizes.specs.Size.{count, size_of, sized};
ghost use Rattle.layout.specs.Layout.{pair_length as pair_numbers_of, stride as slot_numbers_of};
ghost use Rattle.duty.specs.Buffer.{roomy, counted, buffered, smoothable, stored_slot, slot_place};
ghost use Rattle.duty.specs.Promise.{Refusals};

use answer::Refusal;
use scalar::ControlScalar;
use sizes::{Size, fits};

// A promise: nothing is done, and the crate is not proved without what Refusals states.
pub fn smooth_refusals()
    ensures { Refusals }
{}

// How many numbers a pair takes.
pub fn pair_length(n: Size) -> usize
    ensures { result ≡ pair_numbers_of (count n) }
{
    let states = usize::from(n);
    states + states * states
}

// How many numbers a slot takes.
pub fn stride(n: Size) -> usize
    ensures { result ≡ slot_numbers_of (count n) }
{
    2 * pair_length(n)
}

// The same by a number, 0 where it is no size.
pub fn stride_of(n: usize) -> usize
    ensures { result ≡ cond (sized n) (slot_numbers_of n) 0 }
{
    if sizes::is_size(n) {
        stride(sizes::size_of(n))
    } else {
        0
    }
}

// Slot k, as that part of the buffer itself.
fn numbers_of(slots: &[f64], k: usize, n: Size) -> &[f64]
    requires { k * slot_numbers_of (count n) + slot_numbers_of (count n) ≤ length slots.now }
    ensures value { result.now ≡ take (slot_numbers_of (count n)) (drop (k * slot_numbers_of (count n)) slots.now) }
    ensures place { result.ref_ptr ≡ slot_place (count n) k slots.entry.ref_ptr }
{
    let numbers = stride(n);
    let from = k * numbers;
    &slots[from..from + numbers]
}

// Room for `room` slots of state size n, of which the first `count` are stored. Each test gives the state size, or refuses with 1.
#[derive(Clone, Copy, Debug, PartialEq, Eq)]
pub struct Room {
    pub n: usize,
    pub room: usize,
    pub count: usize,
}

impl Room {
    // Room for 1 to 64 slots, and a count of slots that have room.
    #[tactic(auto, unfolding(crate::specs::Buffer::roomy))]
    fn has_room(self) -> bool
        ensures { result ≡ roomy self.room && leb self.count self.room }
    {
        (1 <= self.room) & (self.room <= ControlScalar::MAX_SLOTS) & (self.count <= self.room)
    }

    // A state size, and the room.
    #[tactic(auto, unfolding(crate::specs::Buffer::counted))]
    pub fn counted(self) -> Result<Size, Refusal>
        ensures { result ≡ where_sized (counted self.n self.room self.count) (size_of self.n) }
    {
        let size = Size::try_from(self.n)?;
        fits(self.has_room())?;
        Ok(size)
    }

    // The same, and a buffer of len numbers that is just so many slots long.
    #[tactic(auto, unfolding(crate::specs::Buffer::buffered))]
    pub fn buffered(self, len: usize) -> Result<Size, Refusal>
        ensures { result ≡ where_sized (buffered len self.n self.room self.count) (size_of self.n) }
    {
        let size = self.counted()?;
        fits(len == self.room * stride(size))?;
        Ok(size)
    }

    // The same, and an output of numbers that is just so many pairs long.
    #[tactic(auto, unfolding(crate::specs::Buffer::smoothable))]
    pub fn smoothable(self, len: usize, numbers: usize) -> Result<Size, Refusal>
        ensures { result ≡ where_sized (smoothable len numbers self.n self.room self.count) (size_of self.n) }
    {
        let size = self.buffered(len)?;
        fits(numbers == self.room * pair_length(size))?;
        Ok(size)
    }
    // Slot k, as that part of the buffer itself. Refused with 1 as above; with 6: k is not below the count.
    pub fn slot(self, slots: &[f64], k: usize) -> Result<&[f64], Refusal>
        ensures value { mapped (λ s. s.now) result ≡ stored_slot self.n self.room self.count slots.now k }
        ensures place { IfOk result (λ s. s.ref_ptr ≡ slot_place self.n k slots.entry.ref_ptr) }
    {
        let size = self.buffered(slots.len())?;
        if self.count <= k {
            return Err(Refusal::IndexOutOfRange);
        }
        Ok(numbers_of(slots, k, size))
    }
}
