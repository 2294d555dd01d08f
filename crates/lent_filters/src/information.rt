// The information filter on a record that the caller lends, over its methods by value. A refusal leaves the filter unchanged, but
// for an update's on the matrix that the addition made: the addition stays.
ghost use Rattle.std.specs.Prelude.{◌≡◌};
ghost use Rattle.information_filter.specs.Record.{stepped, predicting, update_of, update_one_of};

use answer::Refusal;
use information_filter::InformationFilter;

pub fn predict_lent(f: &mut InformationFilter, u: [f64; 4], k: usize) -> Result<(), Refusal>
    ensures { (result ≡ (stepped f.old (predicting f.old u k)).answer)
        × (f.new ≡ (stepped f.old (predicting f.old u k)).left) }
{
    lent::into_place((*f).predict(u, k), f)
}

pub fn update_lent(f: &mut InformationFilter, z: [f64; 4], k: usize) -> Result<[f64; 4], Refusal>
    ensures { (result ≡ (update_of f.old z k).answer) × (f.new ≡ (update_of f.old z k).left) }
{
    lent::into_place((*f).update(z, k), f)
}

// For one reading, m = 1: the innovation as a number.
pub fn update_one_lent(f: &mut InformationFilter, z: f64) -> Result<f64, Refusal>
    ensures { (result ≡ (update_one_of f.old z).answer) × (f.new ≡ (update_one_of f.old z).left) }
{
    lent::into_place((*f).update_one(z), f)
}
