// The linear filter on a record that the caller lends, over its methods by value. A refusal leaves the filter unchanged.
ghost use Rattle.std.specs.Prelude.{◌≡◌};
ghost use Rattle.kalman.specs.Record.{predict_of, update_of, update_one_of};

use answer::Refusal;
use kalman::KalmanFilter;

pub fn predict_lent(f: &mut KalmanFilter, u: [f64; 4], k: usize) -> Result<(), Refusal>
    ensures { (result ≡ (predict_of f.old u k).answer) × (f.new ≡ (predict_of f.old u k).left) }
{
    lent::into_place((*f).predict(u, k), f)
}

pub fn update_lent(f: &mut KalmanFilter, z: [f64; 4], k: usize) -> Result<[f64; 4], Refusal>
    ensures { (result ≡ (update_of f.old z k).answer) × (f.new ≡ (update_of f.old z k).left) }
{
    lent::into_place((*f).update(z, k), f)
}

// For one reading, m = 1: the innovation as a number.
pub fn update_one_lent(f: &mut KalmanFilter, z: f64) -> Result<f64, Refusal>
    ensures { (result ≡ (update_one_of f.old z).answer) × (f.new ≡ (update_one_of f.old z).left) }
{
    lent::into_place((*f).update_one(z), f)
}
