// Model mixing on a bank that the caller lends, over its methods by value. A refusal leaves the bank unchanged.
ghost use Rattle.std.specs.Prelude.{◌≡◌};
ghost use Rattle.imm.specs.Record.{mix_of, probabilities_of};

use answer::Refusal;
use imm::ImmEstimator;

pub fn mix_estimates_lent(f: &mut ImmEstimator) -> Result<(), Refusal>
    ensures { (result ≡ (mix_of f.old).answer) × (f.new ≡ (mix_of f.old).left) }
{
    lent::into_place((*f).mix_estimates(), f)
}

pub fn update_probabilities_lent(f: &mut ImmEstimator) -> Result<(), Refusal>
    ensures { (result ≡ (probabilities_of f.old).answer) × (f.new ≡ (probabilities_of f.old).left) }
{
    lent::into_place((*f).update_probabilities(), f)
}
