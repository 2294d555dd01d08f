// src/estimator/imm.rs for C: each export calls the function of its name, and has its contract.
ghost use Rattle.std.specs.Prelude.{◌≡◌, length};
ghost use Rattle.answer.specs.Told.{given, numbered};
ghost use Rattle.c_bank.specs.Bank.{mix_in, probabilities_in, fused_in, probability_in, new_in};

use answer::number_of;
use estimators::imm;

// The bank of the models, one after another, the transition, c and r, each by rows; each probability is 1 / k.
#[unsafe(no_mangle)]
pub extern "C" fn estimators_imm_new(
    n: usize,
    m: usize,
    k: usize,
    models: &[f64],
    transition: &[f64],
    c: &[f64],
    r: &[f64],
    bank: &mut [f64],
) -> u8
    ensures { (result, bank.new)
        ≡ given bank.old (new_in n m k (length bank.old) models.now transition.now c.now
        r.now) }
{
    number_of(imm::estimators_imm_new(n, m, k, models, transition, c, r, bank))
}

// Every model's state and covariance mixed from those of all; mu becomes the predicted probabilities.
#[unsafe(no_mangle)]
pub extern "C" fn estimators_imm_mix_estimates(n: usize, m: usize, k: usize, bank: &mut [f64]) -> u8
    ensures { (result, bank.new) ≡ numbered (mix_in n m k bank.old) }
{
    number_of(imm::estimators_imm_mix_estimates(n, m, k, bank))
}

// mu becomes each probability times its likelihood, as a part of their sum; 1 / k each where the sum is below EPSILON.
#[unsafe(no_mangle)]
pub extern "C" fn estimators_imm_update_probabilities(
    n: usize,
    m: usize,
    k: usize,
    bank: &mut [f64],
) -> u8
    ensures { (result, bank.new) ≡ numbered (probabilities_in n m k bank.old) }
{
    number_of(imm::estimators_imm_update_probabilities(n, m, k, bank))
}

// The states by their probabilities, n numbers.
#[unsafe(no_mangle)]
pub extern "C" fn estimators_imm_fused_estimate(
    n: usize,
    m: usize,
    k: usize,
    bank: &[f64],
    out: &mut [f64],
) -> u8
    ensures { (result, out.new) ≡ given out.old (fused_in n m k bank.now (length out.old)) }
{
    number_of(imm::estimators_imm_fused_estimate(n, m, k, bank, out))
}

// The probability of a model, from 0. Refused with 1 too: there is no such model.
#[unsafe(no_mangle)]
pub extern "C" fn estimators_imm_model_probability(
    n: usize,
    m: usize,
    k: usize,
    bank: &[f64],
    model: usize,
    out: &mut f64,
) -> u8
    ensures { (result, out.new) ≡ given out.old (probability_in n m k bank.now model) }
{
    number_of(imm::estimators_imm_model_probability(n, m, k, bank, model, out))
}
