// src/estimator/imm.rs on a slice that the caller lends: a bank of k models of n states and m measurements is, for each model, a,
// x, p, q and its likelihood, then the transition, c, r and the probabilities mu, by rows, one after another. Numbers are read and
// written where they stand, each once. Refused as a wrong size: a size, or a slice of another length. How a bank is made: crates/c_imm.
#![tactic(auto)]

ghost use Rattle.std.specs.Prelude.{◌≡◌, ◌+◌, ◌*◌, ◌≤◌, ◌<◌, length};
ghost use Rattle.answer.specs.Told.{written};
ghost use Rattle.algebra.specs.Matrix.{row};
ghost use Rattle.sizes.specs.Size.{count, front};
ghost use Rattle.layout.specs.Layout.{joined, placed};
ghost use Rattle.c_bank.specs.Bank.{series, mixed_row_in, mixed_rows_in, mix_in, probabilities_in, fused_in, probability_in};

use answer::Refusal;
use models::{Reading, each};
use sizes::Size;
use spread::Mixing;

mod models;
mod places;
mod spread;

pub use places::Places;

// ---- the steps

// The first n numbers of v, from number k on, as layout::put_vector has it without its test of the room.
#[tactic(auto, using(layout::proofs::Loops::writing_out, crate::proofs::Spaced::write_back))]
fn put_row(b: &mut [f64], k: usize, v: [f64; 4], n: Size)
    requires { k + count n ≤ length b.old }
    ensures { b.new ≡ placed k (front n v) b.old }
{
    match n {
        Size::One => {
            b[k] = v[0];
        }
        Size::Two => {
            b[k] = v[0];
            b[k + 1] = v[1];
        }
        Size::Three => {
            b[k] = v[0];
            b[k + 1] = v[1];
            b[k + 2] = v[2];
        }
        // From the last down: where all sizes begin with the same number, a compiler pairs the others across the two halves of a row.
        Size::Four => {
            b[k + 3] = v[3];
            b[k + 2] = v[2];
            b[k + 1] = v[1];
            b[k] = v[0];
        }
    }
}

// Row j of m as the state of model j, for each model.
fn put_states(bank: &mut [f64], places: Places, m: &[[f64; 4]; 4])
    requires { places.x + count places.k * places.step + 4 ≤ length bank.old + places.step }
    ensures { bank.new ≡ series (count places.k) places.x places.step (λ j. front places.n (row m.now j)) bank.old }
{
    let models = usize::from(places.k);
    // The index is a row of m and a place in the bank.
    for j in 0..models {
        put_row(bank, places.x + j * places.step, m[j], places.n);
    }
}

// Row r of both covariances of two models, which stand from number q on, mixed. Two models are the usual bank, and without a loop
// their numbers stay where a processor has them.
#[inline(always)]
fn mix_pair<'a>(bank: &mut [f64], places: Places, by: Mixing<'a>, r: usize, q: usize)
    requires { (r < 4) × (q + 2 * places.step + 4 ≤ length bank.old + places.step) }
    ensures { bank.new
        ≡ series 2 q places.step
        (mixed_row_in (count places.n) 2 places.step by.entry.x.now by.entry.m.now by.entry.w.now bank.old q r) bank.old }
{
    let a = <[f64; 4]>::read(bank, q);
    let b = <[f64; 4]>::read(bank, q + places.step);
    let first = spread::mixed_pair(a, b, by, 0, r);
    let second = spread::mixed_pair(a, b, by, 1, r);
    put_row(bank, q, first, places.n);
    put_row(bank, q + places.step, second, places.n);
}

// Row r of every covariance, which stand from number q on, mixed. Inlined, so that a loop over rows can test the number of models once.
#[inline(always)]
fn mix_row<'a>(bank: &mut [f64], places: Places, by: Mixing<'a>, r: usize, q: usize)
    requires { (r < 4) × (q + count places.k * places.step + 4 ≤ length bank.old + places.step) }
    ensures { bank.new
        ≡ series (count places.k) q places.step
        (mixed_row_in (count places.n) (count places.k) places.step by.entry.x.now by.entry.m.now by.entry.w.now bank.old q r) bank.old }
{
    let models = usize::from(places.k);
    if models == 2 {
        mix_pair(bank, places, by, r, q);
        return;
    }
    let p = each(bank, q, places.step, places.k);
    // The index is a model of the weights and a place in the bank.
    for j in 0..models {
        let row = spread::mixed_row(&p, by, j, r, places.k);
        put_row(bank, q + j * places.step, row, places.n);
    }
}

// Every covariance mixed, row by row, where it stands. Those of two models do not overlap, and four numbers can be read behind each.
fn mix_covariances<'a>(bank: &mut [f64], places: Places, by: Mixing<'a>)
    requires { (count places.n * count places.n ≤ places.step)
        × (places.p + count places.k * places.step + count places.n * count places.n + 4 ≤ length bank.old + places.step) }
    ensures { bank.new
        ≡ series (count places.k) places.p places.step
        (λ j. joined (mixed_rows_in (count places.n) (count places.k) places.step by.entry.x.now by.entry.m.now by.entry.w.now bank.old places.p j)) bank.old }
{
    let states = usize::from(places.n);
    // The index is a row of every covariance and a place in the bank.
    for r in 0..states {
        mix_row(bank, places, by, r, places.p + r * states);
    }
}

// Every model's state and covariance mixed from those of all; mu becomes the predicted probabilities.
pub fn mix_rows(n: usize, m: usize, k: usize, bank: &mut [f64]) -> Result<(), Refusal>
    ensures { (result, bank.new) ≡ mix_in n m k bank.old }
{
    let places = Places::of(n, m, k, bank.len())?;
    let t = each(bank, places.transition, k, places.k);
    let x = each(bank, places.x, places.step, places.k);
    let mu = each(bank, places.mu, 1, places.k);
    let c = imm_steps::predicted(&t, mu, places.k);
    let w = imm_steps::all_shares(&t, mu, c, places.k);
    let s = imm_steps::mixed_states(&x, &w, places.k);
    put_states(bank, places, &s);
    let by = Mixing {
        x: &x,
        m: &s,
        w: &w,
    };
    mix_covariances(bank, places, by);
    put_row(bank, places.mu, c, places.k);
    Ok(())
}

// mu becomes each probability times its likelihood, as a part of their sum; 1 / k each where the sum is below EPSILON.
pub fn imm_update_probabilities(
    n: usize,
    m: usize,
    k: usize,
    bank: &mut [f64],
) -> Result<(), Refusal>
    ensures { (result, bank.new) ≡ probabilities_in n m k bank.old }
{
    let places = Places::of(n, m, k, bank.len())?;
    let l = each(bank, places.likelihood, places.step, places.k);
    let mut mu = each(bank, places.mu, 1, places.k);
    imm_steps::update_probabilities(l, places.k, &mut mu);
    put_row(bank, places.mu, mu, places.k);
    Ok(())
}

// ---- what is asked of a bank

// The states by their probabilities, n numbers.
#[tactic(auto, unfolding(crate::specs::Bank::is_bank_with))]
pub fn imm_fused_estimate(
    n: usize,
    m: usize,
    k: usize,
    bank: &[f64],
    out: &mut [f64],
) -> Result<(), Refusal>
    ensures { (result, out.new) ≡ written out.old (fused_in n m k bank.now (length out.old)) }
{
    let places = Places::of(n, m, k, bank.len())?;
    sizes::fits(out.len() == n)?;
    let x = each(bank, places.x, places.step, places.k);
    let mu = each(bank, places.mu, 1, places.k);
    let fused = imm_steps::weighted(&x, mu, places.n, places.k);
    put_row(out, 0, fused, places.n);
    Ok(())
}

// The probability of a model, from 0. Refused as a wrong size too: there is no such model.
#[tactic(auto, unfolding(crate::specs::Bank::is_model))]
pub fn imm_model_probability(
    n: usize,
    m: usize,
    k: usize,
    bank: &[f64],
    model: usize,
    out: &mut f64,
) -> Result<(), Refusal>
    ensures { (result, out.new) ≡ written out.old (probability_in n m k bank.now model) }
{
    let places = Places::of(n, m, k, bank.len())?;
    sizes::fits(model < k)?;
    *out = bank[places.mu + model];
    Ok(())
}
