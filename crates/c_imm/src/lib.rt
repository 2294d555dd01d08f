// src/estimator/imm.rs on a slice that the caller lends: a bank made of its parts, and mixing, with two models of one road written out. What a
// bank is, mixing for any sizes and what is asked of a bank: crates/c_bank. Refused as a wrong size: a size, or a slice of another length.
#![tactic(auto)]

ghost use Rattle.std.specs.Prelude.{◌≡◌, ◌++◌, ◌+◌, ◌≤◌, length};
ghost use Rattle.answer.specs.Answer.{where_sized};
ghost use Rattle.answer.specs.Told.{written};
ghost use Rattle.filtering.specs.Filter.{estimate};
ghost use Rattle.layout.specs.Layout.{vector_at, matrix_at, joined, placed};
ghost use Rattle.road.specs.Road.{matrix_of, estimate_of};
ghost use Rattle.c_bank.specs.Bank.{places_of, is_parts, mix_in, new_in};

use answer::Refusal;
use c_bank::Places;
pub use c_bank::{imm_fused_estimate, imm_model_probability, imm_update_probabilities};
use imm_road::Roads;
use road::{Pair, Two};

// ---- two models of one road: two states each, read and written where their numbers stand

// Two rows of two numbers, from number k on.
fn two_at(b: &[f64], k: usize) -> Two
    requires { k + 4 ≤ length b.now }
    ensures { matrix_of result ≡ matrix_at 2 2 b.now k }
{
    Two {
        a: b[k],
        b: b[k + 1],
        c: b[k + 2],
        d: b[k + 3],
    }
}

// A state and its covariance behind it, from number k on.
fn road_at(b: &[f64], k: usize) -> Pair
    requires { k + 6 ≤ length b.now }
    ensures { estimate_of result ≡ estimate (vector_at 2 b.now k) (matrix_at 2 2 b.now (k + 2)) }
{
    Pair {
        x0: b[k],
        x1: b[k + 1],
        p: two_at(b, k + 2),
    }
}

fn put_road(b: &mut [f64], k: usize, e: Pair)
    requires { k + 6 ≤ length b.old }
    ensures { b.new ≡ placed k ((estimate_of e).state ++ joined (estimate_of e).covariance) b.old }
{
    let p = e.p;
    let numbers = [e.x0, e.x1, p.a, p.b, p.c, p.d];
    layout::put_slice(b, k, &numbers[..]);
}

fn mix_roads(m: usize, bank: &mut [f64]) -> Result<(), Refusal>
    ensures { (result, bank.new) ≡ mix_in 2 m 2 bank.old }
{
    let places = Places::of(2, m, 2, bank.len())?;
    let next = places.x + places.step;
    let roads = Roads {
        first: road_at(bank, places.x),
        second: road_at(bank, next),
        mu0: bank[places.mu],
        mu1: bank[places.mu + 1],
    };
    let mixed = roads.mix(two_at(bank, places.transition));
    let mu = [mixed.mu0, mixed.mu1];
    put_road(bank, places.x, mixed.first);
    put_road(bank, next, mixed.second);
    layout::put_slice(bank, places.mu, &mu[..]);
    Ok(())
}

// ---- mixing

// Every model's state and covariance mixed from those of all; mu becomes the predicted probabilities.
pub fn imm_mix_estimates(n: usize, m: usize, k: usize, bank: &mut [f64]) -> Result<(), Refusal>
    ensures { (result, bank.new) ≡ mix_in n m k bank.old }
{
    if n == 2 && k == 2 {
        mix_roads(m, bank)
    } else {
        c_bank::mix_rows(n, m, k, bank)
    }
}

// ---- a bank of its parts

// The places of a bank, where slices of these lengths are just its parts: each is as long as it is from its place to the next one.
#[tactic(auto, unfolding(c_bank::specs::Bank::is_parts))]
fn parts(
    n: usize,
    m: usize,
    k: usize,
    len: usize,
    models: usize,
    transition: usize,
    c: usize,
    r: usize,
) -> Result<Places, Refusal>
    ensures { result ≡ where_sized (is_parts n m k len models transition c r) (places_of n m k) }
{
    let places = Places::of(n, m, k, len)?;
    let own = (models == places.transition) & (transition == places.c - places.transition);
    let shared = (c == places.r - places.c) & (r == places.mu - places.r);
    sizes::fits(own & shared)?;
    Ok(places)
}

// The bank of the models, one after another, the transition, c and r, each by rows; each probability is 1 / k.
pub fn imm_new(
    n: usize,
    m: usize,
    k: usize,
    models: &[f64],
    transition: &[f64],
    c: &[f64],
    r: &[f64],
    bank: &mut [f64],
) -> Result<(), Refusal>
    ensures { (result, bank.new)
        ≡ written bank.old (new_in n m k (length bank.old) models.now transition.now c.now r.now) }
{
    let places = parts(
        n,
        m,
        k,
        bank.len(),
        models.len(),
        transition.len(),
        c.len(),
        r.len(),
    )?;
    layout::put_slice(bank, 0, models);
    layout::put_slice(bank, places.transition, transition);
    layout::put_slice(bank, places.c, c);
    layout::put_slice(bank, places.r, r);
    layout::put_vector(bank, places.mu, imm_steps::uniform(places.k), places.k);
    Ok(())
}
