// src/estimator/imm.rs at f64: a bank of models as a record by value, over the steps on lent rows. Each step takes the record
// and hands back its answer and the record that it leaves; a refusal leaves it unchanged. `update_all` is not ported.
#![tactic(auto)]

ghost use Rattle.std.specs.Prelude.{◌≡◌};
ghost use Rattle.answer.specs.Outcome.{into, handed};
ghost use Rattle.imm.specs.Record.{states_of, covariances_of, likelihoods_of, with_estimate, with_estimates, holding, weighing};
ghost use Rattle.imm.specs.Record.{mixing, updating, new_of, mix_of, probabilities_of, fused_of, probability_of};

use answer::{Refusal, Step};

// A model of n states: transition a (n by n), state x_hat, covariance p (n by n), process noise q (n by n), and the likelihood of
// the measurement under it. A matrix stands flat, four numbers a row; what stands outside its sizes is ignored.
#[derive(Clone, Copy)]
pub struct ImmModel {
    pub a: [f64; 16],
    pub x_hat: [f64; 4],
    pub p: [f64; 16],
    pub q: [f64; 16],
    pub likelihood: f64,
}

// Sizes: state n, measurement m, models k. The first k models, the transition (k by k; row i, column j: the probability of model
// j after model i), the models' probabilities mu, measurement matrix c (m by n), measurement noise r (m by m).
#[derive(Clone, Copy)]
pub struct ImmEstimator {
    pub n: usize,
    pub m: usize,
    pub k: usize,
    pub models: [ImmModel; 4],
    pub transition: [f64; 16],
    pub mu: [f64; 4],
    pub c: [f64; 16],
    pub r: [f64; 16],
}

// ---- the models' numbers as rows. By name, model for model: an array's `map` goes by an iterator that holds all four records.

fn states(models: [ImmModel; 4]) -> [[f64; 4]; 4]
    ensures { result ≡ states_of models }
{
    let [m0, m1, m2, m3] = models;
    let x0 = m0.x_hat;
    let x1 = m1.x_hat;
    let x2 = m2.x_hat;
    let x3 = m3.x_hat;
    [x0, x1, x2, x3]
}

fn covariances(models: [ImmModel; 4]) -> [[[f64; 4]; 4]; 4]
    ensures { result ≡ covariances_of models }
{
    let [m0, m1, m2, m3] = models;
    [
        kernel::from_flat(&m0.p),
        kernel::from_flat(&m1.p),
        kernel::from_flat(&m2.p),
        kernel::from_flat(&m3.p),
    ]
}

fn likelihoods(models: [ImmModel; 4]) -> [f64; 4]
    ensures { result ≡ likelihoods_of models }
{
    let [m0, m1, m2, m3] = models;
    [m0.likelihood, m1.likelihood, m2.likelihood, m3.likelihood]
}

// ---- and back

fn with_estimate(model: ImmModel, x: [f64; 4], p: &[[f64; 4]; 4]) -> ImmModel
    ensures { result ≡ with_estimate model x p.now }
{
    ImmModel {
        x_hat: x,
        p: kernel::to_flat(p),
        ..model
    }
}

fn with_estimates<'a>(
    models: [ImmModel; 4],
    x: &'a [[f64; 4]; 4],
    p: &'a [[[f64; 4]; 4]; 4],
) -> [ImmModel; 4]
    ensures { result ≡ with_estimates models x.now p.now }
{
    let [m0, m1, m2, m3] = models;
    [
        with_estimate(m0, x[0], &p[0]),
        with_estimate(m1, x[1], &p[1]),
        with_estimate(m2, x[2], &p[2]),
        with_estimate(m3, x[3], &p[3]),
    ]
}

impl ImmEstimator {
    // The bank of k models, each with the probability 1 / k; of the matrices the used parts. Refused as a wrong size: a size.
    pub fn new(
        n: usize,
        m: usize,
        k: usize,
        models: [ImmModel; 4],
        transition: [[f64; 4]; 4],
        c: [[f64; 4]; 4],
        r: [[f64; 4]; 4],
    ) -> Result<ImmEstimator, Refusal>
        ensures { result ≡ new_of n m k models transition c r }
    {
        let (sn, sm, sk) = steps::sized(n, m, k)?;
        Ok(ImmEstimator {
            n,
            m,
            k,
            models,
            transition: kernel::flat_part(&transition, sk, sk),
            mu: imm_steps::uniform(sk),
            c: kernel::flat_part(&c, sm, sn),
            r: kernel::flat_part(&r, sm, sm),
        })
    }

    // ---- the steps in place

    fn mix_in(&mut self) -> Result<(), Refusal>
        ensures { (result, self.new) ≡ handed (λ a. a) (holding self.old) self.old (into (mixing self.old)) }
    {
        let (n, _, k) = steps::sized(self.n, self.m, self.k)?;
        let t = kernel::from_flat(&self.transition);
        let mut x = states(self.models);
        let mut p = covariances(self.models);
        imm_steps::mix(&t, n, k, &mut x, &mut p, &mut self.mu);
        self.models = with_estimates(self.models, &x, &p);
        Ok(())
    }

    fn update_in(&mut self) -> Result<(), Refusal>
        ensures { (result, self.new) ≡ handed (λ a. a) (weighing self.old) self.old (into (updating self.old)) }
    {
        let (_, _, k) = steps::sized(self.n, self.m, self.k)?;
        imm_steps::update_probabilities(likelihoods(self.models), k, &mut self.mu);
        Ok(())
    }

    // ---- the steps by value

    // Every model's state and covariance mixed from those of all; mu becomes the predicted probabilities. Refused as a wrong
    // size: a size of the record.
    pub fn mix_estimates(self) -> Step<(), ImmEstimator>
        ensures { result ≡ mix_of self }
    {
        let mut left = self;
        let answer = left.mix_in();
        Step { answer, left }
    }

    // mu becomes each probability times its likelihood, as a part of their sum; 1 / k each where the sum is below EPSILON.
    // Refused as mix_estimates.
    pub fn update_probabilities(self) -> Step<(), ImmEstimator>
        ensures { result ≡ probabilities_of self }
    {
        let mut left = self;
        let answer = left.update_in();
        Step { answer, left }
    }

    // The states by their probabilities, of n numbers. Refused as mix_estimates.
    pub fn fused_estimate(self) -> Result<[f64; 4], Refusal>
        ensures { result ≡ fused_of self }
    {
        let (n, _, k) = steps::sized(self.n, self.m, self.k)?;
        let x = states(self.models);
        Ok(imm_steps::weighted(&x, self.mu, n, k))
    }

    // The probability of model j, from 0. Refused as a wrong size: a size of the record, or there is no such model.
    pub fn model_probability(self, j: usize) -> Result<f64, Refusal>
        ensures { result ≡ probability_of self j }
    {
        steps::sized(self.n, self.m, self.k)?;
        sizes::fits(j < self.k)?;
        Ok(self.mu[j])
    }
}
