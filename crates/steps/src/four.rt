// Four states and two measurements: an update of parts whose sizes are literals. A part with one caller is compiled into it. The two
// that make a matrix are written out: with loops over their rows a step in a loop takes 0.96 of the Rust's time, and 0.92 so.
ghost use Rattle.std.specs.Prelude.{◌≡◌};
ghost use Rattle.steps.specs.Step.{update_rows};

use crate::at_sizes;
use answer::Refusal;
use sizes::Size;

// x and p corrected by two measurements z; the innovation is z less H times the state before. Refused as singular: inversion
// rejects H P Hᵀ + R.
pub fn update<'a>(
    h: &'a [[f64; 4]; 4],
    r: &'a [[f64; 4]; 4],
    z: &'a [f64; 4],
    x: &mut [f64; 4],
    p: &mut [[f64; 4]; 4],
) -> Result<[f64; 4], Refusal>
    ensures { (result, (x.new, p.new))
        ≡ update_rows Size.Four Size.Two h.now r.now z.now x.old p.old }
{
    let s = four_states::propagated_two(h, p, r);
    let [[a, b], [c, d]] = small_inverse::inverse_two(s[0][0], s[0][1], s[1][0], s[1][1])?;
    let none = [0.0; 4];
    let w = [[a, b, 0.0, 0.0], [c, d, 0.0, 0.0], none, none];
    let y = at_sizes::innovation(h, x, z, Size::Two, Size::Four);
    let k = four_states::gain(p, h, &w);
    *x = at_sizes::corrected_state(&k, &y, x, Size::Four, Size::Two);
    *p = four_states::corrected_covariance(&k, h, p);
    Ok(y)
}
