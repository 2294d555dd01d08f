// One road in a slice that the caller lends, a filter of two states, one measurement and one input: its sizes, its nineteen numbers
// where they stand, and a filter of position and speed made of them. Every filter's steps are written out for it, and for a plane.
#![tactic(auto)]

ghost use Rattle.std.specs.Prelude.{◌≡◌, cond, eqb, length};
ghost use Rattle.scalar.specs.Number.{+0};
ghost use Rattle.answer.specs.Told.{written};
ghost use Rattle.road.specs.Road.{road_of, estimate_of, tracker_of};
ghost use Rattle.layout.specs.Layout.{put_at};
ghost use Rattle.c_roads.specs.Plane.{is_plane};
ghost use Rattle.c_copies.specs.Filter.{is_road, road_in, estimate_numbers, filter_numbers, tracker_in};

use answer::Refusal;
use road::{Motion, Pair, Road, Sensor, Two};
use sizes::fits;

// ---- the sizes that are written out

// East and north: four states, two measurements and two inputs.
#[tactic(auto, unfolding(crate::specs::Plane::is_plane))]
pub fn is_plane(n: usize, m: usize, i: usize) -> bool
    ensures { result ≡ is_plane n m i }
{
    (n == 4) & ((m == 2) & (i == 2))
}

// The sizes of a road, with len numbers of the filter and k beside it.
#[tactic(auto, unfolding(c_copies::specs::Filter::is_road))]
pub fn is_road(n: usize, m: usize, i: usize, len: usize, k: usize) -> bool
    ensures { result ≡ is_road n m i len k }
{
    ((n == 2) & ((m == 1) & (i == 1))) & ((len == 19) & (k == 1))
}

// ---- its numbers

fn whole_road(f: &[f64]) -> Road
    requires { length f.now ≡ 19 }
    ensures { road_of result ≡ road_in f.now }
{
    Road {
        motion: Motion {
            a: Two {
                a: f[0],
                b: f[1],
                c: f[2],
                d: f[3],
            },
            b0: f[4],
            b1: f[5],
            q: Two {
                a: f[8],
                b: f[9],
                c: f[10],
                d: f[11],
            },
        },
        sensor: Sensor {
            h0: f[6],
            h1: f[7],
            r: f[12],
        },
        pair: Pair {
            x0: f[13],
            x1: f[14],
            p: Two {
                a: f[15],
                b: f[16],
                c: f[17],
                d: f[18],
            },
        },
    }
}

// The road in a slice of 19 numbers; in any other, one that stands still.
#[tactic(auto, using(std::proofs::lemmas::Bool::Decides::nat_tests))]
pub fn road_at(f: &[f64]) -> Road
    ensures { road_of result ≡ cond (eqb (length f.now) 19) (road_in f.now) (tracker_of +0 +0 +0) }
{
    if f.len() == 19 {
        whole_road(f)
    } else {
        Road::position_velocity(0.0, 0.0, 0.0)
    }
}

// The pair into its place, where there is room.
pub fn put_road(f: &mut [f64], e: Pair)
    ensures { f.new ≡ put_at 13 (estimate_numbers (estimate_of e)) f.old }
{
    let p = e.p;
    let numbers = [e.x0, e.x1, p.a, p.b, p.c, p.d];
    layout::put_slice(f, 13, &numbers[..]);
}

// ---- position and speed

// The nineteen numbers of a road's filter.
fn road_numbers(f: Road) -> [f64; 19]
    ensures { result ≡ filter_numbers (road_of f) }
{
    let Motion { a, b0, b1, q } = f.motion;
    let Sensor { h0, h1, r } = f.sensor;
    let Pair { x0, x1, p } = f.pair;
    [
        a.a, a.b, a.c, a.d, b0, b1, h0, h1, q.a, q.b, q.c, q.d, r, x0, x1, p.a, p.b, p.c, p.d,
    ]
}

// A filter of 19 numbers that tracks position and speed, with the step dt in seconds.
pub fn kalman_position_velocity(
    dt: f64,
    process_noise: f64,
    measurement_noise: f64,
    filter: &mut [f64],
) -> Result<(), Refusal>
    ensures { (result, filter.new) ≡ written filter.old (tracker_in dt process_noise measurement_noise (length filter.old)) }
{
    fits(filter.len() == 19)?;
    let numbers = road_numbers(Road::position_velocity(dt, process_noise, measurement_noise));
    layout::put_slice(filter, 0, &numbers[..]);
    Ok(())
}
