// `fuse_sensors` of src/estimator/information_filter.rs on slices that the caller lends: one sensor, or any number of them in one
// slice, added to a filter that is laid out as in c_information. Refused: a size, or a slice of another length.
#![tactic(auto)]

ghost use Rattle.std.specs.Prelude.{◌≡◌, [], ◌∷◌, ◌+◌, ◌*◌, ◌≤◌, length};
ghost use Rattle.answer.specs.Answer.{where_sized};
ghost use Rattle.sizes.specs.Size.{count};
ghost use Rattle.filtering.specs.Information.{fuse};
ghost use Rattle.information_steps.specs.Step.{information_rows, arrays_of};
ghost use Rattle.c_copies.specs.Filter.{is_step, places_of};
ghost use Rattle.c_fusion.specs.Fusion.{is_sensor, reading_length, sensor_places, reading_at, fuse_in, fuse_all_in};

use answer::Refusal;
use c_copies::{Full, Places, step};
use sizes::{Size, fits};

// ---- one sensor

// The places of a filter of len numbers, where slices of the other lengths are just a sensor beside it.
#[tactic(auto, unfolding(crate::specs::Fusion::is_sensor))]
#[inline(always)]
fn with_sensor(
    n: usize,
    m: usize,
    i: usize,
    len: usize,
    h: usize,
    w: usize,
    z: usize,
) -> Result<Places, Refusal>
    ensures { result ≡ where_sized (is_sensor n m i len h w z) (places_of n m i) }
{
    let at = step::<Full>(n, m, i, len, m, z)?;
    fits((h == at.q - at.h) & (w == at.x - at.r))?;
    Ok(at)
}

// One sensor's addition: h (m by n), its inverted noise r_inv (m by m), and what it measured, z (m).
pub fn information_fuse_sensor(
    n: usize,
    m: usize,
    i: usize,
    filter: &mut [f64],
    h: &[f64],
    r_inv: &[f64],
    z: &[f64],
) -> Result<(), Refusal>
    ensures { (result, filter.new) ≡ fuse_in n m i filter.old h.now r_inv.now z.now }
{
    let at = with_sensor(n, m, i, filter.len(), h.len(), r_inv.len(), z.len())?;
    let hm = layout::matrix_at(h, 0, at.m, at.n);
    let w = layout::matrix_at(r_inv, 0, at.m, at.m);
    let v = layout::vector_at(z, 0, at.m);
    let mut xi = layout::vector_at(filter, at.x, at.n);
    let mut omega = layout::matrix_at(filter, at.p, at.n, at.n);
    information_steps::inform(&hm, &w, &v, at.n, at.m, &mut omega, &mut xi);
    layout::put_pair(filter, at.x, xi, &omega, at.n);
    Ok(())
}

// ---- any number of sensors, one after another in a slice: h (m by n), its inverted noise (m by m), and what it measured (m)

// Where a sensor's inverted noise and what it measured begin, h at 0, and how many numbers it takes.
#[derive(Clone, Copy)]
struct SensorPlaces {
    w: usize,
    z: usize,
    len: usize,
}

fn sensor_places(n: Size, m: Size) -> SensorPlaces
    ensures { result ≡ sensor_places (count n) (count m) }
{
    let rows = usize::from(m);
    let w = rows * usize::from(n);
    let z = w + rows * rows;
    SensorPlaces {
        w,
        z,
        len: z + rows,
    }
}

// The places of a filter of len numbers, where a slice of k numbers is just count sensors beside it. By division, since the
// product may not fit.
#[tactic(auto, unfolding(c_copies::specs::Filter::is_step_by))]
#[inline(always)]
fn with_sensors(
    n: usize,
    m: usize,
    i: usize,
    len: usize,
    count: usize,
    k: usize,
) -> Result<Places, Refusal>
    ensures { result ≡ where_sized (is_step n m i len (count * reading_length n m) k) (places_of n m i) }
{
    let at = c_copies::filter::<Full>(n, m, i, len)?;
    let each = sensor_places(at.n, at.m).len;
    fits((k / each == count) & (k % each == 0))?;
    Ok(at)
}

// Sensor j is added. Its three parts stand at places that j gives: chunks of the slice would have the same places within.
fn inform_by(
    sensors: &[f64],
    j: usize,
    n: Size,
    m: Size,
    omega: &mut [[f64; 4]; 4],
    xi: &mut [f64; 4],
)
    requires { j * reading_length (count n) (count m) + reading_length (count n) (count m) ≤ length sensors.now }
    ensures { (omega.new, xi.new)
        ≡ arrays_of (fuse (count n) (count m) (reading_at (count n) (count m) sensors.now j ∷ [])
        (information_rows n omega.old xi.old)) }
{
    let within = sensor_places(n, m);
    let at = j * within.len;
    let h = layout::matrix_at(sensors, at, m, n);
    let w = layout::matrix_at(sensors, at + within.w, m, m);
    let z = layout::vector_at(sensors, at + within.z, m);
    information_steps::inform(&h, &w, &z, n, m, omega, xi);
}

// Every sensor's addition, one after another; none leaves the filter's numbers as they were.
pub fn information_fuse_sensors(
    n: usize,
    m: usize,
    i: usize,
    filter: &mut [f64],
    count: usize,
    sensors: &[f64],
) -> Result<(), Refusal>
    ensures { (result, filter.new) ≡ fuse_all_in n m i filter.old count sensors.now }
{
    let at = with_sensors(n, m, i, filter.len(), count, sensors.len())?;
    let mut xi = layout::vector_at(filter, at.x, at.n);
    let mut omega = layout::matrix_at(filter, at.p, at.n, at.n);
    // Sensor j is three parts at places that j says.
    for j in 0..count {
        inform_by(sensors, j, at.n, at.m, &mut omega, &mut xi);
    }
    layout::put_pair(filter, at.x, xi, &omega, at.n);
    Ok(())
}
