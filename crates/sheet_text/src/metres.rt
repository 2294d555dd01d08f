// A position as whole metres.
ghost use Rattle.std.specs.Prelude.{◌≡◌};
ghost use Rattle.sheets.specs.Metres.{metres_of};

use std::num::{nearest_i64_to_f64, truncating_f64_to_i64};

// A position rounded down to whole metres, where it is a number and they are within limits.
pub fn whole_metres(x: f64) -> Option<i64>
    ensures { result ≡ metres_of x }
{
    if x >= -9999999.0 && x < 10000000.0 {
        let whole = truncating_f64_to_i64(x);
        Some(if x < nearest_i64_to_f64(whole) {
            whole - 1
        } else {
            whole
        })
    } else {
        None
    }
}
