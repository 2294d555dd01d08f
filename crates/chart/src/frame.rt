// The frame of the plot: which places and which seconds it shows, and where they stand in the picture, in tenths of a unit.
ghost use Rattle.std.specs.Prelude.{◌≤◌};

pub const LEFT: u32 = 1000;

pub const WIDTH: u32 = 7900;

pub const TOP: u32 = 700;

pub const BOTTOM: u32 = 4500;

// The seconds of 65 of the longest steps.
pub const LONGEST: u32 = 6435;

// The places at the bottom and the top, and the seconds at the right edge.
#[derive(Clone, Copy)]
pub struct Frame {
    pub low: u32,
    pub high: u32,
    pub last: u32,
}

// How far `part` is on the way to `whole`, of `room`.
fn share(part: u32, whole: u32, room: u32) -> u32
    ensures { result ≤ room }
{
    if whole <= part {
        return room;
    }
    let r = u64::from(part) * u64::from(room) / u64::from(whole);
    r.min(u64::from(room)) as u32
}

// Where seconds t stand, of all that the plot shows.
pub fn across(t: u32, last: u32) -> u32
    ensures { result ≤ 8900 }
{
    LEFT + share(t, last, WIDTH)
}

impl Frame {
    // Where a place stands; one outside the frame stands at its edge.
    pub fn down(self, place: u32) -> u32
        ensures { result ≤ 4500 }
    {
        BOTTOM
            - share(
                place.saturating_sub(self.low),
                self.high.saturating_sub(self.low),
                BOTTOM - TOP,
            )
    }
}
