ghost use Rattle.std.specs.Prelude.{◌≡◌};
ghost use Rattle.problem.specs.Fitting.{has_difference, slope_limit};
ghost use Rattle.judge.specs.Judging.{density_within, number_within, slope_within};

use problem::limits::Limits;
use problem::settings::Settings;

// The pixels of an image: from lowest to highest.
#[derive(Clone, Copy)]
pub struct Densities {
    pub settings: Settings,
}

impl Limits<u16> for Densities {
    ghost within = { λ l. density_within l.settings };

    fn admits(&self, place: usize, before: Option<u16>, item: u16) -> bool
        ensures { result ≡ density_within self.now.settings place before item }
    {
        (self.settings.lowest..=self.settings.highest).contains(&item)
    }
}

// Ray numbers: at most the misfit's end in size.
#[derive(Clone, Copy)]
pub struct RayNumbers {
    pub end: u32,
}

impl Limits<i32> for RayNumbers {
    ghost within = { λ l. number_within l.end };

    fn admits(&self, place: usize, before: Option<i32>, item: i32) -> bool
        ensures { result ≡ number_within self.now.end place before item }
    {
        item.unsigned_abs() <= self.end
    }
}

// Slopes: at most the strength in size, and 0 where the slice ends.
#[derive(Clone, Copy)]
pub struct Slopes {
    pub settings: Settings,
}

impl Limits<i32> for Slopes {
    ghost within = { λ l. slope_within l.settings };

    fn admits(&self, place: usize, before: Option<i32>, item: i32) -> bool
        ensures { result ≡ slope_within self.now.settings place before item }
    {
        item.unsigned_abs() <= slope_limit(&self.settings, place)
    }
}

// Whether the slope at this place belongs to a difference, or stands where the slice ends.
fn has_difference(settings: &Settings, place: usize) -> bool
    ensures { result ≡ has_difference settings.now place }
{
    let j = place / 2;
    if place % 2 == 0 {
        j % settings.columns + 1 < settings.columns
    } else {
        j / settings.columns + 1 < settings.rows
    }
}

// The largest size of the slope at this place.
fn slope_limit(settings: &Settings, place: usize) -> u32
    ensures { result ≡ slope_limit settings.now place }
{
    if has_difference(settings, place) {
        settings.strength
    } else {
        0
    }
}
