ghost use Rattle.std.specs.Prelude.{◌≡◌, ◌<◌, IfSome};
ghost use Rattle.problem.specs.Setting.{pixel_count};
ghost use Rattle.judge.specs.Neighbours.{pixel_right, pixel_below, pixel_left, pixel_above};

use problem::settings::Settings;

// Four tests and four offsets; with `then` in place of `if` two of them leave a goal open. Each asks that j is a pixel: a type for
// that would have to say of which settings, and be proved theirs at each call.

// The pixel to the right of pixel j, if there is one.
pub(crate) fn right_of(settings: &Settings, j: usize) -> Option<usize>
    requires { j < pixel_count settings.now }
    ensures value { result ≡ pixel_right settings.now j }
    ensures inside { IfSome result (λ k. k < pixel_count settings.now) }
{
    if j % settings.columns + 1 < settings.columns {
        Some(j + 1)
    } else {
        None
    }
}

// The pixel below pixel j, if there is one.
pub(crate) fn below(settings: &Settings, j: usize) -> Option<usize>
    requires { j < pixel_count settings.now }
    ensures value { result ≡ pixel_below settings.now j }
    ensures inside { IfSome result (λ k. k < pixel_count settings.now) }
{
    if j / settings.columns + 1 < settings.rows {
        Some(j + settings.columns)
    } else {
        None
    }
}

// The pixel to the left of pixel j, if there is one.
pub(crate) fn left_of(settings: &Settings, j: usize) -> Option<usize>
    requires { j < pixel_count settings.now }
    ensures value { result ≡ pixel_left settings.now j }
    ensures inside { IfSome result (λ k. k < pixel_count settings.now) }
{
    if 0 < j % settings.columns {
        Some(j - 1)
    } else {
        None
    }
}

// The pixel above pixel j, if there is one.
pub(crate) fn above(settings: &Settings, j: usize) -> Option<usize>
    requires { j < pixel_count settings.now }
    ensures value { result ≡ pixel_above settings.now j }
    ensures inside { IfSome result (λ k. k < pixel_count settings.now) }
{
    if 0 < j / settings.columns {
        Some(j - settings.columns)
    } else {
        None
    }
}
