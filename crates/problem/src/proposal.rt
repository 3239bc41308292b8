// An image with its dual numbers: a density for each pixel, a number for each ray and two slopes for each pixel.
#[derive(Clone, Copy)]
pub struct Proposal<'a> {
    pub image: &'a [u16],
    pub ray_numbers: &'a [i32],
    pub slopes: &'a [i32],
}
