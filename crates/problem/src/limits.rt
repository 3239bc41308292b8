ghost use Rattle.std.specs.Prelude.{◌≡◌, ℕ, Bool, Option};
ghost use Rattle.problem.specs.Search.{first_outside, TellsFirstOutside};

// What the elements of a list may be. An element is judged by its place, the element before it and itself.
// (A trait and no closure: what a closure answers is a relation, and the search's contract needs a function of these three.)
pub trait Limits<T> {
    ghost within: { Self → ℕ → Option T → T → Bool };

    fn admits(&self, place: usize, before: Option<T>, item: T) -> bool
        ensures { result ≡ within self.now place before item };
}

// The place of the first element that is outside its limits.
pub fn first_outside<T: Copy, L: Limits<T>>(items: &[T], limits: &L) -> Option<usize>
    ensures value { result ≡ first_outside (L.Limits.within limits.now) items.now }
    ensures first { TellsFirstOutside (L.Limits.within limits.now) items.now result }
{
    first_from_front(items, limits)
}

// The walk from the front, apart from the search, whose contract a wrong call of it then fails by a fact.
fn first_from_front<T: Copy, L: Limits<T>>(items: &[T], limits: &L) -> Option<usize>
    ensures value { result ≡ first_outside (L.Limits.within limits.now) items.now }
    ensures first { TellsFirstOutside (L.Limits.within limits.now) items.now result }
{
    let mut before = None;
    for (place, item) in items.iter().enumerate() {
        if !limits.admits(place, before, *item) {
            return Some(place);
        }
        before = Some(*item);
    }
    None
}
