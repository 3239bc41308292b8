#![tactic(auto)]

ghost use Rattle.std.specs.Prelude.{◌≡◌, Some};
ghost use Rattle.refusals.specs.declared.Refusal.TheVariants.{OutOfMemory};
ghost use Rattle.refusals.specs.Telling.{number_of, place_of, words_of, told, same};
ghost use Rattle.refusals.specs.Laws.{same_laws, same_itself};

use std::alloc::AllocError;
use std::error::Error;
use std::fmt;

// Why a call answers nothing. Each case has its number and its place; a refused call has changed nothing.
#[derive(Clone, Copy)]
pub enum Refusal {
    OutOfMemory,
    Size,
    Density,
    Strength,
    Rays,
    Starts(usize),
    Entry(usize),
    Reading(usize),
    Cap,
    Pixels,
    Length(usize),
    Pixel(usize),
    RayNumber(usize),
    Slope(usize),
    Empty,
    Setting,
    Mark,
}

impl Refusal {
    // The refusal's number, as scripts read it: 0 for want of memory, else 1 to 16.
    pub fn number(&self) -> u8
        ensures { result ≡ number_of self.now }
    {
        match self {
            Refusal::OutOfMemory => 0,
            Refusal::Size => 1,
            Refusal::Density => 2,
            Refusal::Strength => 3,
            Refusal::Rays => 4,
            Refusal::Starts(_) => 5,
            Refusal::Entry(_) => 6,
            Refusal::Reading(_) => 7,
            Refusal::Cap => 8,
            Refusal::Pixels => 9,
            Refusal::Length(_) => 10,
            Refusal::Pixel(_) => 11,
            Refusal::RayNumber(_) => 12,
            Refusal::Slope(_) => 13,
            Refusal::Empty => 14,
            Refusal::Setting => 15,
            Refusal::Mark => 16,
        }
    }

    // Where the fault is, as scripts read it, counted from 0; 0 where the refusal tells no place.
    pub fn place(&self) -> usize
        ensures value { result ≡ place_of self.now }
        ensures compared { (e : Refusal) → ⟦<Refusal as PartialEq>⟧.eq e self.now ≡ same e self.now }
    {
        match self {
            Refusal::Starts(place)
            | Refusal::Entry(place)
            | Refusal::Reading(place)
            | Refusal::Length(place)
            | Refusal::Pixel(place)
            | Refusal::RayNumber(place)
            | Refusal::Slope(place) => *place,
            _ => 0,
        }
    }

    // What is wrong, in words.
    fn words(&self) -> &'static str
        ensures { result.now ≡ words_of self.now }
    {
        match self {
            Refusal::OutOfMemory => "memory: no memory is left for what was asked",
            Refusal::Size => "size: columns and rows are 1 to 48 each",
            Refusal::Density => "density: lowest is at most highest, and highest at most 1023",
            Refusal::Strength => "strength: at most 1048576",
            Refusal::Rays => "rays: more than 4096 rays, or the wrong number of readings",
            Refusal::Starts(_) => "starts: this start breaks a rule, or their number does",
            Refusal::Entry(_) => "entry: pixel, weight or rise is wrong",
            Refusal::Reading(_) => "reading: above 4194303",
            Refusal::Cap => "cap: a cap of the layer would pass the law of scans",
            Refusal::Pixels => "pixels: the numbers of pixels differ",
            Refusal::Length(_) => "length: this list has the wrong length",
            Refusal::Pixel(_) => "pixel: outside the density limits",
            Refusal::RayNumber(_) => "ray number: not admitted by the misfit",
            Refusal::Slope(_) => "slope: above the strength in size, or not 0 where the slice ends",
            Refusal::Empty => "empty: nothing is accepted yet",
            Refusal::Setting => "setting: tolerance, slope or step number outside its range",
            Refusal::Mark => "mark: there is no such ray to blank",
        }
    }
}

impl fmt::Display for Refusal {
    ghost output = { λ e. Some (told e) };

    fn fmt<W: fmt::Write>(&self, f: &mut fmt::Formatter<W>) -> fmt::Result {
        let number = self.number();
        let place = self.place();
        let words = self.words();
        write!(f, "refused {number} at {place}, {words}")
    }
}

impl From<AllocError> for Refusal {
    ghost from_gives = { λ _ r. r ≡ OutOfMemory };

    fn from(_: AllocError) -> Refusal {
        Refusal::OutOfMemory
    }
}

impl Error for Refusal {}

// A refusal is known by its number and its place. (By hand: a derived comparison goes by a jump for each case, and takes
// longer.)
impl PartialEq for Refusal {
    ghost eq = { λ x y. same x y };

    ghost laws = { same_laws };

    fn eq(&self, other: &Refusal) -> bool {
        self.number() == other.number() && self.place() == other.place()
    }
}

impl Eq for Refusal {
    ghost laws = { same_itself };
}

// The debug text is the line that a person reads. (By hand: a derived one would be the case.)
impl fmt::Debug for Refusal {
    fn fmt<W: fmt::Write>(&self, f: &mut fmt::Formatter<W>) -> fmt::Result {
        write!(f, "{self}")
    }
}
