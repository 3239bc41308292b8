ghost use Rattle.std.specs.Prelude.{◌≡◌, ◌+◌, ◌^◌, ◌<◌, ◌-ℤ◌, unsigned_abs};
ghost use Rattle.std.specs.Int.{saturate_to_bits};

// What a proposal comes to: twice its primal and twice its dual value.
#[derive(Clone, Copy, PartialEq, Eq, Debug)]
pub struct Verdict {
    pub objective: i64,
    pub bound: i64,
}

impl Verdict {
    // The duality gap: no image is better than this one by more. It is exact for every verdict of the judge;
    // two numbers of any other origin give the end of the range that their difference passes.
    pub fn gap(&self) -> i64
        ensures value { result ≡ saturate_to_bits 63 (self.now.objective -ℤ self.now.bound) }
        ensures exact { unsigned_abs self.now.objective + unsigned_abs self.now.bound < 2 ^ 62 → result ≡ self.now.objective -ℤ self.now.bound }
    {
        self.objective.saturating_sub(self.bound)
    }
}
