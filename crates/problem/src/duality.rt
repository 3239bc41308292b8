// The problem of total variation in whole numbers: its objective, its bound, its Lagrangian, and the theorem that ties them.
ghost use Rattle.problem.specs.Saddle.{SaddleTheorem};

// The saddle theorem, of every problem whose scan and misfit keep their laws.
pub fn saddle_theorem()
    ensures { SaddleTheorem }
{}
