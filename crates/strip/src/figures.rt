ghost use Rattle.strip.specs.Figures.{Figures};

/// States the worked figures of the definitions; answers nothing.
pub fn figures()
    ensures { Figures }
{}
