// What the demands share: cut positions brought into a text; and laws of texts and answers compared.
#![tactic(auto)]

ghost use Rattle.std.specs.Prelude.{◌≡◌};
ghost use Rattle.demand_shared.specs.Cuts.{bring};

// A cut position, any number, is brought between the previous one and the end.
pub fn bring(cut: usize, from: usize, end: usize) -> usize
    ensures { result ≡ bring cut from end }
{
    if cut < from {
        return from;
    }
    if end < cut {
        return end;
    }
    cut
}
