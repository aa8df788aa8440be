//! What occurs among shapes, as far as a legend says what it means.
ghost use Rattle.std.specs.Prelude.{◌≡◌, ◌||◌, []};
ghost use Rattle.history_bars.specs.Signs as spec;

use svg_text::Colour;

/// The kinds of operations of which there is a bar or an entry, and whether there are dots and open bars.
#[derive(Clone, Copy)]
pub struct Signs {
    pub reads: bool,
    pub writes: bool,
    pub adds: bool,
    pub swaps: bool,
    pub cas: bool,
    pub dots: bool,
    pub opens: bool,
}

fn either(first: bool, second: bool) -> bool
    ensures { result ≡ (first || second) }
{
    first || second
}

impl Signs {
    /// Nothing occurs.
    #[tactic(auto, unfolding(crate::specs::Signs::signs_of))]
    pub fn none() -> Signs
        ensures { result ≡ spec.signs_of [] }
    {
        Signs {
            reads: false,
            writes: false,
            adds: false,
            swaps: false,
            cas: false,
            dots: false,
            opens: false,
        }
    }

    /// What occurs with a bar or an entry of that colour, and its dot, if that is shown.
    #[tactic(auto, unfolding(crate::specs::Signs::bar_signs))]
    pub fn of_bar(fill: Colour, is_open: bool, dot: Option<u64>) -> Signs
        ensures { result ≡ spec.bar_signs fill is_open dot }
    {
        Signs {
            reads: matches!(fill, Colour::SkyBlue),
            writes: matches!(fill, Colour::Orange),
            adds: matches!(fill, Colour::Green),
            swaps: matches!(fill, Colour::Yellow),
            cas: matches!(fill, Colour::Purple),
            dots: dot.is_some(),
            opens: is_open,
        }
    }

    /// What occurs here or there.
    #[tactic(auto, unfolding(crate::specs::Signs::joined))]
    pub fn joined(self, other: Signs) -> Signs
        ensures { result ≡ spec.joined self other }
    {
        Signs {
            reads: either(self.reads, other.reads),
            writes: either(self.writes, other.writes),
            adds: either(self.adds, other.adds),
            swaps: either(self.swaps, other.swaps),
            cas: either(self.cas, other.cas),
            dots: either(self.dots, other.dots),
            opens: either(self.opens, other.opens),
        }
    }
}
