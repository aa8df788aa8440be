//! What is marked, and how marks look.
ghost use Rattle.std.specs.Prelude.{◌≡◌};
ghost use Rattle.history_bars.specs.Marks as spec;
ghost use Rattle.history_bars.specs.Said.{is_flawed};

use crate::scale::Scale;
use seq_memory::Reply;
use svg_text::{Colour, Label};

/// The points that are shown, the request that the first flaw names, and the reply that is expected there.
#[derive(Drop)]
pub struct View {
    pub scale: Scale,
    /// There are more points, and which are shown was not chosen.
    pub is_cut: bool,
    pub flawed: Option<(u8, u32)>,
    pub expected: Option<Reply>,
}

impl View {
    pub fn is_flawed(&self, requester: u8, number: u32) -> bool
        ensures { result ≡ is_flawed self.now.flawed requester number }
    {
        match self.flawed {
            None => false,
            Some(flawed) => flawed.0 == requester && flawed.1 == number,
        }
    }
}

pub fn edge_of(is_flawed: bool) -> Colour
    ensures { result ≡ spec.edge_of is_flawed }
{
    if is_flawed {
        Colour::Red
    } else {
        Colour::Black
    }
}

pub fn thickness_of(is_flawed: bool) -> u64
    ensures { result ≡ spec.thickness_of is_flawed }
{
    if is_flawed { 3 } else { 1 }
}

pub fn label_at(x: u64, y: u64, colour: Colour) -> Label
    ensures { result ≡ spec.label_at x y colour }
{
    Label {
        x,
        y,
        size: 12,
        colour,
        is_centred: false,
    }
}

pub fn plain_label(x: u64, y: u64) -> Label
    ensures { result ≡ spec.plain_label x y }
{
    label_at(x, y, Colour::Black)
}

pub fn centred_label(x: u64, y: u64, colour: Colour) -> Label
    ensures { result ≡ spec.centred_label x y colour }
{
    Label {
        x,
        y,
        size: 12,
        colour,
        is_centred: true,
    }
}
