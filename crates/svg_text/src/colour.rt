//! The colours of a picture.
ghost use Rattle.std.specs.Prelude.{◌≡◌, ◌≤◌, length};
ghost use Rattle.svg_text.specs.Shapes.{colour_code};
ghost use Rattle.svg_text.specs.Xml.{escaped};

/// Black, white, grey and red, and colours that colour-blind people tell apart, after Okabe and Ito.
#[derive(Clone, Copy)]
pub enum Colour {
    Black,
    Grey,
    White,
    Red,
    Orange,
    SkyBlue,
    Green,
    Yellow,
    Purple,
}

impl Colour {
    /// The colour in six hexadecimal digits after a `#`.
    pub fn code(self) -> &'static str
        ensures code { result.now ≡ colour_code self }
        ensures plain { escaped result.now ≡ result.now }
        ensures length { length result.now ≤ 7 }
    {
        match self {
            Colour::Black => "#000000",
            Colour::Grey => "#767676",
            Colour::White => "#FFFFFF",
            Colour::Red => "#C00000",
            Colour::Orange => "#E69F00",
            Colour::SkyBlue => "#56B4E9",
            Colour::Green => "#009E73",
            Colour::Yellow => "#F0E442",
            Colour::Purple => "#CC79A7",
        }
    }
}
