//! What the bars, the numbers on them and the arrows mean.
ghost use Rattle.std.specs.Prelude.{◌≡◌, ◌≤◌, ◌++◌, ◌||◌, OnOk};
ghost use Rattle.std.specs.List.{list_any};
ghost use Rattle.svg_text.specs.Shapes.{shapes_text};
ghost use Rattle.search_picture.specs.Picture as spec;

use crate::parts::{label_at, middle_at, shown};
use crate::requests::{edge_of, fill_of, thickness_of};
use crate::scene::{Arrow, PictureRequest, Role};
use std::alloc::AllocError;
use svg_text::{Block, Colour, put_block, put_label};

/// What occurs among the requests and the arrows that are shown.
#[derive(Clone, Copy)]
pub(crate) struct Marks {
    last: bool,
    against: bool,
    named: bool,
    opens: bool,
    places: bool,
    arrows: bool,
}

fn is_last(role: Role) -> bool
    ensures { result ≡ spec.is_last role }
{
    match role {
        Role::Last => true,
        Role::Against | Role::Named | Role::Other => false,
    }
}

fn is_against(role: Role) -> bool
    ensures { result ≡ spec.is_against role }
{
    match role {
        Role::Against => true,
        Role::Last | Role::Named | Role::Other => false,
    }
}

fn is_named(role: Role) -> bool
    ensures { result ≡ spec.is_named role }
{
    match role {
        Role::Named => true,
        Role::Last | Role::Against | Role::Other => false,
    }
}

/// Both requests of the arrow are shown.
fn is_drawn(requests: &[PictureRequest], arrow: &Arrow) -> bool
    ensures { result ≡ spec.is_drawn requests.now arrow.now }
{
    requests.get(arrow.from).is_some() && requests.get(arrow.to).is_some()
}

fn either(first: bool, second: bool) -> bool
    ensures { result ≡ (first || second) }
{
    first || second
}

/// An arrow is drawn.
fn any_arrow(requests: &[PictureRequest], arrows: &[Arrow]) -> bool
    ensures { result ≡ list_any (spec.is_drawn requests.now) arrows.now }
{
    let mut any = false;
    for arrow in arrows {
        any = either(any, is_drawn(requests, arrow));
    }
    any
}

/// What occurs, with a request more.
fn with_request(marks: Marks, request: &PictureRequest) -> Marks
    ensures { result ≡ spec.with_request marks request.now }
{
    Marks {
        last: either(marks.last, is_last(request.role)),
        against: either(marks.against, is_against(request.role)),
        named: either(marks.named, is_named(request.role)),
        opens: either(marks.opens, request.is_open),
        places: either(marks.places, request.place.is_some()),
        arrows: marks.arrows,
    }
}

/// What occurs among these.
pub(crate) fn marks_of(requests: &[PictureRequest], arrows: &[Arrow]) -> Marks
    ensures { result ≡ spec.marks_of requests.now arrows.now }
{
    let mut marks = Marks {
        last: false,
        against: false,
        named: false,
        opens: false,
        places: false,
        arrows: any_arrow(requests, arrows),
    };
    for request in requests {
        marks = with_request(marks, request);
    }
    marks
}

/// Where the next sign stands, behind one of that width that may be there.
fn behind(there: bool, width: u64, left: u64) -> u64
    requires width { width ≤ 1000 }
    requires left { left ≤ 10000 }
    ensures { result ≡ spec.behind there width left }
{
    if there { left + width } else { left }
}

impl Marks {
    fn second(&self) -> u64
        ensures at { result ≡ spec.second_of self.now }
        ensures range { result ≤ 182 }
    {
        behind(self.last, 172, 10)
    }

    fn third(&self) -> u64
        ensures at { result ≡ spec.third_of self.now }
        ensures range { result ≤ 314 }
    {
        behind(self.against, 132, self.second())
    }

    fn fourth(&self) -> u64
        ensures at { result ≡ spec.fourth_of self.now }
        ensures range { result ≤ 454 }
    {
        behind(self.named, 140, self.third())
    }

    fn fifth(&self) -> u64
        ensures at { result ≡ spec.fifth_of self.now }
        ensures range { result ≤ 690 }
    {
        behind(self.opens, 236, self.fourth())
    }

    fn sixth(&self, count: u64) -> u64
        requires { count ≤ 80 }
        ensures at { result ≡ spec.sixth_of self.now count }
        ensures range { result ≤ 1370 }
    {
        behind(self.places, 40 + 8 * count, self.fifth())
    }

    /// How far the signs reach.
    pub(crate) fn end(&self, count: u64) -> u64
        requires { count ≤ 80 }
        ensures { result ≡ spec.signs_end self.now count }
    {
        self.sixth(count) + if self.arrows { 280 } else { 10 }
    }
}

fn swatch(left: u64, role: Role, is_open: bool) -> Block
    requires { left ≤ 1000 }
    ensures { result ≡ spec.swatch left role is_open }
{
    Block {
        left,
        top: 52,
        right: left + 30,
        bottom: 66,
        fill: fill_of(role),
        edge: edge_of(role),
        thickness: thickness_of(role),
        is_open,
    }
}

/// Adds a small bar and what it means.
#[tactic(auto, unfolding(svg_text::specs::Shapes::shapes_text))]
fn put_sign(
    left: u64,
    role: Role,
    is_open: bool,
    words: &[u8],
    out: &mut Vec<u8>,
) -> Result<(), AllocError>
    requires { left ≤ 1000 }
    ensures { OnOk result (out.new.items ≡ out.old.items ++ shapes_text (spec.sign left role is_open words.now)) }
{
    put_block(&swatch(left, role, is_open), words, out)?;
    put_label(&label_at(left + 36, 64, Colour::Black), words, out)
}

fn place_block(left: u64) -> Block
    requires { left ≤ 1000 }
    ensures { result ≡ spec.place_mark left }
{
    Block {
        left,
        top: 51,
        right: left + 16,
        bottom: 67,
        fill: Colour::White,
        edge: Colour::Black,
        thickness: 1,
        is_open: false,
    }
}

/// Adds a small box with a number, and what that means.
#[tactic(auto, unfolding(svg_text::specs::Shapes::shapes_text))]
fn put_place_sign(left: u64, words: &[u8], out: &mut Vec<u8>) -> Result<(), AllocError>
    requires { left ≤ 1000 }
    ensures { OnOk result (out.new.items ≡ out.old.items ++ shapes_text (spec.place_sign left words.now)) }
{
    put_block(&place_block(left), words, out)?;
    put_label(&middle_at(left + 8, 64, Colour::Black), b"0", out)?;
    put_label(&label_at(left + 22, 64, Colour::Black), words, out)
}

/// Adds what arrows mean.
#[tactic(auto, unfolding(svg_text::specs::Shapes::shapes_text))]
fn put_arrow_sign(left: u64, words: &[u8], out: &mut Vec<u8>) -> Result<(), AllocError>
    ensures { OnOk result (out.new.items ≡ out.old.items ++ shapes_text (spec.arrow_sign left words.now)) }
{
    put_label(&label_at(left, 64, Colour::Red), words, out)
}

#[tactic(auto, unfolding(svg_text::specs::Shapes::shapes_text))]
fn put_last(marks: &Marks, out: &mut Vec<u8>) -> Result<(), AllocError>
    ensures { OnOk result (out.new.items ≡ out.old.items ++ shapes_text (spec.last_signs marks.now)) }
{
    if !marks.last {
        return Ok(());
    }
    put_sign(10, Role::Last, false, b"the last answer", out)
}

#[tactic(auto, unfolding(svg_text::specs::Shapes::shapes_text))]
fn put_against(marks: &Marks, out: &mut Vec<u8>) -> Result<(), AllocError>
    ensures { OnOk result (out.new.items ≡ out.old.items ++ shapes_text (spec.against_signs marks.now)) }
{
    if !marks.against {
        return Ok(());
    }
    put_sign(marks.second(), Role::Against, false, b"against it", out)
}

#[tactic(auto, unfolding(svg_text::specs::Shapes::shapes_text))]
fn put_named(marks: &Marks, out: &mut Vec<u8>) -> Result<(), AllocError>
    ensures { OnOk result (out.new.items ≡ out.old.items ++ shapes_text (spec.named_signs marks.now)) }
{
    if !marks.named {
        return Ok(());
    }
    put_sign(marks.third(), Role::Named, false, b"named below", out)
}

#[tactic(auto, unfolding(svg_text::specs::Shapes::shapes_text))]
fn put_open(marks: &Marks, out: &mut Vec<u8>) -> Result<(), AllocError>
    ensures { OnOk result (out.new.items ≡ out.old.items ++ shapes_text (spec.open_signs marks.now)) }
{
    if !marks.opens {
        return Ok(());
    }
    put_sign(
        marks.fourth(),
        Role::Other,
        true,
        b"posted, or not answered",
        out,
    )
}

#[tactic(auto, unfolding(svg_text::specs::Shapes::shapes_text))]
fn put_places(marks: &Marks, words: &[u8], out: &mut Vec<u8>) -> Result<(), AllocError>
    ensures { OnOk result (out.new.items ≡ out.old.items ++ shapes_text (spec.places_signs marks.now words.now)) }
{
    if !marks.places {
        return Ok(());
    }
    put_place_sign(marks.fifth(), words, out)
}

#[tactic(auto, unfolding(svg_text::specs::Shapes::shapes_text))]
fn put_arrow(marks: &Marks, left: u64, out: &mut Vec<u8>) -> Result<(), AllocError>
    ensures { OnOk result (out.new.items ≡ out.old.items ++ shapes_text (spec.arrows_signs marks.now left)) }
{
    if !marks.arrows {
        return Ok(());
    }
    put_arrow_sign(left, b"an arrow leads to what acts later", out)
}

/// Adds what is there of the bars, the numbers on them and the arrows, and what it means.
pub(crate) fn put_signs(marks: &Marks, words: &[u8], out: &mut Vec<u8>) -> Result<(), AllocError>
    ensures { OnOk result (out.new.items ≡ out.old.items ++ shapes_text (spec.signs marks.now words.now)) }
{
    let words = shown(80, words);
    put_last(marks, out)?;
    put_against(marks, out)?;
    put_named(marks, out)?;
    put_open(marks, out)?;
    put_places(marks, words, out)?;
    put_arrow(marks, marks.sixth(words.len() as u64), out)?;
    Ok(())
}
