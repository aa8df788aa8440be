//! The bars of requests.
ghost use Rattle.std.specs.Prelude.{◌≡◌, ◌≤◌, ◌++◌, [], Some, IfSome, OnOk};
ghost use Rattle.std.specs.Ordering.{nat_cmp};
ghost use Rattle.std.specs.BTreeMap.{get};
ghost use Rattle.svg_text.specs.Shapes.{shapes_text};
ghost use Rattle.history_bars.specs.Layout as layout;
ghost use Rattle.history_bars.specs.Bars as spec;
ghost use Rattle.history_bars.specs.Signs.{signs_of, joined, bar_signs};
ghost use Rattle.history_bars.specs.Words.{dot_words, kind_colour as colour_of};

use crate::bar_texts::Texts;
use crate::bars::{Bar, bar_of, dot_at, put_end, row_for, taken, text_x, white_from};
use crate::marks::{View, edge_of, label_at, thickness_of};
use crate::scale::{Scale, x_at};
use crate::signs::Signs;
use crate::words::{Request, answer_at, kind_colour, moment_of, put_dot_words, put_tooltip};
use arrayvec::ArrayString;
use history_words::Record;
use std::alloc::{AllocError, Global};
use std::collections::BTreeMap;
use svg_text::{Block, Colour, Dot, put_block, put_dot, put_label};
use tlp_core::Op;

/// What the bars of a requester are drawn of.
#[derive(Clone, Copy)]
pub struct Row<'a> {
    pub view: &'a View,
    pub records: &'a [Record],
    /// By the numbers of its requests, how long the history was once each had acted.
    pub acted: &'a BTreeMap<u32, u64>,
    /// By the same, the place of the first answer to each.
    pub answers: &'a BTreeMap<u32, u64>,
    pub requester: u8,
    /// Where its first sub-row begins, in pixels from the top.
    pub top: u64,
}

/// What is drawn so far, and room for words.
#[derive(Drop)]
pub struct Drawing {
    /// By sub-rows of the requester, the point where what is drawn there has ended.
    pub ends: Vec<u64>,
    texts: Texts,
    title: Vec<u8>,
    /// What occurs among the shapes.
    pub signs: Signs,
    pub out: Vec<u8>,
}

impl Drawing {
    pub fn new(alloc: Global) -> Drawing
        ensures ends { result.ends.items ≡ [] }
        ensures out { result.out.items ≡ [] }
        ensures signs { result.signs ≡ signs_of [] }
    {
        Drawing {
            ends: Vec::new(alloc),
            texts: Texts::new(alloc),
            title: Vec::new(alloc),
            signs: Signs::none(),
            out: Vec::new(alloc),
        }
    }
}

/// A request, and what it asks for.
#[derive(Clone, Copy)]
struct Asked<'a> {
    op: &'a Op,
    request: Request,
}

/// The block of a bar whose sub-row begins so many pixels from the top.
fn bar_block(top: u64, is_flawed: bool, op: &Op, bar: Bar) -> Block
    requires start { bar.start ≤ 4294967295 }
    requires end { bar.end ≤ 4294967296 }
    requires top { top ≤ 1000000 }
    ensures { result ≡ spec.bar_block top is_flawed op.now bar }
{
    Block {
        left: x_at(bar.start) + 1,
        top,
        right: x_at(bar.end) - 1,
        bottom: top + 34,
        fill: kind_colour(op),
        edge: edge_of(is_flawed),
        thickness: thickness_of(is_flawed),
        is_open: bar.is_open,
    }
}

/// The white behind texts of so many characters.
fn white_block(x: u64, top: u64, bottom: u64, count: u64) -> Block
    requires least { 125 ≤ x }
    requires most { x ≤ 500000000000 }
    requires count { count ≤ 80 }
    ensures { result ≡ spec.white_block x top bottom count }
{
    Block {
        left: x - 2,
        top,
        right: x + 8 * count,
        bottom,
        fill: Colour::White,
        edge: Colour::White,
        thickness: 0,
        is_open: false,
    }
}

/// Adds the white behind the texts of a bar, if there is any.
#[tactic(auto, unfolding(svg_text::specs::Shapes::shapes_text))]
fn put_white(texts: &Texts, bar: Bar, top: u64, out: &mut Vec<u8>) -> Result<(), AllocError>
    requires start { bar.start ≤ 4294967295 }
    requires end { bar.end ≤ 4294967296 }
    requires top { top ≤ 1000000 }
    ensures { OnOk result (out.new.items ≡ out.old.items ++ shapes_text (spec.white_shapes texts.now bar top)) }
{
    let count = texts.count();
    match white_from(bar, count, texts.is_wrong) {
        None => Ok(()),
        Some(from) => {
            let white = white_block(text_x(bar, count), top + from, top + 32, count);
            put_block(&white, b"", out)
        }
    }
}

/// Adds what was asked and what was answered, in the bar or behind it.
#[tactic(auto, unfolding(svg_text::specs::Shapes::shapes_text))]
fn put_said(texts: &Texts, bar: Bar, top: u64, out: &mut Vec<u8>) -> Result<(), AllocError>
    requires start { bar.start ≤ 4294967295 }
    requires end { bar.end ≤ 4294967296 }
    requires top { top ≤ 1000000 }
    ensures { OnOk result (out.new.items ≡ out.old.items ++ shapes_text (spec.said_shapes texts.now bar top)) }
{
    let x = text_x(bar, texts.count());
    let place = label_at(x, top + 14, Colour::Black);
    put_label(&place, texts.asked.as_slice(), out)?;
    let place = label_at(x, top + 28, edge_of(texts.is_wrong));
    put_label(&place, texts.answered.as_slice(), out)
}

/// Adds what is said at a bar.
fn put_texts(texts: &Texts, bar: Bar, top: u64, out: &mut Vec<u8>) -> Result<(), AllocError>
    requires start { bar.start ≤ 4294967295 }
    requires end { bar.end ≤ 4294967296 }
    requires top { top ≤ 1000000 }
    ensures { OnOk result (out.new.items ≡ out.old.items ++ shapes_text (spec.text_shapes texts.now bar top)) }
{
    put_white(texts, bar, top, out)?;
    put_said(texts, bar, top, out)?;
    Ok(())
}

/// Adds a dot with its title, if it is shown.
#[tactic(auto, unfolding(svg_text::specs::Shapes::shapes_text))]
fn put_dot_at(
    offset: Option<u64>,
    top: u64,
    words: &[u8],
    out: &mut Vec<u8>,
) -> Result<(), AllocError>
    requires offset { IfSome offset (λ o. o ≤ 4294967295) }
    requires top { top ≤ 1000000 }
    ensures { OnOk result (out.new.items ≡ out.old.items ++ shapes_text (spec.dot_shapes offset top words.now)) }
{
    match offset {
        None => Ok(()),
        Some(offset) => {
            let dot = Dot {
                x: x_at(offset) - 48,
                y: top + 34,
            };
            put_dot(&dot, words, out)
        }
    }
}

/// Adds the dot of a request, if it is shown.
fn put_dot_of(
    scale: Scale,
    request: &Request,
    top: u64,
    out: &mut Vec<u8>,
) -> Result<(), AllocError>
    requires { top ≤ 1000000 }
    ensures { OnOk result (out.new.items ≡ out.old.items ++ shapes_text (spec.dot_shapes (layout.dot_at scale request.now.acted) top (dot_words request.now))) }
{
    let mut text = ArrayString::new();
    put_dot_words(request, &mut text);
    put_dot_at(dot_at(scale, request.acted), top, text.as_bytes(), out)
}

/// What occurs with a bar and its dot more.
fn with_bar(signs: Signs, scale: Scale, asked: &Asked<'_>, bar: Bar) -> Signs
    ensures { result ≡ joined signs (bar_signs (colour_of asked.now.op.now) bar.is_open (layout.dot_at scale asked.now.request.acted)) }
{
    let dot = dot_at(scale, asked.request.acted);
    signs.joined(Signs::of_bar(kind_colour(asked.op), bar.is_open, dot))
}

impl Drawing {
    /// Adds the block of a bar.
    #[tactic(auto, unfolding(svg_text::specs::Shapes::shapes_text))]
    fn put_block(
        &mut self,
        row: Row<'_>,
        asked: &Asked<'_>,
        bar: Bar,
        top: u64,
    ) -> Result<(), AllocError>
        requires start { bar.start ≤ 4294967295 }
        requires end { bar.end ≤ 4294967296 }
        requires top { top ≤ 1000000 }
        ensures shapes { OnOk result (self.new.out.items ≡ self.old.out.items
            ++ shapes_text (spec.block_shapes row.entry.view.now row.entry.records.now asked.now.op.now asked.now.request bar top)) }
        ensures ends { self.new.ends.items ≡ self.old.ends.items }
        ensures texts { self.new.texts ≡ self.old.texts }
        ensures signs { self.new.signs ≡ self.old.signs }
    {
        let Asked { op, request } = asked;
        self.title.clear();
        put_tooltip(row.records, op, request, &mut self.title)?;
        let is_flawed = row.view.is_flawed(request.requester, request.number);
        put_block(
            &bar_block(top, is_flawed, op, bar),
            self.title.as_slice(),
            &mut self.out,
        )
    }

    /// Adds a bar, what is said at it and its dot, in a sub-row that begins so many pixels from the top.
    fn put_bar(
        &mut self,
        row: Row<'_>,
        asked: &Asked<'_>,
        bar: Bar,
        top: u64,
    ) -> Result<(), AllocError>
        requires start { bar.start ≤ 4294967295 }
        requires end { bar.end ≤ 4294967296 }
        requires top { top ≤ 1000000 }
        ensures shapes { OnOk result (self.new.out.items ≡ self.old.out.items
            ++ shapes_text (spec.bar_shapes row.entry.view.now row.entry.records.now asked.now.op.now asked.now.request self.old.texts bar top)) }
        ensures signs { OnOk result (self.new.signs ≡ joined self.old.signs
            (signs_of (spec.bar_shapes row.entry.view.now row.entry.records.now asked.now.op.now asked.now.request self.old.texts bar top))) }
        ensures ends { self.new.ends.items ≡ self.old.ends.items }
    {
        self.signs = with_bar(self.signs, row.view.scale, asked, bar);
        self.put_block(row, asked, bar, top)?;
        put_texts(&self.texts, bar, top, &mut self.out)?;
        put_dot_of(row.view.scale, &asked.request, top, &mut self.out)?;
        Ok(())
    }

    /// Adds the bar of a request in the first sub-row that is free.
    fn put_shown(&mut self, row: Row<'_>, asked: &Asked<'_>, bar: Bar) -> Result<(), AllocError>
        requires start { bar.start ≤ 4294967295 }
        requires end { bar.end ≤ 4294967296 }
        requires top { row.top ≤ 900000 }
        ensures shapes { OnOk result (self.new.out.items ≡ self.old.out.items
            ++ shapes_text (spec.placed_shapes row.entry.view.now row.entry.records.now asked.now.op.now asked.now.request row.entry.top
            self.old.ends.items (Some bar))) }
        ensures signs { OnOk result (self.new.signs ≡ joined self.old.signs
            (signs_of (spec.placed_shapes row.entry.view.now row.entry.records.now asked.now.op.now asked.now.request row.entry.top
            self.old.ends.items (Some bar)))) }
        ensures ends { OnOk result (self.new.ends.items
            ≡ spec.placed_ends row.entry.view.now row.entry.records.now asked.now.op.now asked.now.request self.old.ends.items (Some bar)) }
    {
        let Asked { op, request } = asked;
        self.texts.tell(row.view, row.records, op, request)?;
        let place = row_for(&self.ends, bar.start);
        put_end(&mut self.ends, place, taken(bar, self.texts.count()))?;
        self.put_bar(row, asked, bar, row.top + 40 * place as u64)
    }

    /// Adds the bar of a request, if any of it is shown.
    #[tactic(auto, unfolding(svg_text::specs::Shapes::shapes_text), using(crate::proofs::Occurring::nothing_more))]
    fn put_request(&mut self, row: Row<'_>, asked: &Asked<'_>) -> Result<(), AllocError>
        requires { row.top ≤ 900000 }
        ensures shapes { OnOk result (self.new.out.items ≡ self.old.out.items
            ++ shapes_text (spec.placed_shapes row.entry.view.now row.entry.records.now asked.now.op.now asked.now.request row.entry.top
            self.old.ends.items (spec.bar_for row.entry.view.now row.entry.records.now asked.now.op.now asked.now.request))) }
        ensures signs { OnOk result (self.new.signs ≡ joined self.old.signs
            (signs_of (spec.placed_shapes row.entry.view.now row.entry.records.now asked.now.op.now asked.now.request row.entry.top
            self.old.ends.items (spec.bar_for row.entry.view.now row.entry.records.now asked.now.op.now asked.now.request)))) }
        ensures ends { OnOk result (self.new.ends.items
            ≡ spec.placed_ends row.entry.view.now row.entry.records.now asked.now.op.now asked.now.request self.old.ends.items
            (spec.bar_for row.entry.view.now row.entry.records.now asked.now.op.now asked.now.request)) }
    {
        let Asked { op, request } = asked;
        let answered = moment_of(answer_at(row.records, request.answer));
        let bar = bar_of(
            row.view.scale,
            op.is_posted(),
            request.n,
            answered,
            request.acted,
        );
        match bar {
            None => Ok(()),
            Some(bar) => self.put_shown(row, asked, bar),
        }
    }

    /// Adds the bar of a record, if it is a submission of the requester.
    #[tactic(auto, unfolding(svg_text::specs::Shapes::shapes_text), using(crate::proofs::Occurring::nothing_more))]
    fn put_record(&mut self, row: Row<'_>, seen: &Record) -> Result<(), AllocError>
        requires { row.top ≤ 900000 }
        ensures shapes { OnOk result (self.new.out.items ≡ self.old.out.items
            ++ shapes_text (spec.record_shapes row.entry.view.now row.entry.records.now (get nat_cmp row.entry.acted.now)
            (get nat_cmp row.entry.answers.now) row.entry.requester row.entry.top self.old.ends.items seen.now)) }
        ensures signs { OnOk result (self.new.signs ≡ joined self.old.signs
            (signs_of (spec.record_shapes row.entry.view.now row.entry.records.now (get nat_cmp row.entry.acted.now)
            (get nat_cmp row.entry.answers.now) row.entry.requester row.entry.top self.old.ends.items seen.now))) }
        ensures ends { OnOk result (self.new.ends.items
            ≡ spec.record_ends row.entry.view.now row.entry.records.now (get nat_cmp row.entry.acted.now) (get nat_cmp row.entry.answers.now)
            row.entry.requester self.old.ends.items seen.now) }
    {
        match seen {
            Record::Sub {
                requester: other,
                number,
                op,
                n,
            } if *other == row.requester => {
                let request = Request {
                    requester: row.requester,
                    number: *number,
                    n: *n,
                    acted: row.acted.get(number).copied(),
                    answer: row.answers.get(number).copied(),
                };
                self.put_request(row, &Asked { op, request })
            }
            _ => Ok(()),
        }
    }

    /// Adds the bars of a requester, and gives the ends of the sub-rows that they take to `ends`.
    pub fn put_bars(&mut self, row: Row<'_>) -> Result<(), AllocError>
        requires { row.top ≤ 900000 }
        ensures shapes { OnOk result (self.new.out.items ≡ self.old.out.items
            ++ shapes_text (spec.bars row.entry.view.now row.entry.records.now (get nat_cmp row.entry.acted.now) (get nat_cmp row.entry.answers.now)
            row.entry.requester row.entry.top self.old.ends.items row.entry.records.now)) }
        ensures signs { OnOk result (self.new.signs ≡ joined self.old.signs
            (signs_of (spec.bars row.entry.view.now row.entry.records.now (get nat_cmp row.entry.acted.now) (get nat_cmp row.entry.answers.now)
            row.entry.requester row.entry.top self.old.ends.items row.entry.records.now))) }
        ensures ends { OnOk result (self.new.ends.items
            ≡ spec.ends_of row.entry.view.now row.entry.records.now (get nat_cmp row.entry.acted.now) (get nat_cmp row.entry.answers.now)
            row.entry.requester self.old.ends.items row.entry.records.now) }
    {
        for seen in row.records {
            self.put_record(row, seen)?;
        }
        Ok(())
    }
}
