//! Texts in pieces, in which ranges are replaced one after the other. Nothing is copied before all are.
ghost use Rattle.std.specs.Prelude.{◌≡◌, ◌+◌, ◌≤◌, ◌++◌, [], IfOk, OnOk, drop, false, length, string_bytes, true};
ghost use Rattle.std.specs.Str.{IsCharBoundary, IsUtf8};
ghost use Rattle.justfile_lines.specs.Going.{IsUpTo, first_place, is_past, longest, place_after};
ghost use Rattle.justfile_lines.specs.Positions.{IsOffset};
ghost use Rattle.text_edits.specs.Pieces.{ArePieces, AreSized, HasSize, Leads, prop_pieces, text_after, text_before, text_of};
ghost use Rattle.text_edits.specs.Replaced.{IsReplaced};

use crate::edit::Range;
use justfile_lines::{Encoding, Place, Position};
use std::alloc::{AllocError, Global};

/// The greatest length of a piece, in bytes, when a text is cut: to find a place in a piece one goes along
/// it.
const PIECE: usize = 2_048;

/// The length of the longest text.
const LONGEST: usize = 9_223_372_036_854_775_807;

/// A part of a text.
#[derive(Clone, Copy)]
struct Piece<'a> {
    /// What it is.
    text: &'a str,
    /// The place where it begins.
    start: Place,
}

/// A part of a text that comes next.
#[derive(Clone, Copy)]
struct Next<'a> {
    /// What it is.
    text: &'a str,
    /// Its size, if it is known: it is found when the piece is passed.
    size: Option<Place>,
}

/// A part of a text with its size.
#[derive(Clone, Copy)]
struct Measured<'a> {
    /// What it is.
    text: &'a str,
    /// Its size.
    size: Place,
}

/// A text in pieces, and a place between two of them. To go from there to another place takes as many steps
/// as there are pieces between the two.
#[derive(Drop)]
pub struct Pieces<'a> {
    /// How columns are counted.
    encoding: Encoding,
    /// The pieces before the place.
    before: Vec<Piece<'a>>,
    /// The pieces after it, the next one last.
    after: Vec<Next<'a>>,
    /// The place.
    here: Place,
    /// How many bytes the text has.
    len: usize,
    ghost are_pieces: { ArePieces encoding before.items after.items here len } by { prop_pieces here-code encoding before.items after.items here len },
}

impl<'a> Pieces<'a> {
    /// Cuts a text into pieces.
    ///
    /// # Errors
    ///
    /// Memory ran out.
    pub fn new(alloc: Global, encoding: Encoding, text: &'a str) -> Result<Self, AllocError>
        ensures text { IfOk result (λ made. text_of made.before.items made.after.items ≡ text.now) }
        ensures encoding { IfOk result (λ made. made.encoding ≡ encoding) }
    {
        let len = sum(0, text.len())?;
        let mut after = Vec::new(alloc);
        push_parts(&mut after, text)?;
        Ok(Pieces {
            encoding,
            before: Vec::new(alloc),
            after,
            here: Place::start(),
            len,
        })
    }

    /// Returns the text in which another one takes the place of a range.
    ///
    /// # Errors
    ///
    /// Memory ran out.
    pub fn replaced(self, range: Range, new: &'a str) -> Result<Self, AllocError>
        ensures text { IfOk result (λ made. IsReplaced self.entry.encoding
            (text_of self.entry.before.items self.entry.after.items) range new.now
            (text_of made.before.items made.after.items)) }
        ensures encoding { IfOk result (λ made. made.encoding ≡ self.entry.encoding) }
    {
        let Pieces {
            encoding,
            mut before,
            mut after,
            here,
            len,
        } = self;
        let end = seek(&mut before, &mut after, encoding, here, range.end)?;
        let here = seek(&mut before, &mut after, encoding, end, range.start)?;
        let taken = end.offset.saturating_sub(here.offset);
        let len = sum(len - taken, new.len())?;
        skip(&mut after, taken)?;
        push_parts(&mut after, new)?;
        Ok(Pieces {
            encoding,
            before,
            after,
            here,
            len,
        })
    }

    /// Returns the text as a whole.
    ///
    /// # Errors
    ///
    /// Memory ran out.
    pub fn text(self, alloc: Global) -> Result<String, AllocError>
        ensures { IfOk result
            (λ made. string_bytes made
            ≡ text_of self.entry.before.items self.entry.after.items) }
    {
        let mut made = String::with_capacity(alloc, self.len)?;
        for piece in &self.before {
            made.push_str(piece.text)?;
        }
        let mut after = self.after;
        'rest: while let Some(piece) = after.pop() {
            made.push_str(piece.text)?;
        }
        Ok(made)
    }
}

/// Returns the sum of two lengths, or an error if no text is so long.
fn sum(first: usize, second: usize) -> Result<usize, AllocError>
    ensures is { IfOk result (λ sum. sum ≡ first + second) }
    ensures short { IfOk result (λ sum. sum ≤ longest) }
{
    match first.checked_add(second) {
        Some(sum) if sum <= LONGEST => Ok(sum),
        _ => Err(AllocError),
    }
}

/// Cuts a text into pieces, and puts them before those that come next.
fn push_parts<'a>(after: &mut Vec<Next<'a>>, text: &'a str) -> Result<(), AllocError>
    ensures text { OnOk result
        (text_after after.new.items ≡ text.now ++ text_after after.old.items) }
    ensures sized { OnOk result ((encoding : Encoding)
        → AreSized encoding after.old.items → AreSized encoding after.new.items) }
{
    let mut rest = text;
    while rest.len() > PIECE {
        let cut = rest.floor_char_boundary(rest.len() - PIECE);
        let (front, back) = rest.split_at(cut);
        push_next(after, back)?;
        rest = front;
    }
    push_next(after, rest)?;
    Ok(())
}

/// Puts a piece before those that come next.
fn push_next<'a>(after: &mut Vec<Next<'a>>, text: &'a str) -> Result<(), AllocError>
    ensures text { OnOk result
        (text_after after.new.items ≡ text.now ++ text_after after.old.items) }
    ensures sized { OnOk result ((encoding : Encoding)
        → AreSized encoding after.old.items → AreSized encoding after.new.items) }
{
    after.push(Next { text, size: None })?;
    Ok(())
}

/// Returns the size of a piece.
fn size_of(encoding: Encoding, piece: Next<'_>) -> Place
    requires short { length piece.text.now ≤ longest }
    requires sized { HasSize encoding piece }
    ensures { result ≡ place_after encoding first_place piece.entry.text.now }
{
    match piece.size {
        Some(size) => size,
        None => Place::size_of(encoding, piece.text),
    }
}

/// Goes to the offset of a position.
fn seek<'a>(
    before: &mut Vec<Piece<'a>>,
    after: &mut Vec<Next<'a>>,
    encoding: Encoding,
    here: Place,
    position: Position,
) -> Result<Place, AllocError>
    requires leads { Leads encoding first_place before.old.items here }
    requires sized { AreSized encoding after.old.items }
    requires utf8 { IsUtf8 (text_of before.old.items after.old.items) }
    requires short { length (text_of before.old.items after.old.items) ≤ longest }
    ensures same { OnOk result (text_of before.new.items after.new.items
        ≡ text_of before.old.items after.old.items) }
    ensures leads { IfOk result (Leads encoding first_place before.new.items) }
    ensures sized { OnOk result (AreSized encoding after.new.items) }
    ensures offset { IfOk result (λ there. IsOffset encoding
        (text_of before.old.items after.old.items) position there.offset) }
    ensures count { IfOk result (λ there. there.offset ≡ length (text_before before.new.items)) }
{
    let there = go_back(before, after, encoding, here, position)?;
    go_on(before, after, encoding, there, position)
}

/// Goes back until the place isn't past a position.
fn go_back<'a>(
    before: &mut Vec<Piece<'a>>,
    after: &mut Vec<Next<'a>>,
    encoding: Encoding,
    here: Place,
    position: Position,
) -> Result<Place, AllocError>
    requires leads { Leads encoding first_place before.old.items here }
    requires sized { AreSized encoding after.old.items }
    ensures same { OnOk result (text_of before.new.items after.new.items
        ≡ text_of before.old.items after.old.items) }
    ensures leads { IfOk result (Leads encoding first_place before.new.items) }
    ensures sized { OnOk result (AreSized encoding after.new.items) }
    ensures up_to { IfOk result (λ there. is_past position there ≡ false) }
{
    let mut here = here;
    'pieces: while here.is_past(position) {
        let Some(piece) = before.pop() else {
            return Ok(Place::start());
        };
        after.push(Next {
            text: piece.text,
            size: Some(here.size_from(piece.start)),
        })?;
        here = piece.start;
    }
    Ok(here)
}

/// Goes on from a place that isn't past a position up to the last one that isn't.
fn go_on<'a>(
    before: &mut Vec<Piece<'a>>,
    after: &mut Vec<Next<'a>>,
    encoding: Encoding,
    here: Place,
    position: Position,
) -> Result<Place, AllocError>
    requires leads { Leads encoding first_place before.old.items here }
    requires sized { AreSized encoding after.old.items }
    requires up_to { is_past position here ≡ false }
    requires short { length (text_of before.old.items after.old.items) ≤ longest }
    ensures same { OnOk result (text_of before.new.items after.new.items
        ≡ text_of before.old.items after.old.items) }
    ensures leads { IfOk result (Leads encoding first_place before.new.items) }
    ensures sized { OnOk result (AreSized encoding after.new.items) }
    ensures reaches { OnOk result (IsUpTo encoding first_place
        (text_of before.old.items after.old.items) position (length (text_before before.new.items))) }
{
    let mut here = here;
    'pieces: while let Some(piece) = after.pop() {
        let size = size_of(encoding, piece);
        let beyond = here.after_size(size);
        if beyond.is_past(position) {
            let text = piece.text;
            let piece = Measured { text, size };
            return go_into(before, after, encoding, here, position, piece);
        }
        push_passed(before, piece.text, here)?;
        here = beyond;
    }
    Ok(here)
}

/// Goes on up to the last place that isn't past a position, in a piece after which the place is past it.
fn go_into<'a>(
    before: &mut Vec<Piece<'a>>,
    after: &mut Vec<Next<'a>>,
    encoding: Encoding,
    here: Place,
    position: Position,
    piece: Measured<'a>,
) -> Result<Place, AllocError>
    requires leads { Leads encoding first_place before.old.items here }
    requires sized { AreSized encoding after.old.items }
    requires size { piece.size ≡ place_after encoding first_place piece.text.now }
    requires up_to { is_past position here ≡ false }
    requires past { is_past position (place_after encoding here piece.text.now) ≡ true }
    requires short { here.offset + length piece.text.now ≤ longest }
    ensures same { OnOk result (text_of before.new.items after.new.items
        ≡ text_before before.old.items
        ++ (piece.entry.text.now ++ text_after after.old.items)) }
    ensures leads { IfOk result (Leads encoding first_place before.new.items) }
    ensures sized { OnOk result (AreSized encoding after.new.items) }
    ensures reaches { OnOk result (IsUpTo encoding first_place
        (text_before before.old.items ++ (piece.entry.text.now ++ text_after after.old.items))
        position (length (text_before before.new.items))) }
{
    let there = here.up_to(encoding, piece.text, position);
    let (passed, rest) = piece.text.split_at(there.offset - here.offset);
    let size = here.after_size(piece.size).size_from(there);
    push_passed(before, passed, here)?;
    after.push(Next {
        text: rest,
        size: Some(size),
    })?;
    Ok(there)
}

/// Appends a piece that begins at a place, if it has something.
fn push_passed<'a>(
    before: &mut Vec<Piece<'a>>,
    text: &'a str,
    start: Place,
) -> Result<(), AllocError>
    ensures text { OnOk result (text_before before.new.items
        ≡ text_before before.old.items ++ text.now) }
    ensures leads { OnOk result ((encoding : Encoding)
        → Leads encoding first_place before.old.items start
        → Leads encoding first_place before.new.items (place_after encoding start text.now)) }
{
    if !text.is_empty() {
        before.push(Piece { text, start })?;
    }
    Ok(())
}

/// Takes out so many bytes of what comes next.
fn skip<'a>(after: &mut Vec<Next<'a>>, count: usize) -> Result<(), AllocError>
    requires { IsCharBoundary (text_after after.old.items) count }
    ensures text { OnOk result
        (text_after after.new.items ≡ drop count (text_after after.old.items)) }
    ensures sized { OnOk result ((encoding : Encoding)
        → AreSized encoding after.old.items → AreSized encoding after.new.items) }
{
    let mut left = count;
    'pieces: while left > 0 {
        let Some(piece) = after.pop() else {
            return Ok(());
        };
        if left < piece.text.len() {
            let (_, rest) = piece.text.split_at(left);
            push_next(after, rest)?;
            return Ok(());
        }
        left -= piece.text.len();
    }
    Ok(())
}
