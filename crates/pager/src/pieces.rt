//! Lists in pieces: an item that is put among many moves those of one piece.

ghost use Rattle.std.specs.Prelude.{◌≡◌, ◌<◌, ◌≤◌, ◌+◌, ◌++◌, length, reverse, set, slice_index_or, vec_capacity, IfOk, OnErr, OnOk};
ghost use Rattle.std.specs.List.{insert, remove};
ghost use Rattle.pager.specs.Pieces.{IsRoom, IsSpot, all_items};

use std::alloc::{AllocError, Global};
use std::marker::Model;
use std::mem;

/// How many items a piece gets: one more cuts it in two. Only one that all items were put into has more.
const MOST_ITEMS: usize = 1024;

/// A list in pieces: contracts see its items.
#[derive(Drop)]
pub struct Pieces<T> {
    pub(crate) pieces: Vec<Vec<T>>,
    len: usize,
}

impl<T> Model for Pieces<T> {
    ghost use Rattle.std.specs.Prelude.{◌≡◌, ◌<◌, ◌^◌, length, nat_le};
    ghost use Rattle.pager.specs.Pieces.{InPieces, all_items};

    ghost Value = { InPieces T };

    ghost view = { λ a. record { items = all_items a.pieces.items; is_whole = nat_le (length a.pieces.items) 1 } };

    ghost invariant = { λ a. (a.len ≡ length (all_items a.pieces.items)) × (a.len < 2 ^ 63) };
}

/// Where an item is: in which piece, and at which place of it.
#[derive(Clone, Copy)]
pub struct Spot {
    pub piece: usize,
    pub at: usize,
}

/// Where the item at a place of all pieces is.
pub fn spot_of<T>(pieces: &[Vec<T>], place: usize) -> Spot
    requires { place < length (all_items pieces.now) }
    ensures { IsSpot pieces.now place result.piece result.at }
{
    let mut piece = 0;
    let mut at = place;
    'pieces: while at >= pieces[piece].len() {
        at -= pieces[piece].len();
        piece += 1;
    }
    Spot { piece, at }
}

/// Where an item goes that is put at a place of all pieces, which have so many items.
fn room_of<T>(pieces: &[Vec<T>], len: usize, place: usize) -> Spot
    requires some { 0 < length pieces.now }
    requires all { len ≡ length (all_items pieces.now) }
    requires within { place ≤ len }
    ensures { IsRoom pieces.now place result.piece result.at }
{
    if place < len {
        return spot_of(pieces, place);
    }
    let piece = pieces.len() - 1;
    Spot {
        piece,
        at: pieces[piece].len(),
    }
}

/// Moves the last item of a list to the end of another, which has room for it.
fn move_last<T: Drop>(from: &mut Vec<T>, to: &mut Vec<T>)
    requires some { 0 < length from.old.items }
    requires room { length to.old.items < vec_capacity to.old }
    ensures same { from.new.items ++ reverse to.new.items ≡ from.old.items ++ reverse to.old.items }
    ensures left { length from.new.items + 1 ≡ length from.old.items }
    ensures more { length to.new.items ≡ length to.old.items + 1 }
    ensures capacity { vec_capacity to.old ≤ vec_capacity to.new }
{
    if let Some(item) = from.pop() {
        let _ = to.push(item);
    }
}

/// Takes the items from a place on out of a piece. A refusal leaves them.
fn cut<T: Drop>(alloc: Global, piece: &mut Vec<T>, at: usize) -> Result<Vec<T>, AllocError>
    requires { at ≤ length piece.old.items }
    ensures cut { IfOk result (λ rest. piece.old.items ≡ piece.new.items ++ rest.items) }
    ensures refused { OnErr result (piece.new.items ≡ piece.old.items) }
{
    let mut rest = Vec::with_capacity(alloc, piece.len() - at)?;
    'items: while piece.len() > at {
        move_last(piece, &mut rest);
    }
    rest.reverse();
    Ok(rest)
}

/// Cuts a piece in two if it is full. If out of memory, nothing changes.
fn cut_full<T: Drop>(
    alloc: Global,
    pieces: &mut Vec<Vec<T>>,
    piece: usize,
) -> Result<(), AllocError>
    requires { piece < length pieces.old.items }
    ensures same { all_items pieces.new.items ≡ all_items pieces.old.items }
    ensures some { 0 < length pieces.new.items }
{
    let len = pieces[piece].len();
    if len < MOST_ITEMS {
        return Ok(());
    }
    pieces.reserve(1)?;
    let rest = cut(alloc, &mut pieces[piece], len / 2)?;
    let _ = pieces.insert(piece + 1, rest);
    Ok(())
}

/// Makes a piece of nothing where there is none. If out of memory, nothing changes.
fn have_piece<T: Drop>(alloc: Global, pieces: &mut Vec<Vec<T>>) -> Result<(), AllocError>
    ensures same { all_items pieces.new.items ≡ all_items pieces.old.items }
    ensures some { OnOk result (0 < length pieces.new.items) }
{
    if !pieces.is_empty() {
        return Ok(());
    }
    pieces.push(Vec::new(alloc))?;
    Ok(())
}

/// Puts an item at a place of all pieces, which have so many items. If out of memory, none changes.
fn put<T: Drop>(
    alloc: Global,
    pieces: &mut Vec<Vec<T>>,
    len: usize,
    place: usize,
    item: T,
) -> Result<(), AllocError>
    requires all { len ≡ length (all_items pieces.old.items) }
    requires within { place ≤ len }
    ensures put { OnOk result (all_items pieces.new.items ≡ insert (all_items pieces.old.items) place item) }
    ensures refused { OnErr result (all_items pieces.new.items ≡ all_items pieces.old.items) }
{
    have_piece(alloc, pieces)?;
    let full = room_of(pieces, len, place).piece;
    cut_full(alloc, pieces, full)?;
    let room = room_of(pieces, len, place);
    pieces[room.piece].insert(room.at, item)?;
    Ok(())
}

/// Takes the item at a place of all pieces out, and the piece where it has no other.
fn take<T: Drop>(pieces: &mut Vec<Vec<T>>, place: usize) -> T
    requires { place < length (all_items pieces.old.items) }
    ensures taken { result ≡ slice_index_or (all_items pieces.old.items) place result }
    ensures left { all_items pieces.new.items ≡ remove (all_items pieces.old.items) place }
{
    let spot = spot_of(pieces, place);
    let item = pieces[spot.piece].remove(spot.at);
    if pieces[spot.piece].is_empty() {
        let _ = pieces.remove(spot.piece);
    }
    item
}

/// Moves the items of all pieces, so many, into a new one. A refusal leaves them.
fn gather<T: Drop>(
    alloc: Global,
    pieces: &mut Vec<Vec<T>>,
    len: usize,
) -> Result<Vec<T>, AllocError>
    requires { len ≡ length (all_items pieces.old.items) }
    ensures gathered { IfOk result (λ all. all.items ≡ all_items pieces.old.items) }
    ensures count { length pieces.new.items ≡ length pieces.old.items }
    ensures refused { OnErr result (pieces.new.items ≡ pieces.old.items) }
{
    let mut all = Vec::with_capacity(alloc, len)?;
    let mut piece = 0;
    'pieces: while piece < pieces.len() {
        let _ = all.append(&mut pieces[piece]);
        piece += 1;
    }
    Ok(all)
}

/// Puts an item in the place of another of a piece, and returns that.
fn exchange<T>(piece: &mut Vec<T>, at: usize, item: T) -> T
    requires { at < length piece.old.items }
    ensures items { piece.new.items ≡ set piece.old.items at item }
    ensures was { result ≡ slice_index_or piece.old.items at result }
{
    mem::replace(&mut piece[at], item)
}

impl<T> Pieces<T> {
    ghost use Rattle.std.specs.Prelude.{◌≡◌, ◌<◌, ◌^◌, length, slice_index_or, IsTrue};

    /// The number of items.
    pub fn len(&self) -> usize
        ensures count { result ≡ length self.now.items }
        ensures small { result < 2 ^ 63 }
    {
        self.len
    }

    /// The item at a place.
    pub fn at(&self, place: usize) -> &T
        requires { place < length self.now.items }
        ensures { result.now ≡ slice_index_or self.now.items place result.now }
    {
        let spot = spot_of(&self.pieces, place);
        &self.pieces[spot.piece][spot.at]
    }

    /// The items of a list in one piece as a slice.
    pub fn as_slice(&self) -> &[T]
        requires { IsTrue self.now.is_whole }
        ensures { result.now ≡ self.now.items }
    {
        match self.pieces.first() {
            Some(piece) => piece,
            None => &[],
        }
    }
}

impl<T: Drop> Pieces<T> {
    ghost use Rattle.std.specs.Prelude.{◌≡◌, ◌<◌, ◌≤◌, length, set, slice_index_or, IfOk, IsTrue, OnErr, OnOk};
    ghost use Rattle.std.specs.List.{insert, remove};

    /// The list of a vector's items, in one piece.
    pub fn from_vec(alloc: Global, items: Vec<T>) -> Result<Pieces<T>, AllocError>
        ensures { IfOk result (λ list. list.items ≡ items.items) }
    {
        let len = items.len();
        let mut pieces = Vec::new(alloc);
        pieces.push(items)?;
        Ok(Pieces { pieces, len })
    }

    /// Puts an item in the place of another, and returns that.
    pub fn replace(&mut self, place: usize, item: T) -> T
        requires { place < length self.old.items }
        ensures items { self.new.items ≡ set self.old.items place item }
        ensures was { result ≡ slice_index_or self.old.items place result }
    {
        let spot = spot_of(&self.pieces, place);
        exchange(&mut self.pieces[spot.piece], spot.at, item)
    }

    /// Puts an item at a place, before the one that stands there. If out of memory, nothing changes.
    pub fn insert(&mut self, alloc: Global, place: usize, item: T) -> Result<(), AllocError>
        requires { place ≤ length self.old.items }
        ensures items { OnOk result (self.new.items ≡ insert self.old.items place item) }
        ensures refused { OnErr result (self.new.items ≡ self.old.items) }
    {
        if self.len >= usize::MAX / 2 {
            return Err(AllocError);
        }
        put(alloc, &mut self.pieces, self.len, place, item)?;
        self.len += 1;
        Ok(())
    }

    /// Takes the item at a place out.
    pub fn remove(&mut self, place: usize) -> T
        requires { place < length self.old.items }
        ensures items { self.new.items ≡ remove self.old.items place }
        ensures was { result ≡ slice_index_or self.old.items place result }
    {
        let item = take(&mut self.pieces, place);
        self.len -= 1;
        item
    }

    /// Puts all items into one piece. If out of memory, nothing changes.
    pub fn join(&mut self, alloc: Global) -> Result<(), AllocError>
        ensures same { self.new.items ≡ self.old.items }
        ensures whole { OnOk result (IsTrue self.new.is_whole) }
    {
        if self.pieces.len() <= 1 {
            return Ok(());
        }
        let all = gather(alloc, &mut self.pieces, self.len)?;
        self.pieces.truncate(1);
        self.pieces[0] = all;
        Ok(())
    }
}
