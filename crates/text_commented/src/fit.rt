//! Comments put among the pieces of a tree.
ghost use Rattle.std.specs.Prelude.{◌≡◌, Some, false, length, map, replicate, slice_get, IsTrue, IfOk, OnOk};
ghost use Rattle.text_commented.specs.Commented.{PutsAmong};
ghost use Rattle.text_commented.specs.Places.{places, places_at};
ghost use Rattle.text_commented.specs.Steps.{PutsAt, PutsBehind, PutsFrom, merged, placed_view};
ghost use Rattle.text_pieces.specs.Tokens.{frame_view, piece_view};

use crate::frames::{Places, key_of};
use crate::lines::{line_behind, may_end_line};
use crate::remark::{At, Placed, Remark, stands_at};
use std::alloc::{AllocError, Global};
use text_comments::{ends_line, is_one_comment};
use text_lexer::Comments;
use text_pieces::{Frame, Piece};

/// What comments are put among.
#[derive(Clone, Copy)]
pub(crate) struct Given<'g, 'r> {
    pub(crate) comments: Comments,
    pub(crate) remarks: &'g [Remark<'r>],
    /// The remarks by where they stand, and among those of one place by their order.
    pub(crate) order: &'g [(u64, usize)],
}

/// Behind which pieces comments are put.
#[derive(Clone, Copy)]
struct Spot {
    /// How many these are.
    before: usize,
    /// A line may end there.
    line: bool,
    /// It is in the parentheses that are written round the next parameter.
    inside: bool,
}

/// The comments that have been put, and which these are.
#[derive(Drop)]
pub(crate) struct Put {
    pub(crate) placed: Vec<Placed>,
    pub(crate) used: Vec<bool>,
    pub(crate) places: Places,
}

/// The numbers of comments, by where they stand.
pub(crate) fn order_of(
    alloc: Global,
    remarks: &[Remark<'_>],
) -> Result<Vec<(u64, usize)>, AllocError> {
    let mut order = Vec::new(alloc);
    for number in 0..remarks.len() {
        order.push((key_of(remarks[number].at), number))?;
    }
    order.sort()?;
    Ok(order)
}

// Whether a comment has not been put yet.
fn is_open(used: &[bool], number: usize) -> bool
    ensures { IsTrue result → slice_get used.now number ≡ Some false }
{
    match used.get(number) {
        Some(used) => !*used,
        None => false,
    }
}

// Whether a text is a comment, and one that no line ends in where none may.
fn may_stand(given: Given<'_, '_>, line: bool, number: usize) -> bool {
    match given.remarks.get(number) {
        Some(remark) => {
            (line || !ends_line(remark.text)) && is_one_comment(given.comments, remark.text)
        }
        None => false,
    }
}

impl Put {
    // Puts a comment at a place, if it stands there, may, and has not been put; others there go on from the number that is answered.
    #[tactic(auto, using(crate::proofs::Puts::none_from, crate::proofs::Puts::one_from, std::proofs::lemmas::Grind::common_steps))]
    fn put(
        &mut self,
        given: Given<'_, '_>,
        spot: Spot,
        place: At,
        from: usize,
        number: usize,
    ) -> Result<usize, AllocError>
        ensures { IfOk result (λ to. PutsFrom given.entry.remarks.now place spot.before from self.old.used.items (map placed_view self.old.placed.items) self.new.used.items (map placed_view self.new.placed.items) to) }
    {
        let len = self.used.len();
        if number < from || len <= number {
            return Ok(from);
        }
        if !is_open(self.used.as_slice(), number) {
            return Ok(from);
        }
        if !stands_at(given.remarks, number, place) {
            return Ok(from);
        }
        if !may_stand(given, spot.line, number) {
            return Ok(from);
        }
        self.placed.push(Placed {
            before: spot.before,
            number,
            inside: spot.inside,
        })?;
        self.used[number] = true;
        Ok(number + 1)
    }

    // Puts all comments that stand at a place.
    #[tactic(auto, using(crate::proofs::Puts::none_from))]
    fn put_at(&mut self, given: Given<'_, '_>, spot: Spot, place: At) -> Result<(), AllocError>
        ensures { OnOk result (PutsAt given.entry.remarks.now place spot.before self.old.used.items (map placed_view self.old.placed.items) self.new.used.items (map placed_view self.new.placed.items)) }
    {
        let key = key_of(place);
        let mut from = 0;
        let first = self.places.count_before(key);
        'order: for i in first..given.order.len() {
            let (there, number) = given.order[i];
            if there != key {
                return Ok(());
            }
            let next = self.put(given, spot, place, from, number)?;
            from = next;
        }
        Ok(())
    }

    // The same where a node stops, if none behind it stops there too.
    #[tactic(auto, using(crate::proofs::Puts::none_there))]
    fn put_last(&mut self, given: Given<'_, '_>, spot: Spot, place: At) -> Result<(), AllocError>
        ensures { OnOk result (PutsAt given.entry.remarks.now place spot.before self.old.used.items (map placed_view self.old.placed.items) self.new.used.items (map placed_view self.new.placed.items)) }
    {
        if self.places.pass_last(place) {
            self.put_at(given, spot, place)
        } else {
            Ok(())
        }
    }

    #[tactic(auto, using(crate::proofs::Puts::none_there))]
    fn put_begun(&mut self, given: Given<'_, '_>, spot: Spot, here: usize) -> Result<(), AllocError>
        ensures { OnOk result (PutsAt given.entry.remarks.now (At.Leads here) spot.before self.old.used.items (map placed_view self.old.placed.items) self.new.used.items (map placed_view self.new.placed.items)) }
    {
        if here > u32::MAX as usize {
            return Ok(());
        }
        self.put_at(given, spot, At::Leads(here as u32))
    }

    #[tactic(auto, using(crate::proofs::Puts::none_there))]
    fn put_stopped(
        &mut self,
        given: Given<'_, '_>,
        spot: Spot,
        here: usize,
    ) -> Result<(), AllocError>
        ensures { OnOk result (PutsAt given.entry.remarks.now (At.Trails here) spot.before self.old.used.items (map placed_view self.old.placed.items) self.new.used.items (map placed_view self.new.placed.items)) }
    {
        if here > u32::MAX as usize {
            return Ok(());
        }
        self.put_last(given, spot, At::Trails(here as u32))
    }

    // Puts all comments that stand at a frame.
    fn put_at_frame(
        &mut self,
        given: Given<'_, '_>,
        spot: Spot,
        frame: Frame<'_>,
    ) -> Result<(), AllocError>
        ensures { OnOk result (PutsBehind given.entry.remarks.now (places_at (frame_view frame.entry)) spot.before self.old.used.items (map placed_view self.old.placed.items) self.new.used.items (map placed_view self.new.placed.items)) }
    {
        match frame {
            Frame::Begins(here) => {
                self.put_begun(given, spot, here)?;
                Ok(())
            }
            Frame::Stops(here) => {
                self.put_stopped(given, spot, here)?;
                Ok(())
            }
            Frame::Named(_, span) => {
                let inside = Spot {
                    before: spot.before,
                    line: true,
                    inside: true,
                };
                self.put_at(given, spot, At::Leads(span.lo))?;
                self.put_last(given, inside, At::Trails(span.hi))?;
                Ok(())
            }
        }
    }

    // Puts all comments that stand right behind a piece.
    #[tactic(auto, using(crate::proofs::Puts::none_behind))]
    fn put_behind(
        &mut self,
        given: Given<'_, '_>,
        spot: Spot,
        piece: Piece<'_>,
    ) -> Result<(), AllocError>
        ensures { OnOk result (PutsBehind given.entry.remarks.now (places (piece_view piece.entry)) spot.before self.old.used.items (map placed_view self.old.placed.items) self.new.used.items (map placed_view self.new.placed.items)) }
    {
        match piece {
            Piece::Frame(frame) => self.put_at_frame(given, spot, frame),
            _ => Ok(()),
        }
    }
}

/// Comments put among pieces.
pub(crate) fn put_among(
    alloc: Global,
    given: Given<'_, '_>,
    places: Places,
    pieces: &[Piece<'_>],
) -> Result<Put, AllocError>
    ensures { IfOk result (λ put. PutsAmong given.entry.remarks.now (replicate (length given.entry.remarks.now) false) (map piece_view pieces.now) (merged 0 (map piece_view pieces.now) (map placed_view put.placed.items)) put.used.items) }
{
    let mut put = Put {
        placed: Vec::new(alloc),
        used: Vec::new(alloc),
        places,
    };
    put.used.resize(given.remarks.len(), false)?;
    let mut line = may_end_line(pieces);
    'pieces: for i in 0..pieces.len() {
        line = line_behind(line, pieces[i], &pieces[i + 1..]);
        let spot = Spot {
            before: i + 1,
            line,
            inside: false,
        };
        put.put_behind(given, spot, pieces[i])?;
    }
    Ok(put)
}
