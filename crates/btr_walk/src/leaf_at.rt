// The leaf in hand.
ghost use Rattle.std.specs.Prelude.{◌≡◌, ◌<◌, IfSome, None};
ghost use Rattle.std.specs.Option.{option_map};
ghost use Rattle.btr_rack.specs.Rack.{Seen};
ghost use Rattle.btr_read.specs.Serves.{Serves};
ghost use Rattle.btr_read.specs.Store.{SameLoans};
ghost use Rattle.btr_walk.specs.Hand.{behind_next, frame_of, loan_of, IsInHand};
ghost use Rattle.btr_walk.specs.Lending.{base};

use crate::block_pointer::BlockPointer;
use crate::frame::Frame;
use btr_read::{Loan, Store};

/// A leaf in hand, of which some items are still to come: those from `next` up to before `end`.
pub struct LeafAt {
    /// Where the leaf stands.
    pub pointer: BlockPointer,
    /// The place of the first item that is to come.
    pub next: usize,
    /// The place behind the last one.
    pub end: usize,
    /// The loan of the leaf.
    pub loan: Loan,
}

/// The leaf behind its next item.
pub fn behind_next(leaf: LeafAt) -> LeafAt
    requires { leaf.next < leaf.end }
    ensures { result ≡ behind_next leaf }
{
    let LeafAt {
        pointer,
        next,
        end,
        loan,
    } = leaf;
    let next = next + 1;
    LeafAt {
        pointer,
        next,
        end,
        loan,
    }
}

/// Puts a leaf into an empty place.
pub fn put_leaf(place: &mut Option<LeafAt>, leaf: Option<LeafAt>)
    requires { place.old ≡ None }
    ensures { place.new ≡ leaf }
{
    match leaf {
        None => {}
        Some(leaf) => match place.replace(leaf) {
            None => {}
            Some(_) => unreachable!(),
        },
    }
}

/// Gives the loan of a leaf back, if there is one, and answers where its items go on.
pub fn give_leaf(leaf: Option<LeafAt>, store: &mut Store) -> Option<Frame>
    requires { IfSome leaf (IsInHand store.old) }
    ensures frame { result ≡ option_map frame_of leaf }
    ensures back { SameLoans (base store.old (loan_of leaf)) store.new }
    ensures serves { (rack : Seen) → Serves rack store.old → Serves rack store.new }
{
    match leaf {
        None => None,
        Some(hand) => {
            let LeafAt {
                pointer,
                next,
                end,
                loan,
            } = hand;
            store.give(loan);
            Some(Frame { pointer, next, end })
        }
    }
}
