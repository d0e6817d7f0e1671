//! The ends of the inbox.
ghost use Rattle.std.specs.Prelude.{◌≡◌, [], true};
ghost use Rattle.crossbeam_channel.specs.Claims.{view, IsSeatAt};
ghost use Rattle.crossbeam_channel.specs.Ends.{sends_on, receives_on};

use crate::delivery::{Delivery, InOrder, Post};
use crossbeam_channel::{Pass, RuledReceiver, RuledSender};
use gq_board::Room;
use std::marker::Model;

/// The reader's end, which posts. While there is one, `DeskEnd::collect` waits for more: so drop it, or post what ends the desk's work.
#[derive(Drop)]
pub struct ReaderEnd<J: Room> {
    pub(crate) sender: RuledSender<Delivery<J>, Post, InOrder>,
    pub(crate) pass: Pass<Delivery<J>, Post>,
    ghost seat: { IsSeatAt (sends_on sender) pass },
    ghost posts: { (view pass).posts ≡ true },
}

/// The desk's end, which collects. Where it is dropped, nothing is taken any more.
#[derive(Drop)]
pub struct DeskEnd<J: Room> {
    pub(crate) receiver: RuledReceiver<Delivery<J>, Post, InOrder>,
    pub(crate) pass: Pass<Delivery<J>, Post>,
    ghost seat: { IsSeatAt (receives_on receiver) pass },
    ghost collects: { (view pass).collects ≡ true },
}

/// What the desk has collected, once it collects no more. It exists in the proofs alone.
#[derive(Drop)]
pub struct Collected<J: Room> {
    pub(crate) pass: Pass<Delivery<J>, Post>,
    ghost free: { pass.me.1 ≡ [] },
    ghost collects: { (view pass).collects ≡ true },
}

/// A worker's end. Contracts see the orders of which it has handed on what was made.
pub struct Outbox<J: Room> {
    pub(crate) sender: RuledSender<Delivery<J>, Post, InOrder>,
    pub(crate) pass: Pass<Delivery<J>, Post>,
}

impl<J: Room> Drop for Outbox<J> {
    fn drop(self) {
        let Outbox {
            sender: _sender,
            pass: _pass,
        } = self;
    }
}

impl<J: Room> Model for Outbox<J> {
    ghost use Rattle.std.specs.Prelude.{List};
    ghost use Rattle.crossbeam_channel.specs.Claims.{view as view_of, IsSeatAt};
    ghost use Rattle.crossbeam_channel.specs.Ends.{sends_on};
    ghost use Rattle.gq_workers.specs.declared.order.OrderOf.{OrderOf};

    ghost Value = { List OrderOf };

    ghost view = { λ o. (view_of o.pass).handed };

    ghost invariant = { λ o. IsSeatAt (sends_on o.sender) o.pass };
}
