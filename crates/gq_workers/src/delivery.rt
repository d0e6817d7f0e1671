//! What comes to the desk, and the rule of the channel by which it comes: the inbox.

use crate::order::OrderOf;
use crate::sent::Sent;
use atomic_table::{Join, Split};
use crossbeam_channel::protocol::{Lesson, Outcome, Protocol};
use gq_board::Room;
use gq_events::Event;
use std::collections::LinkedList;

/// What comes to the desk.
#[derive(Drop)]
pub enum Delivery<J: Room> {
    /// What was read.
    Read(Event),
    /// What a worker made.
    Sent(Sent<J>),
}

/// What a pass may do, and what it did: one posts, and one collects. No value of it is made.
pub struct Post {
    pub posts: bool,
    pub collects: bool,
    pub posted: LinkedList<Event>,
    pub collected: LinkedList<Event>,
    pub handed: LinkedList<OrderOf>,
}

/// The rule of the inbox: what was posted is collected in order, each once.
pub struct InOrder;

impl<J: Room> Protocol<Delivery<J>, Post> for InOrder {
    ghost use Rattle.std.specs.Prelude.{true, []};
    ghost use Rattle.gq_workers.specs.Inbox.{Delivers, post};

    ghost holds = { Delivers };

    ghost first = { post true true [] [] [] };
}

pub(crate) struct Sends;

impl<J: Room> Outcome<Delivery<J>, Post> for Sends {
    ghost use Rattle.std.specs.Prelude.{◌≡◌};
    ghost use Rattle.gq_workers.specs.Inbox.{after_send};

    ghost then = { λ v x w. w ≡ after_send v x };
}

impl<J: Room> Lesson<Delivery<J>, Post> for Sends {
    ghost fact = { λ v items. Unit {0} };
}

pub(crate) struct Collects;

impl<J: Room> Outcome<Delivery<J>, Post> for Collects {
    ghost use Rattle.std.specs.Prelude.{◌≡◌};
    ghost use Rattle.gq_workers.specs.Inbox.{after_collect};

    ghost then = { λ v x w. w ≡ after_collect v x };
}

impl<J: Room> Lesson<Delivery<J>, Post> for Collects {
    ghost fact = { λ v items. Unit {0} };
}

pub(crate) struct Worker;

impl Split<Post> for Worker {
    ghost use Rattle.gq_workers.specs.Inbox.{nobody};

    ghost left = { λ v. v };

    ghost right = { λ v. nobody };
}

pub(crate) struct Reader;

impl Split<Post> for Reader {
    ghost use Rattle.gq_workers.specs.Inbox.{collecting, posting};

    ghost left = { λ v. collecting v.collected };

    ghost right = { λ v. posting v.posted };
}

impl Join<Post> for Reader {
    ghost use Rattle.std.specs.Prelude.{true, []};
    ghost use Rattle.gq_workers.specs.Inbox.{post, nobody};

    ghost both = { λ v w. post true true w.posted v.collected [] };

    ghost spent = { nobody };
}

pub(crate) struct Left;

impl<J: Room> Lesson<Delivery<J>, Post> for Left {
    ghost use mathlib.Core.List.{IsPrefix};

    ghost fact = { λ v items. IsPrefix v.collected v.posted };
}
