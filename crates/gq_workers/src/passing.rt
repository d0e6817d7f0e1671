//! The inbox: the channel by which what was read and what workers made reach the desk.
ghost use Rattle.std.specs.Prelude.{◌≡◌, [], ◌∷◌, ◌++◌, IfOk, MatchResult, MatchOption};
ghost use mathlib.Core.List.{IsPrefix};
ghost use Rattle.gq_workers.specs.Orders.{order_of};
ghost use Rattle.gq_workers.specs.Inbox.{read_in};
ghost use Rattle.gq_workers.specs.Ends.{posted, collected, collected_in, reader_on, desk_on, collected_on};

use crate::delivery::{Collects, Delivery, InOrder, Left, Post, Reader, Sends, Worker};
use crate::ends::{Collected, DeskEnd, Outbox, ReaderEnd};
use crate::sent::Sent;
use crossbeam_channel::bounded_with;
use gq_board::Room;
use gq_events::Event;
use gq_text::NoMemory;
use std::alloc::Global;
use std::sync::Wait;

/// So much the inbox holds, at most.
const INBOX_MAX: usize = 64;

/// The ends of a new inbox, which holds up to 64 deliveries.
pub fn inbox<J: Room>(alloc: Global) -> Result<(ReaderEnd<J>, DeskEnd<J>), NoMemory>
    ensures posted { IfOk result (λ ends. posted ends.0 ≡ []) }
    ensures collected { IfOk result (λ ends. collected ends.1 ≡ []) }
    ensures on { IfOk result (λ ends. reader_on ends.0 ≡ desk_on ends.1) }
{
    let made = bounded_with::<Delivery<J>, Post, InOrder, Global>(alloc, INBOX_MAX);
    let Ok((sender, receiver, mut desk)) = made else {
        return Err(NoMemory);
    };
    let reader = sender.another::<Reader>(&mut desk);
    let posts = ReaderEnd {
        sender,
        pass: reader,
    };
    let collects = DeskEnd {
        receiver,
        pass: desk,
    };
    Ok((posts, collects))
}

impl<J: Room> ReaderEnd<J> {
    /// An end for one more worker.
    pub fn outbox(&mut self) -> Result<Outbox<J>, NoMemory>
        ensures posted { posted self.new ≡ posted self.old }
        ensures on { reader_on self.new ≡ reader_on self.old }
        ensures none { IfOk result (λ o. o ≡ []) }
    {
        let Ok(sender) = self.sender.try_clone() else {
            return Err(NoMemory);
        };
        let pass = self.sender.another::<Worker>(&mut self.pass);
        Ok(Outbox { sender, pass })
    }

    /// Posts what was read. It comes back where the desk takes no more. It waits while the inbox is full.
    pub fn post<R: Wait>(&mut self, rt: &R, event: Event) -> Result<(), Event>
        ensures on { reader_on self.new ≡ reader_on self.old }
        ensures posted { MatchResult result (λ _. posted self.new ≡ posted self.old ++ event ∷ []) (λ e. (e ≡ event) × (posted self.new ≡ posted self.old)) }
    {
        match self
            .sender
            .send_as::<Sends, R>(rt, &mut self.pass, Delivery::Read(event))
        {
            Ok(()) => Ok(()),
            Err(e) => match e.into_inner() {
                Delivery::Read(event) => Err(event),
                Delivery::Sent(_) => unreachable!(),
            },
        }
    }
}

impl<J: Room> DeskEnd<J> {
    /// Takes what comes next. It waits while there is nothing, and gives none where nothing will come any more.
    pub fn collect<R: Wait>(&mut self, rt: &R) -> Option<Delivery<J>>
        ensures on { desk_on self.new ≡ desk_on self.old }
        ensures collected { MatchOption result (collected self.new ≡ collected self.old) (λ d. collected self.new ≡ collected self.old ++ read_in d) }
    {
        self.receiver
            .recv_as::<Collects, R>(rt, &mut self.pass)
            .ok()
    }

    /// Collects no more: from now on nothing is taken.
    pub fn close(self) -> Collected<J>
        ensures on { collected_on result ≡ desk_on self }
        ensures collected { collected_in result ≡ collected self }
    {
        let DeskEnd { receiver: _, pass } = self;
        Collected { pass }
    }
}

impl<J: Room> Outbox<J> {
    /// Hands on what was made of an order. It comes back where the desk takes no more. It waits while the inbox is full.
    pub fn hand<R: Wait>(&mut self, rt: &R, sent: Sent<J>) -> Result<(), Sent<J>>
        ensures { MatchResult result (λ _. self.new ≡ self.old ++ order_of sent.order ∷ []) (λ s. (s ≡ sent) × (self.new ≡ self.old)) }
    {
        match self
            .sender
            .send_as::<Sends, R>(rt, &mut self.pass, Delivery::Sent(sent))
        {
            Ok(()) => Ok(()),
            Err(e) => match e.into_inner() {
                Delivery::Sent(sent) => Err(sent),
                Delivery::Read(_) => unreachable!(),
            },
        }
    }
}

/// What the desk has collected is a beginning of what the reader has posted.
pub fn compare<J: Room>(reader: ReaderEnd<J>, desk: Collected<J>)
    requires on { collected_on desk ≡ reader_on reader }
    ensures { IsPrefix (collected_in desk) (posted reader) }
{
    let ReaderEnd { sender, pass } = reader;
    let Collected { pass: mut both } = desk;
    sender.absorb::<Reader>(&mut both, pass);
    sender.learn_as::<Left>(&mut both);
}
