//! What an operation is answered (GraphQL, October 2021, section 7.1).

use gq_table::Leaf;
use gq_text::SmallText;

/// The data of a response, or of one place of it.
#[derive(Drop)]
#[cycle(data)]
pub enum Data {
    Null,
    Leaf(Leaf),
    List(Vec<Data>),
    Object(Vec<Member>),
}

/// What an object has under a response key.
#[derive(Drop)]
#[cycle(data)]
pub struct Member {
    pub key: SmallText,
    pub value: Data,
}

/// A step of a path: a response key, or a place in a list from 0.
#[derive(Drop)]
pub enum Step {
    Key(SmallText),
    Index(usize),
}

/// What an operation is answered: data with the paths of its field errors, or that the request is in error.
#[derive(Drop)]
pub enum Response {
    RequestError,
    Answered { data: Data, errors: Vec<Vec<Step>> },
}
