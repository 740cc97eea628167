// What is left to do once a frame's own rules have acted.
use state::queue::Reply;

#[derive(Clone, Copy)]
pub enum Next {
    Done,
    Replies(Reply),
    // The request at this place has ended.
    Ends(usize),
}
