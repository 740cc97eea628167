// Replies that wait to be sent, in the order in which they were queued.
ghost use Rattle.std.specs.Prelude.{◌≡◌, ◌<◌, ◌≤◌, [], ◌∷◌, ◌++◌, length, nat_le};

use frames::code::ErrorCode;
use std::marker::Model;

// The default only fills the places of a queue that no reply has.
#[derive(Clone, Copy, Default)]
pub enum Reply {
    #[default]
    SettingsAck,
    PingAck([u8; 8]),
    RstStream(u32, ErrorCode),
}

// At most 32 replies wait; clauses see their list, the first to be sent first. A queue is copied as plain memory with the
// state that it is part of, as the kit's `ArrayVec` is not: so the places that no reply has hold the default.
#[derive(Clone, Copy)]
pub struct Queue {
    replies: [Reply; 32],
    count: usize,
}

impl Model for Queue {
    ghost use Rattle.std.specs.Prelude.{List, length, take};
    ghost use Rattle.state.specs.declared.queue.Reply.{Reply};
    ghost use Rattle.state.specs.Queues.{IsQueue, spread, spread_front, length-front};

    ghost Value = { List Reply };

    ghost view = { λ q. take q.count q.replies };

    ghost invariant = { λ q. IsQueue q.count q.replies };

    ghost inverse = { λ waiting. record { replies = spread waiting; count = length waiting } };

    ghost inverse_ok = { λ q is i. record {
      replies = spread_front q.count q.replies is i;
      count = length-front q.count q.replies is i;
    } };
}

impl Queue {
    // No reply waits.
    pub fn new() -> Queue
        ensures { result ≡ [] }
    {
        Queue {
            replies: [Reply::SettingsAck; 32],
            count: 0,
        }
    }

    // The replies that wait.
    pub fn as_slice(&self) -> &[Reply]
        ensures value { result.now ≡ self.now }
        ensures bound { length self.now ≤ 32 }
    {
        let (waiting, _) = self.replies.split_at(self.count);
        waiting
    }

    // Whether 32 wait.
    pub fn is_full(&self) -> bool
        ensures value { result ≡ nat_le 32 (length self.now) }
        ensures bound { length self.now ≤ 32 }
    {
        self.count >= 32
    }

    // One more reply, behind the others.
    pub fn push(&mut self, reply: Reply)
        requires { length self.old < 32 }
        ensures { self.new ≡ self.old ++ reply ∷ [] }
    {
        self.replies[self.count] = reply;
        self.count += 1;
    }

    // Drops all.
    pub fn clear(&mut self)
        ensures { self.new ≡ [] }
    {
        *self = Queue::new();
    }
}
