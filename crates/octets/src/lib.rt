// Rows of octets in fixed memory.
#![tactic(auto)]

ghost use Rattle.std.specs.Prelude.{◌≡◌, ◌+◌, ◌≤◌, ◌↔◌, ◌==◌, [], ◌++◌, length, take, IsOk, OnOk, OnErr};
ghost use Rattle.octets.specs.Rows.{padded};

use std::marker::Model;

// A row of at most `N` octets; clauses see it as the list of them. Behind them the memory holds zeros, so that two rows of
// the same octets are the same, and a row is copied as plain memory, as the kit's `ArrayVec` is not.
#[derive(Clone, Copy, Debug, PartialEq, Eq)]
pub struct Octets<const N: usize> {
    memory: [u8; N],
    used: usize,
}

impl<const N: usize> Model for Octets<N> {
    ghost use Rattle.std.specs.Prelude.{ℕ, List, length, take};
    ghost use Rattle.octets.specs.Rows.{IsRow, padded, padded_front, length-front};

    ghost Value = { List ℕ };

    ghost view = { λ o. take o.used o.memory };

    ghost invariant = { λ o. IsRow N o.used o.memory };

    ghost inverse = { λ xs. record { memory = padded N xs; used = length xs } };

    ghost inverse_ok = { λ o row i. record {
      memory = padded_front N o.used o.memory row i;
      used = length-front N o.used o.memory row i;
    } };
}

// Why a row doesn't take more: it would be longer than it may be.
#[derive(Clone, Copy, Debug, PartialEq, Eq)]
pub struct TooLong;

impl<const N: usize> Octets<N> {
    // A row without an octet.
    pub fn new() -> Self
        ensures { result ≡ [] }
    {
        Octets {
            memory: [0; N],
            used: 0,
        }
    }

    pub fn len(&self) -> usize
        ensures value { result ≡ length self.now }
        ensures bound { length self.now ≤ N }
    {
        self.as_slice().len()
    }

    pub fn is_empty(&self) -> bool
        ensures { result ≡ (length self.now == 0) }
    {
        self.used == 0
    }

    // How many octets more the row takes.
    pub fn room(&self) -> usize
        ensures { length self.now + result ≡ N }
    {
        N - self.used
    }

    pub fn as_slice(&self) -> &[u8]
        ensures value { result.now ≡ self.now }
        ensures bound { length self.now ≤ N }
    {
        let (front, _) = self.memory.split_at(self.used);
        front
    }

    // The octets of a text behind those of the row.
    fn extend(&mut self, text: &[u8])
        requires { length self.old + length text.now ≤ N }
        ensures { self.new ≡ self.old ++ text.now }
    {
        let start = self.used;
        let end = start + text.len();
        let memory = &mut self.memory[..];
        memory[start..end].copy_from_slice(text);
        self.used = end;
    }

    // The same where there is room for all of the text; else the row stays as it was.
    pub fn try_extend(&mut self, text: &[u8]) -> Result<(), TooLong>
        ensures made { IsOk result ↔ (length self.old + length text.now ≤ N) }
        ensures after { OnOk result (self.new ≡ self.old ++ text.now) }
        ensures same { OnErr result (self.new ≡ self.old) }
    {
        if text.len() > self.room() {
            return Err(TooLong);
        }
        self.extend(text);
        Ok(())
    }

    // No octet is left, and zeros stand where they were.
    pub fn clear(&mut self)
        ensures { self.new ≡ [] }
    {
        let end = self.used;
        let memory = &mut self.memory[..];
        memory[0..end].fill(0);
        self.used = 0;
    }

    // The front of a text: as many of its octets as a row takes.
    pub fn front_of(text: &[u8]) -> Self
        ensures { result ≡ take N text.now }
    {
        let (front, _) = text.split_at(text.len().min(N));
        let mut row = Octets::new();
        row.extend(front);
        row
    }
}

// The octets with the zeros behind them.
impl<const N: usize> From<Octets<N>> for [u8; N] {
    ghost from_gives = { λ row octets. octets ≡ padded N row };

    fn from(row: Octets<N>) -> [u8; N] {
        row.memory
    }
}

#[cfg(test)]
mod tests {
    use crate::{Octets, TooLong};

    #[test]
    fn a_row_takes_what_it_has_room_for_and_refuses_the_rest_whole(rt: HostRuntime) {
        let mut row: Octets<5> = Octets::new();
        assert!(rt; row.is_empty());
        assert_eq!(rt; row.try_extend(b"abc"), Ok(()));
        assert_eq!(rt; row.try_extend(b"def"), Err(TooLong));
        assert_eq!(rt; row.as_slice(), b"abc".as_slice());
        assert_eq!(rt; row.room(), 2);
        assert_eq!(rt; row.try_extend(b"de"), Ok(()));
        assert_eq!(rt; row.len(), 5);
        assert_eq!(rt; row, Octets::front_of(b"abcdefg"));
    }

    #[test]
    fn zeros_stand_behind_the_octets_of_a_row(rt: HostRuntime) {
        let mut row: Octets<4> = Octets::front_of(b"abcd");
        row.clear();
        assert!(rt; row == Octets::new());
        assert_eq!(rt; row.try_extend(b"x"), Ok(()));
        assert_eq!(rt; <[u8; 4]>::from(row), [120, 0, 0, 0]);
    }
}
