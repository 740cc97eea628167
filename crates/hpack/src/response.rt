// The field block of a response, written to the front of a buffer.
ghost use Rattle.std.specs.Prelude.{◌≡◌, ◌+◌, ◌<◌, ◌≤◌, ◌++◌, length, IfSome, if◌then◌else◌, Some, None, codes, OnSome, nat_lt};
ghost use Rattle.std.proofs.Math.Seq.{paste};
ghost use Rattle.arrayvec.specs.ArrayVec.{array_vec_len};
ghost use Rattle.hpack.specs.Responses.{is_field, index_of, status_octets, length_octets, content_octets, shrink_octets, response_octets, ReadsBack};
ghost use Rattle.tables.specs.StaticTable.{static_entry};

use crate::status::Status;
use arrayvec::ArrayVec;
use tables::static_table;

// No response block is longer: a new size, an index, and a length of ten digits.
const LONGEST: usize = 15;

// A response block while it is put together.
type Block = ArrayVec<u8, LONGEST>;

// Whether the static entry at an index is a field.
fn is_entry(index: usize, name: &[u8], value: &[u8]) -> bool
    ensures { result ≡ is_field (static_entry index) (name.now, value.now) }
{
    static_table::entry(index).is_some_and(|entry| entry == (name, value))
}

// The index of a status in the static table, which has its statuses at 8 to 14.
fn status_index(digits: &[u8]) -> Option<usize>
    ensures value { result ≡ index_of (codes ":status", digits.now) }
    ensures bound { IfSome result (λ i. i < 15) }
{
    (8..15).find(|index| is_entry(*index, b":status", digits))
}

// Puts octets behind a block that has room for them. (This and what follows ask for the room that each needs: the block
// is theirs for a moment, and `response_block` shares its 15 octets out.)
fn put(block: &mut Block, octets: &[u8])
    requires { array_vec_len block.old + length octets.now ≤ 15 }
    ensures { block.new.items ≡ block.old.items ++ octets.now }
{
    block.try_extend_from_slice(octets).unwrap();
}

// Puts the new size 0, where a smaller table was asked for.
fn put_shrink(block: &mut Block, shrink: bool)
    requires { array_vec_len block.old + 1 ≤ 15 }
    ensures { block.new.items ≡ block.old.items ++ shrink_octets shrink }
{
    if shrink {
        put(block, b"\x20");
    }
}

// Puts the status: its index where the static table has it, and else its digits as a plain string.
#[tactic(auto, using(crate::proofs::Statuses::three_digits_long))]
fn put_status(block: &mut Block, status: Status)
    requires { array_vec_len block.old + 5 ≤ 15 }
    ensures { block.new.items ≡ block.old.items ++ status_octets status }
{
    let mut buffer = itoa::Buffer::new();
    let digits = buffer.format(u16::from(status)).as_bytes();
    match status_index(digits) {
        Some(index) => put(block, &[128 + index as u8]),
        None => {
            put(block, &[8, 3]);
            put(block, digits);
        }
    }
}

// Puts the length of the content, as a plain string of its digits.
fn put_length(block: &mut Block, count: u32)
    requires { array_vec_len block.old + 13 ≤ 15 }
    ensures { block.new.items ≡ block.old.items ++ length_octets count }
{
    let mut buffer = itoa::Buffer::new();
    let digits = buffer.format(count).as_bytes();
    put(block, &[15, 13, digits.len() as u8]);
    put(block, digits);
}

// The block of a response. Only 200 says the length of its content.
fn response_block(shrink: bool, status: Status, count: u32) -> Block
    ensures value { result.items ≡ response_octets shrink status count }
    ensures reads { ReadsBack }
{
    let mut block = ArrayVec::new();
    put_shrink(&mut block, shrink);
    put_status(&mut block, status);
    if let Status::Ok = status {
        put_length(&mut block, count);
    }
    block
}

// Writes a response block to the front of a buffer and answers how long it is; a buffer that is too short for the
// longest is refused and stays. The count, of the content's octets, is said on 200 only.
pub fn write_response(buffer: &mut [u8], shrink: bool, status: Status, count: u32) -> Option<usize>
    ensures value { result ≡ (if nat_lt (length buffer.old) 15 then None else Some (length (response_octets shrink status count))) }
    ensures after { buffer.new ≡ (if nat_lt (length buffer.old) 15 then buffer.old else paste buffer.old 0 (response_octets shrink status count) (length (response_octets shrink status count))) }
    ensures reads { OnSome result (ReadsBack) }
{
    if buffer.len() < LONGEST {
        return None;
    }
    let block = response_block(shrink, status, count);
    buffer[..block.len()].copy_from_slice(block.as_slice());
    Some(block.len())
}
