// The book: what is kept of each stop that a station posted. Billing reads it.
ghost use Rattle.std.specs.Prelude.{◌≡◌};
ghost use Rattle.request.specs.Records.{blank_record, record_of, record_written};

use octets::{Octets, TooLong};

// One record: the stream of the POST, how many octets its body had, and the body with zeros behind it. These fields are
// the book's format, which billing reads, so the body has its length beside it.
#[derive(Clone, Copy, Debug, PartialEq, Eq)]
pub struct Record {
    pub stream: u32,
    pub length: u16,
    pub body: [u8; 256],
}

impl Record {
    // A record in which nothing was written yet.
    pub fn blank() -> Record
        ensures { result ≡ blank_record }
    {
        Record {
            stream: 0,
            length: 0,
            body: [0; 256],
        }
    }

    // The record of a POST on a stream.
    fn of(stream: u32, posted: Octets<256>) -> Record
        ensures { result ≡ record_of stream posted }
    {
        Record {
            stream,
            length: posted.len() as u16,
            body: posted.into(),
        }
    }
}

// Why a record is not written.
#[derive(Clone, Copy, Debug, PartialEq, Eq)]
pub enum Unrecorded {
    // The book has no such record, or one that stays unused.
    NoSpace,
    // The body is longer than a record's.
    TooLong,
}

impl From<TooLong> for Unrecorded {
    ghost use Rattle.request.specs.declared.record.Unrecorded.TheVariants.{TooLong};

    ghost from_gives = { λ _ why. why ≡ TooLong };

    fn from(_why: TooLong) -> Unrecorded {
        Unrecorded::TooLong
    }
}

// Writes a record into the book, or says why not and leaves the book as it was; space is asked first.
pub fn write_record(
    book: &mut [Record],
    recorded: u16,
    stream: u32,
    body: &[u8],
) -> Result<(), Unrecorded>
    ensures { (result, book.new) ≡ record_written book.old recorded stream body.now }
{
    let index = usize::from(recorded);
    if index >= book.len().min(65535) {
        return Err(Unrecorded::NoSpace);
    }
    let mut posted = Octets::new();
    posted.try_extend(body)?;
    book[index] = Record::of(stream, posted);
    Ok(())
}
