// A small client of a store and a transport, over any of either: it sends what is saved, and keeps what it takes. It shows what a program learns from the promises of `Store` and `Transport` alone, and is proved once for all of them.
#![tactic(auto)]

ghost use Rattle.std.specs.Prelude.{◌≡◌, [], length, if◌then◌else◌, Ok, Err, nat_le, slice_index_or};
ghost use Rattle.storage.specs.declared.refusals.Refusal.TheVariants.{Number};
ghost use Rattle.transport.specs.Parcels.{measured, parcel, Kept, Posted};
ghost use Rattle.transport.specs.Refusals.{post_answer, taken};
ghost use Rattle.courier.specs.Keeping.{kept_for};

use storage::{LAST_NUMBER, MAX_BYTES, Store};
use transport::{MOST_BYTES, Transport};

// Posts what is saved for a number to an addressee, as it stands in the store. Where nothing is saved there is no message, and the transport refuses it.
pub fn send<S: Store, T: Transport>(
    store: &mut S,
    mail: &mut T,
    number: usize,
    to: usize,
    reading: u64,
) -> Result<(), transport::Refusal>
    ensures answer { result ≡ post_answer (T.is_open mail.old to reading) (T.longest mail.old)
        (length (slice_index_or (S.saved store.old) number [])) }
    ensures lost { Posted (T.held mail.old)
        (taken result (parcel to (slice_index_or (S.saved store.old) number []))) (T.held mail.new) }
    ensures kept { S.saved store.new ≡ S.saved store.old }
{
    let mut buffer = [0; MAX_BYTES];
    let len = store.load(number, &mut buffer).unwrap_or(0);
    mail.post(to, reading, &buffer[..len])
}

// Takes the message that is next for a number and saves it, as that number's bytes. The answer is its length, none where there is no message. A number that no store has is refused before anything is taken.
#[tactic(auto, using(transport::proofs::Posts::kept_all))]
pub fn keep<S: Store, T: Transport>(
    store: &mut S,
    mail: &mut T,
    number: usize,
    reading: u64,
) -> Result<Option<usize>, storage::Refusal>
    ensures answer { result ≡ (if nat_le number 6 then Ok (measured (T.next mail.old number reading)) else Err Number) }
    ensures after { S.saved store.new ≡ kept_for number (T.next mail.old number reading) (S.saved store.old) }
    ensures lost { Kept (T.held mail.old) (T.held mail.new) }
{
    if number > LAST_NUMBER {
        return Err(storage::Refusal::Number);
    }
    let mut place = [0; MOST_BYTES];
    let taken = mail.take(number, reading, &mut place);
    if let Some(len) = taken {
        store.save(number, &place[..len])?;
    }
    Ok(taken)
}
